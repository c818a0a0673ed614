ghost use Rattle.std.specs.Prelude.{◌≡◌, ◌≤◌, IfOk};
ghost use Rattle.dpe_io.specs.Causes.{CountsOne};
ghost use Rattle.dpe_io.specs.Memory.{CountsBack};
ghost use Rattle.dpe_io.specs.Told.{IsOpening, Returns};
ghost use Rattle.dpe_unix.specs.Counts.{untold, no_counts};

use crate::door::UnixDoor;
use crate::openings::{Openings, open_source};
use crate::urandom::Urandom;
use dpe_io::{Failed, House, ReadSource, WriteSink};
use std::fs::{File, Files, OpenOptions};
use std::io;
use std::marker::Model;
use std::net::Net;
use std::os::unix::fs::OpenOptionsExt;
use std::os::unix::net::UnixListener;
use std::time::Duration;

/// The file that gives random bytes.
const RANDOM_FILE: &str = "/dev/urandom";

/// The journal's permissions: its owner reads and writes it, and nobody else.
const JOURNAL_MODE: u32 = 0o600;

/// A house over files and Unix sockets, whose doors give their connections its limit.
#[derive(Drop)]
pub struct UnixHouse<R: Files<File = File> + Net + Drop> {
    rt: R,
    limit: Option<Duration>,
    seeds: Openings,
    journals: Openings,
    entropies: Openings,
    doors: Openings,
}

impl<R: Files<File = File> + Net + Drop> Model for UnixHouse<R> {
    ghost use Rattle.dpe_unix.specs.Counts.{OfHouse};

    ghost Value = { OfHouse };

    ghost view = { λ h. record {
      seeds = h.seeds;
      journals = h.journals;
      entropies = h.entropies;
      doors = h.doors;
      limit = h.limit;
    } };
}

impl<R: Files<File = File> + Net + Drop> UnixHouse<R> {
    /// A house of which nothing was opened yet.
    pub fn new(rt: R, limit: Option<Duration>) -> UnixHouse<R>
        ensures { result ≡ record {
          seeds = no_counts;
          journals = no_counts;
          entropies = no_counts;
          doors = no_counts;
          limit = limit;
        } }
    {
        UnixHouse {
            rt,
            limit,
            seeds: Openings::new(),
            journals: Openings::new(),
            entropies: Openings::new(),
            doors: Openings::new(),
        }
    }
}

// A sink over a file that is made at this path for its owner alone. It fails where a file stands there.
fn create_journal<R: Files<File = File>>(rt: &R, path: &str) -> io::Result<WriteSink<File>>
    ensures { IfOk result (λ journal. journal.faults ≡ 0) }
{
    let mut options = OpenOptions::new();
    options.write(true).create_new(true).mode(JOURNAL_MODE);
    Ok(WriteSink::new(options.open(rt, path)?))
}

// An entropy over the system's random bytes.
fn open_entropy<R: Files<File = File>>(rt: &R) -> io::Result<Urandom>
    ensures { IfOk result (λ entropy. entropy ≡ 0) }
{
    Ok(Urandom::new(File::open(rt, RANDOM_FILE)?))
}

// A door whose socket is made at this path. It fails where a file stands there.
fn bind_door<R: Files<File = File> + Net>(
    rt: &R,
    path: &str,
    limit: Option<Duration>,
) -> io::Result<UnixDoor>
    ensures { IfOk result (λ door. (door.faults ≡ 0) × (door.limit ≡ limit)) }
{
    Ok(UnixDoor::new(UnixListener::bind(rt, path)?, limit))
}

impl<R: Files<File = File> + Net + Drop> House for UnixHouse<R> {
    type Seed = ReadSource<File>;

    type Door = UnixDoor;

    type Journal = WriteSink<File>;

    type Entropy = Urandom;

    ghost seeds = { λ h. untold h.seeds };

    ghost journals = { λ h. untold h.journals };

    ghost entropies = { λ h. untold h.entropies };

    ghost doors = { λ h. untold h.doors };

    /// Opens the file at this path.
    fn seed(&mut self, path: &str) -> Result<ReadSource<File>, Failed>
        ensures opens { IsOpening (untold self.old.seeds) (untold self.new.seeds) result }
        ensures faultless { IfOk result (λ seed. seed.faults ≡ 0) }
        ensures journals { self.new.journals ≡ self.old.journals }
        ensures entropies { self.new.entropies ≡ self.old.entropies }
        ensures doors { self.new.doors ≡ self.old.doors }
        ensures counts { CountsOne self.old.seeds.failed self.new.seeds.failed result }
        ensures limit { self.new.limit ≡ self.old.limit }
    {
        self.seeds.count(open_source(&self.rt, path))
    }

    /// Makes a file at this path, which its owner alone may read and write. It fails where a file stands there.
    fn journal(&mut self, path: &str) -> Result<WriteSink<File>, Failed>
        ensures opens { IsOpening (untold self.old.journals) (untold self.new.journals) result }
        ensures faultless { IfOk result (λ journal. journal.faults ≡ 0) }
        ensures seeds { self.new.seeds ≡ self.old.seeds }
        ensures entropies { self.new.entropies ≡ self.old.entropies }
        ensures doors { self.new.doors ≡ self.old.doors }
        ensures counts { CountsOne self.old.journals.failed self.new.journals.failed result }
        ensures limit { self.new.limit ≡ self.old.limit }
    {
        self.journals.count(create_journal(&self.rt, path))
    }

    /// Opens the system's random bytes.
    fn entropy(&mut self) -> Result<Urandom, Failed>
        ensures opens { IsOpening (untold self.old.entropies) (untold self.new.entropies) result }
        ensures faultless { IfOk result (λ entropy. entropy ≡ 0) }
        ensures seeds { self.new.seeds ≡ self.old.seeds }
        ensures journals { self.new.journals ≡ self.old.journals }
        ensures doors { self.new.doors ≡ self.old.doors }
        ensures counts { CountsOne self.old.entropies.failed self.new.entropies.failed result }
        ensures limit { self.new.limit ≡ self.old.limit }
    {
        self.entropies.count(open_entropy(&self.rt))
    }

    /// Makes a socket at this path and listens there. It fails where a file stands there; the socket's file stays when the
    /// door is handed back.
    fn door(&mut self, path: &str) -> Result<UnixDoor, Failed>
        ensures opens { IsOpening (untold self.old.doors) (untold self.new.doors) result }
        ensures faultless { IfOk result (λ door. door.faults ≡ 0) }
        ensures waits { IfOk result (λ door. door.limit ≡ self.old.limit) }
        ensures seeds { self.new.seeds ≡ self.old.seeds }
        ensures journals { self.new.journals ≡ self.old.journals }
        ensures entropies { self.new.entropies ≡ self.old.entropies }
        ensures counts { CountsOne self.old.doors.failed self.new.doors.failed result }
        ensures limit { self.new.limit ≡ self.old.limit }
    {
        self.doors.count(bind_door(&self.rt, path, self.limit))
    }

    /// Closes the seed.
    fn take_seed(&mut self, seed: ReadSource<File>)
        requires { 1 ≤ self.old.seeds.out }
        ensures back { Returns (untold self.old.seeds) seed.faults seed (untold self.new.seeds) }
        ensures journals { self.new.journals ≡ self.old.journals }
        ensures entropies { self.new.entropies ≡ self.old.entropies }
        ensures doors { self.new.doors ≡ self.old.doors }
        ensures counts { CountsBack seed.faults self.old.seeds.faults self.new.seeds.faults }
        ensures limit { self.new.limit ≡ self.old.limit }
    {
        self.seeds.take_back(seed)
    }

    /// Closes an entropy.
    fn take_entropy(&mut self, _place: u32, entropy: Urandom)
        requires { 1 ≤ self.old.entropies.out }
        ensures back { Returns (untold self.old.entropies) entropy entropy (untold self.new.entropies) }
        ensures seeds { self.new.seeds ≡ self.old.seeds }
        ensures journals { self.new.journals ≡ self.old.journals }
        ensures doors { self.new.doors ≡ self.old.doors }
        ensures counts { CountsBack entropy self.old.entropies.faults self.new.entropies.faults }
        ensures limit { self.new.limit ≡ self.old.limit }
    {
        self.entropies.take_back(entropy)
    }

    /// Closes a door.
    fn take_door(&mut self, _place: u32, door: UnixDoor)
        requires { 1 ≤ self.old.doors.out }
        ensures back { Returns (untold self.old.doors) door.faults door (untold self.new.doors) }
        ensures seeds { self.new.seeds ≡ self.old.seeds }
        ensures journals { self.new.journals ≡ self.old.journals }
        ensures entropies { self.new.entropies ≡ self.old.entropies }
        ensures counts { CountsBack door.faults self.old.doors.faults self.new.doors.faults }
        ensures limit { self.new.limit ≡ self.old.limit }
    {
        self.doors.take_back(door)
    }

    /// Closes the journal.
    fn take_journal(&mut self, journal: WriteSink<File>)
        requires { 1 ≤ self.old.journals.out }
        ensures back { Returns (untold self.old.journals) journal.faults journal (untold self.new.journals) }
        ensures seeds { self.new.seeds ≡ self.old.seeds }
        ensures entropies { self.new.entropies ≡ self.old.entropies }
        ensures doors { self.new.doors ≡ self.old.doors }
        ensures counts { CountsBack journal.faults self.old.journals.faults self.new.journals.faults }
        ensures limit { self.new.limit ≡ self.old.limit }
    {
        self.journals.take_back(journal)
    }
}
