ghost use Rattle.std.specs.Prelude.{◌≡◌, ℕ, ◌≤◌, ◌↔◌, ◌⊎◌, Ok, IfOk, IsErr, IsTrue};
ghost use Rattle.dpe_io.specs.Causes.{CountsOne};
ghost use Rattle.dpe_io.specs.Memory.{CountsBack};
ghost use Rattle.dpe_io.specs.Told.{IsOpening, Returns};
ghost use Rattle.dpe_unix.specs.Counts.{untold, no_counts};

use crate::door::UnixDoor;
use crate::link::UnixLink;
use crate::urandom::Urandom;
use dpe_io::{Failed, ReadSource, WriteSink};
use std::fs::{File, Files};
use std::io::{self, Read, Write};
use std::marker::Model;

/// An object that counts its faults.
pub(crate) trait Counted {
    // the count
    ghost count: { Self → ℕ };

    /// Whether no call on it failed.
    fn is_faultless(&self) -> bool
        ensures { IsTrue result ↔ (count self.now ≡ 0) };
}

/// How many objects of one kind were opened, are out, failed to open, and came back with a fault.
#[derive(Drop)]
pub(crate) struct Openings {
    opened: u64,
    out: u64,
    failed: u64,
    faults: u64,
}

impl Model for Openings {
    ghost use Rattle.std.specs.Prelude.{◌≤◌};
    ghost use Rattle.dpe_unix.specs.Counts.{Counts};

    ghost Value = { Counts };

    ghost view = { λ o. record { opened = o.opened; out = o.out; failed = o.failed; faults = o.faults } };

    ghost invariant = { λ o. o.out ≤ o.opened };
}

impl Openings {
    /// Nothing was opened yet.
    pub(crate) fn new() -> Openings
        ensures { result ≡ no_counts }
    {
        Openings {
            opened: 0,
            out: 0,
            failed: 0,
            faults: 0,
        }
    }

    /// Counts what an opening gave. It fails where std failed, and where 2^64 - 1 objects were opened.
    pub(crate) fn count<T: Drop>(&mut self, opened: io::Result<T>) -> Result<T, Failed>
        ensures opens { IsOpening (untold self.old) (untold self.new) result }
        ensures same { IfOk result (λ object. opened ≡ Ok object) }
        ensures fails { IsErr result ↔ (IsErr opened ⊎ (self.old.opened ≡ u64.MAX)) }
        ensures counts { CountsOne self.old.failed self.new.failed result }
    {
        match opened {
            Ok(object) if self.opened < u64::MAX => {
                self.opened += 1;
                self.out += 1;
                Ok(object)
            }
            _ => {
                self.failed = self.failed.saturating_add(1);
                Err(Failed)
            }
        }
    }

    /// Takes an object back, and drops it.
    pub(crate) fn take_back<T: Counted + Drop>(&mut self, object: T)
        requires { 1 ≤ self.old.out }
        ensures back { Returns (untold self.old) (T.count object) object (untold self.new) }
        ensures counts { CountsBack (T.count object) self.old.faults self.new.faults }
    {
        if !object.is_faultless() {
            self.faults = self.faults.saturating_add(1);
        }
        self.out -= 1;
    }
}

/// A source over the file at this path, with no fault yet.
pub(crate) fn open_source<R: Files<File = File>>(rt: &R, path: &str) -> io::Result<ReadSource<File>>
    ensures { IfOk result (λ source. source.faults ≡ 0) }
{
    Ok(ReadSource::new(File::open(rt, path)?))
}

impl<R: Read> Counted for ReadSource<R> {
    ghost count = { λ s. s.faults };

    fn is_faultless(&self) -> bool {
        self.faults() == 0
    }
}

impl<W: Write> Counted for WriteSink<W> {
    ghost count = { λ s. s.faults };

    fn is_faultless(&self) -> bool {
        self.faults() == 0
    }
}

impl Counted for Urandom {
    ghost count = { λ e. e };

    fn is_faultless(&self) -> bool {
        self.faults() == 0
    }
}

impl Counted for UnixDoor {
    ghost count = { λ d. d.faults };

    fn is_faultless(&self) -> bool {
        self.faults() == 0
    }
}

impl Counted for UnixLink {
    ghost use Rattle.std.specs.Prelude.{◌+◌};

    ghost count = { λ l. l.reads + l.writes };

    fn is_faultless(&self) -> bool {
        self.read_faults() == 0 && self.write_faults() == 0
    }
}
