ghost use Rattle.std.specs.Prelude.{◌≡◌, ◌+◌, ◌≤◌, IfOk};
ghost use Rattle.dpe_io.specs.Causes.{CountsOne};
ghost use Rattle.dpe_io.specs.Memory.{CountsBack};
ghost use Rattle.dpe_io.specs.Told.{IsOpening, Returns};
ghost use Rattle.dpe_unix.specs.Counts.{untold, no_counts, IsFaultless, WaitsFor};

use crate::link::UnixLink;
use crate::openings::{Openings, open_source};
use dpe_io::{Dock, Failed, ReadSource};
use std::fs::{File, Files};
use std::io;
use std::marker::Model;
use std::net::Net;
use std::os::unix::net::UnixStream;
use std::time::Duration;

/// A dock whose scripts are files and whose links are connections to Unix sockets. Its limit binds what a link waits, and not
/// the wait for being connected.
#[derive(Drop)]
pub struct FileDock<R: Files<File = File> + Net + Drop> {
    rt: R,
    limit: Option<Duration>,
    scripts: Openings,
    links: Openings,
}

impl<R: Files<File = File> + Net + Drop> Model for FileDock<R> {
    ghost use Rattle.dpe_unix.specs.Counts.{OfDock};

    ghost Value = { OfDock };

    ghost view = { λ d. record { scripts = d.scripts; links = d.links; limit = d.limit } };
}

impl<R: Files<File = File> + Net + Drop> FileDock<R> {
    /// A dock of which nothing was opened yet.
    pub fn new(rt: R, limit: Option<Duration>) -> FileDock<R>
        ensures { result ≡ record { scripts = no_counts; links = no_counts; limit = limit } }
    {
        FileDock {
            rt,
            limit,
            scripts: Openings::new(),
            links: Openings::new(),
        }
    }
}

// A connection to the socket at this path.
fn connect<R: Net>(rt: &R, path: &str, limit: Option<Duration>) -> io::Result<UnixLink>
    ensures { IfOk result (λ link. IsFaultless link × WaitsFor limit link) }
{
    UnixLink::new(UnixStream::connect(rt, path)?, limit)
}

impl<R: Files<File = File> + Net + Drop> Dock for FileDock<R> {
    type File = ReadSource<File>;

    type Link = UnixLink;

    ghost scripts = { λ d. untold d.scripts };

    ghost links = { λ d. untold d.links };

    /// Opens the script at this path.
    fn script(&mut self, path: &str) -> Result<ReadSource<File>, Failed>
        ensures opens { IsOpening (untold self.old.scripts) (untold self.new.scripts) result }
        ensures faultless { IfOk result (λ script. script.faults ≡ 0) }
        ensures links { self.new.links ≡ self.old.links }
        ensures limit { self.new.limit ≡ self.old.limit }
        ensures counts { CountsOne self.old.scripts.failed self.new.scripts.failed result }
    {
        self.scripts.count(open_source(&self.rt, path))
    }

    /// Connects to the socket at this path.
    fn link(&mut self, path: &str) -> Result<UnixLink, Failed>
        ensures opens { IsOpening (untold self.old.links) (untold self.new.links) result }
        ensures faultless { IfOk result IsFaultless }
        ensures waits { IfOk result (WaitsFor self.old.limit) }
        ensures scripts { self.new.scripts ≡ self.old.scripts }
        ensures limit { self.new.limit ≡ self.old.limit }
        ensures counts { CountsOne self.old.links.failed self.new.links.failed result }
    {
        self.links.count(connect(&self.rt, path, self.limit))
    }

    /// Closes the script.
    fn take_script(&mut self, script: ReadSource<File>)
        requires { 1 ≤ self.old.scripts.out }
        ensures back { Returns (untold self.old.scripts) script.faults script (untold self.new.scripts) }
        ensures links { self.new.links ≡ self.old.links }
        ensures limit { self.new.limit ≡ self.old.limit }
        ensures counts { CountsBack script.faults self.old.scripts.faults self.new.scripts.faults }
    {
        self.scripts.take_back(script)
    }

    /// Closes a link.
    fn take_link(&mut self, _place: u32, link: UnixLink)
        requires { 1 ≤ self.old.links.out }
        ensures back { Returns (untold self.old.links) (link.reads + link.writes) link (untold self.new.links) }
        ensures scripts { self.new.scripts ≡ self.old.scripts }
        ensures limit { self.new.limit ≡ self.old.limit }
        ensures counts { CountsBack (link.reads + link.writes) self.old.links.faults self.new.links.faults }
    {
        self.links.take_back(link)
    }
}
