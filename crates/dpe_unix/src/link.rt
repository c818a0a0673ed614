ghost use Rattle.std.specs.Prelude.{◌≡◌, ◌<◌, ◌≤◌, length, None, IfOk};
ghost use Rattle.std.specs.Io.{ReadsAtMost};
ghost use Rattle.dpe_io.specs.Causes.{HasCause, CountsOne};

use crate::ahead::{LINK_AHEAD, ReadAhead};
use crate::limit::limit_waits;
use dpe_io::{Duplex, Failed, Sink, Source};
use std::io::{self, Read, Write};
use std::marker::Model;
use std::os::unix::net::UnixStream;
use std::time::Duration;

/// A two-way object over a Unix stream, which answers `Failed` at each error of std, of whatever kind, and counts it. What has
/// come in is read ahead; bytes go out in the call that writes them. No read and no write waits past the limit, where there is
/// one. Where it is dropped, the stream is closed.
#[derive(Drop)]
pub struct UnixLink {
    stream: ReadAhead<UnixStream, LINK_AHEAD>,
    limit: Option<Duration>,
    reads: u64,
    writes: u64,
}

impl Model for UnixLink {
    ghost use Rattle.dpe_unix.specs.Counts.{OfLink};

    ghost Value = { OfLink };

    ghost view = { λ l. record { reads = l.reads; writes = l.writes; limit = l.limit } };
}

impl UnixLink {
    /// A link over this stream, with no fault yet, whose reads and writes wait no longer than the limit. It fails where the
    /// system takes no limit.
    pub fn new(stream: UnixStream, limit: Option<Duration>) -> io::Result<UnixLink>
        ensures { IfOk result (λ link. link ≡ record { reads = 0; writes = 0; limit = limit }) }
    {
        limit_waits(&stream, limit)?;
        Ok(UnixLink {
            stream: ReadAhead::new(stream),
            limit,
            reads: 0,
            writes: 0,
        })
    }

    /// How long a read or a write may wait, where there is a limit.
    pub fn limit(&self) -> Option<Duration>
        ensures { result ≡ self.now.limit }
    {
        self.limit
    }

    /// How many reads failed; the count stops at 2^64 - 1.
    pub fn read_faults(&self) -> u64
        ensures { result ≡ self.now.reads }
    {
        self.reads
    }

    /// How many writes and flushes failed; the count stops at 2^64 - 1.
    pub fn write_faults(&self) -> u64
        ensures { result ≡ self.now.writes }
    {
        self.writes
    }
}

impl Source for UnixLink {
    ghost left = { λ _. None };

    ghost faults = { λ l. l.reads };

    ghost beside = { λ l. record { bytes = None; faults = l.writes } };

    fn read(&mut self, room: &mut [u8]) -> Result<usize, Failed>
        ensures bound { ReadsAtMost result room.new }
        ensures cause { HasCause self.old.reads self.new.reads result }
        ensures beside { self.new.writes ≡ self.old.writes }
        ensures limit { self.new.limit ≡ self.old.limit }
        ensures counts { CountsOne self.old.reads self.new.reads result }
    {
        match self.stream.read(room) {
            Ok(count) => Ok(count),
            Err(_) => {
                self.reads = self.reads.saturating_add(1);
                Err(Failed)
            }
        }
    }
}

impl Sink for UnixLink {
    ghost bytes = { λ _. None };

    ghost faults = { λ l. l.writes };

    ghost beside = { λ l. record { bytes = None; faults = l.reads } };

    fn write(&mut self, piece: &[u8]) -> Result<usize, Failed>
        ensures bound { IfOk result (λ count. count ≤ length piece.now) }
        ensures progress { IfOk result (λ count. 0 < length piece.now → 0 < count) }
        ensures cause { HasCause self.old.writes self.new.writes result }
        ensures beside { self.new.reads ≡ self.old.reads }
        ensures limit { self.new.limit ≡ self.old.limit }
        ensures counts { CountsOne self.old.writes self.new.writes result }
    {
        match self.stream.write(piece) {
            Ok(count) if count > 0 || piece.is_empty() => Ok(count),
            _ => {
                self.writes = self.writes.saturating_add(1);
                Err(Failed)
            }
        }
    }

    fn flush(&mut self) -> Result<(), Failed>
        ensures cause { HasCause self.old.writes self.new.writes result }
        ensures beside { self.new.reads ≡ self.old.reads }
        ensures limit { self.new.limit ≡ self.old.limit }
        ensures counts { CountsOne self.old.writes self.new.writes result }
    {
        match self.stream.flush() {
            Ok(()) => Ok(()),
            Err(_) => {
                self.writes = self.writes.saturating_add(1);
                Err(Failed)
            }
        }
    }
}

impl Duplex for UnixLink {
    ghost use Rattle.std.specs.Prelude.{refl};

    ghost told = { λ l. record { left = None; written = None; read_faults = l.reads; write_faults = l.writes } };

    ghost told_is = { λ _. refl };

    ghost beside_source = { λ _. refl };

    ghost beside_sink = { λ _. refl };
}
