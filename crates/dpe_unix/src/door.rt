ghost use Rattle.std.specs.Prelude.{◌≡◌, ◌+◌, ◌≤◌, None, IfOk, IfSome, IsSome};
ghost use Rattle.dpe_io.specs.Causes.{HasCause, CountsOne};
ghost use Rattle.dpe_io.specs.Told.{CountsOut};
ghost use Rattle.dpe_unix.specs.Counts.{IsFaultless, WaitsFor};

use crate::link::UnixLink;
use dpe_io::{Door, Failed};
use std::io;
use std::marker::Model;
use std::os::unix::net::UnixListener;
use std::time::Duration;

/// A door over a Unix listener, which waits for each connection and answers `Failed` at each error of std, of whatever kind,
/// and counts it. Its limit binds what its connections wait, and not the wait for the next one.
#[derive(Drop)]
pub struct UnixDoor {
    listener: UnixListener,
    limit: Option<Duration>,
    faults: u64,
    out: u64,
}

impl Model for UnixDoor {
    ghost use Rattle.dpe_unix.specs.Counts.{OfDoor};

    ghost Value = { OfDoor };

    ghost view = { λ d. record { faults = d.faults; out = d.out; limit = d.limit } };
}

impl UnixDoor {
    /// A door over this listener, with no fault yet and no connection out.
    pub fn new(listener: UnixListener, limit: Option<Duration>) -> UnixDoor
        ensures { result ≡ record { faults = 0; out = 0; limit = limit } }
    {
        UnixDoor {
            listener,
            limit,
            faults: 0,
            out: 0,
        }
    }

    /// How many calls of `next` failed; the count stops at 2^64 - 1.
    pub fn faults(&self) -> u64
        ensures { result ≡ self.now.faults }
    {
        self.faults
    }

    // Waits for a connection, and limits what it waits.
    fn accept(&self) -> io::Result<UnixLink>
        ensures { IfOk result (λ link. IsFaultless link × WaitsFor self.now.limit link) }
    {
        let (stream, _) = self.listener.accept()?;
        UnixLink::new(stream, self.limit)
    }
}

impl Door for UnixDoor {
    type Conn = UnixLink;

    ghost lists = { λ _. None };

    ghost faults = { λ d. d.faults };

    ghost out = { λ d. d.out };

    /// Waits for a connection, and never answers that none comes. It also fails where a connection takes no limit, and where
    /// 2^64 - 1 connections are out.
    fn next(&mut self) -> Result<Option<UnixLink>, Failed>
        ensures gives { IfOk result IsSome }
        ensures faultless { IfOk result (λ given. IfSome given IsFaultless) }
        ensures out { CountsOut self.old.out self.new.out result }
        ensures cause { HasCause self.old.faults self.new.faults result }
        ensures counts { CountsOne self.old.faults self.new.faults result }
        ensures waits { IfOk result (λ given. IfSome given (WaitsFor self.old.limit)) }
        ensures limit { self.new.limit ≡ self.old.limit }
    {
        match self.accept() {
            Ok(link) if self.out < u64::MAX => {
                self.out += 1;
                Ok(Some(link))
            }
            _ => {
                self.faults = self.faults.saturating_add(1);
                Err(Failed)
            }
        }
    }

    /// Closes an ended connection.
    fn done(&mut self, conn: UnixLink)
        requires { 1 ≤ self.old.out }
        ensures out { self.new.out + 1 ≡ self.old.out }
        ensures faults { self.new.faults ≡ self.old.faults }
        ensures limit { self.new.limit ≡ self.old.limit }
    {
        self.out -= 1;
        drop(conn);
    }
}
