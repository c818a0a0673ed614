ghost use Rattle.std.specs.Prelude.{◌≡◌, ◌+◌, ◌<◌, ◌≤◌, ◌↔◌, Some, IfOk, IfSome, IsErr, Contains, All, [], length, drop};
ghost use Rattle.std.specs.Io.{ReadsAtMost};
ghost use Rattle.std.specs.Io.KnownBytes.{ReadConsumes, WriteAppends, Keeps};
ghost use Rattle.dpe_io.specs.Causes.{HasCause, CountsOne, one_more};
ghost use Rattle.dpe_io.specs.Memory.{IsRead, IsWrite, IsFlush, IsFaultless};
ghost use Rattle.dpe_io.specs.Told.{GivesNext, CountsOut, ComesBack};

use crate::memory::{MemSink, MemSource, call_fails};
use crate::outside::{Door, Duplex};
use crate::traits::{Failed, Sink, Source};
use std::alloc::{AllocError, Global};
use std::collections::VecDeque;
use std::marker::Model;

/// A source and a sink in memory as one object.
#[derive(Drop)]
pub struct MemConn {
    source: MemSource,
    sink: MemSink,
}

impl Model for MemConn {
    ghost use Rattle.dpe_io.specs.Memory.{TwoWay};

    ghost Value = { TwoWay };

    ghost view = { λ c. record { source = c.source; sink = c.sink } };
}

impl MemConn {
    /// What is read comes from the source, and what is written goes to the sink. It takes no memory.
    pub fn new(source: MemSource, sink: MemSink) -> MemConn
        ensures { result ≡ record { source = source; sink = sink } }
    {
        MemConn { source, sink }
    }

    /// What is read comes from here.
    pub fn source(&self) -> &MemSource
        ensures { result.now ≡ self.now.source }
    {
        &self.source
    }

    /// What is written goes here.
    pub fn sink(&self) -> &MemSink
        ensures { result.now ≡ self.now.sink }
    {
        &self.sink
    }
}

impl Source for MemConn {
    ghost left = { λ c. Some c.source.left };

    ghost faults = { λ c. c.source.faults };

    ghost beside = { λ c. record { bytes = Some c.sink.bytes; faults = c.sink.faults } };

    fn read(&mut self, room: &mut [u8]) -> Result<usize, Failed>
        ensures bound { ReadsAtMost result room.new }
        ensures bytes { ReadConsumes (Some self.old.source.left) (Some self.new.source.left) result room.new }
        ensures cause { HasCause self.old.source.faults self.new.source.faults result }
        ensures beside { self.new.sink ≡ self.old.sink }
        ensures exact { IsRead self.old.source self.new.source (length room.old) result }
        ensures rest { IfOk result (λ count. drop count room.new ≡ drop count room.old) }
        ensures untouched { IsErr result → room.new ≡ room.old }
    {
        self.source.read(room)
    }
}

impl Sink for MemConn {
    ghost bytes = { λ c. Some c.sink.bytes };

    ghost faults = { λ c. c.sink.faults };

    ghost beside = { λ c. record { bytes = Some c.source.left; faults = c.source.faults } };

    fn write(&mut self, piece: &[u8]) -> Result<usize, Failed>
        ensures bound { IfOk result (λ count. count ≤ length piece.now) }
        ensures progress { IfOk result (λ count. 0 < length piece.now → 0 < count) }
        ensures bytes { WriteAppends (Some self.old.sink.bytes) (Some self.new.sink.bytes) result piece.now }
        ensures cause { HasCause self.old.sink.faults self.new.sink.faults result }
        ensures beside { self.new.source ≡ self.old.source }
        ensures exact { IsWrite self.old.sink self.new.sink (length piece.now) result }
    {
        self.sink.write(piece)
    }

    fn flush(&mut self) -> Result<(), Failed>
        ensures bytes { Keeps (Some self.old.sink.bytes) (Some self.new.sink.bytes) }
        ensures cause { HasCause self.old.sink.faults self.new.sink.faults result }
        ensures beside { self.new.source ≡ self.old.source }
        ensures exact { IsFlush self.old.sink self.new.sink result }
    {
        self.sink.flush()
    }
}

impl Duplex for MemConn {
    ghost use Rattle.std.specs.Prelude.{refl};

    ghost told = { λ c. record {
      left = Some c.source.left;
      written = Some c.sink.bytes;
      read_faults = c.source.faults;
      write_faults = c.sink.faults;
    } };

    ghost told_is = { λ _. refl };

    ghost beside_source = { λ _. refl };

    ghost beside_sink = { λ _. refl };
}

/// A door in memory: connections that wait, and those that were handed back, in order.
#[derive(Drop)]
pub struct MemDoor {
    waiting: VecDeque<MemConn>,
    ended: Vec<MemConn>,
    out: usize,
    failing: Vec<u32>,
    calls: u64,
    faults: u64,
}

impl Model for MemDoor {
    ghost use Rattle.std.specs.Prelude.{◌+◌, ◌≤◌, All, vec_len, vec_capacity};
    ghost use Rattle.std.specs.VecDeque.{deque_len};
    ghost use Rattle.dpe_io.specs.Memory.{Doorway, IsFaultless};

    ghost Value = { Doorway };

    ghost view = { λ d. record {
      waiting = d.waiting.items;
      ended = d.ended.items;
      out = d.out;
      failing = d.failing.items;
      calls = d.calls;
      faults = d.faults;
    } };

    // each connection will find room when it is handed back
    ghost invariant = { λ d. (d.out + deque_len d.waiting + vec_len d.ended ≤ vec_capacity d.ended)
        × All IsFaultless d.waiting.items };
}

impl MemDoor {
    /// A door at which these connections wait. The calls of `next` whose numbers `failing` lists fail, counted from 0. It
    /// may answer want of memory.
    pub fn new(alloc: Global, waiting: Vec<MemConn>, failing: &[u32]) -> Result<MemDoor, AllocError>
        requires { All IsFaultless waiting.items }
        ensures { IfOk result (λ door. door ≡ record {
          waiting = waiting.items;
          ended = [];
          out = 0;
          failing = failing.now;
          calls = 0;
          faults = 0;
        }) }
    {
        let ended = Vec::with_capacity(alloc, waiting.len())?;
        let failing = Vec::from_slice(alloc, failing)?;
        Ok(MemDoor {
            waiting: VecDeque::from_vec(waiting),
            ended,
            out: 0,
            failing,
            calls: 0,
            faults: 0,
        })
    }

    /// The connections that were handed back.
    pub fn ended(&self) -> &[MemConn]
        ensures { result.now ≡ self.now.ended }
    {
        &self.ended
    }

    /// How many calls of `next` failed; the count stops at 2^64 - 1.
    pub fn faults(&self) -> u64
        ensures { result ≡ self.now.faults }
    {
        self.faults
    }
}

impl Door for MemDoor {
    type Conn = MemConn;

    ghost lists = { λ d. Some record { waiting = d.waiting; ended = d.ended } };

    ghost faults = { λ d. d.faults };

    ghost out = { λ d. d.out };

    fn next(&mut self) -> Result<Option<MemConn>, Failed>
        ensures gives { GivesNext (Some record { waiting = self.old.waiting; ended = self.old.ended })
            (Some record { waiting = self.new.waiting; ended = self.new.ended }) result }
        ensures faultless { IfOk result (λ given. IfSome given IsFaultless) }
        ensures out { CountsOut self.old.out self.new.out result }
        ensures cause { HasCause self.old.faults self.new.faults result }
        ensures fails { IsErr result ↔ Contains self.old.failing self.old.calls }
        ensures calls { self.new.calls ≡ one_more self.old.calls }
        ensures counts { CountsOne self.old.faults self.new.faults result }
        ensures stays { self.new.failing ≡ self.old.failing }
    {
        if call_fails(&self.failing, &mut self.calls) {
            self.faults = self.faults.saturating_add(1);
            return Err(Failed);
        }
        match self.waiting.pop_front() {
            Some(conn) => {
                self.out += 1;
                Ok(Some(conn))
            }
            None => Ok(None),
        }
    }

    fn done(&mut self, conn: MemConn)
        requires { 1 ≤ self.old.out }
        ensures back { ComesBack (Some record { waiting = self.old.waiting; ended = self.old.ended }) conn
            (Some record { waiting = self.new.waiting; ended = self.new.ended }) }
        ensures out { self.new.out + 1 ≡ self.old.out }
        ensures faults { self.new.faults ≡ self.old.faults }
        ensures stays { (self.new.failing ≡ self.old.failing) × (self.new.calls ≡ self.old.calls) }
    {
        self.out -= 1;
        self.ended.push_reserved(conn);
    }
}
