//! An executor beside the stored history of all it did.
ghost use Rattle.std.specs.Prelude.{◌≡◌, ◌^◌, ◌<◌, ◌≤◌, [], length, slice_get, IfOk, OnOk, Some};
ghost use Rattle.std.specs.Io.KnownBytes.{Appends};
ghost use Rattle.dpe_io.specs.Causes.{HasCause};
ghost use Rattle.dpe_model.specs.History.{Legal};
ghost use Rattle.dpe_model.specs.State.{Valid};
ghost use Rattle.dpe_journal.specs.BookViews.{with_entry, state_in, next_entry, next_reply};
ghost use Rattle.dpe_journal.specs.Journal.{journal_bytes};
ghost use Rattle.dpe_journal.specs.Stored.{entry_of};
ghost use Rattle.dpe_journal.specs.Writing.{WritesFront};

use crate::entry::{Call, Entry};
use crate::storage::Stored;
use crate::write::{MAX_RECORDS, SinkFault, write_journal};
use dpe_core::Core;
use dpe_io::{Packet, Sink};
use std::alloc::{AllocError, Global};
use std::marker::Model;

/// An executor and the history of all it did: each command, who sent it, and the reply.
#[derive(Drop)]
pub struct Book {
    core: Core,
    seed: [u8; 32],
    first: u64,
    stored: Stored,
}

impl Model for Book {
    ghost use Rattle.dpe_journal.specs.BookViews.{BookView};

    ghost Value = { BookView };

    ghost use Rattle.dpe_journal.specs.Book.{view_of, IsBook};

    ghost view = { view_of };

    ghost invariant = { IsBook };
}

impl Book {
    /// A book with the empty history, from this seed and first serial on, for at most `capacity` entries. All memory that
    /// it ever uses is taken here: about 8,260 bytes an entry.
    pub fn make(
        alloc: Global,
        seed: &[u8; 32],
        first_serial: u64,
        capacity: u32,
    ) -> Result<Book, AllocError>
        requires some { 1 ≤ capacity }
        requires most { capacity ≤ MAX_RECORDS }
        ensures { IfOk result (λ book. book ≡ record {
          seed = seed.now;
          first = first_serial;
          capacity = capacity;
          history = [];
        }) }
    {
        Ok(Book {
            core: Core::make(alloc, seed, first_serial)?,
            seed: *seed,
            first: first_serial,
            stored: Stored::make(alloc, capacity)?,
        })
    }

    /// Executes the call of a caller, gives the reply, and appends the one entry of them. The book must not be full.
    pub fn step(&mut self, caller: u32, call: &Call, reply: &mut Packet)
        requires room { length self.old.history < self.old.capacity }
        ensures appends { self.new ≡ with_entry self.old (next_entry self.old caller call.now) }
        ensures reply { reply.new ≡ next_reply self.old call.now }
        ensures legal { Legal self.new.seed self.new.first self.new.history }
    {
        self.stored.append(&mut self.core, caller, call, reply);
    }

    /// How many entries the history has. It is legal, and leads to a valid state.
    pub fn length(&self) -> u32
        ensures length { result ≡ length self.now.history }
        ensures within { result ≤ self.now.capacity }
        ensures serial { self.now.first < 2 ^ 64 }
        ensures legal { Legal self.now.seed self.now.first self.now.history }
        ensures valid { Valid (state_in self.now) }
    {
        self.stored.len()
    }

    /// The most entries that it can have.
    pub fn capacity(&self) -> u32
        ensures capacity { result ≡ self.now.capacity }
        ensures most { result ≤ MAX_RECORDS }
    {
        self.stored.capacity()
    }

    /// The entry at a place.
    pub fn entry(&self, at: u32) -> &Entry
        requires { at < length self.now.history }
        ensures { slice_get self.now.history at ≡ Some (entry_of result.now) }
    {
        self.stored.entry(at)
    }

    /// Writes the journal of the history, and flushes. A fault comes exactly where the sink failed, and tells how many of
    /// the journal's first bytes were taken: all of them, where only the flush failed.
    pub fn write_to<K: Sink>(&self, sink: &mut K) -> Result<(), SinkFault>
        ensures ok { OnOk result (Appends (K.bytes sink.old) (K.bytes sink.new) (journal_bytes self.now.first self.now.history)) }
        ensures fault { WritesFront (K.bytes sink.old) (K.bytes sink.new) (journal_bytes self.now.first self.now.history) result }
        ensures cause { HasCause (K.faults sink.old) (K.faults sink.new) result }
        ensures beside { K.beside sink.new ≡ K.beside sink.old }
    {
        write_journal(self.first, self.stored.entries(), sink)
    }
}
