//! Entries in order, in memory that is taken at once.
ghost use Rattle.std.specs.Prelude.{◌≡◌, ◌<◌, ◌≤◌, [], length, map, slice_get, IfOk, Some};
ghost use Rattle.dpe_model.specs.History.{IsEntry};
ghost use Rattle.dpe_journal.specs.BookViews.{stored_with, answered, answer_to, stepped};
ghost use Rattle.dpe_journal.specs.Stored.{entry_of};

use crate::entry::{Call, Entry};
use crate::write::MAX_RECORDS;
use dpe_core::Core;
use dpe_io::Packet;
use std::alloc::{AllocError, Global};
use std::marker::Model;

/// The first entries of those for which there is room. The others are left over.
#[derive(Drop)]
pub(crate) struct Stored {
    entries: Vec<Entry>,
    len: u32,
}

impl Model for Stored {
    ghost use Rattle.dpe_journal.specs.BookViews.{Storage};

    ghost Value = { Storage };

    ghost use Rattle.dpe_journal.specs.Storing.{storage_of, IsStorage};

    ghost view = { storage_of };

    ghost invariant = { IsStorage };
}

// So many entries of nothing.
fn blank_entries(alloc: Global, many: u32) -> Result<Vec<Entry>, AllocError>
    ensures { IfOk result (λ entries. length entries.items ≡ many) }
{
    let mut entries = Vec::with_capacity(alloc, many as usize)?;
    for _place in 0..many {
        entries.push(Entry::new())?;
    }
    Ok(entries)
}

impl Stored {
    /// No entries yet, and room for this many.
    pub(crate) fn make(alloc: Global, capacity: u32) -> Result<Stored, AllocError>
        requires { capacity ≤ MAX_RECORDS }
        ensures { IfOk result (λ stored. stored ≡ record { capacity = capacity; entries = [] }) }
    {
        Ok(Stored {
            entries: blank_entries(alloc, capacity)?,
            len: 0,
        })
    }

    /// How many entries there are.
    pub(crate) fn len(&self) -> u32
        ensures length { result ≡ length self.now.entries }
        ensures within { result ≤ self.now.capacity }
    {
        self.len
    }

    /// For how many there is room.
    pub(crate) fn capacity(&self) -> u32
        ensures capacity { result ≡ self.now.capacity }
        ensures most { result ≤ MAX_RECORDS }
    {
        self.entries.len() as u32
    }

    /// The entries.
    pub(crate) fn entries(&self) -> &[Entry]
        ensures entries { map entry_of result.now ≡ self.now.entries }
        ensures most { length result.now ≤ MAX_RECORDS }
    {
        &self.entries[..self.len as usize]
    }

    /// The entry at a place.
    pub(crate) fn entry(&self, at: u32) -> &Entry
        requires { at < length self.now.entries }
        ensures { slice_get self.now.entries at ≡ Some (entry_of result.now) }
    {
        &self.entries()[at as usize]
    }

    /// Appends the entry of a caller's call and the reply that the executor gives to it, and copies the reply out.
    pub(crate) fn append(&mut self, core: &mut Core, caller: u32, call: &Call, reply: &mut Packet)
        requires room { length self.old.entries < self.old.capacity }
        ensures appends { self.new ≡ stored_with self.old (answered core.old caller call.now) }
        ensures entry { IsEntry (answered core.old caller call.now) }
        ensures core { core.new ≡ stepped core.old call.now }
        ensures reply { reply.new ≡ answer_to core.old call.now }
    {
        self.entries[self.len as usize].answer(core, caller, call, reply);
        self.len += 1;
    }
}
