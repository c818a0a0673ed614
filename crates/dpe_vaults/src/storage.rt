//! Entries in order, in memory that is taken at once.
ghost use Rattle.std.specs.Prelude.{◌≡◌, ◌<◌, ◌≤◌, [], length, slice_get, IfOk, Some};
ghost use Rattle.dpe_desk.specs.Entries.{entry};
ghost use Rattle.dpe_vaults.specs.Tables.{box_at};
ghost use Rattle.dpe_vaults.specs.Views.{entry_of, with_entry};

use crate::call::{MAX_SEALED, VaultCall};
use crate::entry::VaultEntry;
use crate::reply::VaultReply;
use std::alloc::{AllocError, Global};
use std::marker::Model;

/// The most entries of a vault.
pub(crate) const MAX_ENTRIES: u32 = 4_096;

/// The first entries of those for which there is room. The others are left over.
#[derive(Drop)]
pub(crate) struct Stored {
    entries: Vec<VaultEntry>,
    len: u32,
}

impl Model for Stored {
    ghost use Rattle.dpe_vaults.specs.Views.{VaultView};

    ghost Value = { VaultView };

    ghost use Rattle.dpe_vaults.specs.Storing.{stored_of, IsStored};

    ghost view = { stored_of };

    ghost invariant = { IsStored };
}

// So many entries of nothing.
fn blank_entries(alloc: Global, many: u32) -> Result<Vec<VaultEntry>, AllocError>
    ensures { IfOk result (λ entries. length entries.items ≡ many) }
{
    let mut entries = Vec::with_capacity(alloc, many as usize)?;
    for _place in 0..many {
        entries.push(VaultEntry::blank())?;
    }
    Ok(entries)
}

impl Stored {
    /// No entries yet, and room for this many.
    pub(crate) fn make(alloc: Global, capacity: u32) -> Result<Stored, AllocError>
        requires { capacity ≤ MAX_ENTRIES }
        ensures { IfOk result (λ stored. stored ≡ record { capacity = capacity; entries = [] }) }
    {
        Ok(Stored {
            entries: blank_entries(alloc, capacity)?,
            len: 0,
        })
    }

    /// How many entries there are.
    pub(crate) fn len(&self) -> u32
        ensures length { result ≡ length self.now.entries }
        ensures within { result ≤ self.now.capacity }
    {
        self.len
    }

    /// For how many there is room.
    pub(crate) fn capacity(&self) -> u32
        ensures capacity { result ≡ self.now.capacity }
        ensures most { result ≤ MAX_ENTRIES }
    {
        self.entries.len() as u32
    }

    /// The entry at a place.
    pub(crate) fn entry(&self, at: u32) -> &VaultEntry
        requires { at < length self.now.entries }
        ensures { slice_get self.now.entries at ≡ Some (entry_of result.now) }
    {
        &self.entries[at as usize]
    }

    /// The box that the call of an entry put.
    pub(crate) fn sealed(&self, at: u32) -> &[u8]
        requires { at < length self.now.entries }
        ensures sealed { result.now ≡ box_at self.now.entries at }
        ensures fits { length result.now ≤ MAX_SEALED }
    {
        self.entry(at).call.sealed()
    }

    /// Appends an entry. There must be room.
    pub(crate) fn append(&mut self, caller: u32, call: &VaultCall, reply: &VaultReply)
        requires room { length self.old.entries < self.old.capacity }
        ensures { self.new ≡ with_entry self.old (entry caller call.now reply.now) }
    {
        self.entries[self.len as usize].store(caller, call, reply);
        self.len += 1;
    }
}
