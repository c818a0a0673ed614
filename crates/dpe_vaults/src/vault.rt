//! A vault: eight tables beside the stored list of all that was asked and replied.
ghost use Rattle.std.specs.Prelude.{◌≡◌, ℕ, ◌<◌, ◌≤◌, [], length, is_some, slice_get, get_or, if◌then◌else◌, IfOk, Some};
ghost use Rattle.dpe_vaults.specs.Kept.{after_by, box_or_none, calls_of, code_by, Legal, reply_from, reply_to};
ghost use Rattle.dpe_vaults.specs.Named.{found, without};
ghost use Rattle.dpe_vaults.specs.Tables.{boxed, AreStored};
ghost use Rattle.dpe_vaults.specs.Views.{entry_of, next_entry, with_entry};

use crate::call::{Op, VaultCall};
use crate::entry::VaultEntry;
use crate::reply::VaultReply;
use crate::storage::{MAX_ENTRIES, Stored};
use crate::table::Table;
use dpe_box::has_form;
use dpe_io::Packet;
use std::alloc::{AllocError, Global};
use std::marker::Model;

/// How many localities there are.
const LOCALITIES: usize = 8;

/// The codes of replies.
const DONE: u8 = 0;

const NO_BOX: u8 = 22;

const NO_NAME: u8 = 30;

const NO_ROOM: u8 = 31;

/// Boxes under names, at most 32 for each locality, and the list of all that was asked and replied.
#[derive(Drop)]
pub struct Vault {
    tables: Vec<Table>,
    stored: Stored,
}

impl Model for Vault {
    ghost use Rattle.dpe_vaults.specs.Views.{VaultView};
    ghost use Rattle.dpe_vaults.specs.Vaults.{IsVault};

    ghost Value = { VaultView };

    ghost view = { λ v. v.stored };

    ghost invariant = { IsVault };
}

// A table without names for each locality.
fn blank_tables(alloc: Global) -> Result<Vec<Table>, AllocError>
    ensures eight { IfOk result (λ tables. length tables.items ≡ LOCALITIES) }
    ensures none { IfOk result (λ tables. (l : ℕ) → get_or tables.items l [] ≡ []) }
{
    let mut tables = Vec::with_capacity(alloc, LOCALITIES)?;
    for _locality in 0..LOCALITIES {
        tables.push(Table::new())?;
    }
    Ok(tables)
}

// Puts the box of the call at this place under its name.
fn put_box(table: &mut Table, call: &VaultCall, at: u32) -> u8
    ensures code { result ≡ code_by Op.Put table.old call.now }
    ensures rows { table.new ≡ after_by Op.Put at table.old call.now }
{
    if !has_form(call.sealed()) {
        return NO_BOX;
    }
    if table.put(call.name(), at) {
        DONE
    } else {
        NO_ROOM
    }
}

// Gives the box of a name.
fn give_box(table: &Table, stored: &Stored, name: &[u8], out: &mut Packet) -> u8
    requires { AreStored (length stored.now.entries) table.now }
    ensures code { result ≡ if is_some (found table.now name.now) then DONE else NO_NAME }
    ensures sealed { out.new ≡ box_or_none (found (boxed stored.now.entries table.now) name.now) }
{
    match table.find(name) {
        Some(at) => {
            out.set(stored.sealed(at));
            DONE
        }
        None => {
            out.truncate(0);
            NO_NAME
        }
    }
}

// Takes a name out.
fn take_out(table: &mut Table, name: &[u8]) -> u8
    ensures code { result ≡ if is_some (found table.old name.now) then DONE else NO_NAME }
    ensures rows { table.new ≡ without table.old name.now }
{
    if table.remove(name) { DONE } else { NO_NAME }
}

// Does what a call asks of its locality's table, and replies. The call's entry will be the next that is stored.
fn answer(table: &mut Table, stored: &Stored, call: &VaultCall, reply: &mut VaultReply)
    requires { AreStored (length stored.now.entries) table.old }
    ensures rows { table.new ≡ after_by call.now.op (length stored.now.entries) table.old call.now }
    ensures reply { reply.new ≡ reply_from (boxed stored.now.entries table.old) call.now }
{
    let name = call.name();
    reply.bytes.truncate(0);
    match call.op() {
        Op::Put => {
            reply.code = put_box(table, call, stored.len());
        }
        Op::Get => {
            reply.code = give_box(table, stored, name, &mut reply.bytes);
        }
        Op::Remove => {
            reply.code = take_out(table, name);
        }
        Op::Names => {
            table.names(&mut reply.bytes);
            reply.code = DONE;
        }
    }
}

impl Vault {
    /// A vault without names, for at most `capacity` calls. All memory that it ever uses is taken here: about 6,300 bytes an
    /// entry.
    pub fn make(alloc: Global, capacity: u32) -> Result<Vault, AllocError>
        requires some { 1 ≤ capacity }
        requires most { capacity ≤ MAX_ENTRIES }
        ensures { IfOk result (λ vault. vault ≡ record { capacity = capacity; entries = [] }) }
    {
        Ok(Vault {
            tables: blank_tables(alloc)?,
            stored: Stored::make(alloc, capacity)?,
        })
    }

    /// Does what the call of a caller asks, gives the reply that the earlier calls of its locality lead to, and appends the
    /// one entry of them. The vault must not be full.
    pub fn step(&mut self, caller: u32, call: &VaultCall, reply: &mut VaultReply)
        requires room { length self.old.entries < self.old.capacity }
        ensures appends { self.new ≡ with_entry self.old (next_entry self.old caller call.now) }
        ensures reply { reply.new ≡ reply_to (calls_of self.old.entries) call.now }
        ensures legal { Legal self.new.entries }
    {
        let locality = usize::from(call.locality());
        answer(&mut self.tables[locality], &self.stored, call, reply);
        self.stored.append(caller, call, reply);
    }

    /// How many entries there are. They are a legal list.
    pub fn length(&self) -> u32
        ensures length { result ≡ length self.now.entries }
        ensures within { result ≤ self.now.capacity }
        ensures legal { Legal self.now.entries }
    {
        self.stored.len()
    }

    /// The most entries that it can have.
    pub fn capacity(&self) -> u32
        ensures capacity { result ≡ self.now.capacity }
        ensures most { result ≤ MAX_ENTRIES }
    {
        self.stored.capacity()
    }

    /// The entry at a place.
    pub fn entry(&self, at: u32) -> &VaultEntry
        requires { at < length self.now.entries }
        ensures { slice_get self.now.entries at ≡ Some (entry_of result.now) }
    {
        self.stored.entry(at)
    }
}
