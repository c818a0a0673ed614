//! The names of a locality, each with the place of the entry whose call put its box.
ghost use Rattle.std.specs.Prelude.{◌≡◌, ◌+◌, ◌≤◌, [], ◌∷◌, ◌++◌, length, is_some, if◌then◌else◌};
ghost use Rattle.dpe_vaults.specs.Named.{named, name_order, found, without, placed, has_place};
ghost use Rattle.dpe_vaults.specs.Kept.{names_of};
ghost use Rattle.dpe_vaults.specs.Tables.{Seeks};

use crate::call::MAX_NAME;
use crate::piece::Piece;
use arrayvec::ArrayVec;
use dpe_io::Packet;
use dpe_text::{MAX_TEXT, Text};
use std::cmp::Ordering;
use std::marker::Model;

/// The most names of a locality.
const MAX_NAMES: usize = 32;

/// A name, and the place of the entry whose call put its box.
#[derive(Drop)]
pub(crate) struct Row {
    name: Piece<MAX_NAME>,
    at: u32,
}

impl Default for Row {
    fn default() -> Row {
        Row {
            name: Piece::new(),
            at: 0,
        }
    }
}

// Appends a name after its length.
fn push_name(text: &mut Text, name: &[u8])
    requires short { length name.now ≤ MAX_NAME }
    requires room { length text.old + 33 ≤ MAX_TEXT }
    ensures pushed { text.new ≡ text.old ++ length name.now ∷ name.now }
    ensures few { length text.new ≤ length text.old + 33 }
{
    text.push(&[name.len() as u8]);
    text.push(name);
}

// How the name of a row compares with another.
fn order_of(row: &Row, name: &[u8]) -> Ordering
    ensures { result ≡ name_order row.now.name name.now }
{
    row.name.bytes().cmp(name)
}

// A row of these.
fn row_for(name: &[u8], at: u32) -> Row
    requires { length name.now ≤ MAX_NAME }
    ensures { result ≡ record { name = name.now; at = at } }
{
    let mut stored = Piece::new();
    stored.set(name);
    Row { name: stored, at }
}

/// Rows in ascending order of their names, at most 32.
#[derive(Drop)]
pub(crate) struct Table {
    rows: ArrayVec<Row, MAX_NAMES>,
}

impl Model for Table {
    ghost use Rattle.std.specs.Prelude.{ℕ, List};
    ghost use Rattle.dpe_vaults.specs.Named.{Named, AreOrdered};
    ghost use Rattle.dpe_vaults.specs.Tables.{rows_of};

    ghost Value = { List (Named ℕ) };

    ghost view = { λ t. rows_of t.rows.items };

    ghost invariant = { λ t. AreOrdered (rows_of t.rows.items) };
}

impl Table {
    /// No rows.
    pub(crate) fn new() -> Table
        ensures { result ≡ [] }
    {
        Table {
            rows: ArrayVec::new(),
        }
    }

    // Where the row of a name stands, or else where it belongs.
    fn seek(&self, name: &[u8]) -> Result<usize, usize>
        ensures { Seeks self.now name.now result }
    {
        let rows = self.rows.as_slice();
        let mut low = 0;
        let mut high = rows.len();
        'halves: while low < high {
            let middle = low + (high - low) / 2;
            match order_of(&rows[middle], name) {
                Ordering::Less => low = middle + 1,
                Ordering::Equal => return Ok(middle),
                Ordering::Greater => high = middle,
            }
        }
        Err(low)
    }

    /// The place of the entry whose call put the box of a name.
    pub(crate) fn find(&self, name: &[u8]) -> Option<u32>
        ensures { result ≡ found self.now name.now }
    {
        match self.seek(name) {
            Ok(place) => Some(self.rows.as_slice()[place].at),
            Err(_) => None,
        }
    }

    /// Puts a name with the place of the entry that has its box, in order, where the name stands or there is room.
    pub(crate) fn put(&mut self, name: &[u8], at: u32) -> bool
        requires { length name.now ≤ MAX_NAME }
        ensures place { result ≡ has_place self.old name.now }
        ensures rows { self.new ≡ if has_place self.old name.now then placed self.old (named name.now at) else self.old }
    {
        let row = row_for(name, at);
        match self.seek(name) {
            Ok(place) => {
                self.rows[place] = row;
                true
            }
            Err(place) => {
                if self.rows.is_full() {
                    return false;
                }
                self.rows.insert(place, row);
                true
            }
        }
    }

    /// Takes a name out.
    pub(crate) fn remove(&mut self, name: &[u8]) -> bool
        ensures found { result ≡ is_some (found self.old name.now) }
        ensures rows { self.new ≡ without self.old name.now }
    {
        match self.seek(name) {
            Ok(place) => {
                let _ = self.rows.remove(place);
                true
            }
            Err(_) => false,
        }
    }

    /// Makes it the names, each after its length.
    pub(crate) fn names(&self, out: &mut Packet)
        ensures { out.new ≡ names_of self.now }
    {
        let mut text = Text::new();
        let rows = self.rows.as_slice();
        for row in rows {
            push_name(&mut text, row.name.bytes());
        }
        out.set(text.bytes());
    }
}
