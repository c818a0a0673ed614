//! The rows, and what changes them.
ghost use Rattle.std.specs.Prelude.{◌≡◌, ℕ, ◌+◌, ◌<◌, ◌≤◌, [], ◌∷◌, ◌++◌, length, IfOk, All, Some, slice_get, true, remove};
ghost use Rattle.std.specs.List.{range_with_len};
ghost use Rattle.std.specs.Vec.{vec_capacity};
ghost use Rattle.dpe_handles.specs.Rows.{serial, HasSerial, HasNoDefault, IsDefaultSerial, IsAscending, OneDefaultEach, row_limit, with_default};

use crate::find::serial_of;
use crate::row::Row;
use std::alloc::{AllocError, Global};
use std::marker::Model;

/// The most rows of a table, and so the most live contexts.
pub const MOST_ROWS: usize = 1_024;

// How many values a locality has.
const LOCALITIES: usize = 256;

/// How many rows were looked at.
#[derive(Clone, Copy, Debug, PartialEq, Eq)]
pub struct Steps {
    pub taken: u32,
}

impl Steps {
    /// No row was looked at yet.
    pub fn new() -> Steps
        ensures { result.taken ≡ 0 }
    {
        Steps { taken: 0 }
    }

    // One row more.
    pub(crate) fn count(&mut self)
        requires { self.old.taken < 4294967295 }
        ensures { self.new.taken ≡ self.old.taken + 1 }
    {
        self.taken += 1;
    }
}

/// Rows in ascending order of their serials, at most 1,024. It has room for all of them from the start. At most one row
/// of each locality is marked as its default.
///
/// A row stays in its slot as long as it lives. What is moved when one is spent is the slots' numbers, two bytes each.
#[derive(Drop)]
pub struct Table {
    // A slot for each row, each with a live row or with what was left there.
    rows: Vec<Row>,
    // The serial of the row in each slot, where a search looks.
    serials: Vec<u64>,
    // The numbers of all slots: first those of the live rows, in order of their serials, then the free ones.
    order: Vec<u16>,
    live: usize,
    // For each locality the serial of the row that was marked last, where a search for its default begins.
    defaults: Vec<u64>,
}

impl Model for Table {
    ghost use Rattle.dpe_handles.specs.declared.row.Row.{Row};
    ghost use Rattle.dpe_handles.specs.Rows.{rows_in, serials_of, IsTable, AreKept, row_limit};
    ghost use Rattle.std.specs.Prelude.{◌≡◌, ◌≤◌, List, take};
    ghost use Rattle.std.specs.Vec.{vec_capacity};

    ghost Value = { List Row };

    ghost view = { λ t. rows_in t.rows.items (take t.live t.order.items) };

    ghost invariant = { λ t. IsTable t.rows.items t.order.items t.live
        × (t.serials.items ≡ serials_of t.rows.items) × (row_limit ≤ vec_capacity t.order)
        × AreKept (rows_in t.rows.items (take t.live t.order.items)) t.defaults.items };
}

// What stands in a slot before its first row.
const NO_ROW: Row = Row {
    handle: [0; 16],
    locality: 0,
    may_derive: false,
    place: 0,
    default: false,
};

// The numbers of all slots, with no room for more.
fn all_slots(alloc: Global) -> Result<Vec<u16>, AllocError>
    ensures all { IfOk result (λ v. v.items ≡ range_with_len 0 row_limit) }
    ensures room { IfOk result (λ v. row_limit ≤ vec_capacity v) }
{
    let mut slots = Vec::with_capacity(alloc, MOST_ROWS)?;
    for slot in 0..MOST_ROWS {
        slots.push(slot as u16)?;
    }
    Ok(slots)
}

// Keeps the serial of a marked row for its locality.
fn keep_default(defaults: &mut [u64], row: &Row, number: u64)
    requires { row.now.locality < length defaults.old }
    ensures { defaults.new ≡ with_default defaults.old row.now number }
{
    if row.default {
        defaults[row.locality as usize] = number;
    }
}

impl Table {
    /// An empty table, with all the memory that it ever has.
    pub fn make(alloc: Global) -> Result<Table, AllocError>
        ensures { IfOk result (λ t. t ≡ []) }
    {
        let rows = vec![in alloc; NO_ROW; MOST_ROWS]?;
        let serials = vec![in alloc; 0; MOST_ROWS]?;
        let order = all_slots(alloc)?;
        let defaults = vec![in alloc; 0; LOCALITIES]?;
        Ok(Table {
            rows,
            serials,
            order,
            live: 0,
            defaults,
        })
    }

    /// The number of rows.
    pub fn len(&self) -> usize
        ensures length { result ≡ length self.now }
        ensures most { result ≤ row_limit }
        ensures ascending { IsAscending self.now }
        ensures marks { OneDefaultEach self.now }
    {
        self.live
    }

    /// The row at this place.
    pub fn row(&self, at: usize) -> &Row
        requires { at < length self.now }
        ensures { slice_get self.now at ≡ Some result.now }
    {
        let slot = self.order[at];
        &self.rows[slot as usize]
    }

    /// The serial of the row at this place.
    pub(crate) fn serial(&self, at: usize) -> u64
        requires { at < length self.now }
        ensures { HasSerial self.now at result }
    {
        let slot = self.order[at];
        self.serials[slot as usize]
    }

    /// The serial that is kept for this locality.
    pub(crate) fn default_serial(&self, locality: u8) -> u64
        ensures { IsDefaultSerial self.now locality result }
    {
        self.defaults[locality as usize]
    }

    /// Takes the row at this place out. Those behind it move down by one.
    pub fn spend(&mut self, at: usize) -> Row
        requires { at < length self.old }
        ensures row { slice_get self.old at ≡ Some result }
        ensures rest { self.new ≡ remove self.old at }
    {
        let slot = self.order.remove(at);
        if self.order.push(slot).is_err() {
            unreachable!();
        }
        self.live -= 1;
        self.rows[slot as usize]
    }

    /// Appends a row, whose serial is greater than each serial in the table. A marked row comes only where its locality
    /// has none. It takes no memory.
    pub fn issue(&mut self, row: Row)
        requires room { length self.old < row_limit }
        requires last { All (λ r. serial r.handle < serial row.handle) self.old }
        requires mark { row.default ≡ true → HasNoDefault self.old row.locality }
        ensures { self.new ≡ self.old ++ row ∷ [] }
    {
        let slot = self.order[self.live];
        let number = serial_of(&row.handle);
        keep_default(&mut self.defaults, &row, number);
        self.serials[slot as usize] = number;
        self.rows[slot as usize] = row;
        self.live += 1;
    }
}
