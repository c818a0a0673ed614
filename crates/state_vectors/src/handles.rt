//! Rows that call the table of handles.
ghost use Rattle.std.specs.Prelude.{◌≡◌, ◌<◌, IsTrue, All, IfOk, length, true, false};
ghost use Rattle.dpe_handles.specs.Rows.{serial, HasNoDefault};

use crate::fault::Fault;
use crate::numbers::{number, small};
use crate::replies::printed;
use dpe_handles::{MOST_ROWS, Row, Steps, Table};
use std::alloc::{AllocError, Global};

// The serial of a handle.
#[tactic(auto, unfolding(dpe_handles::specs::Rows::serial))]
fn serial_of(handle: &[u8; 16]) -> u64
    ensures { result ≡ serial handle.now }
{
    let h = handle;
    u64::from_be_bytes([h[0], h[1], h[2], h[3], h[4], h[5], h[6], h[7]])
}

// Whether the row's serial is greater than each in the table.
fn is_last(table: &Table, row: &Row) -> bool
    ensures { IsTrue result → All (λ r. serial r.handle < serial row.now.handle) table.now }
{
    let key = serial_of(&row.handle);
    for at in 0..table.len() {
        if serial_of(&table.row(at).handle) >= key {
            return false;
        }
    }
    true
}

// Whether the row is marked, and its locality has a default.
fn is_taken(table: &Table, row: &Row) -> bool
    ensures { result ≡ false → row.now.default ≡ true → HasNoDefault table.now row.now.locality }
{
    row.default && table.default_at(row.locality).is_some()
}

// Appends a row where the table has room for it, its serial is the greatest, and it is no second default.
fn issue(table: &mut Table, row: Row) -> Result<(), Fault> {
    if table.len() >= MOST_ROWS || !is_last(table, &row) || is_taken(table, &row) {
        return Err(Fault::Unmet);
    }
    table.issue(row);
    Ok(())
}

// A handle: a serial, and behind it the same byte 8 times.
fn handle_of(serial: u64, last: u8) -> [u8; 16] {
    let mut handle = [last; 16];
    handle[..8].copy_from_slice(&serial.to_be_bytes());
    handle
}

// A row whose locality and place follow from its serial.
fn row_of(serial: u64, last: u8, default: bool) -> Row {
    Row {
        handle: handle_of(serial, last),
        locality: (serial % 8) as u8,
        may_derive: serial % 2 == 1,
        place: (serial % 4096) as u32,
        default,
    }
}

fn told(alloc: Global, row: &Row) -> Result<String, AllocError> {
    let handle = printed(alloc, &row.handle)?;
    let derives = if row.may_derive { "derives" } else { "final" };
    let default = if row.default { ", default" } else { "" };
    format!(in alloc;
        "{handle} at locality {}, place {}, {derives}{default}",
        row.locality, row.place
    )
}

// Rows of serials from the first on, each so many greater than the one before.
fn fill(table: &mut Table, words: &[&str]) -> Result<(), Fault> {
    let [first, step, count] = words else {
        return Err(Fault::Unreadable);
    };
    let mut serial = number(first)?;
    let step = number(step)?;
    for _ in 0..number(count)? {
        issue(table, row_of(serial, 9, false))?;
        serial = serial.saturating_add(step);
    }
    Ok(())
}

// The place of a handle and how many rows were looked at.
fn found(table: &Table, handle: &[u8; 16]) -> (Option<usize>, u32) {
    let mut steps = Steps::new();
    let at = table.find(handle, &mut steps);
    (at, steps.taken)
}

fn find(alloc: Global, table: &Table, words: &[&str]) -> Result<String, Fault> {
    let (serial, last) = named(words)?;
    match found(table, &handle_of(serial, last)) {
        (Some(at), steps) => Ok(format!(in alloc; "at {at}, {steps} looked at")?),
        (None, steps) => Ok(format!(in alloc; "none, {steps} looked at")?),
    }
}

// Looks for handles of serials from the first on, two apart: how many stand at their turn and how many nowhere, and
// the fewest and the most rows that were looked at.
fn search(alloc: Global, table: &Table, words: &[&str]) -> Result<String, Fault> {
    let [first, count] = words else {
        return Err(Fault::Unreadable);
    };
    let mut serial = number(first)?;
    let (mut here, mut nowhere) = (0u32, 0u32);
    let (mut fewest, mut most) = (u32::MAX, 0);
    for turn in 0..number(count)? {
        let (at, steps) = found(table, &handle_of(serial, 9));
        match at {
            Some(at) if at as u64 == turn => here = here.saturating_add(1),
            Some(_) => (),
            None => nowhere = nowhere.saturating_add(1),
        }
        fewest = fewest.min(steps);
        most = most.max(steps);
        serial = serial.saturating_add(2);
    }
    Ok(format!(in alloc; "{here} at their turn, {nowhere} nowhere, {fewest} to {most} looked at")?)
}

fn place(table: &Table, words: &[&str]) -> Result<usize, Fault>
    ensures { IfOk result (λ at. at < length table.now) }
{
    let [at] = words else {
        return Err(Fault::Unreadable);
    };
    match at.parse::<usize>() {
        Ok(at) if at < table.len() => Ok(at),
        Ok(_) => Err(Fault::Unmet),
        Err(_) => Err(Fault::Unreadable),
    }
}

fn length(alloc: Global, table: &Table) -> Result<String, Fault> {
    Ok(format!(in alloc; "{} rows", table.len())?)
}

// A serial, and the byte behind it.
fn named(words: &[&str]) -> Result<(u64, u8), Fault> {
    let [serial, last] = words else {
        return Err(Fault::Unreadable);
    };
    Ok((number(serial)?, small(last)?))
}

// A row of a serial and the byte behind it, and with `default` behind these a marked one.
fn issue_row(table: &mut Table, words: &[&str]) -> Result<(), Fault> {
    let (words, default) = match words {
        [serial, last, "default"] => ([*serial, *last], true),
        [serial, last] => ([*serial, *last], false),
        _ => return Err(Fault::Unreadable),
    };
    let (serial, last) = named(&words)?;
    issue(table, row_of(serial, last, default))
}

// The place of the default of a locality.
fn default(alloc: Global, table: &Table, words: &[&str]) -> Result<String, Fault> {
    let [locality] = words else {
        return Err(Fault::Unreadable);
    };
    match table.default_at(small(locality)?) {
        Some(at) => Ok(format!(in alloc; "at {at}")?),
        None => Ok(String::from_str(alloc, "none")?),
    }
}

fn spend(alloc: Global, table: &mut Table, words: &[&str]) -> Result<String, Fault> {
    let at = place(table, words)?;
    Ok(told(alloc, &table.spend(at))?)
}

fn row(alloc: Global, table: &Table, words: &[&str]) -> Result<String, Fault> {
    let at = place(table, words)?;
    Ok(told(alloc, table.row(at))?)
}

/// The line of a row.
pub(crate) fn answer(alloc: Global, table: &mut Table, words: &[&str]) -> Result<String, Fault> {
    let Some((call, words)) = words.split_first() else {
        return Err(Fault::Unreadable);
    };
    match *call {
        "spend" => spend(alloc, table, words),
        "row" => row(alloc, table, words),
        "find" => find(alloc, table, words),
        "search" => search(alloc, table, words),
        "default" => default(alloc, table, words),
        call => {
            change(alloc, table, call, words)?;
            length(alloc, table)
        }
    }
}

// What leaves the table another.
fn change(alloc: Global, table: &mut Table, call: &str, words: &[&str]) -> Result<(), Fault> {
    match call {
        "new" => *table = Table::make(alloc)?,
        "fill" => fill(table, words)?,
        "issue" => issue_row(table, words)?,
        _ => return Err(Fault::Unreadable),
    }
    Ok(())
}
