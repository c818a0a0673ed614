ghost use Rattle.std.specs.Prelude.{◌≡◌, ◌&&◌, not, ◌++◌, ◌∷◌, [], Option, find, IfOk};
ghost use Rattle.std.specs.List.{starts_with, list_any};
ghost use Rattle.std.specs.Option.{option_map};
ghost use Rattle.std.specs.Str.{bytes_eq};
ghost use Rattle.dpe_model.specs.Verdict.{is_default_of as is_default_at};
ghost use Rattle.dpe_model.specs.Step.{renamed, taken_out as without_row, family_out as without_family, same_birth};
ghost use Rattle.dpe_model.specs.Plain.{row_of, rows_of};

use crate::lineage::Birth;
use std::alloc::{AllocError, Global};

/// A live context, with its whole lineage.
#[derive(Drop)]
pub struct PlainRow {
    pub handle: [u8; 16],
    pub locality: u8,
    pub may_derive: bool,
    /// Whether it is the default context of its locality.
    pub default: bool,
    pub lineage: Vec<Birth>,
}

fn has_handle(row: &PlainRow, handle: &[u8; 16]) -> bool
    ensures { result ≡ bytes_eq row.now.handle handle.now }
{
    row.handle.as_slice() == handle.as_slice()
}

/// The row with this handle.
pub fn find_row<'a>(rows: &'a [PlainRow], handle: &[u8; 16]) -> Option<&'a PlainRow>
    ensures { option_map (λ r. row_of r.now) result ≡ find (λ row. bytes_eq row.handle handle.now) (rows_of rows.now) }
{
    for row in rows {
        if has_handle(row, handle) {
            return Some(row);
        }
    }
    None
}

/// Whether the row is the default of a locality.
pub fn is_default_of(locality: u8, row: &PlainRow) -> bool
    ensures { result ≡ is_default_at locality (row_of row.now) }
{
    row.default && row.locality == locality
}

/// The row that is the default of a locality.
pub fn find_default(rows: &[PlainRow], locality: u8) -> Option<&PlainRow>
    ensures { option_map (λ r. row_of r.now) result ≡ find (is_default_at locality) (rows_of rows.now) }
{
    for row in rows {
        if is_default_of(locality, row) {
            return Some(row);
        }
    }
    None
}

fn is_other_default(other: &PlainRow, row: &PlainRow, locality: u8) -> bool
    ensures { result ≡ (not (bytes_eq other.now.handle row.now.handle) && is_default_at locality (row_of other.now)) }
{
    !has_handle(other, &row.handle) && is_default_of(locality, other)
}

/// Whether a row other than this one is the default of a locality.
pub fn is_default_elsewhere(rows: &[PlainRow], row: &PlainRow, locality: u8) -> bool
    ensures { result ≡ list_any (λ other. not (bytes_eq other.handle row.now.handle) && is_default_at locality other)
        (rows_of rows.now) }
{
    for other in rows {
        if is_other_default(other, row, locality) {
            return true;
        }
    }
    false
}

/// The row under another handle.
pub fn under_handle(
    alloc: Global,
    row: &PlainRow,
    handle: &[u8; 16],
) -> Result<PlainRow, AllocError>
    ensures { IfOk result (λ r. row_of r ≡ renamed (row_of row.now) handle.now) }
{
    Ok(PlainRow {
        handle: *handle,
        locality: row.locality,
        may_derive: row.may_derive,
        default: row.default,
        lineage: Vec::from_slice(alloc, &row.lineage)?,
    })
}

/// The rows as they are.
pub fn copied(alloc: Global, rows: &[PlainRow]) -> Result<Vec<PlainRow>, AllocError>
    ensures { IfOk result (λ copy. rows_of copy.items ≡ rows_of rows.now) }
{
    let mut copy = Vec::new(alloc);
    for row in rows {
        copy.push(under_handle(alloc, row, &row.handle)?)?;
    }
    Ok(copy)
}

/// The rows without this one.
pub fn taken_out(
    alloc: Global,
    row: &PlainRow,
    rows: &[PlainRow],
) -> Result<Vec<PlainRow>, AllocError>
    ensures { IfOk result (λ left. rows_of left.items ≡ without_row (row_of row.now) (rows_of rows.now)) }
{
    let mut left = Vec::new(alloc);
    for other in rows {
        if !has_handle(other, &row.handle) {
            left.push(under_handle(alloc, other, &other.handle)?)?;
        }
    }
    Ok(left)
}

fn begins_with(lineage: &[Birth], front: &[Birth]) -> bool
    ensures { result ≡ starts_with same_birth lineage.now front.now }
{
    lineage.starts_with(front)
}

/// The rows without those whose lineage begins with this one's.
pub fn family_out(
    alloc: Global,
    row: &PlainRow,
    rows: &[PlainRow],
) -> Result<Vec<PlainRow>, AllocError>
    ensures { IfOk result (λ left. rows_of left.items ≡ without_family (row_of row.now) (rows_of rows.now)) }
{
    let mut left = Vec::new(alloc);
    for other in rows {
        if !begins_with(&other.lineage, &row.lineage) {
            left.push(under_handle(alloc, other, &other.handle)?)?;
        }
    }
    Ok(left)
}
