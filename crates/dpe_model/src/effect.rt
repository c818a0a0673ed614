//! What an accepted command does to the rows.
ghost use Rattle.std.specs.Prelude.{◌≡◌, ◌+◌, ◌≤◌, ◌++◌, ◌∷◌, [], Option, Some, None, IfOk, if◌then◌else◌};
ghost use Rattle.dpe_messages.specs.Commands.{request_of, derive_request, configuration_of};
ghost use Rattle.dpe_messages.specs.Request.{derive as derive_of, hidden_or_zeros};
ghost use Rattle.dpe_model.specs.State.{last_serial};
ghost use Rattle.dpe_model.specs.Verdict.{makes as made_by};
ghost use Rattle.dpe_model.specs.Step.{configuration_input as configuration_of_request, input_of as input_of_request, new0 as new0_of, new1 as new1_of, root as root_of, child as child_of, again as kept, marked, renamed, rows_left as left_by, rows_made as rows_made_by};
ghost use Rattle.dpe_model.specs.Plain.{row_of, rows_of};
ghost use Rattle.dpe_model.specs.PlainState.{seen, state_of};

use crate::asked::target;
use crate::lineage::Birth;
use crate::rows::{PlainRow, copied, family_out, taken_out, under_handle};
use crate::state::{PlainState, new0, new1};
use dpe_inputs::{Input, configuration};
use dpe_messages::{Command, Config, Derive};
use std::alloc::{AllocError, Global};

fn config(config: &Config<'_>) -> [u8; 64]
    ensures { result ≡ configuration_of_request (configuration_of config.now) }
{
    match config {
        Config::Inline(bytes) => **bytes,
        Config::Descriptor(descriptor) => configuration(descriptor),
    }
}

fn hidden(derive: &Derive<'_>) -> [u8; 64]
    ensures { result ≡ hidden_or_zeros (derive_request derive.now) }
{
    match derive.hidden {
        None => [0; 64],
        Some(hidden) => *hidden,
    }
}

fn input_of(derive: &Derive<'_>) -> Input
    ensures { result ≡ input_of_request (derive_request derive.now) }
{
    Input {
        code: *derive.code,
        config: config(&derive.config),
        authority: *derive.authority,
        mode: derive.mode,
        hidden: hidden(derive),
    }
}

fn root(alloc: Global, handle: [u8; 16], default: bool) -> PlainRow
    ensures { row_of result ≡ root_of handle default }
{
    PlainRow {
        handle,
        locality: 0,
        may_derive: true,
        default,
        lineage: Vec::new(alloc),
    }
}

fn child(
    alloc: Global,
    state: &PlainState,
    locality: u8,
    random: &[u8; 32],
    derive: &Derive<'_>,
    row: &PlainRow,
) -> Result<PlainRow, AllocError>
    ensures { IfOk result (λ r. row_of r
        ≡ child_of (state_of state.now) locality random.now (derive_request derive.now) (row_of row.now)) }
{
    let mut lineage = Vec::from_slice(alloc, &row.lineage)?;
    lineage.push(Birth {
        serial: state.next,
        input: input_of(derive),
    })?;
    Ok(PlainRow {
        handle: new0(state, random),
        locality: target(locality, derive),
        may_derive: derive.may_derive,
        default: derive.child_default,
        lineage,
    })
}

// The row behind the others.
fn with_row(mut rows: Vec<PlainRow>, row: PlainRow) -> Result<Vec<PlainRow>, AllocError>
    ensures { IfOk result (λ more. rows_of more.items ≡ rows_of rows.items ++ row_of row ∷ []) }
{
    rows.push(row)?;
    Ok(rows)
}

// The row under the first new handle, where it is retained, behind the others.
fn with_retained(
    alloc: Global,
    state: &PlainState,
    random: &[u8; 32],
    row: &PlainRow,
    retain: bool,
    rows: Vec<PlainRow>,
) -> Result<Vec<PlainRow>, AllocError>
    ensures { IfOk result (λ more. rows_of more.items ≡ rows_of rows.items
        ++ kept (state_of state.now) random.now (row_of row.now) retain) }
{
    if !retain {
        return Ok(rows);
    }
    with_row(rows, under_handle(alloc, row, &new0(state, random))?)
}

// The row under the first new handle, as a default of its locality or as none, behind the others.
fn with_rotated(
    alloc: Global,
    state: &PlainState,
    random: &[u8; 32],
    row: &PlainRow,
    default: bool,
    rows: Vec<PlainRow>,
) -> Result<Vec<PlainRow>, AllocError>
    ensures { IfOk result (λ more. rows_of more.items ≡ rows_of rows.items
        ++ marked (renamed (row_of row.now) (new0_of (state_of state.now) random.now)) default ∷ []) }
{
    let row = under_handle(alloc, row, &new0(state, random))?;
    with_row(rows, PlainRow { default, ..row })
}

// The parent under the second new handle, where it is retained, behind the others.
fn with_parent(
    alloc: Global,
    state: &PlainState,
    random: &[u8; 32],
    row: &PlainRow,
    retain: bool,
    rows: Vec<PlainRow>,
) -> Result<Vec<PlainRow>, AllocError>
    requires { state.now.next + (if retain then 2 else 1) ≤ last_serial }
    ensures { IfOk result (λ more. rows_of more.items ≡ rows_of rows.items
        ++ (if retain then renamed (row_of row.now) (new1_of (state_of state.now) random.now) ∷ [] else [])) }
{
    if !retain {
        return Ok(rows);
    }
    with_row(rows, under_handle(alloc, row, &new1(state, random))?)
}

fn rows_left_with(
    alloc: Global,
    command: &Command<'_>,
    row: &PlainRow,
    rows: &[PlainRow],
) -> Result<Vec<PlainRow>, AllocError>
    ensures { IfOk result (λ left. rows_of left.items
        ≡ left_by (request_of command.now) (Some (row_of row.now)) (rows_of rows.now)) }
{
    let left = taken_out(alloc, row, rows)?;
    match command {
        Command::Destroy { recursive, .. } => {
            if *recursive {
                family_out(alloc, row, &left)
            } else {
                Ok(left)
            }
        }
        Command::GetProfile => Ok(left),
        Command::Initialize { .. } => Ok(left),
        Command::Derive(_) => Ok(left),
        Command::Sign(_) => Ok(left),
        Command::Seal(_) => Ok(left),
        Command::Unseal(_) => Ok(left),
        Command::Rotate { .. } => Ok(left),
    }
}

fn rows_left(
    alloc: Global,
    command: &Command<'_>,
    row: Option<&PlainRow>,
    rows: &[PlainRow],
) -> Result<Vec<PlainRow>, AllocError>
    ensures { IfOk result (λ left. rows_of left.items
        ≡ left_by (request_of command.now) (seen row.entry) (rows_of rows.now)) }
{
    match row {
        None => copied(alloc, rows),
        Some(row) => rows_left_with(alloc, command, row, rows),
    }
}

fn with_child(
    alloc: Global,
    state: &PlainState,
    locality: u8,
    random: &[u8; 32],
    derive: &Derive<'_>,
    row: &PlainRow,
    rows: Vec<PlainRow>,
) -> Result<Vec<PlainRow>, AllocError>
    requires { state.now.next + (if derive.now.retain then 2 else 1) ≤ last_serial }
    ensures { IfOk result (λ more. rows_of more.items ≡ rows_of rows.items
        ++ rows_made_by (state_of state.now) locality random.now (derive_of (derive_request derive.now))
        (Some (row_of row.now))) }
{
    let rows = with_row(rows, child(alloc, state, locality, random, derive, row)?)?;
    with_parent(alloc, state, random, row, derive.retain, rows)
}

fn rows_made_with(
    alloc: Global,
    state: &PlainState,
    locality: u8,
    random: &[u8; 32],
    command: &Command<'_>,
    row: &PlainRow,
    rows: Vec<PlainRow>,
) -> Result<Vec<PlainRow>, AllocError>
    requires { state.now.next + made_by (request_of command.now) ≤ last_serial }
    ensures { IfOk result (λ more. rows_of more.items ≡ rows_of rows.items
        ++ rows_made_by (state_of state.now) locality random.now (request_of command.now) (Some (row_of row.now))) }
{
    match command {
        Command::Derive(derive) => with_child(alloc, state, locality, random, derive, row, rows),
        Command::Sign(sign) => with_retained(alloc, state, random, row, sign.retain, rows),
        Command::Seal(seal) => with_retained(alloc, state, random, row, seal.retain, rows),
        Command::Unseal(unseal) => with_retained(alloc, state, random, row, unseal.retain, rows),
        Command::Rotate { default, .. } => with_rotated(alloc, state, random, row, *default, rows),
        Command::GetProfile => Ok(rows),
        Command::Initialize { .. } => Ok(rows),
        Command::Destroy { .. } => Ok(rows),
    }
}

fn rows_made_without(
    alloc: Global,
    state: &PlainState,
    locality: u8,
    random: &[u8; 32],
    command: &Command<'_>,
    rows: Vec<PlainRow>,
) -> Result<Vec<PlainRow>, AllocError>
    ensures { IfOk result (λ more. rows_of more.items ≡ rows_of rows.items
        ++ rows_made_by (state_of state.now) locality random.now (request_of command.now) None) }
{
    match command {
        Command::Initialize { default } => with_row(
            rows,
            root(alloc, new0(state, random), *default),
        ),
        Command::GetProfile => Ok(rows),
        Command::Derive(_) => Ok(rows),
        Command::Sign(_) => Ok(rows),
        Command::Seal(_) => Ok(rows),
        Command::Unseal(_) => Ok(rows),
        Command::Rotate { .. } => Ok(rows),
        Command::Destroy { .. } => Ok(rows),
    }
}

/// The rows that an accepted command leaves, and behind them those that it makes.
pub fn rows_after(
    alloc: Global,
    state: &PlainState,
    locality: u8,
    random: &[u8; 32],
    command: &Command<'_>,
    row: Option<&PlainRow>,
) -> Result<Vec<PlainRow>, AllocError>
    requires { state.now.next + made_by (request_of command.now) ≤ last_serial }
    ensures { IfOk result (λ rows. rows_of rows.items
        ≡ left_by (request_of command.now) (seen row.entry) (state_of state.now).rows
        ++ rows_made_by (state_of state.now) locality random.now (request_of command.now) (seen row.entry)) }
{
    let left = rows_left(alloc, command, row, &state.rows)?;
    match row {
        None => rows_made_without(alloc, state, locality, random, command, left),
        Some(row) => rows_made_with(alloc, state, locality, random, command, row, left),
    }
}
