//! The state of the slow evaluator, and what is read off it.
ghost use Rattle.std.specs.Prelude.{◌≡◌, ◌<◌, ◌+◌, ◌^◌, Option};
ghost use Rattle.dpe_messages.specs.Commands.{request_of};
ghost use Rattle.dpe_inputs.specs.Cdi.{attest_cdi, seal_cdi};
ghost use Rattle.dpe_model.specs.State.{path, mode as mode_of};
ghost use Rattle.dpe_model.specs.Verdict.{used as used_by};
ghost use Rattle.dpe_model.specs.Step.{new0 as new0_of, new1 as new1_of};
ghost use Rattle.dpe_model.specs.Plain.{row_of};
ghost use Rattle.dpe_model.specs.PlainState.{seen, state_of};

use crate::asked::{named, uses_row};
use crate::rows::{PlainRow, find_default, find_row};
use dpe_inputs::{Cdis, Count, first, next};
use dpe_messages::Command;

/// The serials, whether a root was ever made, and the live contexts.
#[derive(Drop)]
pub struct PlainState {
    pub first: u64,
    pub next: u64,
    pub made: bool,
    pub rows: Vec<PlainRow>,
}

/// The row that a command uses.
pub fn used<'a>(state: &'a PlainState, locality: u8, command: &Command<'_>) -> Option<&'a PlainRow>
    ensures { seen result ≡ used_by (state_of state.now) locality (request_of command.now) }
{
    if !uses_row(command) {
        return None;
    }
    match named(command) {
        None => find_default(&state.rows, locality),
        Some(handle) => find_row(&state.rows, handle),
    }
}

/// The CDIs of a row, folded from the seed on.
pub fn cdis(seed: &[u8; 32], row: &PlainRow) -> Cdis
    ensures attest { result.attest ≡ attest_cdi seed.now (path (row_of row.now)) }
    ensures seal { result.seal ≡ seal_cdi seed.now (path (row_of row.now)) }
{
    let mut cdis = first(seed);
    let mut folds = Count::new();
    for birth in &row.lineage {
        cdis = next(&cdis, &birth.input, &mut folds);
    }
    cdis
}

/// The mode of the last input of a row, or 0.
pub fn mode(row: &PlainRow) -> u8
    ensures { result ≡ mode_of (row_of row.now) }
{
    match row.lineage.last() {
        None => 0,
        Some(birth) => birth.input.mode,
    }
}

/// The first handle that a command makes.
pub fn new0(state: &PlainState, random: &[u8; 32]) -> [u8; 16]
    ensures { result ≡ new0_of (state_of state.now) random.now }
{
    let mut handle = [0; 16];
    handle[..8].copy_from_slice(&state.next.to_be_bytes());
    handle[8..].copy_from_slice(&random[..8]);
    handle
}

/// The second handle that a command makes.
pub fn new1(state: &PlainState, random: &[u8; 32]) -> [u8; 16]
    requires { state.now.next + 1 < 2 ^ 64 }
    ensures { result ≡ new1_of (state_of state.now) random.now }
{
    let mut handle = [0; 16];
    handle[..8].copy_from_slice(&(state.next + 1).to_be_bytes());
    handle[8..].copy_from_slice(&random[8..16]);
    handle
}
