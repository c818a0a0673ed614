//! The tests of a command, in their order.
ghost use Rattle.std.specs.Prelude.{◌≡◌, ◌+◌, ◌≤◌, ◌==◌, ◌&&◌, not, false, nat_lt, Option, is_none, is_some, length, IfSome, IfNone};
ghost use Rattle.dpe_box.specs.Sealed.{opened};
ghost use Rattle.dpe_messages.specs.Commands.{request_of};
ghost use Rattle.dpe_messages.specs.Ranges.{InRanges};
ghost use Rattle.dpe_messages.specs.Replies.{context_limit, depth_limit, IsRefusalCode};
ghost use Rattle.dpe_model.specs.State.{depth, last_serial};
ghost use Rattle.dpe_model.specs.Verdict.{has, named as named_by, uses_row as uses_context, to_mark as marks_at, is_taken as is_taken_by, makes as made_by, initializes as is_initialize, derives as is_derive, retains_parent as keeps_parent, tests as tests_of, first_code as first_of, verdict as verdict_of};
ghost use Rattle.dpe_model.specs.Plain.{row_of};
ghost use Rattle.dpe_model.specs.PlainState.{seen, state_of, box_tests as tests_of_opening, box_tests_at};

use crate::asked::{derives, initializes, makes, named, retains_parent, target, uses_row};
use crate::codes::{
    BOX_MALFORMED, BOX_REFUSED, CONTEXTS_FULL, DEFAULT_TAKEN, DERIVE_NOT_ALLOWED, NO_DEFAULT,
    NO_SUCH_HANDLE, POLICY_REFUSED, ROOT_LOCALITY, SEED_LOCKED, SERIALS_SPENT, TOO_DEEP,
    WRONG_LOCALITY,
};
use crate::rows::{PlainRow, is_default_elsewhere, is_default_of};
use crate::state::{PlainState, cdis, mode, used};
use dpe_box::{NotOpened, admits, open_box};
use dpe_messages::Command;

/// How many contexts live at once.
const CONTEXT_LIMIT: usize = 1024;

/// How many derivations there are between the root and a context.
const DEPTH_LIMIT: usize = 32;

/// What the tests of a box say.
#[derive(Clone, Copy)]
pub struct BoxTests {
    pub malformed: bool,
    pub refused: bool,
    pub policy_refused: bool,
}

// Initializing, away from locality 0.
fn is_outside_root_locality(locality: u8, command: &Command<'_>) -> bool
    ensures { result ≡ is_initialize (request_of command.now) && not (locality == 0) }
{
    initializes(command) && locality != 0
}

// Initializing, after a root was made.
fn is_seed_locked(state: &PlainState, command: &Command<'_>) -> bool
    ensures { result ≡ is_initialize (request_of command.now) && state.now.made }
{
    initializes(command) && state.made
}

fn is_without_row(command: &Command<'_>, row: Option<&PlainRow>) -> bool
    ensures { result ≡ is_none (seen row.entry) && is_some (named_by (request_of command.now)) }
{
    row.is_none() && named(command).is_some()
}

// Without a handle, where the caller's locality has no default.
fn is_without_default(command: &Command<'_>, row: Option<&PlainRow>) -> bool
    ensures { result ≡ is_none (seen row.entry) && uses_context (request_of command.now)
        && is_none (named_by (request_of command.now)) }
{
    row.is_none() && uses_row(command) && named(command).is_none()
}

fn is_of_other_locality(locality: u8, row: Option<&PlainRow>) -> bool
    ensures { result ≡ has (seen row.entry) (λ r. not (r.locality == locality)) }
{
    match row {
        None => false,
        Some(row) => row.locality != locality,
    }
}

fn may_not_derive(row: Option<&PlainRow>) -> bool
    ensures { result ≡ has (seen row.entry) (λ r. not r.may_derive) }
{
    match row {
        None => false,
        Some(row) => !row.may_derive,
    }
}

fn is_deepest(row: Option<&PlainRow>) -> bool
    ensures { result ≡ has (seen row.entry) (λ r. depth r == depth_limit) }
{
    match row {
        None => false,
        Some(row) => row.lineage.len() == DEPTH_LIMIT,
    }
}

fn is_derivation_not_allowed(command: &Command<'_>, row: Option<&PlainRow>) -> bool
    ensures { result ≡ is_derive (request_of command.now) && has (seen row.entry) (λ r. not r.may_derive) }
{
    derives(command) && may_not_derive(row)
}

fn is_too_deep(command: &Command<'_>, row: Option<&PlainRow>) -> bool
    ensures { result ≡ is_derive (request_of command.now) && has (seen row.entry) (λ r. depth r == depth_limit) }
{
    derives(command) && is_deepest(row)
}

fn is_full(state: &PlainState, command: &Command<'_>) -> bool
    ensures { result ≡ keeps_parent (request_of command.now) && (length (state_of state.now).rows == context_limit) }
{
    retains_parent(command) && state.rows.len() == CONTEXT_LIMIT
}

// The locality whose default a command is to make, if it is to make one.
fn to_mark(locality: u8, command: &Command<'_>, row: &PlainRow) -> Option<u8>
    ensures { result ≡ marks_at locality (request_of command.now) (row_of row.now) }
{
    match command {
        Command::Derive(derive) => {
            if derive.child_default {
                Some(target(locality, derive))
            } else {
                None
            }
        }
        Command::Rotate { default, .. } => { if *default { Some(row.locality) } else { None } }
        _ => None,
    }
}

// Whether a default of the locality stands that stays.
fn is_taken(state: &PlainState, command: &Command<'_>, row: &PlainRow, locality: u8) -> bool
    ensures { result ≡ is_taken_by (state_of state.now).rows (keeps_parent (request_of command.now)) (row_of row.now) locality }
{
    is_default_elsewhere(&state.rows, row, locality)
        || retains_parent(command) && is_default_of(locality, row)
}

fn is_default_taken_beside(
    state: &PlainState,
    locality: u8,
    command: &Command<'_>,
    row: &PlainRow,
) -> bool
    ensures { result ≡ has (marks_at locality (request_of command.now) (row_of row.now))
        (is_taken_by (state_of state.now).rows (keeps_parent (request_of command.now)) (row_of row.now)) }
{
    match to_mark(locality, command, row) {
        None => false,
        Some(marked) => is_taken(state, command, row, marked),
    }
}

fn is_default_taken(
    state: &PlainState,
    locality: u8,
    command: &Command<'_>,
    row: Option<&PlainRow>,
) -> bool
    ensures { result ≡ has (seen row.entry) (λ r. has (marks_at locality (request_of command.now) r)
        (is_taken_by (state_of state.now).rows (keeps_parent (request_of command.now)) r)) }
{
    match row {
        None => false,
        Some(row) => is_default_taken_beside(state, locality, command, row),
    }
}

fn is_out_of_serials(state: &PlainState, command: &Command<'_>) -> bool
    ensures { result ≡ nat_lt last_serial (state.now.next + made_by (request_of command.now)) }
{
    makes(command) > u64::MAX - state.next
}

// What opening a box tells.
fn box_tests_of(cdi: &[u8; 32], label: &[u8], sealed: &[u8], locality: u8, mode: u8) -> BoxTests
    requires { length label.now ≤ 64 }
    ensures { result ≡ tests_of_opening locality mode (opened cdi.now label.now sealed.now) }
{
    let mut text = [0; 2048];
    match open_box(cdi, label, sealed, &mut text) {
        Ok(found) => BoxTests {
            malformed: false,
            refused: false,
            policy_refused: !admits(&found.policy, locality, mode),
        },
        Err(NotOpened::Malformed) => BoxTests {
            malformed: true,
            refused: false,
            policy_refused: false,
        },
        Err(NotOpened::Refused) => BoxTests {
            malformed: false,
            refused: true,
            policy_refused: false,
        },
    }
}

fn no_box() -> BoxTests
    ensures { result ≡ record { malformed = false; refused = false; policy_refused = false } }
{
    BoxTests {
        malformed: false,
        refused: false,
        policy_refused: false,
    }
}

// The tests of the box of an Unseal, under the sealing CDI of the row.
fn box_tests(
    seed: &[u8; 32],
    locality: u8,
    command: &Command<'_>,
    row: Option<&PlainRow>,
) -> BoxTests
    requires { InRanges (request_of command.now) }
    ensures { result ≡ box_tests_at seed.now locality (request_of command.now) (seen row.entry) }
{
    let Some(row) = row else {
        return no_box();
    };
    match command {
        Command::Unseal(unseal) => box_tests_of(
            &cdis(seed, row).seal,
            unseal.label,
            unseal.sealed,
            locality,
            mode(row),
        ),
        Command::GetProfile => no_box(),
        Command::Initialize { .. } => no_box(),
        Command::Derive(_) => no_box(),
        Command::Sign(_) => no_box(),
        Command::Seal(_) => no_box(),
        Command::Rotate { .. } => no_box(),
        Command::Destroy { .. } => no_box(),
    }
}

// Each test with its code, in their order.
fn tests(
    seed: &[u8; 32],
    state: &PlainState,
    locality: u8,
    command: &Command<'_>,
    row: Option<&PlainRow>,
) -> [(bool, u8); 13]
    requires { InRanges (request_of command.now) }
    ensures { result ≡ tests_of seed.now (state_of state.now) locality (request_of command.now) (seen row.entry) }
{
    let opening = box_tests(seed, locality, command, row);
    [
        (is_outside_root_locality(locality, command), ROOT_LOCALITY),
        (is_seed_locked(state, command), SEED_LOCKED),
        (is_without_row(command, row), NO_SUCH_HANDLE),
        (is_without_default(command, row), NO_DEFAULT),
        (is_of_other_locality(locality, row), WRONG_LOCALITY),
        (is_derivation_not_allowed(command, row), DERIVE_NOT_ALLOWED),
        (is_too_deep(command, row), TOO_DEEP),
        (is_full(state, command), CONTEXTS_FULL),
        (
            is_default_taken(state, locality, command, row),
            DEFAULT_TAKEN,
        ),
        (is_out_of_serials(state, command), SERIALS_SPENT),
        (opening.malformed, BOX_MALFORMED),
        (opening.refused, BOX_REFUSED),
        (opening.policy_refused, POLICY_REFUSED),
    ]
}

// The code of the first test that holds.
fn first_code(tests: &[(bool, u8)]) -> Option<u8>
    ensures { result ≡ first_of tests.now }
{
    for test in tests {
        if test.0 {
            return Some(test.1);
        }
    }
    None
}

/// The code by which a command is refused, if it is.
pub fn verdict(
    seed: &[u8; 32],
    state: &PlainState,
    locality: u8,
    command: &Command<'_>,
) -> Option<u8>
    requires { InRanges (request_of command.now) }
    ensures code { result ≡ verdict_of seed.now (state_of state.now) locality (request_of command.now) }
    ensures coded { IfSome result IsRefusalCode }
    ensures serials { IfNone result (state.now.next + made_by (request_of command.now) ≤ last_serial) }
{
    let row = used(state, locality, command);
    first_code(&tests(seed, state, locality, command, row))
}
