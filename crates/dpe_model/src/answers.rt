//! The replies to accepted commands.
ghost use Rattle.std.specs.Prelude.{◌≡◌, ◌+◌, ◌≤◌, ℕ, List, length, Option, Some, None, if◌then◌else◌};
ghost use Rattle.dpe_messages.specs.Commands.{request_of, sign_request, seal_request, unseal_request};
ghost use Rattle.dpe_messages.specs.Ranges.{InRanges, IsSign, IsSeal, IsUnseal};
ghost use Rattle.dpe_messages.specs.Replies.{made};
ghost use Rattle.dpe_messages.specs.Request.{sign as sign_of, seal as seal_of, unseal as unseal_of};
ghost use Rattle.dpe_model.specs.State.{last_serial};
ghost use Rattle.dpe_model.specs.Verdict.{makes as made_by};
ghost use Rattle.dpe_model.specs.Step.{new1 as new1_of, new_if as new_if_of, salt_of as salt_in, answer as answer_of, IsPayload};
ghost use Rattle.dpe_model.specs.Plain.{row_of};
ghost use Rattle.dpe_model.specs.PlainState.{seen, state_of};

use crate::rows::PlainRow;
use crate::state::{PlainState, cdis, new0, new1};
use dpe_box::{Policy, open_box, seal};
use dpe_inputs::signature;
use dpe_messages::{Command, Reply, Seal, Sign, Unseal, write_reply};

fn new_if(state: &PlainState, random: &[u8; 32], retain: bool) -> Option<[u8; 16]>
    ensures { result ≡ new_if_of (state_of state.now) random.now retain }
{
    if retain {
        Some(new0(state, random))
    } else {
        None
    }
}

fn new_parent(state: &PlainState, random: &[u8; 32], retain: bool) -> Option<[u8; 16]>
    requires { state.now.next + (if retain then 2 else 1) ≤ last_serial }
    ensures { result ≡ (if retain then Some (new1_of (state_of state.now) random.now) else None) }
{
    if retain {
        Some(new1(state, random))
    } else {
        None
    }
}

fn salt_of(random: &[u8; 32]) -> [u8; 16]
    ensures { result ≡ salt_in random.now }
{
    let mut salt = [0; 16];
    let (_, last) = random.split_at(16);
    salt.copy_from_slice(last);
    salt
}

// Bytes, with the new handle where the context is retained.
fn write_made(handle: Option<[u8; 16]>, bytes: &[u8], out: &mut [u8; 4096]) -> usize
    requires { length bytes.now ≤ 2133 }
    ensures { IsPayload out.new result (made handle bytes.now) }
{
    write_reply(&Reply::Made { handle, bytes }, out)
}

fn write_signature(
    seed: &[u8; 32],
    state: &PlainState,
    random: &[u8; 32],
    sign: &Sign<'_>,
    row: &PlainRow,
    out: &mut [u8; 4096],
) -> usize
    requires { IsSign (sign_request sign.now) }
    ensures { IsPayload out.new result
        (answer_of seed.now (state_of state.now) random.now (sign_of (sign_request sign.now)) (Some (row_of row.now))) }
{
    let signature = signature(&cdis(seed, row), sign.label, sign.message);
    write_made(new_if(state, random, sign.retain), &signature, out)
}

fn write_box(
    seed: &[u8; 32],
    state: &PlainState,
    random: &[u8; 32],
    request: &Seal<'_>,
    row: &PlainRow,
    out: &mut [u8; 4096],
) -> usize
    requires { IsSeal (seal_request request.now) }
    ensures { IsPayload out.new result
        (answer_of seed.now (state_of state.now) random.now (seal_of (seal_request request.now)) (Some (row_of row.now))) }
{
    let policy = Policy {
        localities: request.localities,
        modes: request.modes,
    };
    let mut sealed = [0; 4096];
    let len = seal(
        &cdis(seed, row).seal,
        request.label,
        &policy,
        &salt_of(random),
        request.plain,
        &mut sealed,
    );
    write_made(new_if(state, random, request.retain), &sealed[..len], out)
}

fn write_text(
    seed: &[u8; 32],
    state: &PlainState,
    random: &[u8; 32],
    request: &Unseal<'_>,
    row: &PlainRow,
    out: &mut [u8; 4096],
) -> usize
    requires { IsUnseal (unseal_request request.now) }
    ensures { IsPayload out.new result
        (answer_of seed.now (state_of state.now) random.now (unseal_of (unseal_request request.now)) (Some (row_of row.now))) }
{
    let handle = new_if(state, random, request.retain);
    let mut text = [0; 2048];
    match open_box(
        &cdis(seed, row).seal,
        request.label,
        request.sealed,
        &mut text,
    ) {
        Ok(found) => write_made(handle, &text[..found.len], out),
        Err(_) => write_made(handle, &[], out),
    }
}

fn answer_without_row(
    state: &PlainState,
    random: &[u8; 32],
    command: &Command<'_>,
    out: &mut [u8; 4096],
) -> usize
    ensures { (seed : List ℕ) → IsPayload out.new result
        (answer_of seed (state_of state.now) random.now (request_of command.now) None) }
{
    match command {
        Command::GetProfile => write_reply(&Reply::Profile, out),
        Command::Initialize { .. } => write_reply(&Reply::Handle(new0(state, random)), out),
        Command::Derive(_) => write_reply(&Reply::Done, out),
        Command::Sign(_) => write_reply(&Reply::Done, out),
        Command::Seal(_) => write_reply(&Reply::Done, out),
        Command::Unseal(_) => write_reply(&Reply::Done, out),
        Command::Rotate { .. } => write_reply(&Reply::Done, out),
        Command::Destroy { .. } => write_reply(&Reply::Done, out),
    }
}

fn answer_with_row(
    seed: &[u8; 32],
    state: &PlainState,
    random: &[u8; 32],
    command: &Command<'_>,
    row: &PlainRow,
    out: &mut [u8; 4096],
) -> usize
    requires ranges { InRanges (request_of command.now) }
    requires serials { state.now.next + made_by (request_of command.now) ≤ last_serial }
    ensures { IsPayload out.new result
        (answer_of seed.now (state_of state.now) random.now (request_of command.now) (Some (row_of row.now))) }
{
    match command {
        Command::Derive(derive) => {
            let child = new0(state, random);
            let parent = new_parent(state, random, derive.retain);
            write_reply(&Reply::Derived { child, parent }, out)
        }
        Command::Sign(sign) => write_signature(seed, state, random, sign, row, out),
        Command::Seal(request) => write_box(seed, state, random, request, row, out),
        Command::Unseal(request) => write_text(seed, state, random, request, row, out),
        Command::Rotate { .. } => write_reply(&Reply::Handle(new0(state, random)), out),
        Command::GetProfile => write_reply(&Reply::Done, out),
        Command::Initialize { .. } => write_reply(&Reply::Done, out),
        Command::Destroy { .. } => write_reply(&Reply::Done, out),
    }
}

/// Writes the reply to an accepted command, and answers its length.
pub fn answer(
    seed: &[u8; 32],
    state: &PlainState,
    random: &[u8; 32],
    command: &Command<'_>,
    row: Option<&PlainRow>,
    out: &mut [u8; 4096],
) -> usize
    requires ranges { InRanges (request_of command.now) }
    requires serials { state.now.next + made_by (request_of command.now) ≤ last_serial }
    ensures { IsPayload out.new result
        (answer_of seed.now (state_of state.now) random.now (request_of command.now) (seen row.entry)) }
{
    match row {
        None => answer_without_row(state, random, command, out),
        Some(row) => answer_with_row(seed, state, random, command, row, out),
    }
}
