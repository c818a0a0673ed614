//! The step as it is defined: rows with whole lineages, and each path folded at each use.
ghost use Rattle.std.specs.Prelude.{◌≡◌, ◌+◌, ◌<◌, ◌≤◌, ◌||◌, ℕ, length, take, slice_get, IfOk, OnErr, Some};
ghost use Rattle.std.specs.Option.{option_map};
ghost use Rattle.dpe_messages.specs.Commands.{request_of, refusal_code};
ghost use Rattle.dpe_messages.specs.Ranges.{InRanges};
ghost use Rattle.dpe_messages.specs.Replies.{payload_limit, depth_limit, refusal as refusal_payload};
ghost use Rattle.dpe_model.specs.State.{start, last_serial, Valid};
ghost use Rattle.dpe_model.specs.Verdict.{makes as made_by, initializes as is_initialize};
ghost use Rattle.dpe_model.specs.Step.{step, obeyed, IsReply};
ghost use Rattle.dpe_model.specs.Plain.{row_of, rows_of};
ghost use Rattle.dpe_model.specs.PlainState.{state_of};
ghost use Rattle.dpe_model.specs.LiveRows.{live_of};

use crate::answers::answer;
use crate::asked::{initializes, makes};
use crate::codes::{INVALID_ARGUMENT, INVALID_COMMAND, UNSUPPORTED};
use crate::effect::rows_after;
use crate::rows::PlainRow;
use crate::state::{PlainState, mode, used};
use crate::verdict::verdict;
use dpe_messages::{Command, Refusal, Reply, read_payload, write_reply};
use std::alloc::{AllocError, Global};
use std::marker::Model;

/// What is told of a live context.
#[derive(Clone, Copy, Debug, PartialEq, Eq)]
pub struct LiveRow {
    pub handle: [u8; 16],
    /// 0 to 7.
    pub locality: u8,
    /// How many inputs its path has, 0 to 32.
    pub depth: u8,
    /// The mode of its last input, or 0.
    pub mode: u8,
    pub may_derive: bool,
}

/// Evaluates commands by the definition of the step.
#[derive(Drop)]
pub struct Plain {
    seed: [u8; 32],
    state: PlainState,
}

impl Model for Plain {
    ghost use Rattle.dpe_model.specs.State.{Machine};

    ghost Value = { Machine };

    ghost use Rattle.dpe_model.specs.PlainView.{view_of, IsPlain};

    ghost view = { view_of };

    ghost invariant = { IsPlain };
}

fn is_made(state: &PlainState, command: &Command<'_>) -> bool
    ensures { result ≡ state.now.made || is_initialize (request_of command.now) }
{
    state.made || initializes(command)
}

// Takes over what an accepted command leaves.
fn advance(state: &mut PlainState, command: &Command<'_>, rows: Vec<PlainRow>)
    requires { state.old.next + made_by (request_of command.now) ≤ last_serial }
    ensures { state_of state.new ≡ record {
      first = state.old.first;
      next = state.old.next + made_by (request_of command.now);
      made = state.old.made || is_initialize (request_of command.now);
      rows = rows_of rows.items;
    } }
{
    state.made = is_made(state, command);
    state.next += makes(command);
    state.rows = rows;
}

// Refuses or executes a command. Where memory is wanted, the state stays.
fn obey(
    alloc: Global,
    seed: &[u8; 32],
    state: &mut PlainState,
    locality: u8,
    random: &[u8; 32],
    command: &Command<'_>,
    out: &mut [u8; 4096],
) -> Result<usize, AllocError>
    requires { InRanges (request_of command.now) }
    ensures reply { IfOk result (λ n. IsReply out.new n
        (obeyed seed.now (state_of state.old) locality random.now (request_of command.now))) }
    ensures state { IfOk result (λ _. state_of state.new
        ≡ (obeyed seed.now (state_of state.old) locality random.now (request_of command.now)).state) }
    ensures unchanged { OnErr result (state.new ≡ state.old) }
{
    if let Some(code) = verdict(seed, state, locality, command) {
        return Ok(write_reply(&Reply::Refused(code), out));
    }
    let row = used(state, locality, command);
    let rows = rows_after(alloc, state, locality, random, command, row)?;
    let len = answer(seed, state, random, command, row, out);
    advance(state, command, rows);
    Ok(len)
}

// Writes the refusal of a payload that is no command.
fn refuse(refusal: &Refusal, out: &mut [u8; 4096]) -> usize
    ensures within { result ≤ 4096 }
    ensures written { take result out.new ≡ refusal_payload (refusal_code refusal.now) }
{
    match refusal {
        Refusal::NotACommand => write_reply(&Reply::Refused(INVALID_COMMAND), out),
        Refusal::Unsupported => write_reply(&Reply::Refused(UNSUPPORTED), out),
        Refusal::BadArguments => write_reply(&Reply::Refused(INVALID_ARGUMENT), out),
    }
}

fn live_row(row: &PlainRow) -> LiveRow
    requires { length row.now.lineage.items ≤ depth_limit }
    ensures { result ≡ live_of (row_of row.now) }
{
    LiveRow {
        handle: row.handle,
        locality: row.locality,
        depth: row.lineage.len() as u8,
        mode: mode(row),
        may_derive: row.may_derive,
    }
}

impl Plain {
    /// The evaluator before any command. It takes no memory.
    pub fn make(alloc: Global, seed: &[u8; 32], first_serial: u64) -> Plain
        ensures { result ≡ record { seed = seed.now; state = start first_serial } }
    {
        Plain {
            seed: *seed,
            state: PlainState {
                first: first_serial,
                next: first_serial,
                made: false,
                rows: Vec::new(alloc),
            },
        }
    }

    /// Executes one command of a caller at a locality, with 32 random bytes. The payload has at most 4,096
    /// bytes. The reply's payload stands in the first bytes of `out`, as many as the answer says. After an
    /// error the state is as it was.
    pub fn execute(
        &mut self,
        alloc: Global,
        locality: u8,
        random: &[u8; 32],
        payload: &[u8],
        out: &mut [u8; 4096],
    ) -> Result<usize, AllocError>
        requires locality { locality ≤ 7 }
        requires payload { length payload.now ≤ payload_limit }
        ensures reply { IfOk result (λ n. IsReply out.new n
            (step self.old.seed self.old.state locality random.now payload.now)) }
        ensures state { IfOk result (λ _. self.new
            ≡ record self.old { state = (step self.old.seed self.old.state locality random.now payload.now).state }) }
        ensures unchanged { OnErr result (self.new ≡ self.old) }
    {
        match read_payload(payload) {
            Err(refusal) => Ok(refuse(&refusal, out)),
            Ok(command) => obey(
                alloc,
                &self.seed,
                &mut self.state,
                locality,
                random,
                &command,
                out,
            ),
        }
    }

    /// How many contexts live. The rows stand in the order of their handles' serials.
    pub fn live(&self) -> u32
        ensures live { result ≡ length self.now.state.rows }
        ensures valid { Valid self.now.state }
    {
        self.state.rows.len() as u32
    }

    /// The live context at a place.
    pub fn row(&self, at: u32) -> LiveRow
        requires { at < length self.now.state.rows }
        ensures { option_map live_of (slice_get self.now.state.rows at) ≡ Some result }
    {
        live_row(&self.state.rows[at as usize])
    }
}
