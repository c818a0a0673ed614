//! Commands executed one after another, over contexts whose CDIs are kept.
ghost use Rattle.std.specs.Prelude.{◌≡◌, ◌<◌, ◌≤◌, drop, length, slice_get, IfOk, Some};
ghost use Rattle.std.specs.Option.{option_map};
ghost use Rattle.dpe_core.specs.Folds.{folds_at, metered};
ghost use Rattle.dpe_messages.specs.Replies.{payload_limit};
ghost use Rattle.dpe_model.specs.LiveRows.{live_of};
ghost use Rattle.dpe_model.specs.State.{start, Valid};
ghost use Rattle.dpe_model.specs.Step.{step, IsReply};

use crate::contexts::Contexts;
use crate::replies::{code, refuse};
use crate::state::CoreState;
use dpe_inputs::{Meter, Unsalted};
use dpe_messages::read_payload;
use dpe_model::LiveRow;
use std::alloc::{AllocError, Global};
use std::marker::Model;

/// Executes commands, each as one step of the sequential DPE.
#[derive(Drop)]
pub struct Core {
    state: CoreState,
}

impl Model for Core {
    ghost use Rattle.dpe_model.specs.State.{Machine};

    ghost Value = { Machine };

    ghost use Rattle.dpe_core.specs.CoreView.{view_of, IsCore};

    ghost view = { view_of };

    ghost invariant = { IsCore };
}

impl Core {
    /// The executor before any command. All memory that it ever uses is taken here.
    pub fn make(alloc: Global, seed: &[u8; 32], first_serial: u64) -> Result<Core, AllocError>
        ensures { IfOk result (λ core. core ≡ record { seed = seed.now; state = start first_serial }) }
    {
        let contexts = Contexts::make(alloc, seed)?;
        Ok(Core {
            state: CoreState {
                first: first_serial,
                next: first_serial,
                made: false,
                contexts,
                unsalted: Unsalted::new(),
            },
        })
    }

    /// Executes one command of a caller at a locality, with 32 random bytes. The payload has at most 4,096 bytes. The
    /// reply's payload stands in the first bytes of `out`, as many as the answer says; those behind stay. Every
    /// refusal is a reply, and changes nothing. The meter counts one fold where the command is an accepted DeriveContext.
    pub fn execute<M: Meter>(
        &mut self,
        locality: u8,
        random: &[u8; 32],
        payload: &[u8],
        out: &mut [u8; 4096],
        meter: &mut M,
    ) -> usize
        requires locality { locality ≤ 7 }
        requires payload { length payload.now ≤ payload_limit }
        ensures reply { IsReply out.new result (step self.old.seed self.old.state locality random.now payload.now) }
        ensures behind { drop result out.new ≡ drop result out.old }
        ensures state { self.new
            ≡ record self.old { state = (step self.old.seed self.old.state locality random.now payload.now).state } }
        ensures valid { Valid self.new.state }
        ensures folds { M.count meter.new
            ≡ metered (M.count meter.old) (folds_at self.old.seed self.old.state locality payload.now) }
    {
        match read_payload(payload) {
            Err(refusal) => refuse(code(refusal), out),
            Ok(command) => self.state.obey(locality, random, &command, out, meter),
        }
    }

    /// How many contexts live. They stand in the order of their handles' serials.
    pub fn live(&self) -> u32
        ensures live { result ≡ length self.now.state.rows }
        ensures valid { Valid self.now.state }
    {
        self.state.contexts.len() as u32
    }

    /// The live context at a place.
    pub fn row(&self, at: u32) -> LiveRow
        requires { at < length self.now.state.rows }
        ensures { option_map live_of (slice_get self.now.state.rows at) ≡ Some result }
    {
        self.state.contexts.row(at as usize)
    }
}
