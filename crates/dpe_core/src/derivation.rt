//! DeriveContext.
ghost use Rattle.std.specs.Prelude.{◌≡◌, ◌+◌, ◌<◌, ◌≤◌, ◌&&◌, IfOk, IfErr, IfSome, Option, drop, length, if◌then◌else◌};
ghost use Rattle.dpe_core.specs.Contexts.{IsMeantAt, Of};
ghost use Rattle.dpe_core.specs.CoreState.{state_of, count_after, IsAccepted, Obeys};
ghost use Rattle.dpe_core.specs.Judging.{refused_by, derive_tests};
ghost use Rattle.dpe_core.specs.Born.{born};
ghost use Rattle.dpe_inputs.specs.Meters.{counted};
ghost use Rattle.dpe_messages.specs.Commands.{name_of, derive_request, configuration_of};
ghost use Rattle.dpe_messages.specs.Request.{derive as derive_of, hidden_or_zeros, locality_or};
ghost use Rattle.dpe_messages.specs.Replies.{IsRefusalCode};
ghost use Rattle.dpe_model.specs.State.{Valid};
ghost use Rattle.dpe_model.specs.Step.{configuration_input, input_of as input_of_request};
ghost use Rattle.dpe_model.specs.Verdict.{first_code, is_taken, verdict};

use crate::codes::{CONTEXTS_FULL, DEFAULT_TAKEN, DERIVE_NOT_ALLOWED, SERIALS_SPENT, TOO_DEEP};
use crate::contexts::Child;
use crate::replies::{refuse, write_derived};
use crate::state::CoreState;
use dpe_inputs::{Input, Meter, configuration};
use dpe_messages::{Config, Derive};

/// How many contexts live at once.
const CONTEXT_LIMIT: usize = 1024;

/// How many derivations there are between the root and a context.
const DEPTH_LIMIT: u8 = 32;

fn config(config: &Config<'_>) -> [u8; 64]
    ensures { result ≡ configuration_input (configuration_of config.now) }
{
    match config {
        Config::Inline(input) => **input,
        Config::Descriptor(descriptor) => configuration(descriptor),
    }
}

fn hidden(derive: &Derive<'_>) -> [u8; 64]
    ensures { result ≡ hidden_or_zeros (derive_request derive.now) }
{
    derive.hidden.copied().unwrap_or([0; 64])
}

fn input_of(derive: &Derive<'_>) -> Input
    ensures { result ≡ input_of_request (derive_request derive.now) }
{
    Input {
        code: *derive.code,
        config: config(&derive.config),
        authority: *derive.authority,
        mode: derive.mode,
        hidden: hidden(derive),
    }
}

fn target(locality: u8, derive: &Derive<'_>) -> u8
    ensures { result ≡ locality_or locality (derive_request derive.now) }
{
    derive.locality.unwrap_or(locality)
}

// How many handles a derivation makes.
fn makes(retain: bool) -> u64
    ensures { result ≡ (if retain then 2 else 1) }
{
    if retain { 2 } else { 1 }
}

impl CoreState {
    // Whether the child is to be the default of a locality that has one already.
    fn is_child_taken(&self, at: usize, locality: u8, derive: &Derive<'_>) -> bool
        requires { at < length self.now.contexts.rows }
        ensures { Of self.now.contexts.rows at (λ row. result ≡ derive.now.child_default
            && is_taken self.now.contexts.rows derive.now.retain row (locality_or locality (derive_request derive.now))) }
    {
        derive.child_default
            && self
                .contexts
                .is_taken(target(locality, derive), at, derive.retain)
    }

    // The code of the first test that refuses to derive from the context at a place.
    fn derive_refusal(&self, at: usize, locality: u8, derive: &Derive<'_>) -> Option<u8>
        requires { at < length self.now.contexts.rows }
        ensures code { Of self.now.contexts.rows at (λ row. result
            ≡ first_code (derive_tests (state_of self.now) locality (derive_request derive.now) row)) }
        ensures coded { IfSome result IsRefusalCode }
    {
        let parent = self.contexts.row(at);
        if !parent.may_derive {
            return Some(DERIVE_NOT_ALLOWED);
        }
        if parent.depth == DEPTH_LIMIT {
            return Some(TOO_DEEP);
        }
        if derive.retain && self.contexts.len() == CONTEXT_LIMIT {
            return Some(CONTEXTS_FULL);
        }
        if self.is_child_taken(at, locality, derive) {
            return Some(DEFAULT_TAKEN);
        }
        if makes(derive.retain) > u64::MAX - self.next {
            return Some(SERIALS_SPENT);
        }
        None
    }

    // The place of the parent, or the code of the first test that refuses.
    fn derivable(&self, locality: u8, derive: &Derive<'_>) -> Result<usize, u8>
        ensures place { IfOk result (IsMeantAt self.now.contexts.rows locality (name_of derive.now.handle)) }
        ensures code { refused_by result
            ≡ verdict self.now.contexts.seed (state_of self.now) locality (derive_of (derive_request derive.now)) }
        ensures coded { IfErr result IsRefusalCode }
    {
        match self.owned(locality, derive.handle) {
            Err(code) => Err(code),
            Ok(at) => match self.derive_refusal(at, locality, derive) {
                Some(code) => Err(code),
                None => Ok(at),
            },
        }
    }

    fn child(&self, locality: u8, random: &[u8; 32], derive: &Derive<'_>) -> Child
        ensures { result ≡ born (state_of self.now) locality random.now (derive_request derive.now) }
    {
        Child {
            handle: self.first_new(random),
            locality: target(locality, derive),
            may_derive: derive.may_derive,
            default: derive.child_default,
        }
    }

    // Puts the child into the place of its parent, or beside the parent, which then gets the second new handle.
    fn derive_at<M: Meter>(
        &mut self,
        at: usize,
        locality: u8,
        random: &[u8; 32],
        derive: &Derive<'_>,
        out: &mut [u8; 4096],
        meter: &mut M,
    ) -> usize
        requires valid { Valid (state_of self.old) }
        requires meant { IsMeantAt self.old.contexts.rows locality (name_of derive.now.handle) at }
        requires accepted { IsAccepted self.old locality (derive_of (derive_request derive.now)) }
        ensures obeys { Obeys self.old self.new locality random.now (derive_of (derive_request derive.now)) out.new result }
        ensures behind { drop result out.new ≡ drop result out.old }
        ensures counted { M.count meter.new ≡ counted (M.count meter.old) }
    {
        let input = input_of(derive);
        let child = self.child(locality, random, derive);
        if !derive.retain {
            self.contexts.derive(at, self.next, &input, &child, meter);
            self.next += 1;
            return write_derived(child.handle, None, out);
        }
        let parent = self.second_new(random);
        self.contexts
            .derive_retaining(at, self.next, &input, &child, parent, meter);
        self.next += 2;
        write_derived(child.handle, Some(parent), out)
    }

    /// DeriveContext. The meter counts one fold where it is accepted.
    pub fn derive<M: Meter>(
        &mut self,
        locality: u8,
        random: &[u8; 32],
        derive: &Derive<'_>,
        out: &mut [u8; 4096],
        meter: &mut M,
    ) -> usize
        requires valid { Valid (state_of self.old) }
        ensures obeys { Obeys self.old self.new locality random.now (derive_of (derive_request derive.now)) out.new result }
        ensures behind { drop result out.new ≡ drop result out.old }
        ensures folds { M.count meter.new
            ≡ count_after self.old locality (derive_of (derive_request derive.now)) (M.count meter.old) }
    {
        match self.derivable(locality, derive) {
            Err(code) => refuse(code, out),
            Ok(at) => self.derive_at(at, locality, random, derive, out, meter),
        }
    }
}
