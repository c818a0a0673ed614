//! GetProfile, InitializeContext, RotateContextHandle and DestroyContext, and the choice between all commands.
ghost use Rattle.std.specs.Prelude.{◌≡◌, ◌+◌, ◌<◌, ◌≤◌, ℕ, Bool, List, IfErr, IfOk, IfSome, drop, length, true, false, if◌then◌else◌};
ghost use Rattle.dpe_core.specs.Contexts.{IsMarkable, IsMeantAt, Of};
ghost use Rattle.dpe_core.specs.CoreState.{state_of, count_after, rotated, spent, Becomes, Obeys};
ghost use Rattle.dpe_core.specs.Judging.{refused_by, rotate_tests};
ghost use Rattle.dpe_messages.specs.Commands.{name_of, request_of};
ghost use Rattle.dpe_messages.specs.Ranges.{InRanges};
ghost use Rattle.dpe_messages.specs.Replies.{IsRefusalCode};
ghost use Rattle.dpe_messages.specs.Request.{get_profile, initialize as initialize_of, rotate as rotate_of, destroy as destroy_of};
ghost use Rattle.dpe_model.specs.State.{Valid, last_serial};
ghost use Rattle.dpe_model.specs.Step.{new0, new_if};
ghost use Rattle.dpe_model.specs.Verdict.{first_code, verdict};

use crate::codes::{DEFAULT_TAKEN, ROOT_LOCALITY, SEED_LOCKED, SERIALS_SPENT};
use crate::replies::{refuse, write_done, write_handle, write_profile};
use crate::state::CoreState;
use dpe_inputs::Meter;
use dpe_messages::Command;

impl CoreState {
    // Gives the context at a place the first new handle.
    fn renew(&mut self, at: usize, random: &[u8; 32]) -> [u8; 16]
        requires valid { Valid (state_of self.old) }
        requires place { at < length self.old.contexts.rows }
        requires serials { self.old.next + 1 ≤ last_serial }
        ensures handle { result ≡ new0 (state_of self.old) random.now }
        ensures state { Of self.old.contexts.rows at (λ row. Becomes self.old self.new
            (spent (state_of self.old) random.now row true)) }
    {
        let handle = self.first_new(random);
        self.contexts.rename(at, handle);
        self.next += 1;
        handle
    }

    /// Takes out the context at a place; where it is retained, it comes again under the first new handle, which is
    /// answered.
    pub fn spend(&mut self, at: usize, random: &[u8; 32], retain: bool) -> Option<[u8; 16]>
        requires valid { Valid (state_of self.old) }
        requires place { at < length self.old.contexts.rows }
        requires serials { self.old.next + (if retain then 1 else 0) ≤ last_serial }
        ensures handle { result ≡ new_if (state_of self.old) random.now retain }
        ensures state { Of self.old.contexts.rows at (λ row. Becomes self.old self.new
            (spent (state_of self.old) random.now row retain)) }
    {
        if retain {
            return Some(self.renew(at, random));
        }
        self.contexts.take_out(at);
        None
    }

    // Gives the context at a place the first new handle; it is then the default of its locality, or isn't.
    fn turn(&mut self, at: usize, random: &[u8; 32], default: bool) -> [u8; 16]
        requires valid { Valid (state_of self.old) }
        requires place { at < length self.old.contexts.rows }
        requires serials { self.old.next + 1 ≤ last_serial }
        requires marks { Of self.old.contexts.rows at (λ row. IsMarkable self.old.contexts.rows default false row.locality row) }
        ensures handle { result ≡ new0 (state_of self.old) random.now }
        ensures state { Of self.old.contexts.rows at (λ row. Becomes self.old self.new
            (rotated (state_of self.old) random.now row default)) }
    {
        let handle = self.first_new(random);
        self.contexts.rotate(at, handle, default);
        self.next += 1;
        handle
    }

    fn get_profile(&self, out: &mut [u8; 4096]) -> usize
        requires { Valid (state_of self.now) }
        ensures obeys { (locality : ℕ) (random : List ℕ)
            → Obeys self.now self.now locality random get_profile out.new result }
        ensures behind { drop result out.new ≡ drop result out.old }
    {
        write_profile(out)
    }

    // The code of the first test that refuses InitializeContext.
    fn initialize_refusal(&self, locality: u8) -> Option<u8>
        ensures code { (default : Bool)
            → result ≡ verdict self.now.contexts.seed (state_of self.now) locality (initialize_of default) }
        ensures coded { IfSome result IsRefusalCode }
    {
        if locality != 0 {
            return Some(ROOT_LOCALITY);
        }
        if self.made {
            return Some(SEED_LOCKED);
        }
        if self.next == u64::MAX {
            return Some(SERIALS_SPENT);
        }
        None
    }

    fn initialize(
        &mut self,
        locality: u8,
        random: &[u8; 32],
        default: bool,
        out: &mut [u8; 4096],
    ) -> usize
        requires { Valid (state_of self.old) }
        ensures obeys { Obeys self.old self.new locality random.now (initialize_of default) out.new result }
        ensures behind { drop result out.new ≡ drop result out.old }
    {
        if let Some(code) = self.initialize_refusal(locality) {
            return refuse(code, out);
        }
        let handle = self.first_new(random);
        self.contexts.root(handle, default);
        self.made = true;
        self.next += 1;
        write_handle(handle, out)
    }

    // The code of the first test that refuses to rotate the context at a place of this locality.
    fn rotate_refusal(&self, at: usize, locality: u8, default: bool) -> Option<u8>
        requires place { at < length self.now.contexts.rows }
        requires owner { Of self.now.contexts.rows at (λ row. row.locality ≡ locality) }
        ensures code { Of self.now.contexts.rows at (λ row. result
            ≡ first_code (rotate_tests (state_of self.now) default row)) }
        ensures coded { IfSome result IsRefusalCode }
    {
        if default && self.contexts.is_taken(locality, at, false) {
            return Some(DEFAULT_TAKEN);
        }
        if self.next == u64::MAX {
            return Some(SERIALS_SPENT);
        }
        None
    }

    // The place of the context to rotate, or the code of the first test that refuses.
    fn rotatable(&self, locality: u8, handle: Option<&[u8; 16]>, default: bool) -> Result<usize, u8>
        ensures place { IfOk result (IsMeantAt self.now.contexts.rows locality (name_of handle.entry)) }
        ensures code { refused_by result ≡ verdict self.now.contexts.seed (state_of self.now) locality
            (rotate_of (name_of handle.entry) default) }
        ensures coded { IfErr result IsRefusalCode }
    {
        match self.owned(locality, handle) {
            Err(code) => Err(code),
            Ok(at) => match self.rotate_refusal(at, locality, default) {
                Some(code) => Err(code),
                None => Ok(at),
            },
        }
    }

    fn rotate(
        &mut self,
        locality: u8,
        random: &[u8; 32],
        handle: Option<&[u8; 16]>,
        default: bool,
        out: &mut [u8; 4096],
    ) -> usize
        requires { Valid (state_of self.old) }
        ensures obeys { Obeys self.old self.new locality random.now
            (rotate_of (name_of handle.entry) default) out.new result }
        ensures behind { drop result out.new ≡ drop result out.old }
    {
        match self.rotatable(locality, handle, default) {
            Err(code) => refuse(code, out),
            Ok(at) => {
                let handle = self.turn(at, random, default);
                write_handle(handle, out)
            }
        }
    }

    fn destroy(
        &mut self,
        locality: u8,
        handle: Option<&[u8; 16]>,
        recursive: bool,
        out: &mut [u8; 4096],
    ) -> usize
        requires { Valid (state_of self.old) }
        ensures obeys { (random : List ℕ)
            → Obeys self.old self.new locality random (destroy_of (name_of handle.entry) recursive) out.new result }
        ensures behind { drop result out.new ≡ drop result out.old }
    {
        match self.owned(locality, handle) {
            Err(code) => refuse(code, out),
            Ok(at) => {
                if recursive {
                    self.contexts.take_family(at);
                } else {
                    self.contexts.take_out(at);
                }
                write_done(out)
            }
        }
    }

    /// Refuses a command by the first test that applies, or executes it. Only an accepted DeriveContext counts a fold.
    pub fn obey<M: Meter>(
        &mut self,
        locality: u8,
        random: &[u8; 32],
        command: &Command<'_>,
        out: &mut [u8; 4096],
        meter: &mut M,
    ) -> usize
        requires valid { Valid (state_of self.old) }
        requires ranges { InRanges (request_of command.now) }
        ensures obeys { Obeys self.old self.new locality random.now (request_of command.now) out.new result }
        ensures behind { drop result out.new ≡ drop result out.old }
        ensures folds { M.count meter.new
            ≡ count_after self.old locality (request_of command.now) (M.count meter.old) }
    {
        match command {
            Command::GetProfile => self.get_profile(out),
            Command::Initialize { default } => self.initialize(locality, random, *default, out),
            Command::Derive(derive) => self.derive(locality, random, derive, out, meter),
            Command::Sign(sign) => self.sign(locality, random, sign, out),
            Command::Seal(request) => self.seal(locality, random, request, out),
            Command::Unseal(request) => self.unseal(locality, random, request, out),
            Command::Rotate { handle, default } => self.rotate(
                locality, random, *handle, *default, out,
            ),
            Command::Destroy { handle, recursive } => self.destroy(
                locality, *handle, *recursive, out,
            ),
        }
    }
}
