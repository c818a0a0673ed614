//! The tests of commands that use a context.
ghost use Rattle.std.specs.Prelude.{◌≡◌, ◌+◌, ◌≤◌, IfOk, IfErr, is_some, if◌then◌else◌};
ghost use Rattle.dpe_core.specs.Contexts.{IsMeantAt, Of};
ghost use Rattle.dpe_core.specs.CoreState.{state_of};
ghost use Rattle.dpe_core.specs.Judging.{refused_by, owner_tests, use_tests};
ghost use Rattle.dpe_messages.specs.Commands.{name_of};
ghost use Rattle.dpe_messages.specs.Replies.{IsRefusalCode};
ghost use Rattle.dpe_model.specs.State.{last_serial};
ghost use Rattle.dpe_model.specs.Verdict.{first_code, row_for};
ghost use Rattle.dpe_model.specs.Codes.{no_such_handle, no_default};

use crate::codes::{NO_DEFAULT, NO_SUCH_HANDLE, SERIALS_SPENT, WRONG_LOCALITY};
use crate::state::CoreState;

// The code where no context is meant: no such handle, or no default.
fn not_there(handle: Option<&[u8; 16]>) -> u8
    ensures { result ≡ (if is_some (name_of handle.entry) then no_such_handle else no_default) }
{
    if handle.is_some() {
        NO_SUCH_HANDLE
    } else {
        NO_DEFAULT
    }
}

impl CoreState {
    /// The place of the context that is meant, the one with the handle or the default, or the code of the first test
    /// that fails: that it lives, and that it is bound to the caller's locality.
    pub fn owned(&self, locality: u8, handle: Option<&[u8; 16]>) -> Result<usize, u8>
        ensures place { IfOk result (IsMeantAt self.now.contexts.rows locality (name_of handle.entry)) }
        ensures owner { IfOk result (λ at. Of self.now.contexts.rows at (λ row. row.locality ≡ locality)) }
        ensures code { refused_by result ≡ first_code
            (owner_tests locality (name_of handle.entry) (row_for self.now.contexts.rows locality (name_of handle.entry))) }
        ensures coded { IfErr result IsRefusalCode }
    {
        match self.contexts.meant(locality, handle) {
            None => Err(not_there(handle)),
            Some(at) => {
                if self.contexts.locality(at) == locality {
                    Ok(at)
                } else {
                    Err(WRONG_LOCALITY)
                }
            }
        }
    }

    /// The same, and behind it the test that serials are left for the handles to be made.
    pub fn usable(&self, locality: u8, handle: Option<&[u8; 16]>, makes: u64) -> Result<usize, u8>
        ensures place { IfOk result (IsMeantAt self.now.contexts.rows locality (name_of handle.entry)) }
        ensures serials { IfOk result (λ _. self.now.next + makes ≤ last_serial) }
        ensures code { refused_by result ≡ first_code
            (use_tests (state_of self.now) locality makes (name_of handle.entry)
            (row_for self.now.contexts.rows locality (name_of handle.entry))) }
        ensures coded { IfErr result IsRefusalCode }
    {
        match self.owned(locality, handle) {
            Err(code) => Err(code),
            Ok(at) => {
                if makes > u64::MAX - self.next {
                    Err(SERIALS_SPENT)
                } else {
                    Ok(at)
                }
            }
        }
    }
}
