//! The handles that a command makes.
ghost use Rattle.std.specs.Prelude.{◌≡◌, ◌+◌, ◌≤◌, ◌<◌, ◌^◌, length, if◌then◌else◌};
ghost use Rattle.dpe_core.specs.CoreState.{state_of};
ghost use Rattle.dpe_model.specs.State.{handle_of as handle_with};
ghost use Rattle.dpe_model.specs.Step.{new0, new1};

use crate::state::CoreState;

// A serial in 8 bytes, and then 8 random bytes.
fn handle_of(serial: u64, random: &[u8]) -> [u8; 16]
    requires { length random.now ≡ 8 }
    ensures { result ≡ handle_with serial random.now }
{
    let mut handle = [0; 16];
    handle[..8].copy_from_slice(&serial.to_be_bytes());
    handle[8..].copy_from_slice(random);
    handle
}

impl CoreState {
    /// The first handle that a command makes.
    pub fn first_new(&self, random: &[u8; 32]) -> [u8; 16]
        ensures { result ≡ new0 (state_of self.now) random.now }
    {
        handle_of(self.next, &random[..8])
    }

    /// The second one.
    pub fn second_new(&self, random: &[u8; 32]) -> [u8; 16]
        requires { self.now.next + 1 < 2 ^ 64 }
        ensures { result ≡ new1 (state_of self.now) random.now }
    {
        handle_of(self.next + 1, &random[8..16])
    }
}
