//! The vault as an object that threads share in turns.
ghost use Rattle.std.specs.Prelude.{◌-◌, [], length};
ghost use Rattle.dpe_desk.specs.Passes.{Belongs};
ghost use Rattle.dpe_vaults.specs.Kept.{Legal};
ghost use Rattle.dpe_vaults.specs.Shared.{legal_front};

use crate::call::VaultCall;
use crate::reply::VaultReply;
use crate::vault::Vault;
use dpe_desk::{Desk, Pass, Sequential};

// The kind is the capacity: the vault without entries.
impl Sequential for Vault {
    type Call = VaultCall;

    type Reply = VaultReply;

    ghost kind = { λ vault. record vault { entries = [] } };

    ghost entries = { λ vault. vault.entries };

    ghost left = { λ vault. vault.capacity - length vault.entries };

    ghost legal = { λ kind es. Legal es };

    fn length(&self) -> u64 {
        u64::from(self.length())
    }

    fn room(&self) -> u64 {
        u64::from(self.capacity() - self.length())
    }

    fn step(&mut self, caller: u32, call: &VaultCall, reply: &mut VaultReply) {
        self.step(caller, call, reply);
    }

    ghost legal_prefix = { λ kind xs ys. legal_front [] xs ys };
}

/// Does nothing. Its contract tells what holds of every pass over a vault, after each call: each reply that it has seen is the
/// one that the earlier calls of its own locality lead to.
pub fn seen_is_legal(desk: &Desk<Vault>, pass: &Pass<Vault>)
    requires { Belongs desk.now pass.now }
    ensures { Legal pass.now.view.seen }
{
    let _name = pass.name();
}
