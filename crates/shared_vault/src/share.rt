//! Threads that share a vault, each with a pass of its own.
ghost use Rattle.std.specs.Prelude.{◌≡◌, ◌≤◌};
ghost use Rattle.std.specs.Thread.{IsSync};
ghost use Rattle.dpe_desk.specs.Views.{held};
ghost use Rattle.dpe_desk.specs.Passes.{Belongs};

use dpe_desk::{Desk, Pass};
use dpe_vaults::{Op, Vault, VaultCall, VaultReply};
use std::sync::Wait;
use std::thread;
use std::thread::Threads;

/// How many names each thread puts: eight more than a locality may have.
const NAMES: u8 = 40;

/// The bytes of the shortest box.
const BOX_SIZE: usize = 85;

/// What came of a thread's calls.
#[derive(Clone, Copy, Debug, PartialEq, Eq)]
pub struct Count {
    pub put: u32,
    pub refused: u32,
}

// The shortest box: its version, then zeros.
fn shortest_box() -> [u8; BOX_SIZE] {
    let mut sealed = [0; BOX_SIZE];
    sealed[0] = 1;
    sealed
}

// Puts boxes under the names 0, 1, .. 39 by one pass, or as many as the desk has room for, and counts the replies.
fn put_all<R: Wait>(rt: &R, desk: &Desk<Vault>, pass: &mut Pass<Vault>, locality: u8) -> Count
    requires near { locality ≤ 7 }
    requires belongs { Belongs desk.now pass.old }
    ensures belongs { Belongs desk.now pass.new }
    ensures stake { pass.new.view.stake ≡ pass.old.view.stake }
{
    let sealed = shortest_box();
    let mut count = Count { put: 0, refused: 0 };
    for name in 0..NAMES {
        let call = VaultCall::new(locality, Op::Put, &[name], &sealed);
        let mut reply = VaultReply::new();
        if desk.act(rt, pass, &call, &mut reply).is_err() {
            return count;
        }
        if reply.code == 0 {
            count.put += 1;
        } else {
            count.refused += 1;
        }
    }
    count
}

/// Two threads at two localities. The pass that comes back stands for both.
pub fn put_both<R: Threads + Wait + Sync>(
    rt: &R,
    desk: &Desk<Vault>,
    mut pass: Pass<Vault>,
) -> (Pass<Vault>, Count, Count)
    requires belongs { Belongs desk.now pass }
    requires parts { (2 ≤ pass.view.stake) × (held pass.view ≡ 1) }
    ensures belongs { Belongs desk.now result.0 }
    ensures stake { result.0.view.stake ≡ pass.view.stake }
{
    let mut other = desk.split(&mut pass, 1);
    let ((mut pass, one), (other, two)) = thread::join(
        rt,
        move || -> (Pass<Vault>, Count)
            requires { IsSync R.row × Belongs desk.now pass }
            ensures { Belongs desk.entry.now result.0 × (result.0.view.stake ≡ pass.view.stake) }
        {
            let count = put_all(rt, desk, &mut pass, 1);
            (pass, count)
        },
        move || -> (Pass<Vault>, Count)
            requires { IsSync R.row × Belongs desk.now other }
            ensures { Belongs desk.entry.now result.0 × (result.0.view.stake ≡ other.view.stake) }
        {
            let count = put_all(rt, desk, &mut other, 6);
            (other, count)
        },
    );
    desk.join(&mut pass, other);
    (pass, one, two)
}
