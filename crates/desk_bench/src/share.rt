//! Threads that share a running sum, each with a pass of its own.
ghost use Rattle.std.specs.Prelude.{◌≡◌, ◌-◌, ◌/◌, ◌≤◌};
ghost use Rattle.std.specs.Thread.{IsSync};
ghost use Rattle.dpe_desk.specs.Views.{held};
ghost use Rattle.dpe_desk.specs.Passes.{Belongs};

use crate::sum::RunningSum;
use dpe_desk::{Desk, Pass};
use std::sync::Wait;
use std::thread;
use std::thread::Threads;

/// Adds 0, 1, .. count - 1 by one pass, or as many of these as the desk has room for.
pub fn add_all<R: Wait>(rt: &R, desk: &Desk<RunningSum>, pass: &mut Pass<RunningSum>, count: u32)
    requires { Belongs desk.now pass.old }
    ensures belongs { Belongs desk.now pass.new }
    ensures stake { pass.new.view.stake ≡ pass.old.view.stake }
{
    for number in 0..count {
        let mut reply = 0;
        if desk.act(rt, pass, &number, &mut reply).is_err() {
            return;
        }
    }
}

/// The same by so many threads, each with a pass of its own. The pass that comes back stands for all of them.
pub fn share<R: Threads + Wait + Sync>(
    rt: &R,
    desk: &Desk<RunningSum>,
    mut pass: Pass<RunningSum>,
    threads: u32,
    count: u32,
) -> Pass<RunningSum>
    requires belongs { Belongs desk.now pass }
    requires parts { (1 ≤ threads) × (threads ≤ pass.view.stake) × (held pass.view ≡ 1) }
    ensures belongs { Belongs desk.now result }
    ensures stake { result.view.stake ≡ pass.view.stake }
{
    if threads == 1 {
        add_all(rt, desk, &mut pass, count);
        return pass;
    }
    let half = threads / 2;
    let rest = threads - half;
    let other = desk.split(&mut pass, half);
    let (mut one, other) = thread::join(
        rt,
        move || -> Pass<RunningSum>
            requires { IsSync R.row × Belongs desk.now pass × (1 ≤ rest) × (rest ≤ pass.view.stake) × (held pass.view ≡ 1) }
            ensures { Belongs desk.entry.now result × (result.view.stake ≡ pass.view.stake) }
        { share(rt, desk, pass, rest, count) },
        move || -> Pass<RunningSum>
            requires { IsSync R.row × Belongs desk.now other × (1 ≤ half) × (half ≤ other.view.stake) × (held other.view ≡ 1) }
            ensures { Belongs desk.entry.now result × (result.view.stake ≡ other.view.stake) }
        { share(rt, desk, other, half, count) },
    );
    desk.join(&mut one, other);
    one
}
