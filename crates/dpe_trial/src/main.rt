//! Tries the whole: the server, its clients and the audit of its journal, over files and Unix sockets in the folder that it runs
//! in; two workers in memory; and threads at a desk. What it prints is the same whatever the schedule.
#![tactic(auto)]

mod boot;
mod crowd;
mod desk;
mod pair;
mod programs;
mod race;
mod raw;
mod turn;

fn main(rt: HostRuntime) {
    boot::try_boot(&rt, rt);
    race::try_race(&rt, rt);
    raw::try_raw(&rt, rt);
    crowd::try_crowd(&rt, rt);
    pair::try_pair(&rt, rt);
    turn::try_turn(&rt, rt);
    desk::try_desk(&rt, rt);
}
