//! Tries each real object of the outside once, over files and sockets in the folder that it runs in, and prints what held.
#![tactic(auto)]

mod doors;
mod files;
mod frames;
mod limits;
mod reports;

use doors::{try_a_link_and_a_door, try_a_listener_that_does_not_wait};
use files::{try_a_journal, try_a_script, try_a_seed, try_a_shelf, try_blocks, try_entropy};
use frames::{
    try_a_door_with_a_limit, try_a_limit, try_a_long_stream, try_faulty_frames, try_whole_frames,
};
use limits::try_limits;
use reports::try_reports;

fn main(rt: HostRuntime) {
    try_a_seed(&rt, rt);
    try_a_journal(&rt, rt);
    try_entropy(&rt, rt);
    try_blocks(&rt, rt);
    try_a_script(&rt, rt);
    try_a_shelf(&rt, rt);
    try_a_link_and_a_door(&rt, rt);
    try_a_listener_that_does_not_wait(&rt);
    try_whole_frames(&rt, &rt);
    try_faulty_frames(&rt, &rt);
    try_a_long_stream(&rt, &rt);
    try_limits(&rt);
    try_a_limit(&rt, &rt);
    try_a_door_with_a_limit(&rt, &rt);
    try_reports(rt.stdout());
}
