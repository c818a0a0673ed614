//! Runs a boot script on the Unix sockets of a DICE Protection Environment, and prints what came back.
#![tactic(auto)]

mod manual;

use dpe_io::WriteSink;
use dpe_script::client_main;
use dpe_unix::{FileDock, idle_limit, run_program};
use manual::MANUAL;
use std::process::ExitCode;

fn main(rt: HostRuntime) -> ExitCode {
    let mut errors = WriteSink::new(rt.stderr());
    run_program(&rt, &mut errors, &MANUAL, |words| {
        let limit = idle_limit(&rt, &mut WriteSink::new(rt.stderr()), &MANUAL);
        let mut dock = FileDock::new(rt, limit);
        // Each line goes out in one call, as soon as its reply is there.
        let mut out = WriteSink::new(rt.stdout());
        client_main(rt.alloc(), words, &mut dock, &mut out)
    })
}
