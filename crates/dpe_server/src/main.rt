//! Serves a DICE Protection Environment over Unix sockets.
#![tactic(auto)]

mod manual;

use dpe_io::WriteSink;
use dpe_serve::serve_main;
use dpe_unix::{UnixHouse, idle_limit, run_program};
use manual::MANUAL;
use std::process::ExitCode;

fn main(rt: HostRuntime) -> ExitCode {
    let mut errors = WriteSink::new(rt.stderr());
    run_program(&rt, &mut errors, &MANUAL, |words| {
        let limit = idle_limit(&rt, &mut WriteSink::new(rt.stderr()), &MANUAL);
        let mut house = UnixHouse::new(rt, limit);
        let mut out = WriteSink::new(rt.stdout());
        serve_main(&rt, rt.alloc(), words, &mut house, &mut out)
    })
}
