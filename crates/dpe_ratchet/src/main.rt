//! Seals bytes at a version, and opens them at that version or a later one.
#![tactic(auto)]

mod manual;

use dpe_io::{ReadSource, WriteSink};
use dpe_ratchets::ratchet_main;
use dpe_unix::run_program;
use manual::MANUAL;
use std::process::ExitCode;

fn main(rt: HostRuntime) -> ExitCode {
    let mut errors = WriteSink::new(rt.stderr());
    run_program(&rt, &mut errors, &MANUAL, |words| {
        let mut source = ReadSource::new(rt.stdin());
        let mut sink = WriteSink::new(rt.stdout());
        ratchet_main(words, &mut source, &mut sink)
    })
}
