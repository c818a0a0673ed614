//! Makes a quote of a path, or checks one.
#![tactic(auto)]

mod manual;

use dpe_io::{ReadSource, WriteSink};
use dpe_quotes::quote_main;
use dpe_unix::run_program;
use manual::MANUAL;
use std::process::ExitCode;

fn main(rt: HostRuntime) -> ExitCode {
    let mut errors = WriteSink::new(rt.stderr());
    run_program(&rt, &mut errors, &MANUAL, |words| {
        let mut source = ReadSource::new(rt.stdin());
        let mut sink = WriteSink::new(rt.stdout());
        quote_main(words, &mut source, &mut sink)
    })
}
