//! Keeps boxes under names for each locality, and answers what the items of standard input ask.
#![tactic(auto)]

mod manual;

use dpe_io::{ReadSource, WriteSink};
use dpe_unix::{NO_MEMORY, run_program};
use dpe_vaults::vault_main;
use manual::MANUAL;
use std::io::{BufReader, BufWriter};
use std::process::ExitCode;

fn main(rt: HostRuntime) -> ExitCode {
    let mut errors = WriteSink::new(rt.stderr());
    run_program(&rt, &mut errors, &MANUAL, |words| {
        let Ok(input) = BufReader::new(rt.alloc(), rt.stdin()) else {
            return NO_MEMORY;
        };
        let Ok(output) = BufWriter::new(rt.alloc(), rt.stdout()) else {
            return NO_MEMORY;
        };
        let mut source = ReadSource::new(input);
        let mut sink = WriteSink::new(output);
        vault_main(rt.alloc(), words, &mut source, &mut sink)
    })
}
