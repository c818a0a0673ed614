//! Audits a journal of a DICE Protection Environment.
#![tactic(auto)]

mod manual;

use dpe_audit::replay_main;
use dpe_io::WriteSink;
use dpe_unix::{FileShelf, NO_MEMORY, run_program};
use manual::MANUAL;
use std::io::BufWriter;
use std::process::ExitCode;

/// The bytes of the output's buffer, so that a line costs no system call of its own.
const BUFFER_SIZE: usize = 65_536;

fn main(rt: HostRuntime) -> ExitCode {
    let mut errors = WriteSink::new(rt.stderr());
    run_program(&rt, &mut errors, &MANUAL, |words| {
        let mut shelf = FileShelf::new(rt);
        let Ok(output) = BufWriter::with_capacity(rt.alloc(), BUFFER_SIZE, rt.stdout()) else {
            return NO_MEMORY;
        };
        let mut out = WriteSink::new(output);
        replay_main(rt.alloc(), words, &mut shelf, &mut out)
    })
}
