//! Two threads that put boxes into one vault, each at a locality and by a pass of its own. What is printed is the same whatever
//! the schedule, since no locality's calls show in another's replies.
#![tactic(auto)]

mod share;

use dpe_desk::Desk;
use dpe_vaults::Vault;
use share::put_both;
use std::io;
use std::process::ExitCode;

/// How many calls there is room for: those of both threads.
const MOST_CALLS: u32 = 80;

fn main(rt: HostRuntime) -> io::Result<ExitCode> {
    let vault = Vault::make(rt.alloc(), MOST_CALLS)?;
    let Ok((desk, pass)) = Desk::make(rt.alloc(), vault, u64::from(MOST_CALLS)) else {
        return Ok(ExitCode::from(3));
    };
    let (pass, one, other) = put_both(&rt, &desk, pass);
    println!(rt; "locality 1: {} put, {} refused", one.put, one.refused)?;
    println!(rt; "locality 6: {} put, {} refused", other.put, other.refused)?;
    let vault = desk.close(pass);
    println!(rt; "entries {}", vault.length())?;
    Ok(ExitCode::from(0))
}
