//! Threads that add numbers to one running sum, in turns. The words are the number of threads, how many numbers each adds, and for
//! how many rounds each call keeps the processor. What is printed is the same whatever the schedule.
#![tactic(auto)]

mod share;
mod sum;

use dpe_desk::{Desk, Sequential};
use share::share;
use std::process::ExitCode;
use std::{env, io};
use sum::RunningSum;

fn main(rt: HostRuntime) -> io::Result<ExitCode> {
    let mut words = Vec::new(rt.alloc());
    for word in env::args(&rt)?.skip(1) {
        let Ok(number) = word.parse::<u32>() else {
            return Ok(ExitCode::from(2));
        };
        words.push(number)?;
    }
    let &[threads, count, rounds] = words.as_slice() else {
        return Ok(ExitCode::from(2));
    };
    let Some(most) = threads.checked_mul(count) else {
        return Ok(ExitCode::from(2));
    };
    if threads == 0 || threads > 64 || most > 65_536 {
        return Ok(ExitCode::from(2));
    }
    let object = RunningSum::new(rt.alloc(), most as usize, rounds)?;
    let Ok((desk, pass)) = Desk::make(rt.alloc(), object, most as u64) else {
        return Ok(ExitCode::from(7));
    };
    let pass = share(&rt, &desk, pass, threads, count);
    let object = desk.close(pass);
    println!(rt; "calls {}", object.length())?;
    println!(rt; "sum {}", object.sum())?;
    Ok(ExitCode::from(0))
}
