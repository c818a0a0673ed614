//! Does one keyed operation many times over, by this project's functions or by plain code over the kit's. The words are `ours` or
//! `straight`, `hmac`, `sign`, `derive` or `seal`, and how many times. What is printed is the same for `ours` and `straight`.
//! The words `long`, `read` or `seal`, and how many times, read the payload of a Seal of 2,048 bytes, or seal these bytes; the words
//! `straight`, `long` and how many times seal them by plain code, and `ours`, `unseal` and how many times open a box of 32 bytes.
//! The words `both`, `all` and how many times print what each operation gives by both sides.
#![tactic(auto)]

mod inputs;
mod long;
mod ours;
mod straight;

use std::process::ExitCode;
use std::{env, io};

// What is printed for an answer.
fn number(answer: Option<[u8; 8]>) -> u64 {
    u64::from_be_bytes(answer.unwrap_or([0; 8]))
}

// Prints what each operation gives, by this project's functions and by plain code.
fn print_both(rt: &impl Print, count: u32) -> io::Result<()> {
    for operation in ["hmac", "sign", "derive", "seal"] {
        let by_ours = number(ours::repeated(operation, count));
        let by_plain_code = number(straight::repeated(operation, count));
        println!(rt; "{operation} ours {by_ours} straight {by_plain_code}")?;
    }
    let by_ours = number(long::repeated("seal", count));
    let by_plain_code = number(straight::repeated("long", count));
    println!(rt; "long seal ours {by_ours} straight {by_plain_code}")?;
    let opened = number(ours::repeated("unseal", count));
    println!(rt; "unseal ours {opened}")?;
    let read = number(long::repeated("read", count));
    println!(rt; "long read ours {read}")
}

fn main(rt: HostRuntime) -> io::Result<ExitCode> {
    let mut words = Vec::new(rt.alloc());
    for word in env::args(&rt)?.skip(1) {
        words.push(word)?;
    }
    let [side, operation, times] = words.as_slice() else {
        return Ok(ExitCode::from(2));
    };
    let Ok(count) = times.as_str().parse::<u32>() else {
        return Ok(ExitCode::from(2));
    };
    if side.as_str() == "both" && operation.as_str() == "all" {
        print_both(&rt, count)?;
        return Ok(ExitCode::from(0));
    }
    let answer = if side.as_str() == "ours" {
        ours::repeated(operation.as_str(), count)
    } else if side.as_str() == "straight" {
        straight::repeated(operation.as_str(), count)
    } else if side.as_str() == "long" {
        long::repeated(operation.as_str(), count)
    } else {
        None
    };
    let Some(answer) = answer else {
        return Ok(ExitCode::from(2));
    };
    println!(rt; "{}", u64::from_be_bytes(answer))?;
    Ok(ExitCode::from(0))
}
