//! Has one executor execute one command many times over, and prints the last reply in hexadecimal digits. The words are
//! how many contexts live (1 to 1,024), the depth of the deepest (0 to 32), the command, how many times, and `handle` or
//! `default`: whether the commands name the context whose handle is the oldest, or name none, where the default context
//! has the oldest handle at first. The commands are `sign`, `seal`, `unseal`, `rotate`, `derive`, `destroy`, `recursive`
//! (a DestroyContext of a context with nothing below it, and of all below it) and `family` (the same of a root, with all
//! others below it at the depth, always by its handle). With `derive` at most 1,023 contexts live, since each child lives
//! until it is destroyed; the others that destroy do so once.
#![tactic(auto)]

mod bench;

use bench::Bench;
use std::process::ExitCode;
use std::{env, io};

fn main(rt: HostRuntime) -> io::Result<ExitCode> {
    let mut words = Vec::new(rt.alloc());
    for word in env::args(&rt)?.skip(1) {
        words.push(word)?;
    }
    let [live, depth, kind, times, context] = words.as_slice() else {
        return Ok(ExitCode::from(2));
    };
    let Ok(live) = live.as_str().parse::<u32>() else {
        return Ok(ExitCode::from(2));
    };
    let Ok(depth) = depth.as_str().parse::<u32>() else {
        return Ok(ExitCode::from(2));
    };
    let Ok(count) = times.as_str().parse::<u32>() else {
        return Ok(ExitCode::from(2));
    };
    let named = context.as_str() == "handle";
    let mut reply = [0; 4096];
    let mut bench = if kind.as_str() == "family" {
        Bench::make_family(rt.alloc(), live, depth)?
    } else if named {
        Bench::make(rt.alloc(), live, depth)?
    } else {
        Bench::make_by_default(rt.alloc(), live, depth)?
    };
    let Some(len) = bench.repeated(kind.as_str(), named, count, &mut reply) else {
        return Ok(ExitCode::from(2));
    };
    println!(rt; "{}", hex::encode(rt.alloc(), &reply[..len])?)?;
    Ok(ExitCode::from(0))
}
