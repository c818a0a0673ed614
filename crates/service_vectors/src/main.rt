//! Reads a table of calls of the service's crates: journals, books, desks, connections, workers and servers. Each row is
//! made as a call, and what came of it is printed on a line of its own.
#![tactic(auto)]

mod connections;
mod desks;
mod house;
mod journals;
mod servers;
mod told;

use std::alloc::Global;
use std::io;
use std::sync::Wait;
use std::thread::Threads;
use table_rows::{Names, RowFault, Told, Word, words_of};

// Tells what the call of a row gives.
fn tell<R: Threads + Wait + Sync>(
    rt: &R,
    alloc: Global,
    names: &Names,
    words: &[Word<'_>],
    told: &mut String,
) -> Told {
    let Some((call, words)) = words.split_first() else {
        return Err(RowFault::Unreadable);
    };
    match call.text {
        "desk" => desks::share(rt, alloc, words, told),
        "connection" => connections::serve(rt, alloc, words, told),
        "connection-failing" => connections::serve_failing(rt, alloc, words, told),
        "worker" => connections::work(rt, alloc, words, told),
        "server" => servers::serve(rt, alloc, words, told),
        call => journals::tell(alloc, names, call, words, told),
    }
}

// Gives a name to bytes.
fn name(alloc: Global, names: &mut Names, row: &str) -> Told {
    let words = words_of(alloc, names, row)?;
    let [_, name, bytes] = words.as_slice() else {
        return Err(RowFault::Unreadable);
    };
    names.name(alloc, name.text, Vec::from_slice(alloc, bytes.bytes()?)?)
}

// What is printed for a row: nothing for one that gives a name to bytes.
fn answer<R: Threads + Wait + Sync>(
    rt: &R,
    alloc: Global,
    names: &mut Names,
    row: &str,
) -> Result<String, RowFault> {
    let mut told = String::new(alloc);
    if row.starts_with("let ") {
        name(alloc, names, row)?;
    } else {
        tell(rt, alloc, names, &words_of(alloc, names, row)?, &mut told)?;
    }
    Ok(told)
}

fn main(rt: HostRuntime) -> io::Result<()> {
    let alloc = rt.alloc();
    let mut names = Names::new(alloc);
    for line in rt.lines(alloc) {
        let line = line?;
        if line.is_empty() {
            println!(rt;)?;
        } else if !line.starts_with('#') {
            match answer(&rt, alloc, &mut names, &line) {
                Ok(told) if told.is_empty() => {}
                Ok(told) => println!(rt; "{told}")?,
                Err(RowFault::Unreadable) => println!(rt; "this row can't be read: {line}")?,
                Err(RowFault::OutOfMemory) => println!(rt; "this row out of memory: {line}")?,
            }
        }
    }
    Ok(())
}
