//! Runs the calls of the sequential programs over objects in memory, one row of standard input after another, and prints
//! what came of each.
//!
//! A row is a call and its arguments in fields, with `|` between them. Headings and empty lines are printed as they are.
#![tactic(auto)]

mod asked;
mod bytes;
mod job;
mod options;
mod outcome;
mod reading;
mod row;
mod sweep;

use bytes::Names;
use row::{Fault, answer};
use std::io::{self, BufRead, BufReader};

fn main(rt: HostRuntime) -> io::Result<()> {
    let mut names = Names::new(rt.alloc());
    for line in BufReader::new(rt.alloc(), rt.reader())?.lines(rt.alloc()) {
        let line = line?;
        if line.is_empty() || line.starts_with('#') {
            println!(rt; "{line}")?;
            continue;
        }
        match answer(rt.alloc(), &mut names, line.as_str()) {
            Ok(Some(text)) => println!(rt; "{text}")?,
            Ok(None) => {}
            Err(Fault::Unreadable) => println!(rt; "a row that can't be read")?,
            Err(Fault::NoMemory) => println!(rt; "no memory")?,
        }
    }
    Ok(())
}
