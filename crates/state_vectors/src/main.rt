//! Runs the rows of a table, each one public call or command, and prints one line for each. A history of commands runs on
//! the executor and on the plain evaluator side by side: a row's line is the reply where both give it, and says so where
//! they differ. Other rows call the table of handles and the tree of contexts. The head of the table says how rows are
//! written.
#![tactic(auto)]

mod asked;
mod both;
mod boxes;
mod drawn;
mod fault;
mod grown;
mod handles;
mod numbers;
mod replies;
mod rows;

use rows::Trial;
use std::io::{self, BufRead, BufReader};

// The row in a line, without what stands behind `#`.
fn row_in(line: &str) -> &str {
    match line.split_once('#') {
        Some((row, _)) => row.trim(),
        None => line.trim(),
    }
}

fn main(rt: HostRuntime) -> io::Result<()> {
    let alloc = rt.alloc();
    let mut trial = Trial::start(alloc)?;
    for line in BufReader::new(alloc, rt.reader())?.lines(alloc) {
        let line = line?;
        let row = row_in(line.as_str());
        if !row.is_empty() {
            let answer = trial.answer(alloc, row)?;
            println!(rt; "{answer}")?;
        }
    }
    Ok(())
}
