//! Reads a table of rows, each a call that checks a quote or a run of the program, and prints a line for each: what is
//! answered, or the status and what was written. The head of the table says how rows are written.
#![tactic(auto)]

mod runs;

use std::alloc::Global;
use std::io;
use table_rows::{Names, RowFault, Told, Word, words_of};

// Tells what these words call for.
fn tell(alloc: Global, words: &[Word<'_>], told: &mut String) -> Told {
    let Some((call, words)) = words.split_first() else {
        return Err(RowFault::Unreadable);
    };
    match call.text {
        "verify" => runs::verify(words, told),
        "run" => runs::run(alloc, words, told),
        _ => Err(RowFault::Unreadable),
    }
}

// Tells what the call of a row answers.
fn answer(alloc: Global, names: &Names, row: &str, told: &mut String) -> Told {
    let words = words_of(alloc, names, row)?;
    tell(alloc, &words, told)
}

fn main(rt: HostRuntime) -> io::Result<()> {
    let alloc = rt.alloc();
    let names = Names::new(alloc);
    let mut told = String::new(alloc);
    for line in rt.lines(alloc) {
        let line = line?;
        let row = line.as_str();
        if row.is_empty() || row.starts_with('#') {
            println!(rt; "{row}")?;
            continue;
        }
        told.clear();
        match answer(alloc, &names, row, &mut told) {
            Ok(()) => println!(rt; "{told}")?,
            Err(RowFault::Unreadable) => println!(rt; "NOT A ROW: {row}")?,
            Err(RowFault::OutOfMemory) => return Err(io::Error::from(io::ErrorKind::OutOfMemory)),
        }
    }
    Ok(())
}
