//! Reads a table from standard input, of which each row names a call of the lower crates and gives its arguments, and
//! prints what the call answers. A heading is printed as it is, so that the lines of both texts stand side by side.
#![tactic(auto)]

mod boxes;
mod commands;
mod ends;
mod fields;
mod frames;
mod houses;
mod items;
mod keys;
mod messages;
mod outside;
mod replies;
mod texts;

use std::alloc::Global;
use std::io;
use table_rows::{Names, RowFault, Told, Word, words_of};

// Tells what the call of a row answers. Its first word says what it is about, and its second names the call.
fn tell(alloc: Global, words: &[Word<'_>], told: &mut String) -> Told {
    let [about, call, words @ ..] = words else {
        return Err(RowFault::Unreadable);
    };
    match about.text {
        "cbor" => items::tell(alloc, call.text, words, told),
        "message" => messages::tell(call.text, words, told),
        "key" => keys::tell(alloc, call.text, words, told),
        "box" => boxes::tell(call.text, words, told),
        "frame" => frames::tell(alloc, call.text, words, told),
        "text" => texts::tell(alloc, call.text, words, told),
        "outside" => outside::tell(alloc, call.text, words, told),
        "opened" => houses::tell(alloc, call.text, words, told),
        _ => Err(RowFault::Unreadable),
    }
}

// Tells what the call of a row answers.
fn answer(alloc: Global, names: &Names, row: &str, told: &mut String) -> Told {
    let words = words_of(alloc, names, row)?;
    tell(alloc, &words, told)
}

fn main(rt: HostRuntime) -> io::Result<()> {
    let alloc = rt.alloc();
    let names = Names::new(alloc);
    let mut told = String::new(alloc);
    for line in rt.lines(alloc) {
        let line = line?;
        let row = line.as_str();
        if row.is_empty() || row.starts_with('#') {
            println!(rt; "{row}")?;
            continue;
        }
        told.clear();
        match answer(alloc, &names, row, &mut told) {
            Ok(()) => println!(rt; "{told}")?,
            Err(RowFault::Unreadable) => println!(rt; "NOT A ROW: {row}")?,
            Err(RowFault::OutOfMemory) => return Err(io::Error::from(io::ErrorKind::OutOfMemory)),
        }
    }
    Ok(())
}
