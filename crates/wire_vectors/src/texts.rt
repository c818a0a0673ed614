//! Rows of numbers in words, and of lines put together and written.
use crate::ends::sink;
use dpe_io::{Failed, MemSink};
use dpe_text::{MAX_TEXT, Text, parse_number, print, send};
use std::alloc::Global;
use std::str;
use table_rows::{RowFault, Told, Word, field, number, put, show};

/// Tells a row about texts.
pub(crate) fn tell(alloc: Global, call: &str, words: &[Word<'_>], told: &mut String) -> Told {
    match call {
        "number" => number_row(words, told),
        "line" => line(words, told),
        _ => write_row(alloc, call, words, told),
    }
}

fn number_row(words: &[Word<'_>], told: &mut String) -> Told {
    let [word] = words else {
        return Err(RowFault::Unreadable);
    };
    match parse_number(word.text) {
        Some(value) => number(told, "", value),
        None => put(told, "no number"),
    }
}

// The line of these pieces.
fn line(pieces: &[Word<'_>], told: &mut String) -> Told {
    let mut line = Text::new();
    for piece in pieces {
        push_piece(&mut line, piece)?;
    }
    match str::from_utf8(line.bytes()) {
        Ok(text) => put(told, text),
        Err(_) => show(told, line.bytes()),
    }
}

// Appends a piece: `number=` and a number, `hex=` and bytes, or bytes as they are.
fn push_piece(line: &mut Text, piece: &Word<'_>) -> Result<(), RowFault> {
    let room = MAX_TEXT - line.bytes().len();
    match piece.name {
        "number" if room >= 20 => line.push_number(piece.number()?),
        "hex" => line.push_hex(piece.at_most(room / 2)?),
        _ => line.push(piece.at_most(room)?),
    }
    Ok(())
}

fn write_row(alloc: Global, call: &str, words: &[Word<'_>], told: &mut String) -> Told {
    let [room, piece, failing, text] = words else {
        return Err(RowFault::Unreadable);
    };
    let mut sink = sink(alloc, room, piece, failing)?;
    write(call, &mut sink, text.bytes()?, told)
}

// Whether a text was written, and what the sink got.
fn write(call: &str, sink: &mut MemSink, text: &[u8], told: &mut String) -> Told {
    let answer = match call {
        "print" => print(sink, text),
        "send" => send(sink, text),
        _ => return Err(RowFault::Unreadable),
    };
    match answer {
        Ok(()) => field(told, "written: ", sink.bytes()),
        Err(Failed) => field(told, "failed: ", sink.bytes()),
    }
}
