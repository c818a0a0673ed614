//! Rows that read and write frames.
use crate::ends::{sink, source};
use dpe_io::{MemSink, MemSource};
use dpe_link::{FrameFault, WriteFault, read_frame, write_frame};
use std::alloc::Global;
use table_rows::{RowFault, Told, Word, field, number, put};

/// Tells a row about frames.
pub(crate) fn tell(alloc: Global, call: &str, words: &[Word<'_>], told: &mut String) -> Told {
    match call {
        "read" => read_row(alloc, words, told),
        "write" => write_row(alloc, words, told),
        _ => Err(RowFault::Unreadable),
    }
}

fn read_row(alloc: Global, words: &[Word<'_>], told: &mut String) -> Told {
    let [piece, failing, stream] = words else {
        return Err(RowFault::Unreadable);
    };
    let mut source = source(alloc, stream, piece, failing)?;
    read(&mut source, told)
}

fn write_row(alloc: Global, words: &[Word<'_>], told: &mut String) -> Told {
    let [room, piece, failing, payload] = words else {
        return Err(RowFault::Unreadable);
    };
    let mut sink = sink(alloc, room, piece, failing)?;
    write(&mut sink, payload, told)
}

// The payload of the next frame or why there is none, and how many bytes are left.
fn read(source: &mut MemSource, told: &mut String) -> Told {
    let mut room = [0; 4096];
    match read_frame(source, &mut room) {
        Ok(Some(len)) => field(told, "payload ", &room[..len])?,
        Ok(None) => put(told, "no frame")?,
        Err(fault) => put_fault(&fault, told)?,
    }
    number(told, ", ", source.left().len() as u64)?;
    put(told, " left")
}

fn put_fault(fault: &FrameFault, told: &mut String) -> Told {
    write!(told, "{fault}")?;
    Ok(())
}

// Whether the frame of a payload was written, and what the sink got.
fn write(sink: &mut MemSink, payload: &Word<'_>, told: &mut String) -> Told {
    match write_frame(sink, payload.at_most(4096)?) {
        Ok(()) => put(told, "written")?,
        Err(WriteFault { written }) => number(told, "failed after ", written as u64)?,
    }
    field(told, ": ", sink.bytes())
}
