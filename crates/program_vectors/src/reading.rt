//! What the readers of tapes and of scripts make of bytes.
use crate::bytes::{read_number, shown};
use crate::job::source;
use crate::options::Options;
use crate::row::Fault;
use dpe_script::{Line, Script, ScriptFault, read_script};
use dpe_tape::{ItemBuffer, Taken, read_item};
use std::alloc::{AllocError, Global};

/// The most command lines that are told one by one.
const MOST_LINES: usize = 20;

// An item: its locality, its random bytes and its payload.
fn item_text(alloc: Global, item: &ItemBuffer) -> Result<String, AllocError> {
    let random = shown(alloc, &item.random)?;
    let payload = shown(alloc, &item.payload[..item.len.min(4_096)])?;
    format!(in alloc; "{} {random} {payload} | ", item.locality)
}

/// The items that a source gives, what comes behind them, and the bytes that are left then.
pub(crate) fn items_of(alloc: Global, options: Options, bytes: &[u8]) -> Result<String, Fault> {
    let mut source = source(alloc, bytes, &options, options.read)?;
    let mut item = ItemBuffer::new();
    let mut text = String::new(alloc);
    for _ in 0..100 {
        let what = match read_item(&mut source, &mut item) {
            Taken::Whole => {
                text.push_str(item_text(alloc, &item)?.as_str())?;
                continue;
            }
            Taken::End => "end",
            Taken::NoItem => "no item",
            Taken::Fault => "fault",
        };
        text.push_str(what)?;
        break;
    }
    let left = shown(alloc, source.left())?;
    Ok(format!(in alloc; "{text} | {left}")?)
}

// Appends the number and the link of each command line.
fn show_lines(alloc: Global, text: &mut String, lines: &[Line<'_>]) -> Result<(), AllocError> {
    for line in lines {
        let told = format!(in alloc; ", {}:{}", line.number, line.link)?;
        text.push_str(told.as_str())?;
    }
    Ok(())
}

// How many commands and names a script has.
fn show_script(alloc: Global, script: &Script<'_>) -> Result<String, AllocError> {
    let lines = script.lines.as_slice();
    let names = &script.names;
    let mut text = format!(in alloc;
        "{} lines, {} handles, {} boxes",
        lines.len(),
        names.handles.len(),
        names.boxes.len()
    )?;
    if lines.len() <= MOST_LINES {
        show_lines(alloc, &mut text, lines)?;
    }
    Ok(text)
}

/// The lines and names of a script for so many links, or its first bad line.
pub(crate) fn lines_of(alloc: Global, links: &str, bytes: &[u8]) -> Result<String, Fault> {
    let links = read_number(links)?;
    if links > 8 {
        return Err(Fault::Unreadable);
    }
    match read_script(alloc, bytes, links as u8) {
        Ok(script) => Ok(show_script(alloc, &script)?),
        Err(ScriptFault::BadLine(line)) => Ok(format!(in alloc; "bad line {line}")?),
        Err(ScriptFault::NoMemory) => Err(Fault::NoMemory),
    }
}
