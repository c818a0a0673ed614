//! What a program says on standard error where it ends with another status than 0.
ghost use Rattle.std.specs.Prelude.{◌≡◌, ◌==◌, ◌++◌, OnOk, codes};
ghost use Rattle.std.specs.List.{find};
ghost use Rattle.std.specs.Io.KnownBytes.{Appends};
ghost use Rattle.dpe_io.specs.Causes.{HasCause};
ghost use Rattle.dpe_unix.specs.Report.{line, status_line, usage_lines, sentence_line, report};

use crate::words::FAULTY_WORDS;
use dpe_io::{Failed, Sink};
use dpe_text::{Text, print};

/// What went wrong where a program ends with this status, and what to do, in one sentence.
#[derive(Clone, Copy)]
pub struct Cause {
    pub status: u8,
    pub sentence: &'static str,
}

/// A program's name, the forms of its words with an example, a line each, and its causes.
#[derive(Clone, Copy)]
pub struct Manual {
    pub name: &'static str,
    pub usage: &'static str,
    pub causes: &'static [Cause],
}

// Writes two texts.
fn print_both<K: Sink>(out: &mut K, first: &[u8], second: &[u8]) -> Result<(), Failed>
    ensures ok { OnOk result (Appends (K.bytes out.old) (K.bytes out.new) (first.now ++ second.now)) }
    ensures cause { HasCause (K.faults out.old) (K.faults out.new) result }
{
    match print(out, first) {
        Ok(()) => print(out, second),
        Err(Failed) => Err(Failed),
    }
}

/// Writes a line that begins with the program's name.
pub(crate) fn print_line<K: Sink>(out: &mut K, name: &str, sentence: &str) -> Result<(), Failed>
    ensures ok { OnOk result (Appends (K.bytes out.old) (K.bytes out.new) (line name.now sentence.now)) }
    ensures cause { HasCause (K.faults out.old) (K.faults out.new) result }
{
    match print_both(out, name.as_bytes(), b": ") {
        Ok(()) => print_both(out, sentence.as_bytes(), b"\n"),
        Err(Failed) => Err(Failed),
    }
}

// Writes the line of a status.
fn print_status<K: Sink>(out: &mut K, name: &str, status: u8) -> Result<(), Failed>
    ensures ok { OnOk result (Appends (K.bytes out.old) (K.bytes out.new) (status_line name.now status)) }
    ensures cause { HasCause (K.faults out.old) (K.faults out.new) result }
{
    let mut text = Text::new();
    text.push(b": status ");
    text.push_number(u64::from(status));
    text.push(b"\n");
    print_both(out, name.as_bytes(), text.bytes())
}

// The first cause that has this status.
fn cause_of(causes: &[Cause], status: u8) -> Option<Cause>
    ensures { result ≡ find (λ cause. cause.status == status) causes.now }
{
    let (cause, rest) = causes.split_first()?;
    if cause.status == status {
        return Some(*cause);
    }
    cause_of(rest, status)
}

// Writes the sentence of a status, where there is one.
fn print_sentence<K: Sink>(out: &mut K, manual: &Manual, status: u8) -> Result<(), Failed>
    ensures ok { OnOk result (Appends (K.bytes out.old) (K.bytes out.new) (sentence_line manual.now status)) }
    ensures cause { HasCause (K.faults out.old) (K.faults out.new) result }
{
    match cause_of(manual.causes, status) {
        Some(cause) => print_line(out, manual.name, cause.sentence),
        None => Ok(()),
    }
}

// Writes the forms of the words, where they were faulty.
fn print_usage<K: Sink>(out: &mut K, usage: &str, status: u8) -> Result<(), Failed>
    ensures ok { OnOk result (Appends (K.bytes out.old) (K.bytes out.new) (usage_lines usage.now status)) }
    ensures cause { HasCause (K.faults out.old) (K.faults out.new) result }
{
    if status == FAULTY_WORDS {
        return print(out, usage.as_bytes());
    }
    Ok(())
}

/// Writes what went wrong and what to do, the forms of the words where the status is 2, and last the line
/// `NAME: status N`.
pub fn tell<K: Sink>(out: &mut K, manual: &Manual, status: u8) -> Result<(), Failed>
    ensures ok { OnOk result (Appends (K.bytes out.old) (K.bytes out.new) (report manual.now status)) }
    ensures cause { HasCause (K.faults out.old) (K.faults out.new) result }
{
    match print_sentence(out, manual, status) {
        Ok(()) => {}
        Err(Failed) => return Err(Failed),
    }
    match print_usage(out, manual.usage, status) {
        Ok(()) => {}
        Err(Failed) => return Err(Failed),
    }
    print_status(out, manual.name, status)
}
