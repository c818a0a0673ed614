//! The records of a journal, printed as they are read.
ghost use Rattle.std.specs.Prelude.{◌≡◌, ◌==◌, ◌&&◌, ℕ, OnOk, OnErr};
ghost use Rattle.std.specs.Io.KnownBytes.{Appends};
ghost use Rattle.dpe_io.specs.Causes.{HasCause};
ghost use Rattle.dpe_text.specs.Writing.{AppendsFront};
ghost use Rattle.dpe_journal.specs.Stages.{behind};
ghost use Rattle.dpe_journal.specs.Stored.{entry_of};
ghost use Rattle.dpe_audit.specs.Listing.{mode_of, Lists, HasListCause};
ghost use Rattle.dpe_audit.specs.Mode.{connection};
ghost use Rattle.dpe_audit.specs.Printed as printed;

use crate::reading::{Taken, read_record};
use crate::texts::{record_line, reply_line};
use dpe_io::{Failed, Sink, Source};
use dpe_journal::{Entry, RecordFault, Records};
use dpe_text::print;

/// Which lines are printed.
#[derive(Clone, Copy)]
pub enum Choice {
    /// One for each record.
    All,
    /// The replies of one connection of a caller.
    Connection { caller: u32, number: u32 },
}

/// How the records' listing ended.
#[derive(Clone, Copy)]
pub enum Listing {
    /// At the journal's end.
    Whole,
    /// At a fault behind the records.
    Faulty(RecordFault),
    /// The sink failed.
    WriteFault,
}

// Prints the line of the entry of this number.
fn print_record<O: Sink>(number: u32, entry: &Entry, out: &mut O) -> Result<(), Failed>
    ensures ok { OnOk result (Appends (O.bytes out.old) (O.bytes out.new)
        (printed.record_line number (entry_of entry.now))) }
    ensures front { OnErr result (AppendsFront (O.bytes out.old) (O.bytes out.new)
        (printed.record_line number (entry_of entry.now))) }
    ensures cause { HasCause (O.faults out.old) (O.faults out.new) result }
{
    print(out, record_line(number, entry).bytes())
}

// Prints the line of an entry's reply.
fn print_reply<O: Sink>(entry: &Entry, out: &mut O) -> Result<(), Failed>
    ensures ok { OnOk result (Appends (O.bytes out.old) (O.bytes out.new) (printed.reply_line (entry_of entry.now))) }
    ensures front { OnErr result (AppendsFront (O.bytes out.old) (O.bytes out.new)
        (printed.reply_line (entry_of entry.now))) }
    ensures cause { HasCause (O.faults out.old) (O.faults out.new) result }
{
    print(out, reply_line(entry).bytes())
}

// Whether the entry is of this connection of the caller.
fn is_of(entry: &Entry, caller: u32, number: u32) -> bool
    ensures { result ≡ (((entry_of entry.now).caller == caller) && ((entry_of entry.now).connection == number)) }
{
    entry.caller == caller && entry.call.connection() == number
}

// Prints the reply of an entry of this connection, and nothing of another.
fn print_reply_of<O: Sink>(
    caller: u32,
    number: u32,
    entry: &Entry,
    out: &mut O,
) -> Result<(), Failed>
    ensures ok { (at : ℕ) → OnOk result (Appends (O.bytes out.old) (O.bytes out.new)
        (printed.entry_line (connection caller number) at (entry_of entry.now))) }
    ensures front { (at : ℕ) → OnErr result (AppendsFront (O.bytes out.old) (O.bytes out.new)
        (printed.entry_line (connection caller number) at (entry_of entry.now))) }
    ensures cause { HasCause (O.faults out.old) (O.faults out.new) result }
{
    if is_of(entry, caller, number) {
        return print_reply(entry, out);
    }
    Ok(())
}

// Prints what is asked for of the entry of this number.
fn print_entry<O: Sink>(
    choice: Choice,
    number: u32,
    entry: &Entry,
    out: &mut O,
) -> Result<(), Failed>
    ensures ok { OnOk result (Appends (O.bytes out.old) (O.bytes out.new)
        (printed.entry_line (mode_of choice) number (entry_of entry.now))) }
    ensures front { OnErr result (AppendsFront (O.bytes out.old) (O.bytes out.new)
        (printed.entry_line (mode_of choice) number (entry_of entry.now))) }
    ensures cause { HasCause (O.faults out.old) (O.faults out.new) result }
{
    match choice {
        Choice::All => print_record(number, entry, out),
        Choice::Connection { caller, number } => print_reply_of(caller, number, entry, out),
    }
}

/// Reads the records behind the header, and prints what is asked for of each.
pub fn list_records<S: Source, O: Sink>(
    choice: Choice,
    records: &mut Records<S>,
    entry: &mut Entry,
    out: &mut O,
) -> Listing
    requires { records.old.stage ≡ behind 0 }
    ensures lists { Lists (mode_of choice) (S.left records.old.source) (S.left records.new.source) records.old.at
        (O.bytes out.old) (O.bytes out.new) result }
    ensures cause { HasListCause (S.faults records.old.source) (S.faults records.new.source)
        (O.faults out.old) (O.faults out.new) result }
{
    let mut number = 0;
    'records: loop {
        match read_record(records, entry) {
            Taken::Record => {}
            Taken::End => return Listing::Whole,
            Taken::Fault(fault) => return Listing::Faulty(fault),
        }
        match print_entry(choice, number, entry, out) {
            Ok(()) => {}
            Err(Failed) => return Listing::WriteFault,
        }
        number += 1;
    }
}
