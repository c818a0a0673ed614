//! The audit of one journal.
ghost use Rattle.std.specs.Prelude.{IsTrue, false, ◌⊎◌, ◌≡◌, ◌≤◌, ℕ, List, [], length, ◌≢◌, Option, OnOk, OnErr};
ghost use Rattle.std.specs.Io.KnownBytes.{Appends};
ghost use Rattle.dpe_io.specs.Causes.{HasCause, Rose};
ghost use Rattle.dpe_text.specs.Writing.{AppendsFront};
ghost use Rattle.dpe_journal.specs.Stages.{at_front};
ghost use Rattle.dpe_audit.specs.Audit.{Ends, HasEndCause, IsPrinted, Told, end_of as end_at};
ghost use Rattle.dpe_audit.specs.Listing.{mode_of as mode_listing};
ghost use Rattle.dpe_audit.specs.Mode.{Mode};
ghost use Rattle.dpe_audit.specs.Printed as printed;
ghost use Rattle.dpe_audit.specs.Verdicts.{mode_of as mode_viewing, verdict_text};
ghost use Rattle.dpe_audit.specs.Tasks.{mode_of, seed_of};

use crate::judging::{Judgement, Tally, judge};
use crate::listing::{Choice, Listing, list_records};
use crate::reading::read_header;
use crate::verdict::{View, print_difference, print_fault, print_verdict};
use dpe_core::Core;
use dpe_io::{Failed, MAX_PACKET, Sink, Source};
use dpe_journal::{Entry, RecordFault, Records};
use std::alloc::Global;

/// How an audit ended.
#[derive(Clone, Copy)]
pub enum End {
    /// The bytes are a journal, and where replies are compared its history is legal.
    Whole,
    /// The bytes are no journal.
    NoJournal,
    /// A reply differs from the one that is given there.
    Differs,
    /// A file couldn't be opened or read.
    ReadFault,
    /// The output failed.
    WriteFault,
    NoMemory,
    /// The seed's file hasn't 32 bytes.
    WrongSeed,
}

/// What is to be done with a journal.
#[derive(Clone, Copy)]
pub enum Task {
    /// Compare the replies with those that this seed gives.
    Judge { view: View, seed: [u8; 32] },
    /// Print lines of the records.
    Print(Choice),
}

// How an audit ends at this fault.
fn end_of(fault: RecordFault) -> End
    ensures { result ≡ end_at fault }
{
    match fault {
        RecordFault::Malformed { .. } => End::NoJournal,
        RecordFault::Truncated { .. } => End::NoJournal,
        RecordFault::ReadFault => End::ReadFault,
    }
}

// The end, unless the text before it wasn't printed.
fn conclude(printed: Result<(), Failed>, end: End) -> End
    ensures ok { OnOk printed (result ≡ end) }
    ensures err { OnErr printed (result ≡ End.WriteFault) }
{
    match printed {
        Ok(()) => end,
        Err(Failed) => End::WriteFault,
    }
}

// Tells a fault.
fn tell_fault<O: Sink>(fault: RecordFault, out: &mut O) -> End
    ensures { Told (end_at fault) (printed.fault_text fault) (O.bytes out.old) (O.bytes out.new)
        (O.faults out.old) (O.faults out.new) result }
{
    conclude(print_fault(fault, out), end_of(fault))
}

// Tells what is asked for of a legal history.
fn tell_verdict<O: Sink>(view: View, core: &Core, tally: Tally, out: &mut O) -> End
    ensures { Told End.Whole (verdict_text view core.now tally) (O.bytes out.old) (O.bytes out.new)
        (O.faults out.old) (O.faults out.new) result }
{
    conclude(print_verdict(view, core, tally, out), End::Whole)
}

// Tells the first reply that differs.
fn tell_difference<O: Sink>(number: u32, recorded: &[u8], computed: &[u8], out: &mut O) -> End
    requires recorded { length recorded.now ≤ 4096 }
    requires computed { length computed.now ≤ 4096 }
    ensures { Told End.Differs (printed.difference_text number recorded.now computed.now) (O.bytes out.old) (O.bytes out.new)
        (O.faults out.old) (O.faults out.new) result }
{
    conclude(
        print_difference(number, recorded, computed, out),
        End::Differs,
    )
}

// Judges the journal's history, and tells the verdict.
fn judge_journal<S: Source, O: Sink>(
    alloc: Global,
    view: View,
    seed: &[u8; 32],
    records: &mut Records<S>,
    out: &mut O,
) -> End
    requires stage { records.old.stage ≡ at_front }
    requires at { records.old.at ≡ 0 }
    ensures ends { Ends result (mode_viewing view) seed.now (S.left records.old.source) (S.left records.new.source)
        (O.bytes out.old) (O.bytes out.new) }
    ensures cause { HasEndCause result (S.faults records.old.source) (S.faults records.new.source)
        (O.faults out.old) (O.faults out.new) }
    ensures untouched { result ≡ End.NoMemory → out.new ≡ out.old }
{
    let mut entry = Entry::new();
    let first = match read_header(records, &mut entry) {
        Ok(first) => first,
        Err(fault) => return tell_fault(fault, out),
    };
    let Ok(mut core) = Core::make(alloc, seed, first) else {
        return End::NoMemory;
    };
    let mut room = [0; MAX_PACKET];
    match judge(records, &mut core, &mut entry, &mut room) {
        Judgement::Legal(tally) => tell_verdict(view, &core, tally, out),
        Judgement::Differs { number, len } => {
            tell_difference(number, entry.reply.bytes(), &room[..len], out)
        }
        Judgement::Faulty(fault) => tell_fault(fault, out),
    }
}

// Prints lines of the journal's records.
fn list_journal<S: Source, O: Sink>(choice: Choice, records: &mut Records<S>, out: &mut O) -> End
    requires stage { records.old.stage ≡ at_front }
    requires at { records.old.at ≡ 0 }
    ensures ends { Ends result (mode_listing choice) [] (S.left records.old.source) (S.left records.new.source)
        (O.bytes out.old) (O.bytes out.new) }
    ensures cause { HasEndCause result (S.faults records.old.source) (S.faults records.new.source)
        (O.faults out.old) (O.faults out.new) }
    ensures memory { result ≢ End.NoMemory }
{
    let mut entry = Entry::new();
    match read_header(records, &mut entry) {
        Ok(_first) => {}
        Err(fault) => return tell_fault(fault, out),
    }
    match list_records(choice, records, &mut entry, out) {
        Listing::Whole => End::Whole,
        Listing::Faulty(fault) => tell_fault(fault, out),
        Listing::WriteFault => End::WriteFault,
    }
}

// Whether a text was printed whole, so that it is to be sent on.
fn is_printed(end: End) -> bool
    ensures yes { IsTrue result → IsPrinted end }
    ensures no { (result ≡ false) → (end ≡ End.WriteFault) ⊎ (end ≡ End.NoMemory) }
{
    match end {
        End::Whole => true,
        End::NoJournal => true,
        End::Differs => true,
        End::ReadFault => true,
        End::WriteFault => false,
        End::NoMemory => false,
        End::WrongSeed => true,
    }
}

// Sends on what was printed.
fn flush_after<O: Sink>(end: End, out: &mut O) -> End
    ensures ends { (mode : Mode) (seed : List ℕ) (old new got : Option (List ℕ)) →
        Ends end mode seed old new got (O.bytes out.old) → Ends result mode seed old new got (O.bytes out.new) }
    ensures cause { (reads reads_now writes : ℕ) →
        HasEndCause end reads reads_now writes (O.faults out.old) → HasEndCause result reads reads_now writes (O.faults out.new) }
    ensures untouched { result ≡ End.NoMemory → (end ≡ End.NoMemory) × (out.new ≡ out.old) }
{
    if !is_printed(end) {
        return end;
    }
    match out.flush() {
        Ok(()) => end,
        Err(Failed) => End::WriteFault,
    }
}

// Judges or lists the journal as is asked for, and leaves what was printed unflushed.
fn audit_unflushed<S: Source, O: Sink>(
    alloc: Global,
    task: &Task,
    records: &mut Records<S>,
    out: &mut O,
) -> End
    requires stage { records.old.stage ≡ at_front }
    requires at { records.old.at ≡ 0 }
    ensures ends { Ends result (mode_of task.now) (seed_of task.now) (S.left records.old.source) (S.left records.new.source)
        (O.bytes out.old) (O.bytes out.new) }
    ensures cause { HasEndCause result (S.faults records.old.source) (S.faults records.new.source)
        (O.faults out.old) (O.faults out.new) }
    ensures untouched { result ≡ End.NoMemory → out.new ≡ out.old }
{
    match task {
        Task::Judge { view, seed } => judge_journal(alloc, *view, seed, records, out),
        Task::Print(choice) => list_journal(*choice, records, out),
    }
}

/// Reads a journal from its front and does with it what is asked for, and sends on what was printed.
pub fn audit_journal<S: Source, O: Sink>(
    alloc: Global,
    task: &Task,
    records: &mut Records<S>,
    out: &mut O,
) -> End
    requires stage { records.old.stage ≡ at_front }
    requires at { records.old.at ≡ 0 }
    ensures ends { Ends result (mode_of task.now) (seed_of task.now) (S.left records.old.source) (S.left records.new.source)
        (O.bytes out.old) (O.bytes out.new) }
    ensures cause { HasEndCause result (S.faults records.old.source) (S.faults records.new.source)
        (O.faults out.old) (O.faults out.new) }
    ensures untouched { result ≡ End.NoMemory → out.new ≡ out.old }
{
    let end = audit_unflushed(alloc, task, records, out);
    flush_after(end, out)
}
