//! What is printed where the journal was judged: of a legal history, of the first reply that differs, or of a fault.
ghost use Rattle.std.specs.Prelude.{◌≤◌, length, OnOk, OnErr};
ghost use Rattle.std.specs.Io.KnownBytes.{Appends};
ghost use Rattle.dpe_io.specs.Causes.{HasCause};
ghost use Rattle.dpe_text.specs.Writing.{AppendsFront};
ghost use Rattle.dpe_audit.specs.Printed as printed;
ghost use Rattle.dpe_audit.specs.Verdicts.{verdict_text};

use crate::judging::Tally;
use crate::texts::{count_text, live_line, named_bytes, named_number};
use dpe_core::Core;
use dpe_io::{Failed, Sink};
use dpe_journal::RecordFault;
use dpe_text::print;

/// What is told of a legal history.
#[derive(Clone, Copy)]
pub enum View {
    /// How many entries it has, how many were refused, and how many contexts live after it.
    Counts,
    /// The contexts that live after it.
    Contexts,
}

// Prints a line for each live context.
fn print_contexts<O: Sink>(core: &Core, out: &mut O) -> Result<(), Failed>
    ensures ok { OnOk result (Appends (O.bytes out.old) (O.bytes out.new) (printed.live_text core.now.state.rows)) }
    ensures front { OnErr result (AppendsFront (O.bytes out.old) (O.bytes out.new)
        (printed.live_text core.now.state.rows)) }
    ensures cause { HasCause (O.faults out.old) (O.faults out.new) result }
{
    for at in 0..core.live() {
        print(out, live_line(&core.row(at)).bytes())?;
    }
    Ok(())
}

// Prints the three numbers.
fn print_counts<O: Sink>(core: &Core, tally: Tally, out: &mut O) -> Result<(), Failed>
    ensures ok { OnOk result (Appends (O.bytes out.old) (O.bytes out.new)
        (printed.count_text tally.entries tally.refused (length core.now.state.rows))) }
    ensures front { OnErr result (AppendsFront (O.bytes out.old) (O.bytes out.new)
        (printed.count_text tally.entries tally.refused (length core.now.state.rows))) }
    ensures cause { HasCause (O.faults out.old) (O.faults out.new) result }
{
    print(
        out,
        count_text(tally.entries, tally.refused, core.live()).bytes(),
    )
}

/// Prints what is to be told of a legal history, to which the executor has come.
pub fn print_verdict<O: Sink>(
    view: View,
    core: &Core,
    tally: Tally,
    out: &mut O,
) -> Result<(), Failed>
    ensures ok { OnOk result (Appends (O.bytes out.old) (O.bytes out.new) (verdict_text view core.now tally)) }
    ensures front { OnErr result (AppendsFront (O.bytes out.old) (O.bytes out.new) (verdict_text view core.now tally)) }
    ensures cause { HasCause (O.faults out.old) (O.faults out.new) result }
{
    match view {
        View::Counts => print_counts(core, tally, out),
        View::Contexts => print_contexts(core, out),
    }
}

// Prints the line of a name and a number.
fn print_number<O: Sink>(name: &[u8], number: u64, out: &mut O) -> Result<(), Failed>
    requires { length name.now ≤ 20 }
    ensures ok { OnOk result (Appends (O.bytes out.old) (O.bytes out.new) (printed.named_number name.now number)) }
    ensures front { OnErr result (AppendsFront (O.bytes out.old) (O.bytes out.new)
        (printed.named_number name.now number)) }
    ensures cause { HasCause (O.faults out.old) (O.faults out.new) result }
{
    print(out, named_number(name, number).bytes())
}

// Prints the line of a name and bytes.
fn print_bytes<O: Sink>(name: &[u8], bytes: &[u8], out: &mut O) -> Result<(), Failed>
    requires name { length name.now ≤ 20 }
    requires bytes { length bytes.now ≤ 4096 }
    ensures ok { OnOk result (Appends (O.bytes out.old) (O.bytes out.new) (printed.named_bytes name.now bytes.now)) }
    ensures front { OnErr result (AppendsFront (O.bytes out.old) (O.bytes out.new)
        (printed.named_bytes name.now bytes.now)) }
    ensures cause { HasCause (O.faults out.old) (O.faults out.new) result }
{
    print(out, named_bytes(name, bytes).bytes())
}

// Prints the two replies to an entry that differ.
fn print_replies<O: Sink>(recorded: &[u8], computed: &[u8], out: &mut O) -> Result<(), Failed>
    requires recorded { length recorded.now ≤ 4096 }
    requires computed { length computed.now ≤ 4096 }
    ensures ok { OnOk result (Appends (O.bytes out.old) (O.bytes out.new)
        (printed.replies_text recorded.now computed.now)) }
    ensures front { OnErr result (AppendsFront (O.bytes out.old) (O.bytes out.new)
        (printed.replies_text recorded.now computed.now)) }
    ensures cause { HasCause (O.faults out.old) (O.faults out.new) result }
{
    print_bytes(b"recorded ", recorded, out)?;
    print_bytes(b"computed ", computed, out)
}

/// Prints the number of the first entry whose reply differs, and the two replies.
pub fn print_difference<O: Sink>(
    number: u32,
    recorded: &[u8],
    computed: &[u8],
    out: &mut O,
) -> Result<(), Failed>
    requires recorded { length recorded.now ≤ 4096 }
    requires computed { length computed.now ≤ 4096 }
    ensures ok { OnOk result (Appends (O.bytes out.old) (O.bytes out.new)
        (printed.difference_text number recorded.now computed.now)) }
    ensures front { OnErr result (AppendsFront (O.bytes out.old) (O.bytes out.new)
        (printed.difference_text number recorded.now computed.now)) }
    ensures cause { HasCause (O.faults out.old) (O.faults out.new) result }
{
    print_number(b"entry ", u64::from(number), out)?;
    print_replies(recorded, computed, out)
}

/// Prints where a journal is malformed or truncated, and nothing of a read fault.
pub fn print_fault<O: Sink>(fault: RecordFault, out: &mut O) -> Result<(), Failed>
    ensures ok { OnOk result (Appends (O.bytes out.old) (O.bytes out.new) (printed.fault_text fault)) }
    ensures front { OnErr result (AppendsFront (O.bytes out.old) (O.bytes out.new) (printed.fault_text fault)) }
    ensures cause { HasCause (O.faults out.old) (O.faults out.new) result }
{
    match fault {
        RecordFault::Malformed { at } => print_number(b"malformed at ", at, out),
        RecordFault::Truncated { at } => print_number(b"truncated at ", at, out),
        RecordFault::ReadFault => Ok(()),
    }
}
