//! The lines that an audit prints.
ghost use Rattle.std.specs.Prelude.{◌≡◌, ◌+◌, ◌≤◌, ◌++◌, codes, length};
ghost use Rattle.std.specs.Fmt.{decimal};
ghost use Rattle.dpe_journal.specs.Stored.{entry_of};
ghost use Rattle.dpe_audit.specs.Printed as printed;

use dpe_journal::Entry;
use dpe_messages::{command_number, reply_code};
use dpe_model::LiveRow;
use dpe_text::Text;

/// The line of a name and a number.
pub fn named_number(name: &[u8], number: u64) -> Text
    requires { length name.now ≤ 20 }
    ensures { result ≡ printed.named_number name.now number }
{
    let mut line = Text::new();
    line.push(name);
    line.push_number(number);
    line.push(b"\n");
    line
}

/// The line of a name and bytes, of which there are at most 4,096.
pub fn named_bytes(name: &[u8], bytes: &[u8]) -> Text
    requires name { length name.now ≤ 20 }
    requires bytes { length bytes.now ≤ 4096 }
    ensures { result ≡ printed.named_bytes name.now bytes.now }
{
    let mut line = Text::new();
    line.push(name);
    line.push_hex(bytes);
    line.push(b"\n");
    line
}

// Appends a number and a space.
fn push_field(line: &mut Text, number: u64)
    requires { length line.old + 21 ≤ 8256 }
    ensures digits { line.new ≡ line.old ++ decimal number ++ codes " " }
    ensures few { length line.new ≤ length line.old + 21 }
{
    line.push_number(number);
    line.push(b" ");
}

// Appends a number, or `-` where there is none.
fn push_or_dash(line: &mut Text, number: Option<u64>)
    requires { length line.old + 20 ≤ 8256 }
    ensures digits { line.new ≡ line.old ++ printed.number_or_dash number }
    ensures few { length line.new ≤ length line.old + 20 }
{
    match number {
        Some(number) => line.push_number(number),
        None => line.push(b"-"),
    }
}

// The number of an entry and its own, each with a space behind it.
fn numbers(number: u32, entry: &Entry) -> Text
    ensures digits { result ≡ printed.numbers number (entry_of entry.now) }
    ensures few { length result ≤ 105 }
{
    let mut line = Text::new();
    push_field(&mut line, u64::from(number));
    push_field(&mut line, u64::from(entry.caller));
    push_field(&mut line, u64::from(entry.call.connection()));
    push_field(&mut line, u64::from(entry.call.index()));
    push_field(&mut line, u64::from(entry.call.locality()));
    line
}

/// The line of the entry of this number.
pub fn record_line(number: u32, entry: &Entry) -> Text
    ensures { result ≡ printed.record_line number (entry_of entry.now) }
{
    let mut line = numbers(number, entry);
    push_or_dash(&mut line, command_number(entry.call.payload()));
    line.push(b" ");
    push_or_dash(&mut line, reply_code(entry.reply.bytes()));
    line.push(b"\n");
    line
}

/// The line of an entry's index and reply.
pub fn reply_line(entry: &Entry) -> Text
    ensures { result ≡ printed.reply_line (entry_of entry.now) }
{
    let mut line = Text::new();
    push_field(&mut line, u64::from(entry.call.index()));
    line.push_hex(entry.reply.bytes());
    line.push(b"\n");
    line
}

/// The lines of the three numbers that are told of a legal history.
pub fn count_text(entries: u32, refused: u32, contexts: u32) -> Text
    ensures { result ≡ printed.count_text entries refused contexts }
{
    let mut text = Text::new();
    text.push(b"entries ");
    text.push_number(u64::from(entries));
    text.push(b"\nrefused ");
    text.push_number(u64::from(refused));
    text.push(b"\nlive ");
    text.push_number(u64::from(contexts));
    text.push(b"\n");
    text
}

fn yes_or_no(answer: bool) -> &'static [u8]
    ensures text { result.now ≡ printed.yes_or_no answer }
    ensures few { length result.now ≤ 3 }
{
    if answer { b"yes" } else { b"no" }
}

/// The line of a live context.
pub fn live_line(row: &LiveRow) -> Text
    ensures { result ≡ printed.live_line row.now }
{
    let mut line = Text::new();
    line.push_hex(&row.handle);
    line.push(b" ");
    push_field(&mut line, u64::from(row.locality));
    push_field(&mut line, u64::from(row.depth));
    push_field(&mut line, u64::from(row.mode));
    line.push(yes_or_no(row.may_derive));
    line.push(b"\n");
    line
}
