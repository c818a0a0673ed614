//! What the server prints at its end.
ghost use Rattle.std.specs.Prelude.{◌≡◌, ◌+◌, ◌^◌, ◌<◌, ◌≤◌, ◌++◌, [], length, map, codes, not, OnOk, OnErr, take};
ghost use Rattle.std.specs.Io.KnownBytes.{Appends};
ghost use Rattle.dpe_io.specs.Causes.{HasCause};
ghost use Rattle.dpe_journal.specs.Stored.{entry_of};
ghost use Rattle.dpe_model.specs.History.{is_accepted};
ghost use Rattle.dpe_text.specs.Writing.{AppendsFront};
ghost use Rattle.dpe_serve.specs.Summary as spec;

use crate::crew::Post;
use dpe_io::{Door, Entropy, Failed, Sink};
use dpe_journal::{Book, Entry};
use dpe_messages::reply_code;
use dpe_text::{Text, send};

/// The numbers of the summary: ended connections, entries, refused entries, and the connections that ended with `Full`, and
/// with neither `Full` nor `Closed`.
#[derive(Clone, Copy)]
pub(crate) struct Totals {
    pub(crate) connections: u64,
    pub(crate) commands: u64,
    pub(crate) refused: u64,
    pub(crate) full: u64,
    pub(crate) cut: u64,
}

// Whether the reply has another code than 0.
fn is_refused(entry: &Entry) -> bool
    ensures { result ≡ not (is_accepted (entry_of entry.now)) }
{
    match reply_code(entry.reply.bytes()) {
        Some(code) => code != 0,
        None => true,
    }
}

// How many entries of the history have a reply of another code than 0.
fn count_refused(book: &Book) -> u64
    ensures { result ≡ spec.refused_of book.now.history }
{
    let mut refused = 0;
    for at in 0..book.length() {
        if is_refused(book.entry(at)) {
            refused += 1;
        }
    }
    refused
}

// The same number, which is below 2^32.
fn widened(number: u32) -> u64
    ensures same { result ≡ number }
    ensures few { result < 2 ^ 32 }
{
    u64::from(number)
}

/// The numbers of all workers and of the history.
pub(crate) fn add_up<D: Door, E: Entropy>(book: &Book, posts: &[Post<D, E>]) -> Totals
    requires { length posts.now ≤ 65536 }
    ensures { result ≡ spec.totals_of book.now.history (map (λ p. p.tally) posts.now) }
{
    let mut connections = 0;
    let mut full = 0;
    let mut cut = 0;
    for post in posts {
        connections += widened(post.tally.connections);
        full += widened(post.tally.full);
        cut += widened(post.tally.cut);
    }
    Totals {
        connections,
        commands: u64::from(book.length()),
        refused: count_refused(book),
        full,
        cut,
    }
}

// Appends the line of a name and a number.
fn push_line(text: &mut Text, name: &[u8], number: u64)
    requires few { length name.now ≤ 11 }
    requires room { length text.old + 40 ≤ 8256 }
    ensures line { text.new ≡ text.old ++ spec.line name.now number }
    ensures few { length text.new ≤ length text.old + 40 }
{
    text.push(name);
    text.push(b" ");
    text.push_number(number);
    text.push(b"\n");
}

// The five lines.
fn summary_text(totals: &Totals) -> Text
    ensures { result ≡ spec.summary_text totals.now }
{
    let mut text = Text::new();
    push_line(&mut text, b"connections", totals.connections);
    push_line(&mut text, b"commands", totals.commands);
    push_line(&mut text, b"refused", totals.refused);
    push_line(&mut text, b"full", totals.full);
    push_line(&mut text, b"cut", totals.cut);
    text
}

/// Writes the five lines, and flushes. Where the output fails, a front of them was written.
pub(crate) fn print_summary<O: Sink>(totals: &Totals, out: &mut O) -> Result<(), Failed>
    ensures ok { OnOk result (Appends (O.bytes out.old) (O.bytes out.new) (spec.summary_text totals.now)) }
    ensures front { OnErr result (AppendsFront (O.bytes out.old) (O.bytes out.new) (spec.summary_text totals.now)) }
    ensures cause { HasCause (O.faults out.old) (O.faults out.new) result }
{
    send(out, summary_text(totals).bytes())
}
