//! Journals: read part by part, and written; and books, which keep what they do.
ghost use Rattle.std.specs.Prelude.{◌≡◌, ◌≤◌, [], IfOk};

use crate::told::{DIFFERS, Runs, SMALL_PIECES, WHOLE, bytes, only};
use dpe_io::{MAX_PACKET, MemSink, MemSource, Packet, Source};
use dpe_journal::{Book, Call, Entry, MAX_RECORDS, Next, RecordFault, Records, write_journal};
use std::alloc::{AllocError, Global};
use table_rows::{Names, RowFault, Told, Word, put, show_alike};

// The most bytes of a sink.
const MOST_ROOM: usize = 100_000;

// The seed of all books.
const SEED: [u8; 32] = [0; 32];

/// Tells an entry: caller, connection, index, locality, random bytes, and both payloads.
pub(crate) fn tell_entry(told: &mut String, entry: &Entry) -> Told {
    let call = &entry.call;
    let (connection, index, locality) = (call.connection(), call.index(), call.locality());
    write!(
        told,
        "entry {} {connection} {index} {locality}",
        entry.caller
    )?;
    bytes(told, " ", call.random())?;
    bytes(told, " ", call.payload())?;
    bytes(told, " ", entry.reply.bytes())
}

// The next part, where the reader hasn't ended.
fn next_of<S: Source>(
    records: &mut Records<S>,
    entry: &mut Entry,
) -> Option<Result<Next, RecordFault>> {
    if records.ended() {
        return None;
    }
    Some(records.next(entry))
}

// Tells a part.
fn tell_part(told: &mut String, part: Next, entry: &Entry) -> Told {
    match part {
        Next::Header(first) => write!(told, "header {first}, ")?,
        Next::Entry => {
            tell_entry(told, entry)?;
            put(told, ", ")?;
        }
        Next::End(count) => write!(told, "end {count}")?,
    }
    Ok(())
}

// Tells the parts up to a fault or the end, and answers whether it was the end.
fn tell_parts(
    records: &mut Records<MemSource>,
    entry: &mut Entry,
    most: usize,
    told: &mut String,
) -> Result<bool, RowFault> {
    for _ in 0..most {
        match next_of(records, entry) {
            Some(Ok(part)) => tell_part(told, part, entry)?,
            Some(Err(fault)) => {
                write!(told, "{fault}")?;
                return Ok(false);
            }
            None => return Ok(true),
        }
    }
    Ok(true)
}

// Tells all parts of a journal, and what is left behind its end.
fn tell_journal(source: MemSource, most: usize, told: &mut String) -> Told {
    let mut records = Records::new(source);
    if tell_parts(&mut records, &mut Entry::new(), most, told)? {
        bytes(told, ", left ", records.release().left())?;
    }
    Ok(())
}

/// Tells what a row about a journal or a book gives.
pub(crate) fn tell(
    alloc: Global,
    names: &Names,
    call: &str,
    words: &[Word<'_>],
    told: &mut String,
) -> Told {
    match call {
        "read" => read(alloc, only(words)?, told),
        "read-cut" => read_cut(alloc, only(words)?, told),
        "read-failing" => read_failing(alloc, only(words)?, told),
        "write" => write(alloc, names, words, told),
        "book" => keep(alloc, names, words, told),
        _ => Err(RowFault::Unreadable),
    }
}

// Tells the parts of a journal that comes in such pieces.
fn read_by(alloc: Global, journal: &[u8], piece: usize, told: &mut String) -> Told
    requires { 1 ≤ piece }
{
    let most = journal.len().saturating_add(2);
    let source = MemSource::new(alloc, journal, piece, &[])?;
    tell_journal(source, most, told)
}

// Whether the same is told where the journal comes in such pieces.
fn reads_same(alloc: Global, journal: &[u8], piece: usize, told: &str) -> Result<bool, RowFault>
    requires { 1 ≤ piece }
{
    let mut other = String::new(alloc);
    read_by(alloc, journal, piece, &mut other)?;
    Ok(other.as_str() == told)
}

// Tells the parts of a journal, and what is left unread behind its end.
fn read(alloc: Global, journal: &[u8], told: &mut String) -> Told {
    let [one, seven] = SMALL_PIECES;
    read_by(alloc, journal, WHOLE, told)?;
    if reads_same(alloc, journal, one, told)? && reads_same(alloc, journal, seven, told)? {
        return Ok(());
    }
    put(told, DIFFERS)
}

// How many records stood before the end or the fault of a journal, and which it was.
fn last_of(source: MemSource, most: usize) -> (u32, Option<Result<u64, RecordFault>>) {
    let mut records = Records::new(source);
    let mut entry = Entry::new();
    let mut count = 0u32;
    for _ in 0..most {
        match next_of(&mut records, &mut entry) {
            Some(Ok(Next::Header(_))) => {}
            Some(Ok(Next::Entry)) => count = count.saturating_add(1),
            Some(Ok(Next::End(end))) => return (count, Some(Ok(end))),
            Some(Err(fault)) => return (count, Some(Err(fault))),
            None => break,
        }
    }
    (count, None)
}

// What is left of a reading: the end or the fault, and how many records stood before.
fn verdict_of(alloc: Global, source: MemSource) -> Result<String, AllocError> {
    match last_of(source, 9) {
        (count, Some(Ok(end))) => format!(in alloc; "end {end} behind {count} records"),
        (count, Some(Err(fault))) => format!(in alloc; "{fault} behind {count} records"),
        (_, None) => String::from_str(alloc, "no end"),
    }
}

// What is left of reading these bytes, so many at a time, where these reads fail.
fn verdict(
    alloc: Global,
    journal: &[u8],
    piece: usize,
    failing: &[u32],
) -> Result<String, AllocError>
    requires { 1 ≤ piece }
{
    verdict_of(alloc, MemSource::new(alloc, journal, piece, failing)?)
}

// The journal cut to each length.
fn read_cut(alloc: Global, journal: &[u8], told: &mut String) -> Told {
    let most = journal.len();
    let mut runs = Runs {
        last: String::new(alloc),
    };
    for len in 0..=most {
        runs.add(len, verdict(alloc, &journal[..len], 5, &[])?, told)?;
    }
    Ok(())
}

// The journal byte by byte, where each read in turn fails, and last one that isn't made.
fn read_failing(alloc: Global, journal: &[u8], told: &mut String) -> Told {
    let most = journal.len().saturating_add(1);
    let mut runs = Runs {
        last: String::new(alloc),
    };
    for call in 0..=MAX_RECORDS {
        if call as usize > most {
            break;
        }
        runs.add(call as usize, verdict(alloc, journal, 1, &[call])?, told)?;
    }
    Ok(())
}

// A sink of so many bytes, of which a write takes at most a piece, and of which these calls fail.
fn sink_of(
    alloc: Global,
    size: &Word<'_>,
    piece: &Word<'_>,
    failing: &Word<'_>,
) -> Result<MemSink, RowFault> {
    let size = size.length_to(MOST_ROOM)?;
    let piece = piece.size()?;
    let failing = failing.numbers(alloc)?;
    Ok(MemSink::new(alloc, size, piece, &failing)?)
}

// An entry of caller 7 with these payloads.
fn entry_of(payload: &Word<'_>, reply: &Word<'_>) -> Result<Entry, RowFault> {
    let payload = payload.at_most(MAX_PACKET)?;
    let reply = reply.at_most(MAX_PACKET)?;
    let mut stored = Packet::new();
    stored.set(reply);
    Ok(Entry {
        caller: 7,
        call: Call::new(0, 0, 0, &[0; 32], payload),
        reply: stored,
    })
}

// The words before and behind the colon of a word.
fn halves<'a>(
    alloc: Global,
    names: &Names,
    word: &Word<'a>,
) -> Result<(Word<'a>, Word<'a>), RowFault> {
    match word.whole.split_once(':') {
        Some((front, back)) => Ok((
            Word::read(alloc, names, front),
            Word::read(alloc, names, back),
        )),
        None => Err(RowFault::Unreadable),
    }
}

// The entries of words `PAYLOAD:REPLY`.
fn entries_of(alloc: Global, names: &Names, words: &[Word<'_>]) -> Result<Vec<Entry>, RowFault> {
    let mut entries = Vec::new(alloc);
    for word in words {
        let (payload, reply) = halves(alloc, names, word)?;
        entries.push(entry_of(&payload, &reply)?)?;
    }
    Ok(entries)
}

// Tells what the sink gets of a journal, and how many of its bytes are told to be written where it fails.
fn write(alloc: Global, names: &Names, words: &[Word<'_>], told: &mut String) -> Told {
    let [first, size, piece, failing, words @ ..] = words else {
        return Err(RowFault::Unreadable);
    };
    let first = u64::from(first.number::<u32>()?);
    let mut sink = sink_of(alloc, size, piece, failing)?;
    let entries = entries_of(alloc, names, words)?;
    write_to(first, &entries, &mut sink, told)
}

// Writes the journal, and tells its fault and the first bytes that the sink got.
fn write_to(first: u64, entries: &[Entry], sink: &mut MemSink, told: &mut String) -> Told {
    if entries.len() > MAX_RECORDS as usize {
        return Err(RowFault::Unreadable);
    }
    match write_journal(first, entries, sink) {
        Ok(()) => put(told, "whole")?,
        Err(fault) => write!(told, "fault behind {}", fault.written)?,
    }
    let got = sink.bytes();
    write!(told, ", {} bytes", got.len())?;
    bytes(told, ": ", &got[..got.len().min(200)])
}

/// A book of so many places.
pub(crate) fn book_of(alloc: Global, capacity: u32) -> Result<Book, RowFault>
    ensures { IfOk result (λ book. (1 ≤ book.capacity) × (book.capacity ≤ 65536) × (book.history ≡ [])) }
{
    if capacity == 0 || capacity > MAX_RECORDS {
        return Err(RowFault::Unreadable);
    }
    Ok(Book::make(alloc, &SEED, 1, capacity)?)
}

// Tells the journal of a book.
fn tell_written(alloc: Global, book: &Book, told: &mut String) -> Told {
    let mut sink = MemSink::new(alloc, 20_000, 9_000, &[])?;
    match book.write_to(&mut sink) {
        Ok(()) => show_alike(told, sink.bytes()),
        Err(fault) => Ok(write!(told, "fault behind {}", fault.written)?),
    }
}

// Makes the call of a caller and a payload, and tells the reply.
fn step(
    book: &mut Book,
    caller: &Word<'_>,
    payload: &Word<'_>,
    reply: &mut Packet,
    told: &mut String,
) -> Told {
    let caller = caller.number::<u32>()?;
    let payload = payload.at_most(MAX_PACKET)?;
    if book.length() == book.capacity() {
        return Err(RowFault::Unreadable);
    }
    book.step(caller, &Call::new(0, 0, 0, &SEED, payload), reply);
    show_alike(told, reply.bytes())?;
    put(told, ", ")
}

// Makes the calls of words `CALLER:PAYLOAD`, and tells the replies, each over the room of the reply before, which begins
// with 4,096 nines.
fn step_all(
    alloc: Global,
    names: &Names,
    book: &mut Book,
    words: &[Word<'_>],
    told: &mut String,
) -> Told {
    let mut reply = Packet::new();
    reply.set(&[9; MAX_PACKET]);
    for word in words {
        let (caller, payload) = halves(alloc, names, word)?;
        step(book, &caller, &payload, &mut reply, told)?;
    }
    Ok(())
}

// The replies of a book to the calls; how many entries it has, and its journal.
fn keep(alloc: Global, names: &Names, words: &[Word<'_>], told: &mut String) -> Told {
    let Some((capacity, words)) = words.split_first() else {
        return Err(RowFault::Unreadable);
    };
    let mut book = book_of(alloc, capacity.number()?)?;
    step_all(alloc, names, &mut book, words, told)?;
    write!(told, "{} of {} entries: ", book.length(), book.capacity())?;
    tell_written(alloc, &book, told)
}
