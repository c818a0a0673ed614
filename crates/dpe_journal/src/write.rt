//! A journal, written to a sink.
ghost use Rattle.std.specs.Prelude.{◌≡◌, ◌+◌, ◌^◌, ◌<◌, ◌≤◌, [], ◌∷◌, ◌++◌, length, take, map, flat_map, OnOk, IfOk};
ghost use Rattle.std.specs.Io.KnownBytes.{Appends};
ghost use Rattle.dpe_io.specs.Causes.{HasCause};
ghost use Rattle.dpe_journal.specs.Journal.{packet, numbers, header_bytes, record_bytes, end_bytes, journal_bytes};
ghost use Rattle.dpe_journal.specs.Stored.{entry_of};
ghost use Rattle.dpe_journal.specs.Writing.{WritesFront, WritesFrontBehind, Sends};

use crate::entry::Entry;
use dpe_io::{MAX_PACKET, Sink};

/// The most records of a journal.
pub const MAX_RECORDS: u32 = 65_536;

/// The most bytes of a record: those of two payloads of 4,096 bytes.
pub(crate) const MAX_RECORD: usize = 8_242;

/// The bytes of a header, of a record without its payloads, and of the end.
pub(crate) const HEADER_SIZE: usize = 13;

pub(crate) const RECORD_SIZE: usize = 50;

pub(crate) const END_SIZE: usize = 9;

/// The first byte of a record, and of the end.
pub(crate) const RECORD: u8 = 0x01;

pub(crate) const END: u8 = 0xff;

/// The room in which records are gathered before the sink gets them.
const ROOM: usize = 32_768;

/// The sink failed after it took so many bytes of a journal.
#[derive(Clone, Copy, Debug, PartialEq, Eq)]
pub struct SinkFault {
    pub written: u64,
}

// What is gathered in the room, and how many bytes the sink got before.
#[derive(Clone, Copy)]
struct Gathered {
    len: usize,
    written: u64,
}

// Puts a piece behind the front of the room, and says where it ends.
fn put(room: &mut [u8; ROOM], at: usize, piece: &[u8]) -> usize
    requires { at + length piece.now ≤ ROOM }
    ensures end { result ≡ at + length piece.now }
    ensures put { take result room.new ≡ take at room.old ++ piece.now }
{
    room[at..at + piece.len()].copy_from_slice(piece);
    at + piece.len()
}

fn put_header(room: &mut [u8; ROOM], first: u64) -> usize
    ensures end { result ≡ HEADER_SIZE }
    ensures put { take result room.new ≡ header_bytes first }
{
    let at = put(room, 0, &[b'D', b'P', b'E', b'J', 1]);
    put(room, at, &first.to_be_bytes())
}

// Puts the byte and the numbers before an entry's locality.
fn put_numbers(room: &mut [u8; ROOM], at: usize, entry: &Entry) -> usize
    requires { at + 13 ≤ ROOM }
    ensures end { result ≡ at + 13 }
    ensures put { take result room.new ≡ take at room.old ++ (1 ∷ numbers (entry_of entry.now)) }
{
    let at = put(room, at, &[RECORD]);
    let at = put(room, at, &entry.caller.to_be_bytes());
    let at = put(room, at, &entry.call.connection().to_be_bytes());
    put(room, at, &entry.call.index().to_be_bytes())
}

// Puts an entry's locality and random bytes.
fn put_draw(room: &mut [u8; ROOM], at: usize, entry: &Entry) -> usize
    requires { at + 33 ≤ ROOM }
    ensures end { result ≡ at + 33 }
    ensures put { take result room.new ≡ take at room.old ++ (entry.now.call.locality ∷ entry.now.call.random) }
{
    let at = put(room, at, &[entry.call.locality()]);
    put(room, at, entry.call.random())
}

// Puts a payload behind its length.
fn put_packet(room: &mut [u8; ROOM], at: usize, payload: &[u8]) -> usize
    requires few { length payload.now ≤ MAX_PACKET }
    requires fits { at + 2 + MAX_PACKET ≤ ROOM }
    ensures end { result ≡ at + 2 + length payload.now }
    ensures put { take result room.new ≡ take at room.old ++ packet payload.now }
{
    let at = put(room, at, &(payload.len() as u16).to_be_bytes());
    put(room, at, payload)
}

fn put_record(room: &mut [u8; ROOM], at: usize, entry: &Entry) -> usize
    requires { at + MAX_RECORD ≤ ROOM }
    ensures end { result ≤ at + MAX_RECORD }
    ensures put { take result room.new ≡ take at room.old ++ record_bytes (entry_of entry.now) }
{
    let at = put_numbers(room, at, entry);
    let at = put_draw(room, at, entry);
    let at = put_packet(room, at, entry.call.payload());
    put_packet(room, at, entry.reply.bytes())
}

fn put_end(room: &mut [u8; ROOM], at: usize, records: u64) -> usize
    requires { at + END_SIZE ≤ ROOM }
    ensures end { result ≡ at + END_SIZE }
    ensures put { take result room.new ≡ take at room.old ++ end_bytes records }
{
    let at = put(room, at, &[END]);
    put(room, at, &records.to_be_bytes())
}

// Writes the whole piece behind so many bytes, and says how many there are then.
fn write_all<K: Sink>(sink: &mut K, piece: &[u8], before: u64) -> Result<u64, SinkFault>
    requires { before + length piece.now < 2 ^ 64 }
    ensures ok { IfOk result (Sends (K.bytes sink.old) (K.bytes sink.new) piece.now [] before) }
    ensures fault { WritesFrontBehind before (K.bytes sink.old) (K.bytes sink.new) piece.now result }
    ensures cause { HasCause (K.faults sink.old) (K.faults sink.new) result }
    ensures beside { K.beside sink.new ≡ K.beside sink.old }
{
    let mut written = before;
    let mut rest = piece;
    while !rest.is_empty() {
        match sink.write(rest) {
            Ok(count) => {
                written += count as u64;
                (_, rest) = rest.split_at(count);
            }
            Err(_) => return Err(SinkFault { written }),
        }
    }
    Ok(written)
}

// Writes what is gathered, and says how many bytes were written then.
fn write_room<K: Sink>(
    sink: &mut K,
    room: &[u8; ROOM],
    gathered: Gathered,
) -> Result<u64, SinkFault>
    requires len { gathered.len ≤ ROOM }
    requires count { gathered.written + ROOM < 2 ^ 64 }
    ensures ok { IfOk result (Sends (K.bytes sink.old) (K.bytes sink.new) (take gathered.len room.now) [] gathered.written) }
    ensures fault { WritesFrontBehind gathered.written (K.bytes sink.old) (K.bytes sink.new) (take gathered.len room.now) result }
    ensures cause { HasCause (K.faults sink.old) (K.faults sink.new) result }
    ensures beside { K.beside sink.new ≡ K.beside sink.old }
{
    write_all(sink, &room[..gathered.len], gathered.written)
}

// Gathers a record, and writes what is gathered where no room for a further one is left.
fn append_record<K: Sink>(
    sink: &mut K,
    room: &mut [u8; ROOM],
    gathered: Gathered,
    entry: &Entry,
) -> Result<Gathered, SinkFault>
    requires len { gathered.len + MAX_RECORD ≤ ROOM }
    requires count { gathered.written + ROOM < 2 ^ 64 }
    ensures ok { IfOk result (λ more. Sends (K.bytes sink.old) (K.bytes sink.new)
        (take gathered.len room.old ++ record_bytes (entry_of entry.now)) (take more.len room.new) gathered.written more.written) }
    ensures left { IfOk result (λ more. more.len + MAX_RECORD ≤ ROOM) }
    ensures count { IfOk result (λ more. more.written + more.len ≤ gathered.written + gathered.len + MAX_RECORD) }
    ensures fault { WritesFrontBehind gathered.written (K.bytes sink.old) (K.bytes sink.new)
        (take gathered.len room.old ++ record_bytes (entry_of entry.now)) result }
    ensures cause { HasCause (K.faults sink.old) (K.faults sink.new) result }
    ensures beside { K.beside sink.new ≡ K.beside sink.old }
{
    let len = put_record(room, gathered.len, entry);
    let more = Gathered {
        len,
        written: gathered.written,
    };
    if len + MAX_RECORD <= ROOM {
        return Ok(more);
    }
    match write_room(sink, room, more) {
        Ok(written) => Ok(Gathered { len: 0, written }),
        Err(fault) => Err(fault),
    }
}

// Writes the header and the records but for what is left in the room.
fn append_records<K: Sink>(
    sink: &mut K,
    room: &mut [u8; ROOM],
    first: u64,
    entries: &[Entry],
) -> Result<Gathered, SinkFault>
    requires { length entries.now ≤ MAX_RECORDS }
    ensures ok { IfOk result (λ gathered. Sends (K.bytes sink.old) (K.bytes sink.new)
        (header_bytes first ++ flat_map record_bytes (map entry_of entries.now)) (take gathered.len room.new) 0 gathered.written) }
    ensures left { IfOk result (λ gathered. gathered.len + MAX_RECORD ≤ ROOM) }
    ensures count { IfOk result (λ gathered. gathered.written + ROOM < 2 ^ 64) }
    ensures fault { WritesFrontBehind 0 (K.bytes sink.old) (K.bytes sink.new)
        (header_bytes first ++ flat_map record_bytes (map entry_of entries.now)) result }
    ensures cause { HasCause (K.faults sink.old) (K.faults sink.new) result }
    ensures beside { K.beside sink.new ≡ K.beside sink.old }
{
    let mut gathered = Gathered {
        len: put_header(room, first),
        written: 0,
    };
    for entry in entries {
        match append_record(sink, room, gathered, entry) {
            Ok(more) => gathered = more,
            Err(fault) => return Err(fault),
        }
    }
    Ok(gathered)
}

// Writes what is gathered and the end, and flushes.
fn append_end<K: Sink>(
    sink: &mut K,
    room: &mut [u8; ROOM],
    gathered: Gathered,
    records: u64,
) -> Result<(), SinkFault>
    requires len { gathered.len + MAX_RECORD ≤ ROOM }
    requires count { gathered.written + ROOM < 2 ^ 64 }
    ensures ok { OnOk result (Appends (K.bytes sink.old) (K.bytes sink.new) (take gathered.len room.old ++ end_bytes records)) }
    ensures fault { WritesFrontBehind gathered.written (K.bytes sink.old) (K.bytes sink.new)
        (take gathered.len room.old ++ end_bytes records) result }
    ensures cause { HasCause (K.faults sink.old) (K.faults sink.new) result }
    ensures beside { K.beside sink.new ≡ K.beside sink.old }
{
    let len = put_end(room, gathered.len, records);
    let last = Gathered {
        len,
        written: gathered.written,
    };
    let written = match write_room(sink, room, last) {
        Ok(written) => written,
        Err(fault) => return Err(fault),
    };
    match sink.flush() {
        Ok(()) => Ok(()),
        Err(_) => Err(SinkFault { written }),
    }
}

/// Writes the journal of a history: its first serial and its entries, at most 65,536 of them; and flushes. The sink gets
/// it in pieces of up to 32,768 bytes. A fault comes exactly where the sink failed, and tells how many of the journal's
/// first bytes were taken: all of them, where only the flush failed.
pub fn write_journal<K: Sink>(first: u64, entries: &[Entry], sink: &mut K) -> Result<(), SinkFault>
    requires { length entries.now ≤ MAX_RECORDS }
    ensures ok { OnOk result (Appends (K.bytes sink.old) (K.bytes sink.new) (journal_bytes first (map entry_of entries.now))) }
    ensures fault { WritesFront (K.bytes sink.old) (K.bytes sink.new) (journal_bytes first (map entry_of entries.now)) result }
    ensures cause { HasCause (K.faults sink.old) (K.faults sink.new) result }
    ensures beside { K.beside sink.new ≡ K.beside sink.old }
{
    let mut room = [0; ROOM];
    match append_records(sink, &mut room, first, entries) {
        Ok(gathered) => append_end(sink, &mut room, gathered, entries.len() as u64),
        Err(fault) => Err(fault),
    }
}
