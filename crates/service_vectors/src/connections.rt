//! Connections over a book, and a worker over the connections of its door.
ghost use Rattle.std.specs.Prelude.{◌≡◌, ◌≤◌, [], All, IfOk, OnOk};
ghost use Rattle.dpe_io.specs.Memory.{IsFaultless, IsUnused};

use crate::journals::{book_of, tell_entry};
use crate::told::{DIFFERS, Runs, SMALL_PIECES, WHOLE, bytes};
use dpe_connections::{End, Room, Tally, Worker, serve_connection, serve_worker};
use dpe_desk::Desk;
use dpe_io::{Door, MemConn, MemDoor, MemEntropy, MemSink, MemSource};
use dpe_journal::Book;
use std::alloc::{AllocError, Global};
use std::sync::Wait;
use table_rows::{RowFault, Told, Word, put};

// The room of a connection for what it gets.
const ROOM: usize = 9_000;

// The locality of all connections here.
const LOCALITY: u8 = 3;

// A connection that sends these bytes in pieces, and of which these reads and writes fail.
fn conn_of(
    alloc: Global,
    sent: &[u8],
    piece: usize,
    reads: &[u32],
    writes: &[u32],
) -> Result<MemConn, AllocError>
    requires { 1 ≤ piece }
    ensures { IfOk result IsFaultless }
{
    let source = MemSource::new(alloc, sent, piece, reads)?;
    let sink = MemSink::new(alloc, ROOM, ROOM, writes)?;
    Ok(MemConn::new(source, sink))
}

// Adds a connection that sends these bytes, seven at a time.
fn add_conn(
    alloc: Global,
    conns: &mut Vec<MemConn>,
    sent: &[u8],
    reads: &[u32],
    writes: &[u32],
) -> Result<(), AllocError>
    requires { All IsFaultless conns.old.items }
    ensures { OnOk result (All IsFaultless conns.new.items) }
{
    conns.push(conn_of(alloc, sent, 7, reads, writes)?)?;
    Ok(())
}

// Tells how a connection ended.
fn tell_end(told: &mut String, end: End) -> Told {
    match end {
        End::Closed => told.push_str("closed")?,
        End::Full { ticket } => write!(told, "full at {ticket}")?,
        End::Cut { have } => write!(told, "cut at {have}")?,
        End::TooLong { length } => write!(told, "too long {length}")?,
        End::ReadFault => told.push_str("read fault")?,
        End::WriteFault => told.push_str("write fault")?,
        End::EntropyFault => told.push_str("entropy fault")?,
    }
    Ok(())
}

// What a connection is served with.
#[derive(Drop)]
struct Outside {
    conn: MemConn,
    entropy: MemEntropy,
    room: Room,
}

// A connection that sends these bytes in pieces, of which these reads and writes fail, and random bytes, of which these
// draws do.
fn outside_of(
    alloc: Global,
    sent: &[u8],
    piece: usize,
    reads: &[u32],
    writes: &[u32],
    draws: &[u32],
) -> Result<Outside, RowFault>
    requires { 1 ≤ piece }
{
    let conn = conn_of(alloc, sent, piece, reads, writes)?;
    let entropy = MemEntropy::new(alloc, &[[5; 32]], draws)?;
    let room = Room::make(alloc)?;
    Ok(Outside {
        conn,
        entropy,
        room,
    })
}

// Serves one connection over a book, and answers how it ended, and the book.
fn serve_over<R: Wait>(
    rt: &R,
    alloc: Global,
    book: Book,
    outside: &mut Outside,
) -> Result<(End, Book), RowFault>
    requires some { 1 ≤ book.capacity }
    requires most { book.capacity ≤ 65536 }
    requires empty { book.history ≡ [] }
{
    let most = u64::from(book.capacity());
    let Ok((desk, mut pass)) = Desk::make(alloc, book, most) else {
        return Err(RowFault::OutOfMemory);
    };
    let end = serve_connection(
        rt,
        &desk,
        &mut pass,
        0,
        LOCALITY,
        &mut outside.conn,
        &mut outside.entropy,
        &mut outside.room,
    );
    Ok((end, desk.close(pass)))
}

// Tells the entries of a book.
fn tell_entries(told: &mut String, book: &Book) -> Told {
    for at in 0..book.length() {
        put(told, ", ")?;
        tell_entry(told, book.entry(at))?;
    }
    Ok(())
}

// Tells what comes of a connection over a book of so many places, and that gives so many bytes in a read: how it ended,
// what it left and got, and the entries.
fn served<R: Wait>(
    rt: &R,
    alloc: Global,
    capacity: u32,
    sent: &[u8],
    piece: usize,
    told: &mut String,
) -> Told
    requires { 1 ≤ piece }
{
    let mut outside = outside_of(alloc, sent, piece, &[], &[], &[])?;
    let (end, book) = serve_over(rt, alloc, book_of(alloc, capacity)?, &mut outside)?;
    tell_end(told, end)?;
    bytes(told, ", left ", outside.conn.source().left())?;
    bytes(told, ", got ", outside.conn.sink().bytes())?;
    tell_entries(told, &book)
}

// Whether the same comes of it where the connection gives so many bytes in a read.
fn serves_same<R: Wait>(
    rt: &R,
    alloc: Global,
    capacity: u32,
    sent: &[u8],
    piece: usize,
    told: &str,
) -> Result<bool, RowFault>
    requires { 1 ≤ piece }
{
    let mut other = String::new(alloc);
    served(rt, alloc, capacity, sent, piece, &mut other)?;
    Ok(other.as_str() == told)
}

/// What comes of a connection over a book of so many places, at locality 3. Its first random bytes are fives, and then
/// zeros.
pub(crate) fn serve<R: Wait>(rt: &R, alloc: Global, words: &[Word<'_>], told: &mut String) -> Told {
    let [capacity, sent] = words else {
        return Err(RowFault::Unreadable);
    };
    let capacity = capacity.number::<u32>()?;
    let sent = sent.bytes()?;
    let [one, seven] = SMALL_PIECES;
    served(rt, alloc, capacity, sent, WHOLE, told)?;
    if serves_same(rt, alloc, capacity, sent, one, told)?
        && serves_same(rt, alloc, capacity, sent, seven, told)?
    {
        return Ok(());
    }
    put(told, DIFFERS)
}

// A connection, where one call of a kind fails: `reads`, `writes` or `draws`.
fn outside_without(
    alloc: Global,
    kind: &str,
    call: u32,
    piece: usize,
    sent: &[u8],
) -> Result<Outside, RowFault>
    requires { 1 ≤ piece }
{
    match kind {
        "reads" => outside_of(alloc, sent, piece, &[call], &[], &[]),
        "writes" => outside_of(alloc, sent, piece, &[], &[call], &[]),
        "draws" => outside_of(alloc, sent, piece, &[], &[], &[call]),
        _ => Err(RowFault::Unreadable),
    }
}

// The end, the number of entries and of the bytes that the connection got.
fn shown_short<R: Wait>(rt: &R, alloc: Global, outside: &mut Outside) -> Result<String, RowFault> {
    let (end, book) = serve_over(rt, alloc, book_of(alloc, 2)?, outside)?;
    let mut text = String::new(alloc);
    tell_end(&mut text, end)?;
    let got = outside.conn.sink().bytes().len();
    write!(text, ", {} entries, {got} bytes", book.length())?;
    Ok(text)
}

/// The same over a book of two places where each of the first calls of a kind fails in turn, so many of them.
pub(crate) fn serve_failing<R: Wait>(
    rt: &R,
    alloc: Global,
    words: &[Word<'_>],
    told: &mut String,
) -> Told {
    let [kind, calls, piece, sent] = words else {
        return Err(RowFault::Unreadable);
    };
    let calls = calls.number::<u32>()?;
    let piece = piece.size()?;
    let sent = sent.bytes()?;
    let mut runs = Runs {
        last: String::new(alloc),
    };
    for call in 0..calls {
        let mut outside = outside_without(alloc, kind.text, call, piece, sent)?;
        runs.add(call as usize, shown_short(rt, alloc, &mut outside)?, told)?;
    }
    Ok(())
}

/// What each connection of a door sends, as the words say.
pub(crate) fn sent_of<'a>(alloc: Global, words: &'a [Word<'_>]) -> Result<Vec<&'a [u8]>, RowFault> {
    let mut sent = Vec::new(alloc);
    for word in words {
        sent.push(word.bytes()?)?;
    }
    Ok(sent)
}

/// A door at which connections wait that send these bytes. These calls of its own fail, and these of each connection.
pub(crate) fn door_of(
    alloc: Global,
    sent: &[&[u8]],
    nexts: &[u32],
    reads: &[u32],
    writes: &[u32],
) -> Result<MemDoor, AllocError>
    ensures { IfOk result IsUnused }
{
    let mut conns = Vec::new(alloc);
    for bytes in sent {
        add_conn(alloc, &mut conns, bytes, reads, writes)?;
    }
    MemDoor::new(alloc, conns, nexts)
}

// What came of a worker: what it tallied, its door, and the book.
#[derive(Drop)]
struct Worked {
    tally: Tally,
    door: MemDoor,
    book: Book,
}

// Serves the connections of a door over a book.
fn work_over<R: Wait>(
    rt: &R,
    alloc: Global,
    book: Book,
    each: u32,
    door: MemDoor,
    entropy: MemEntropy,
    room: Room,
) -> Result<Worked, RowFault>
    requires some { 1 ≤ book.capacity }
    requires most { book.capacity ≤ 65536 }
    requires empty { book.history ≡ [] }
{
    let most = u64::from(book.capacity());
    let Ok((desk, pass)) = Desk::make(alloc, book, most) else {
        return Err(RowFault::OutOfMemory);
    };
    let mut worker = Worker::new(door, entropy, pass, LOCALITY, each, room);
    serve_worker(rt, &desk, &mut worker);
    let Worker {
        door,
        entropy: _,
        pass,
        locality: _,
        each: _,
        tally,
        room: _,
    } = worker;
    Ok(Worked {
        tally,
        door,
        book: desk.close(pass),
    })
}

// Serves the connections of a door over a book of so many places.
fn work_on<R: Wait>(
    rt: &R,
    alloc: Global,
    capacity: u32,
    each: u32,
    door: MemDoor,
) -> Result<Worked, RowFault> {
    let entropy = MemEntropy::new(alloc, &[], &[])?;
    let room = Room::make(alloc)?;
    let book = book_of(alloc, capacity)?;
    work_over(rt, alloc, book, each, door, entropy, room)
}

// Tells a tally.
fn tell_tally(told: &mut String, tally: &Tally) -> Told {
    let (connections, full, cut) = (tally.connections, tally.full, tally.cut);
    write!(told, "connections {connections}, full {full}, cut {cut}")?;
    if tally.door_failed {
        put(told, ", door failed")?;
    }
    Ok(())
}

// Tells what is left unread of each connection, of so many at most, that still waits at a door.
fn tell_waiting(told: &mut String, door: &mut MemDoor, most: usize) -> Told {
    for _ in 0..most {
        match door.next() {
            Ok(Some(conn)) => bytes(told, ", waiting ", conn.source().left())?,
            _ => break,
        }
    }
    Ok(())
}

// Tells the tally, how many entries the book has, and what each connection got that was handed back.
fn tell_worked(told: &mut String, worked: &Worked) -> Told {
    tell_tally(told, &worked.tally)?;
    write!(told, ", {} entries", worked.book.length())?;
    for conn in worked.door.ended() {
        bytes(told, ", got ", conn.sink().bytes())?;
    }
    Ok(())
}

/// What a worker tallies, how many entries it makes over a book of so many places, what each connection got that was
/// handed back, and what each sends that still waits. It may serve at most so many connections.
pub(crate) fn work<R: Wait>(rt: &R, alloc: Global, words: &[Word<'_>], told: &mut String) -> Told {
    let [capacity, each, failing, words @ ..] = words else {
        return Err(RowFault::Unreadable);
    };
    let capacity = capacity.number::<u32>()?;
    let each = each.number::<u32>()?;
    let failing = failing.numbers(alloc)?;
    let door = door_of(alloc, &sent_of(alloc, words)?, &failing, &[], &[])?;
    let mut worked = work_on(rt, alloc, capacity, each, door)?;
    tell_worked(told, &worked)?;
    tell_waiting(told, &mut worked.door, words.len())
}
