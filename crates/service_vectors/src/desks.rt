//! A desk over a book, shared by two passes of one thread.
ghost use Rattle.std.specs.Prelude.{◌≤◌};

use crate::told::bytes;
use dpe_desk::{Desk, Full, Pass};
use dpe_io::{MAX_PACKET, Packet};
use dpe_journal::{Book, Call, MAX_RECORDS};
use shared_book::open;
use std::alloc::{AllocError, Global};
use std::sync::Wait;
use table_rows::{RowFault, Told, Word};

// A pass as it is printed: its name, its stake, and how many passes it stands for.
#[derive(Clone, Copy)]
struct Shown {
    name: u32,
    stake: u32,
    held: u32,
}

impl Shown {
    fn of(pass: &Pass<Book>) -> Shown {
        Shown {
            name: pass.name(),
            stake: pass.stake(),
            held: pass.held(),
        }
    }
}

// Appends passes.
fn add_passes(text: &mut String, passes: &[Shown]) -> Result<(), AllocError> {
    for Shown { name, stake, held } in passes {
        write!(text, "pass {name} {stake} {held}, ")?;
    }
    Ok(())
}

// Appends what calls were answered.
fn add_places(text: &mut String, places: &[Result<u64, Full>]) -> Result<(), AllocError> {
    for place in places {
        match place {
            Ok(place) => write!(text, "place {place}, ")?,
            Err(Full { ticket }) => write!(text, "full {ticket}, ")?,
        }
    }
    Ok(())
}

// What came of two passes: what they were at first, what each was answered and how long the book was then, what they were
// answered later, what the first was once it had been joined, and the book.
#[derive(Drop)]
struct Shares {
    begun: [Shown; 2],
    one_each: [Result<u64, Full>; 2],
    length: u64,
    more: [Result<u64, Full>; 3],
    joined: [Shown; 1],
    book: Book,
}

// Makes the call by two passes of a desk over an empty book of so many places.
fn pass_all<R: Wait>(
    rt: &R,
    alloc: Global,
    capacity: u32,
    call: &Call,
    reply: &mut Packet,
) -> Result<Shares, AllocError>
    requires some { 1 ≤ capacity }
    requires most { capacity ≤ 65536 }
{
    let (desk, mut first) = open(alloc, &[0; 32], 1, capacity)?;
    let mut second = desk.split(&mut first, 1);
    let begun = [Shown::of(&first), Shown::of(&second)];
    let one_each = [
        desk.act(rt, &mut first, call, reply),
        desk.act(rt, &mut second, call, reply),
    ];
    let length = desk.length(&mut first);
    let more = [
        desk.act(rt, &mut first, call, reply),
        desk.act(rt, &mut first, call, reply),
        desk.act(rt, &mut second, call, reply),
    ];
    desk.meet(&mut first, &mut second);
    desk.join(&mut first, second);
    let joined = [Shown::of(&first)];
    Ok(Shares {
        begun,
        one_each,
        length,
        more,
        joined,
        book: desk.close(first),
    })
}

// Tells what the passes were and were answered.
fn tell_passes(told: &mut String, shares: &Shares) -> Result<(), AllocError> {
    add_passes(told, &shares.begun)?;
    add_places(told, &shares.one_each)?;
    write!(told, "length {}, ", shares.length)?;
    add_places(told, &shares.more)?;
    add_passes(told, &shares.joined)
}

// Tells the callers of a book's entries.
fn tell_callers(told: &mut String, book: &Book) -> Result<(), AllocError> {
    for at in 0..book.length() {
        write!(told, "caller {}, ", book.entry(at).caller)?;
    }
    Ok(())
}

/// A desk over an empty book, both of so many places. A second pass is split off with a stake of 1. Each pass makes the
/// call once, and the length is told; then the first makes it twice more, and the second once. The second is joined into
/// the first, and the book closed: how many entries it has, their callers, and the last reply that was given.
pub(crate) fn share<R: Wait>(rt: &R, alloc: Global, words: &[Word<'_>], told: &mut String) -> Told {
    let [capacity, payload] = words else {
        return Err(RowFault::Unreadable);
    };
    let capacity = capacity.number::<u32>()?;
    let payload = payload.at_most(MAX_PACKET)?;
    if capacity == 0 || capacity > MAX_RECORDS {
        return Err(RowFault::Unreadable);
    }
    let call = Call::new(0, 0, 0, &[0; 32], payload);
    let mut reply = Packet::new();
    let shares = pass_all(rt, alloc, capacity, &call, &mut reply)?;
    tell_passes(told, &shares)?;
    tell_callers(told, &shares.book)?;
    bytes(told, "reply ", reply.bytes())
}
