//! Rows of the outside in memory: what each call of an object answers, and what the object tells behind them. The rows of
//! the readers and writers of std are here as well.
ghost use Rattle.std.specs.Prelude.{◌≤◌, length};

use crate::ends::{sink, source};
use dpe_io::{
    Entropy, Failed, MAX_PACKET, MemEntropy, Packet, ReadSource, Sink, Source, SureEntropy,
    SureSource, WriteSink,
};
use std::alloc::Global;
use std::io::{self, Read, Write};
use table_rows::{RowFault, Told, Word, field, number, put, separate, show};

/// The longest room for a read.
const MOST_ROOM: usize = 16;

/// Tells a row about the outside.
pub(crate) fn tell(alloc: Global, call: &str, words: &[Word<'_>], told: &mut String) -> Told {
    match call {
        "source" => source_row(alloc, words, told),
        "sure-source" => sure_source_row(alloc, words, told),
        "sink" => sink_row(alloc, words, told),
        "entropy" => entropy_row(alloc, words, told),
        "sure-entropy" => sure_entropy_row(alloc, words, told),
        "packet" => packet_row(words, told),
        "reader" => reader_row(words, told),
        "interrupted-reader" => interrupted_row(words, told),
        "writer" => writer_row(alloc, words, told),
        "stuck-writer" => stuck_row(words, told),
        _ => Err(RowFault::Unreadable),
    }
}

fn source_row(alloc: Global, words: &[Word<'_>], told: &mut String) -> Told {
    let [piece, failing, given, rooms @ ..] = words else {
        return Err(RowFault::Unreadable);
    };
    let mut source = source(alloc, given, piece, failing)?;
    read_all(&mut source, rooms, told)?;
    field(told, "; left ", source.left())?;
    number(told, ", faults ", source.faults())
}

fn sure_source_row(alloc: Global, words: &[Word<'_>], told: &mut String) -> Told {
    let [piece, given, rooms @ ..] = words else {
        return Err(RowFault::Unreadable);
    };
    let mut source = SureSource::new(alloc, given.bytes()?, piece.size()?)?;
    read_all(&mut source, rooms, told)?;
    field(told, "; left ", source.left())
}

fn sink_row(alloc: Global, words: &[Word<'_>], told: &mut String) -> Told {
    let [room, piece, failing, calls @ ..] = words else {
        return Err(RowFault::Unreadable);
    };
    let mut sink = sink(alloc, room, piece, failing)?;
    write_all(&mut sink, calls, told)?;
    field(told, "; got ", sink.bytes())?;
    number(told, ", faults ", sink.faults())
}

fn entropy_row(alloc: Global, words: &[Word<'_>], told: &mut String) -> Told {
    let [failing, draws, given @ ..] = words else {
        return Err(RowFault::Unreadable);
    };
    let mut entropy = entropy(alloc, given, failing)?;
    draw_all(&mut entropy, draws.number()?, told)?;
    number(told, "; faults ", entropy.faults())
}

fn entropy(alloc: Global, given: &[Word<'_>], failing: &Word<'_>) -> Result<MemEntropy, RowFault> {
    let given = random_words(alloc, given)?;
    let failing = failing.numbers(alloc)?;
    Ok(MemEntropy::new(alloc, &given, &failing)?)
}

fn sure_entropy_row(alloc: Global, words: &[Word<'_>], told: &mut String) -> Told {
    let [draws, given @ ..] = words else {
        return Err(RowFault::Unreadable);
    };
    let mut entropy = SureEntropy::new(alloc, &random_words(alloc, given)?)?;
    draw_all(&mut entropy, draws.number()?, told)
}

fn random_words(alloc: Global, given: &[Word<'_>]) -> Result<Vec<[u8; 32]>, RowFault> {
    let mut words = Vec::new(alloc);
    for word in given {
        words.push(word.array()?)?;
    }
    Ok(words)
}

fn reader_row(words: &[Word<'_>], told: &mut String) -> Told {
    let Some((given, rooms)) = words.split_first() else {
        return Err(RowFault::Unreadable);
    };
    let mut source = ReadSource::new(given.bytes()?);
    read_all(&mut source, rooms, told)?;
    number(told, "; faults ", source.faults())
}

fn interrupted_row(rooms: &[Word<'_>], told: &mut String) -> Told {
    let mut source = ReadSource::new(Interrupted);
    read_all(&mut source, rooms, told)?;
    number(told, "; faults ", source.faults())
}

fn writer_row(alloc: Global, calls: &[Word<'_>], told: &mut String) -> Told {
    let mut sink = WriteSink::new(Vec::new(alloc));
    write_all(&mut sink, calls, told)?;
    number(told, "; faults ", sink.faults())
}

fn stuck_row(calls: &[Word<'_>], told: &mut String) -> Told {
    let mut sink = WriteSink::new(Stuck);
    write_all(&mut sink, calls, told)?;
    number(told, "; faults ", sink.faults())
}

// A writer that takes nothing, and whose flush is interrupted.
#[derive(Drop)]
struct Stuck;

impl Write for Stuck {
    fn write(&mut self, _piece: &[u8]) -> io::Result<usize> {
        Ok(0)
    }

    fn flush(&mut self) -> io::Result<()> {
        Err(io::Error::from(io::ErrorKind::Interrupted))
    }
}

// A reader that is interrupted each time.
#[derive(Drop)]
struct Interrupted;

impl Read for Interrupted {
    fn read(&mut self, _room: &mut [u8]) -> io::Result<usize> {
        Err(io::Error::from(io::ErrorKind::Interrupted))
    }
}

// What each read into a room of one of these lengths gives, through the bound alone.
fn read_all<S: Source>(source: &mut S, rooms: &[Word<'_>], told: &mut String) -> Told {
    for room in rooms {
        separate(told)?;
        read_once(source, room.length_to(MOST_ROOM)?, told)?;
    }
    Ok(())
}

fn read_once<S: Source>(source: &mut S, len: usize, told: &mut String) -> Told {
    let mut room = [0; MOST_ROOM];
    let Some(room) = room.get_mut(..len) else {
        return Err(RowFault::Unreadable);
    };
    match source.read(room) {
        Ok(count) => show(told, &room[..count]),
        Err(Failed) => put(told, "failed"),
    }
}

// What each write and `flush` answers, through the bound alone.
fn write_all<K: Sink>(sink: &mut K, calls: &[Word<'_>], told: &mut String) -> Told {
    for call in calls {
        separate(told)?;
        write_once(sink, call, told)?;
    }
    Ok(())
}

fn write_once<K: Sink>(sink: &mut K, call: &Word<'_>, told: &mut String) -> Told {
    let answer = match call.text {
        "flush" => sink.flush().map(|()| 0),
        _ => sink.write(call.bytes()?),
    };
    match answer {
        Ok(count) => number(told, "", count as u64),
        Err(Failed) => put(told, "failed"),
    }
}

// What so many draws give, through the bound alone.
fn draw_all<E: Entropy>(entropy: &mut E, draws: u32, told: &mut String) -> Told {
    for _ in 0..draws {
        separate(told)?;
        draw_once(entropy, told)?;
    }
    Ok(())
}

fn draw_once<E: Entropy>(entropy: &mut E, told: &mut String) -> Told {
    let mut room = [9; 32];
    match entropy.draw(&mut room) {
        Ok(()) => show(told, &room),
        Err(Failed) => put(told, "failed"),
    }
}

// What a packet holds at first and after each call.
fn packet_row(calls: &[Word<'_>], told: &mut String) -> Told {
    let mut packet = Packet::new();
    show(told, packet.bytes())?;
    for call in calls {
        change(&mut packet, call)?;
        field(told, ", ", packet.bytes())?;
    }
    Ok(())
}

// `set=` and bytes, `whole=` and what is written at its front, or `truncate=` and a number.
fn change(packet: &mut Packet, call: &Word<'_>) -> Result<(), RowFault> {
    match call.name {
        "set" => packet.set(call.at_most(MAX_PACKET)?),
        "whole" => write_front(packet.whole(), call.at_most(MAX_PACKET)?),
        "truncate" => {
            let len = call.length_to(packet.bytes().len())?;
            packet.truncate(len);
        }
        _ => return Err(RowFault::Unreadable),
    }
    Ok(())
}

fn write_front(room: &mut [u8; MAX_PACKET], front: &[u8])
    requires { length front.now ≤ MAX_PACKET }
{
    room[..front.len()].copy_from_slice(front);
}
