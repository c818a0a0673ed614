//! Rows that read and write items of CBOR.
use dpe_cbor::{NoRoom, NotDeterministic, Reader, Writer};
use std::alloc::Global;
use std::str;
use table_rows::{RowFault, Told, Word, number, put, separate, show};

/// The most bytes that are written.
const MOST_ROOM: usize = 256;

/// Tells a row about CBOR.
pub(crate) fn tell(alloc: Global, call: &str, words: &[Word<'_>], told: &mut String) -> Told {
    let Some((first, words)) = words.split_first() else {
        return Err(RowFault::Unreadable);
    };
    match call {
        "read" => read(first.bytes()?, words, told),
        "write" => write(alloc, first.length_to(MOST_ROOM)?, words, told),
        _ => Err(RowFault::Unreadable),
    }
}

// What each of these calls of one reader answers.
fn read(encoded: &[u8], calls: &[Word<'_>], told: &mut String) -> Told {
    let mut reader = Reader::new(encoded);
    for call in calls {
        separate(told)?;
        read_one(&mut reader, call.text, told)?;
    }
    Ok(())
}

fn read_one(reader: &mut Reader<'_>, call: &str, told: &mut String) -> Told {
    match call {
        "bytes" => tell_bytes(reader.bytes(), told),
        "text" => tell_text(reader.text(), told),
        "bool" => tell_bool(reader.bool(), told),
        "kind" => tell_kind(reader, told),
        "end" => tell_end(reader.end(), told),
        _ => tell_number(read_number(reader, call)?, told),
    }
}

fn read_number(
    reader: &mut Reader<'_>,
    call: &str,
) -> Result<Result<u64, NotDeterministic>, RowFault> {
    match call {
        "uint" => Ok(reader.uint()),
        "array" => Ok(reader.array()),
        "map" => Ok(reader.map()),
        "key" => Ok(reader.key(None)),
        _ => read_key(reader, call),
    }
}

// `key>` and the key before.
fn read_key(
    reader: &mut Reader<'_>,
    call: &str,
) -> Result<Result<u64, NotDeterministic>, RowFault> {
    match call.strip_prefix("key>") {
        None => Err(RowFault::Unreadable),
        Some(last) => match last.parse::<u64>() {
            Ok(last) => Ok(reader.key(Some(last))),
            Err(_) => Err(RowFault::Unreadable),
        },
    }
}

fn tell_number(answer: Result<u64, NotDeterministic>, told: &mut String) -> Told {
    match answer {
        Ok(value) => number(told, "", value),
        Err(fault) => refused(fault, told),
    }
}

fn tell_bytes(answer: Result<&[u8], NotDeterministic>, told: &mut String) -> Told {
    match answer {
        Ok(bytes) => show(told, bytes),
        Err(fault) => refused(fault, told),
    }
}

fn tell_text(answer: Result<&str, NotDeterministic>, told: &mut String) -> Told {
    match answer {
        Ok(text) => show(told, text.as_bytes()),
        Err(fault) => refused(fault, told),
    }
}

fn tell_bool(answer: Result<bool, NotDeterministic>, told: &mut String) -> Told {
    match answer {
        Ok(true) => put(told, "true"),
        Ok(false) => put(told, "false"),
        Err(fault) => refused(fault, told),
    }
}

fn tell_kind(reader: &Reader<'_>, told: &mut String) -> Told {
    write!(told, "{:?}", reader.kind())?;
    Ok(())
}

fn tell_end(answer: Result<(), NotDeterministic>, told: &mut String) -> Told {
    match answer {
        Ok(()) => put(told, "end"),
        Err(fault) => refused(fault, told),
    }
}

fn refused(fault: NotDeterministic, told: &mut String) -> Told {
    number(told, "refused at ", fault.at as u64)
}

// What was written of these items into a room of this length, and which found no room.
fn write(alloc: Global, room: usize, items: &[Word<'_>], told: &mut String) -> Told {
    let mut refused = String::new(alloc);
    write_all(room, items, told, &mut refused)?;
    put(told, &refused)
}

fn write_all(len: usize, items: &[Word<'_>], told: &mut String, refused: &mut String) -> Told {
    let mut room = [0; MOST_ROOM];
    let Some(room) = room.get_mut(..len) else {
        return Err(RowFault::Unreadable);
    };
    let mut writer = Writer::new(room);
    for item in items {
        if let Err(NoRoom { needed }) = write_one(&mut writer, item)? {
            number(refused, ", no room for ", needed as u64)?;
        }
    }
    let len = writer.len();
    show(told, room.get(..len).unwrap_or(&[]))
}

fn write_one(writer: &mut Writer<'_>, item: &Word<'_>) -> Result<Result<(), NoRoom>, RowFault> {
    match item.name {
        "bool" => Ok(writer.bool(item.truth()?)),
        "bytes" => Ok(writer.bytes(item.bytes()?)),
        "text" => match str::from_utf8(item.bytes()?) {
            Ok(text) => Ok(writer.text(text)),
            Err(_) => Err(RowFault::Unreadable),
        },
        _ => write_number(writer, item.name, item.number()?),
    }
}

fn write_number(
    writer: &mut Writer<'_>,
    kind: &str,
    number: u64,
) -> Result<Result<(), NoRoom>, RowFault> {
    match kind {
        "uint" => Ok(writer.uint(number)),
        "array" => Ok(writer.array(number)),
        "map" => Ok(writer.map(number)),
        "head" => Ok(writer.bytes_head(number)),
        _ => Err(RowFault::Unreadable),
    }
}
