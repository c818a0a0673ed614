//! The box that was sealed last, as the words of a row name it: `box` is the whole, `box/84` its first 84 bytes, and
//! `box@84^01` the box with 01 exclusive-or'd to byte 84.
use std::alloc::Global;
use table_rows::{Names, RowFault};

// How many bytes.
fn count(text: &str) -> Result<usize, RowFault> {
    match text.parse::<usize>() {
        Ok(count) => Ok(count),
        Err(_) => Err(RowFault::Unreadable),
    }
}

// A byte in hexadecimal digits.
fn byte_of(digits: &str) -> Result<u8, RowFault> {
    let mut byte = [0];
    match hex::decode_to_slice(digits, &mut byte) {
        Ok(()) => Ok(byte[0]),
        Err(_) => Err(RowFault::Unreadable),
    }
}

// So many bytes at the front.
fn front(alloc: Global, sealed: &[u8], len: &str) -> Result<Vec<u8>, RowFault> {
    match sealed.get(..count(len)?) {
        Some(front) => Ok(Vec::from_slice(alloc, front)?),
        None => Err(RowFault::Unreadable),
    }
}

// The bytes with one of them changed, `PLACE^BYTE`.
fn turned(alloc: Global, sealed: &[u8], change: &str) -> Result<Vec<u8>, RowFault> {
    let Some((place, by)) = change.split_once('^') else {
        return Err(RowFault::Unreadable);
    };
    let (at, by) = (count(place)?, byte_of(by)?);
    let mut turned = Vec::from_slice(alloc, sealed)?;
    match turned.get_mut(at) {
        Some(byte) => *byte ^= by,
        None => return Err(RowFault::Unreadable),
    }
    Ok(turned)
}

// The bytes of a name that stands for a part of the box or for a changed one, and none of another name.
fn changed(alloc: Global, names: &Names, name: &str) -> Result<Option<Vec<u8>>, RowFault> {
    let sealed = names.get("box").unwrap_or(&[]);
    if let Some(len) = name.strip_prefix("box/") {
        return Ok(Some(front(alloc, sealed, len)?));
    }
    match name.strip_prefix("box@") {
        Some(change) => Ok(Some(turned(alloc, sealed, change)?)),
        None => Ok(None),
    }
}

/// Names what a word `box=NAME` stands for, where it is a part of the box or a changed one.
pub(crate) fn name_box(alloc: Global, names: &mut Names, word: &str) -> Result<(), RowFault> {
    let Some(name) = word.strip_prefix("box=") else {
        return Ok(());
    };
    match changed(alloc, names, name)? {
        Some(bytes) => names.name(alloc, name, bytes),
        None => Ok(()),
    }
}
