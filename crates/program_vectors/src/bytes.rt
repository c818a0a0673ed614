//! How a row writes bytes, and how an answer does.
//!
//! The README has the notation.
use crate::row::Fault;
use dpe_text::parse_number;
use sha2::{Digest, Sha512};
use std::alloc::{AllocError, Global};
use std::collections::BTreeMap;
use std::str;

/// The most bytes that are shown as they are.
const MOST_SHOWN: usize = 1_500;

/// Bytes that rows gave names to.
#[derive(Drop)]
pub struct Names {
    entries: BTreeMap<String, Vec<u8>>,
}

impl Names {
    /// No names.
    pub(crate) fn new(alloc: Global) -> Names {
        Names {
            entries: BTreeMap::new(alloc),
        }
    }

    /// Takes the name and the bytes of `NAME BYTES`.
    pub(crate) fn define(&mut self, alloc: Global, text: &str) -> Result<(), Fault> {
        let Some((name, field)) = text.split_once(' ') else {
            return Err(Fault::Unreadable);
        };
        let bytes = read_bytes(alloc, self, field.trim_end())?;
        self.entries.insert(String::from_str(alloc, name)?, bytes)?;
        Ok(())
    }

    // The bytes of a name.
    fn get(&self, name: &str) -> Result<&[u8], Fault> {
        match self.entries.get(name) {
            Some(bytes) => Ok(bytes.as_slice()),
            None => Err(Fault::Unreadable),
        }
    }

    /// A word: `-` is the empty one, and `$NAME` the text of a name.
    pub(crate) fn word<'a>(&'a self, word: &'a str) -> Result<&'a str, Fault> {
        if word == "-" {
            return Ok("");
        }
        let Some(name) = word.strip_prefix('$') else {
            return Ok(word);
        };
        match str::from_utf8(self.get(name)?) {
            Ok(text) => Ok(text),
            Err(_) => Err(Fault::Unreadable),
        }
    }
}

/// A number in decimal digits.
pub(crate) fn read_number(text: &str) -> Result<u64, Fault> {
    parse_number(text).ok_or(Fault::Unreadable)
}

// The bytes of an atom.
fn read_atom(alloc: Global, names: &Names, atom: &str) -> Result<Vec<u8>, Fault> {
    if let Some(name) = atom.strip_prefix('$') {
        return Ok(Vec::from_slice(alloc, names.get(name)?)?);
    }
    match hex::decode(alloc, atom) {
        Ok(bytes) => Ok(bytes),
        Err(hex::FromHexError::OutOfMemory) => Err(Fault::NoMemory),
        Err(_) => Err(Fault::Unreadable),
    }
}

// Appends an atom so many times.
fn repeat(bytes: &mut Vec<u8>, atom: &[u8], times: u64) -> Result<(), AllocError> {
    for _ in 0..times {
        bytes.extend_from_slice(atom)?;
    }
    Ok(())
}

// Appends the four bytes of a count, or the digits of these.
fn add_count(
    alloc: Global,
    bytes: &mut Vec<u8>,
    place: u32,
    in_digits: bool,
) -> Result<(), AllocError> {
    let four = place.to_be_bytes();
    if in_digits {
        return bytes.extend_from_slice(hex::encode(alloc, four)?.as_bytes());
    }
    bytes.extend_from_slice(&four)
}

// Appends two atoms so many times, with a count between them.
fn count(
    alloc: Global,
    bytes: &mut Vec<u8>,
    before: &[u8],
    behind: &[u8],
    times: u32,
    in_digits: bool,
) -> Result<(), AllocError> {
    for place in 0..times {
        bytes.extend_from_slice(before)?;
        add_count(alloc, bytes, place, in_digits)?;
        bytes.extend_from_slice(behind)?;
    }
    Ok(())
}

// Appends the atoms of a pair so many times, with a count between them.
fn add_pair(
    alloc: Global,
    names: &Names,
    pair: (&str, &str),
    times: u64,
    in_digits: bool,
    bytes: &mut Vec<u8>,
) -> Result<(), Fault> {
    let Ok(times) = u32::try_from(times) else {
        return Err(Fault::Unreadable);
    };
    let before = read_atom(alloc, names, pair.0)?;
    let behind = read_atom(alloc, names, pair.1)?;
    count(alloc, bytes, &before, &behind, times, in_digits)?;
    Ok(())
}

// Appends the bytes of a piece.
fn add_piece(alloc: Global, names: &Names, piece: &str, bytes: &mut Vec<u8>) -> Result<(), Fault> {
    let (atoms, times) = match piece.split_once('*') {
        Some((atoms, digits)) => (atoms, read_number(digits)?),
        None => (piece, 1),
    };
    if let Some(pair) = atoms.split_once('&') {
        return add_pair(alloc, names, pair, times, true, bytes);
    }
    if let Some(pair) = atoms.split_once('%') {
        return add_pair(alloc, names, pair, times, false, bytes);
    }
    repeat(bytes, &read_atom(alloc, names, atoms)?, times)?;
    Ok(())
}

// Appends a text.
fn add_text(bytes: &mut Vec<u8>, text: &str) -> Result<(), AllocError> {
    let mut is_first = true;
    for line in text.split("\\n") {
        if !is_first {
            bytes.push(b'\n')?;
        }
        is_first = false;
        bytes.extend_from_slice(line.as_bytes())?;
    }
    Ok(())
}

/// The bytes of a field.
pub(crate) fn read_bytes(alloc: Global, names: &Names, field: &str) -> Result<Vec<u8>, Fault> {
    let mut bytes = Vec::new(alloc);
    if field == "-" {
        return Ok(bytes);
    }
    let (pieces, text) = match field.split_once('\'') {
        Some((pieces, text)) => (pieces, Some(text)),
        None => (field, None),
    };
    for piece in pieces.split(',') {
        if !piece.is_empty() {
            add_piece(alloc, names, piece, &mut bytes)?;
        }
    }
    if let Some(text) = text {
        add_text(&mut bytes, text)?;
    }
    Ok(bytes)
}

// Whether it is a line feed or an ASCII character that is seen.
fn is_seen(byte: &u8) -> bool {
    *byte == b'\n' || (b' '..=b'~').contains(byte)
}

// Appends a byte that is seen.
fn push_seen(text: &mut String, byte: u8) -> Result<(), AllocError> {
    if byte == b'\n' {
        return text.push_str("\\n");
    }
    text.push(char::from(byte))
}

// Bytes of which each is seen, as a text.
fn text_of(alloc: Global, bytes: &[u8]) -> Result<String, AllocError> {
    let mut text = String::new(alloc);
    text.push('\'')?;
    for byte in bytes {
        push_seen(&mut text, *byte)?;
    }
    Ok(text)
}

// The number of bytes and their SHA-512.
fn digest_of(alloc: Global, bytes: &[u8]) -> Result<String, AllocError> {
    let digest = hex::encode(alloc, Sha512::digest(bytes))?;
    format!(in alloc; "{} bytes of SHA-512 {digest}", bytes.len())
}

/// Bytes as a row writes them, or their number and SHA-512 where they are many.
pub(crate) fn shown(alloc: Global, bytes: &[u8]) -> Result<String, AllocError> {
    if bytes.is_empty() {
        return String::from_str(alloc, "-");
    }
    if bytes.len() > MOST_SHOWN {
        return digest_of(alloc, bytes);
    }
    if bytes.iter().all(is_seen) {
        return text_of(alloc, bytes);
    }
    hex::encode(alloc, bytes)
}
