//! The bytes that a word is written as.
use crate::fault::RowFault;
use crate::names::Names;
use hex::FromHexError;
use std::alloc::Global;
use std::str::FromStr;

/// The number that a text spells in decimal digits.
pub(crate) fn number<T: FromStr>(text: &str) -> Result<T, RowFault>
where
    T::Err: Drop,
{
    match text.parse::<T>() {
        Ok(number) => Ok(number),
        Err(_) => Err(RowFault::Unreadable),
    }
}

// The bytes of hexadecimal digits.
fn digits(alloc: Global, word: &str) -> Result<Vec<u8>, RowFault> {
    match hex::decode(alloc, word) {
        Ok(bytes) => Ok(bytes),
        Err(FromHexError::OutOfMemory) => Err(RowFault::OutOfMemory),
        Err(_) => Err(RowFault::Unreadable),
    }
}

// The bytes of a name, of a text between quotation marks, or of hexadecimal digits.
fn piece(alloc: Global, names: &Names, word: &str) -> Result<Vec<u8>, RowFault> {
    if let Some(bytes) = names.get(word) {
        return Ok(Vec::from_slice(alloc, bytes)?);
    }
    match word.strip_prefix('"') {
        None if word.is_empty() => Err(RowFault::Unreadable),
        None if word == "-" => Ok(Vec::new(alloc)),
        None => digits(alloc, word),
        Some(quoted) => match quoted.strip_suffix('"') {
            None => Err(RowFault::Unreadable),
            Some(text) => Ok(Vec::from_slice(alloc, text.as_bytes())?),
        },
    }
}

// Appends bytes so many times.
fn repeat(bytes: &mut Vec<u8>, once: &[u8], times: u32) -> Result<(), RowFault> {
    for _ in 0..times {
        bytes.extend_from_slice(once)?;
    }
    Ok(())
}

// Appends so many bytes, each greater by one than that before it. The first is the only one of `first`.
fn rise(bytes: &mut Vec<u8>, first: &[u8], count: u32) -> Result<(), RowFault> {
    let [byte] = first else {
        return Err(RowFault::Unreadable);
    };
    let mut byte = *byte;
    for _ in 0..count {
        bytes.extend_from_slice(&[byte])?;
        byte = byte.wrapping_add(1);
    }
    Ok(())
}

// Appends a part: a piece, or one with `*` and a number behind it, or a byte with `..` and a number behind it.
fn append_part(
    alloc: Global,
    names: &Names,
    part: &str,
    bytes: &mut Vec<u8>,
) -> Result<(), RowFault> {
    if let Some((once, times)) = part.split_once('*') {
        return repeat(bytes, &piece(alloc, names, once)?, number(times)?);
    }
    match part.split_once("..") {
        None => repeat(bytes, &piece(alloc, names, part)?, 1),
        Some((first, count)) => rise(bytes, &piece(alloc, names, first)?, number(count)?),
    }
}

/// The bytes of a word: parts with `+` between them.
pub(crate) fn bytes_of(alloc: Global, names: &Names, word: &str) -> Result<Vec<u8>, RowFault> {
    let mut bytes = Vec::new(alloc);
    for part in word.split('+') {
        append_part(alloc, names, part, &mut bytes)?;
    }
    Ok(bytes)
}
