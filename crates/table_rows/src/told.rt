//! How an answer is told: piece by piece, behind what was told before.
use crate::fault::RowFault;
use sha2::{Digest, Sha512};
use std::alloc::AllocError;

/// The most bytes that [`show`] prints in full.
const FULL: usize = 256;

/// How many bytes that are alike [`show`] prints as one with its number.
const FEWEST_ALIKE: usize = 5;

/// Whether a row was told.
pub type Told = Result<(), RowFault>;

/// Tells a text.
// no clause: stored runs are compared with what it prints.
pub fn put(told: &mut String, text: &str) -> Told {
    told.push_str(text)?;
    Ok(())
}

/// Parts two answers, where one was told before.
// no clause: stored runs are compared with what it prints.
pub fn separate(told: &mut String) -> Told {
    if told.is_empty() || told.ends_with(' ') {
        return Ok(());
    }
    put(told, ", ")
}

/// Tells a number behind its name.
// no clause: stored runs are compared with what it prints.
pub fn number(told: &mut String, name: &str, number: u64) -> Told {
    write!(told, "{name}{number}")?;
    Ok(())
}

/// Tells whether something holds, behind its name.
// no clause: stored runs are compared with what it prints.
pub fn flag(told: &mut String, name: &str, holds: bool) -> Told {
    write!(told, "{name}{holds}")?;
    Ok(())
}

/// Tells bytes behind their name.
// no clause: stored runs are compared with what it prints.
pub fn field(told: &mut String, name: &str, bytes: &[u8]) -> Told {
    put(told, name)?;
    show(told, bytes)
}

/// Tells bytes, or `none`, behind their name.
// no clause: stored runs are compared with what it prints.
pub fn field_or_none(told: &mut String, name: &str, bytes: Option<&[u8]>) -> Told {
    put(told, name)?;
    match bytes {
        Some(bytes) => show(told, bytes),
        None => put(told, "none"),
    }
}

// The byte that all of at least so many bytes are, if there is one.
fn alike(bytes: &[u8], fewest: usize) -> Option<u8> {
    match bytes.first() {
        Some(first) if bytes.len() >= fewest && bytes.iter().all(|byte| byte == first) => {
            Some(*first)
        }
        _ => None,
    }
}

/// Tells bytes in hexadecimal digits.
// no clause: stored runs are compared with what it prints.
pub fn put_digits(told: &mut String, bytes: &[u8]) -> Result<(), AllocError> {
    for byte in bytes {
        write!(told, "{byte:02x}")?;
    }
    Ok(())
}

/// Tells bytes as rows write them: `-` for none, `HH*N` where at least so many are alike, and else digits.
// no clause: stored runs are compared with what it prints.
pub fn put_alike(told: &mut String, bytes: &[u8], fewest: usize) -> Result<(), AllocError> {
    if bytes.is_empty() {
        return told.push_str("-");
    }
    match alike(bytes, fewest) {
        Some(byte) => write!(told, "{byte:02x}*{}", bytes.len()),
        None => put_digits(told, bytes),
    }
}

/// Tells bytes as rows write them, where 16 and more are alike as `HH*N`.
// no clause: stored runs are compared with what it prints.
pub fn show_alike(told: &mut String, bytes: &[u8]) -> Told {
    put_alike(told, bytes, 16)?;
    Ok(())
}

// More than 256 bytes that aren't alike are told by their number and their digest.
fn put_bytes(told: &mut String, bytes: &[u8]) -> Result<(), AllocError> {
    if bytes.len() <= FULL || alike(bytes, FEWEST_ALIKE).is_some() {
        return put_alike(told, bytes, FEWEST_ALIKE);
    }
    write!(told, "{} bytes with SHA-512 ", bytes.len())?;
    put_digits(told, &Sha512::digest(bytes))
}

/// Tells bytes as rows write them, where five and more are alike as `HH*N`. More than 256 that aren't are told by their
/// number and their SHA-512.
// no clause: stored runs are compared with what it prints.
pub fn show(told: &mut String, bytes: &[u8]) -> Told {
    put_bytes(told, bytes)?;
    Ok(())
}
