//! A reply's payload as text.
use dpe_messages::reply_code;
use sha2::{Digest, Sha256};
use std::alloc::{AllocError, Global};

/// The most bytes that are printed; longer ones are told by their hash.
const MOST_PRINTED: usize = 256;

// What a code says.
fn name(code: u64) -> &'static str {
    match code {
        2 => "invalid command",
        3 => "invalid argument",
        5 => "seed locked",
        16 => "unsupported",
        17 => "no such handle",
        18 => "wrong locality",
        19 => "derive not allowed",
        20 => "too deep",
        21 => "contexts full",
        22 => "box malformed",
        23 => "box refused",
        24 => "policy refused",
        25 => "serials spent",
        27 => "root locality",
        28 => "no default",
        29 => "default taken",
        _ => "NO SUCH CODE",
    }
}

/// The bytes in hexadecimal digits, or their number and hash where they are many.
pub(crate) fn printed(alloc: Global, bytes: &[u8]) -> Result<String, AllocError> {
    if bytes.len() > MOST_PRINTED {
        let digest = hex::encode(alloc, Sha256::digest(bytes))?;
        return format!(in alloc; "{} bytes, sha256 {digest}", bytes.len());
    }
    hex::encode(alloc, bytes)
}

/// A reply: its bytes, and where it refuses the name of its code.
pub(crate) fn told(alloc: Global, reply: &[u8]) -> Result<String, AllocError> {
    let bytes = printed(alloc, reply)?;
    match reply_code(reply) {
        Some(0) => Ok(bytes),
        Some(code) => format!(in alloc; "{bytes} {}", name(code)),
        None => format!(in alloc; "NO REPLY {bytes}"),
    }
}
