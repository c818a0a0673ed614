//! What a Seal of 2,048 bytes costs: reading its payload, and sealing its bytes.
use crate::inputs::{KEY, LONG, SALT};
use dpe_box::{Policy, seal as seal_box};
use dpe_messages::{Command, Seal, read_payload, write_command};

const HANDLE: [u8; 16] = [0x88; 16];

const EVERYBODY: Policy = Policy {
    localities: 255,
    modes: 15,
};

// The last byte of the plaintext of a Seal.
fn last_of_plain(payload: &[u8]) -> u8 {
    match read_payload(payload) {
        Ok(Command::Seal(seal)) => seal.plain.last().copied().unwrap_or(0),
        _ => 0,
    }
}

/// So many readings of one payload, whose last byte counts them. The exclusive or of the last bytes read.
// no clause: it is measured, and tested beside a count by hand.
pub fn read(count: u32) -> [u8; 8] {
    let mut payload = [0; 4096];
    let len = write_command(
        &Command::Seal(Seal {
            handle: Some(&HANDLE),
            label: b"",
            retain: true,
            localities: 255,
            modes: 15,
            plain: &LONG,
        }),
        &mut payload,
    );
    let mut answer = [0; 8];
    for turn in 0..count {
        let [.., low] = turn.to_be_bytes();
        if let Some(end) = payload[..len].last_mut() {
            *end = low;
        }
        answer[7] ^= last_of_plain(&payload[..len]);
    }
    answer
}

/// So many boxes. The end of the last one's tag.
// no clause: it is measured, and tested beside another program's box.
pub fn seal(count: u32) -> [u8; 8] {
    let mut room = [0; 4096];
    for _ in 0..count {
        seal_box(&KEY, b"", &EVERYBODY, &SALT, &LONG, &mut room);
    }
    let mut last = [0; 8];
    last.copy_from_slice(&room[2125..2133]);
    last
}

/// An operation by its name.
// no clause: it is measured, and tested beside values from outside.
pub fn repeated(operation: &str, count: u32) -> Option<[u8; 8]> {
    if operation == "read" {
        Some(read(count))
    } else if operation == "seal" {
        Some(seal(count))
    } else {
        None
    }
}
