//! The operations by this project's functions.
use crate::inputs::{AUTHORITY, CODE, CONFIG, HIDDEN, KEY, MESSAGE, MODE, SALT};
use dpe_box::{Policy, seal as seal_box, unseal as unseal_box};
use dpe_hmac::hmac_of;
use dpe_inputs::{Cdis, Count, Input, Unsalted, next, signature_with};

const CDIS: Cdis = Cdis {
    attest: KEY,
    seal: KEY,
};

const INPUT: Input = Input {
    code: CODE,
    config: CONFIG,
    authority: AUTHORITY,
    mode: MODE,
    hidden: HIDDEN,
};

const EVERYBODY: Policy = Policy {
    localities: 255,
    modes: 15,
};

fn ending(bytes: &[u8; 64]) -> [u8; 8] {
    let mut last = [0; 8];
    last.copy_from_slice(&bytes[56..]);
    last
}

/// So many codes.
// no clause: it is measured, and tested beside the other side.
pub fn hmac(count: u32) -> [u8; 8] {
    let mut code = [0; 64];
    for _ in 0..count {
        code = hmac_of(&KEY, &MESSAGE);
    }
    ending(&code)
}

/// So many signatures.
// no clause: it is measured, and tested beside the other side.
pub fn sign(count: u32) -> [u8; 8] {
    let unsalted = Unsalted::new();
    let mut signed = [0; 64];
    for _ in 0..count {
        signed = signature_with(&unsalted, &CDIS, b"", &MESSAGE);
    }
    ending(&signed)
}

/// So many layers, each under the CDIs of the one before.
// no clause: it is measured, and tested beside the other side.
pub fn derive(count: u32) -> [u8; 8] {
    let mut meter = Count::new();
    let mut cdis = CDIS;
    for _ in 0..count {
        cdis = next(&cdis, &INPUT, &mut meter);
    }
    let mut last = [0; 8];
    last[..4].copy_from_slice(&cdis.attest[28..]);
    last[4..].copy_from_slice(&cdis.seal[28..]);
    last
}

/// So many boxes.
// no clause: it is measured, and tested beside the other side.
pub fn seal(count: u32) -> [u8; 8] {
    let mut room = [0; 4096];
    for _ in 0..count {
        seal_box(&KEY, b"", &EVERYBODY, &SALT, &MESSAGE, &mut room);
    }
    let mut last = [0; 8];
    last.copy_from_slice(&room[109..117]);
    last
}

/// So many openings of one box. The end of the text.
// no clause: it is measured.
pub fn unseal(count: u32) -> [u8; 8] {
    let mut room = [0; 4096];
    let len = seal_box(&KEY, b"", &EVERYBODY, &SALT, &MESSAGE, &mut room);
    let mut text = [0; 2048];
    for _ in 0..count {
        let _ = unseal_box(&KEY, b"", &room[..len], 0, 1, &mut text);
    }
    let mut last = [0; 8];
    last.copy_from_slice(&text[24..32]);
    last
}

/// An operation by its name.
// no clause: it is measured, and tested beside the other side.
pub fn repeated(operation: &str, count: u32) -> Option<[u8; 8]> {
    if operation == "hmac" {
        Some(hmac(count))
    } else if operation == "sign" {
        Some(sign(count))
    } else if operation == "derive" {
        Some(derive(count))
    } else if operation == "seal" {
        Some(seal(count))
    } else if operation == "unseal" {
        Some(unseal(count))
    } else {
        None
    }
}
