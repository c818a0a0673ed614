//! The operations written straight over the kit's SHA-512 and ChaCha20.
ghost use Rattle.std.specs.Prelude.{◌≡◌, ◌≤◌, length};

use crate::inputs::{AUTHORITY, CODE, CONFIG, HIDDEN, KEY, LONG, MESSAGE, MODE, SALT};
use rand_chacha::ChaCha20Rng;
use rand_core::{Rng, SeedableRng};
use sha2::{Digest, Sha512};

// The states of a key behind its two padded blocks.
fn keyed(key: &[u8]) -> (Sha512, Sha512)
    requires { length key.now ≤ 128 }
{
    let mut inner_pad = [0x36; 128];
    let mut outer_pad = [0x5c; 128];
    for i in 0..key.len() {
        inner_pad[i] ^= key[i];
        outer_pad[i] ^= key[i];
    }
    let mut inner = Sha512::new();
    inner.update(&inner_pad);
    let mut outer = Sha512::new();
    outer.update(&outer_pad);
    (inner, outer)
}

fn finished(inner: Sha512, mut outer: Sha512) -> [u8; 64] {
    outer.update(&inner.finalize());
    outer.finalize()
}

fn code(key: &[u8], message: &[u8]) -> [u8; 64]
    requires { length key.now ≤ 128 }
{
    let (mut inner, outer) = keyed(key);
    inner.update(message);
    finished(inner, outer)
}

fn first_half(bytes: &[u8; 64]) -> [u8; 32] {
    let mut half = [0; 32];
    half.copy_from_slice(&bytes[..32]);
    half
}

fn ending(bytes: &[u8; 64]) -> [u8; 8] {
    let mut last = [0; 8];
    last.copy_from_slice(&bytes[56..]);
    last
}

/// So many codes.
// no clause: it is measured, and tested beside the other side.
pub fn hmac(count: u32) -> [u8; 8] {
    let mut last = [0; 64];
    for _ in 0..count {
        last = code(&KEY, &MESSAGE);
    }
    ending(&last)
}

fn signed(unsalted_inner: &Sha512, unsalted_outer: &Sha512) -> [u8; 64] {
    let mut inner = unsalted_inner.clone().unwrap();
    inner.update(&KEY);
    let prk = finished(inner, unsalted_outer.clone().unwrap());
    let key = code(&prk, b"DPE-SIGN\x00\x01");
    code(&key, &MESSAGE)
}

/// So many signatures.
// no clause: it is measured, and tested beside the other side.
pub fn sign(count: u32) -> [u8; 8] {
    let (inner, outer) = keyed(&[0; 64]);
    let mut last = [0; 64];
    for _ in 0..count {
        last = signed(&inner, &outer);
    }
    ending(&last)
}

fn attest_next(now: &[u8; 32]) -> [u8; 64] {
    let mut measured = Sha512::new();
    measured.update(&CODE);
    measured.update(&CONFIG);
    measured.update(&AUTHORITY);
    measured.update(&[MODE]);
    measured.update(&HIDDEN);
    let prk = code(&measured.finalize(), now);
    code(&prk, b"CDI_Attest\x01")
}

fn seal_next(now: &[u8; 32]) -> [u8; 64] {
    let mut lasting = Sha512::new();
    lasting.update(&AUTHORITY);
    lasting.update(&[MODE]);
    lasting.update(&HIDDEN);
    let prk = code(&lasting.finalize(), now);
    code(&prk, b"CDI_Seal\x01")
}

/// So many layers, each under the CDIs of the one before.
// no clause: it is measured, and tested beside the other side.
pub fn derive(count: u32) -> [u8; 8] {
    let mut attest = KEY;
    let mut seal = KEY;
    for _ in 0..count {
        attest = first_half(&attest_next(&attest));
        seal = first_half(&seal_next(&seal));
    }
    let mut last = [0; 8];
    last[..4].copy_from_slice(&attest[28..]);
    last[4..].copy_from_slice(&seal[28..]);
    last
}

// Both blocks of the keys of a box.
fn box_keys() -> ([u8; 64], [u8; 64]) {
    let prk = code(&SALT, &KEY);
    let (mut inner, outer) = keyed(&prk);
    let mut first = inner.clone().unwrap();
    first.update(b"DPE-BOX\xff\x0f\x00\x01");
    let one = finished(first, outer.clone().unwrap());
    inner.update(&one);
    inner.update(b"DPE-BOX\xff\x0f\x00\x02");
    (one, finished(inner, outer))
}

// The second half of the first block, and the first half of the second.
fn tag_key(one: &[u8; 64], two: &[u8; 64]) -> [u8; 64] {
    let mut key = [0; 64];
    key[..32].copy_from_slice(&one[32..]);
    key[32..].copy_from_slice(&two[..32]);
    key
}

// A text under the key stream of this key.
fn cipher(key: &[u8; 32], plain: &[u8], text: &mut [u8])
    requires { length plain.now ≡ length text.old }
{
    ChaCha20Rng::from_seed(*key).fill_bytes(text);
    for i in 0..text.len() {
        text[i] ^= plain[i];
    }
}

fn seal_box(plain: &[u8], room: &mut [u8; 4096])
    requires { length plain.now ≤ 2048 }
{
    let (one, two) = box_keys();
    let end = 21 + plain.len();
    room[0] = 1;
    room[1..17].copy_from_slice(&SALT);
    room[17..19].copy_from_slice(&[255, 15]);
    room[19..21].copy_from_slice(&(plain.len() as u16).to_be_bytes());
    cipher(&first_half(&one), plain, &mut room[21..end]);
    let tag = code(&tag_key(&one, &two), &room[..end]);
    room[end..end + 64].copy_from_slice(&tag);
}

/// So many boxes.
// no clause: it is measured, and tested beside the other side.
pub fn seal(count: u32) -> [u8; 8] {
    let mut room = [0; 4096];
    for _ in 0..count {
        seal_box(&MESSAGE, &mut room);
    }
    let mut last = [0; 8];
    last.copy_from_slice(&room[109..117]);
    last
}

/// So many boxes of 2,048 bytes.
// no clause: it is measured, and tested beside the other side.
pub fn long(count: u32) -> [u8; 8] {
    let mut room = [0; 4096];
    for _ in 0..count {
        seal_box(&LONG, &mut room);
    }
    let mut last = [0; 8];
    last.copy_from_slice(&room[2125..2133]);
    last
}

/// An operation by its name.
// no clause: it is measured, and tested beside the other side.
pub fn repeated(operation: &str, count: u32) -> Option<[u8; 8]> {
    if operation == "hmac" {
        Some(hmac(count))
    } else if operation == "sign" {
        Some(sign(count))
    } else if operation == "derive" {
        Some(derive(count))
    } else if operation == "seal" {
        Some(seal(count))
    } else if operation == "long" {
        Some(long(count))
    } else {
        None
    }
}
