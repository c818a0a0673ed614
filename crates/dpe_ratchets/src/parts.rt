//! The version and the box in the bytes of a box of a version.
ghost use Rattle.std.specs.Prelude.{◌≡◌, ◌+◌, ◌≤◌, ◌∷◌, ◌++◌, length, take, drop, true, false, IfSome, IfNone};
ghost use Rattle.std.specs.Int.{w16, to_be_bytes};
ghost use Rattle.dpe_ratchets.specs.Boxes.{is_versioned, version_in, box_in};

use dpe_box::has_form;

/// The top version.
pub const TOP: u16 = 1024;

/// What the first byte of a box of a version is.
const FIRST: u8 = 2;

/// The bytes of the first byte and the version.
const HEAD_SIZE: usize = 3;

/// A version, and the box behind it.
#[derive(Clone, Copy)]
pub struct Parts<'a> {
    pub version: u16,
    pub sealed: &'a [u8],
}

/// Writes a box behind its version.
pub fn put_versioned(version: u16, sealed: &[u8], out: &mut [u8; 4096])
    requires { 3 + length sealed.now ≤ 4096 }
    ensures front { take (3 + length sealed.now) out.new ≡ 2 ∷ to_be_bytes w16 version ++ sealed.now }
    ensures rest { drop (3 + length sealed.now) out.new ≡ drop (3 + length sealed.now) out.old }
{
    let number = version.to_be_bytes();
    let (head, rest) = out.split_at_mut(HEAD_SIZE);
    head.copy_from_slice(&[FIRST, number[0], number[1]]);
    rest[..sealed.len()].copy_from_slice(sealed);
}

/// The parts of bytes that have the form of a box of a version.
pub fn parts_of(bytes: &[u8]) -> Option<Parts<'_>>
    ensures form { IfSome result (λ parts. is_versioned bytes.now ≡ true) }
    ensures version { IfSome result (λ parts. parts.version ≡ version_in bytes.now) }
    ensures sealed { IfSome result (λ parts. parts.sealed.now ≡ box_in bytes.now) }
    ensures none { IfNone result (is_versioned bytes.now ≡ false) }
{
    if bytes.len() < HEAD_SIZE {
        return None;
    }
    let (head, sealed) = bytes.split_at(HEAD_SIZE);
    let version = u16::from_be_bytes([head[1], head[2]]);
    if head[0] == FIRST && version <= TOP && has_form(sealed) {
        return Some(Parts { version, sealed });
    }
    None
}
