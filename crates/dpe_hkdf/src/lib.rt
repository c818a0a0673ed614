//! HKDF (RFC 5869) with HMAC-SHA-512. Nothing here takes memory.
#![tactic(auto)]

ghost use Rattle.std.specs.Prelude.{◌≡◌, ◌≤◌, ◌+◌, ◌-◌, ◌*◌, ◌++◌, ◌∷◌, [], length, take, replicate, ℕ, List, Some, None, Option};
ghost use Rattle.std.specs.Option.{option_map};
ghost use Rattle.dpe_hkdf.specs.Hkdf.{extract as extract_of, expand as expand_of, labelled};
ghost use Rattle.dpe_hmac.specs.Hmac.{hmac};
ghost use Rattle.dpe_hmac.specs.Keyed.{Holds};

use dpe_hmac::{Hmac, hmac_of};

/// Extraction with an absent salt, whose keyed state is made once for several keying materials.
#[derive(Drop)]
pub struct Unsalted {
    keyed: Hmac,
    ghost by_zeros: { ∥ Holds keyed (replicate 64 0) [] ∥₁ },
}

impl Unsalted {
    /// The keyed state of an absent salt.
    // no clause: every `Unsalted` is that state, by its ghost field.
    pub fn new() -> Unsalted {
        Unsalted {
            keyed: Hmac::new(&[0; 64]),
        }
    }

    /// A key out of input keying material, with no salt (section 2.2).
    pub fn extract(&self, ikm: &[u8]) -> [u8; 64]
        ensures { result ≡ extract_of None ikm.now }
    {
        code_under(&self.keyed, ikm)
    }
}

// The code of a message under a key whose state was made before.
fn code_under(keyed: &Hmac, message: &[u8]) -> [u8; 64]
    ensures { (key : List ℕ) → Holds keyed.now key [] → result ≡ hmac key message.now }
{
    let mut mac = keyed.clone().unwrap();
    mac.update(message);
    mac.finish()
}

/// A key out of input keying material (section 2.2).
pub fn extract(salt: Option<&[u8]>, ikm: &[u8]) -> [u8; 64]
    ensures { result ≡ extract_of (option_map (λ s. s.now) salt.entry) ikm.now }
{
    match salt {
        None => hmac_of(&[0; 64], ikm),
        Some(salt) => hmac_of(salt, ikm),
    }
}

// Appends a purpose, a length and a label, and the number of a block.
fn finished(mut mac: Hmac, purpose: &[u8], len: &[u8], label: &[u8], number: u8) -> [u8; 64]
    ensures { (key m : List ℕ) → Holds mac key m
        → result ≡ hmac key (m ++ (purpose.now ++ len.now ++ label.now) ++ number ∷ []) }
{
    mac.update(purpose);
    mac.update(len);
    mac.update(label);
    mac.update(&[number]);
    mac.finish()
}

// T(1), and T(i) from the one before it, under the state of their key.
fn first_block(keyed: &Hmac, purpose: &[u8], len: &[u8], label: &[u8]) -> [u8; 64]
    ensures { (prk : List ℕ) → Holds keyed.now prk []
        → result ≡ hmac prk ((purpose.now ++ len.now ++ label.now) ++ 1 ∷ []) }
{
    let mac = keyed.clone().unwrap();
    finished(mac, purpose, len, label, 1)
}

fn next_block(
    keyed: &Hmac,
    before: &[u8; 64],
    purpose: &[u8],
    len: &[u8],
    label: &[u8],
    number: u8,
) -> [u8; 64]
    ensures { (prk : List ℕ) → Holds keyed.now prk []
        → result ≡ hmac prk (before.now ++ (purpose.now ++ len.now ++ label.now) ++ number ∷ []) }
{
    let mut mac = keyed.clone().unwrap();
    mac.update(before);
    finished(mac, purpose, len, label, number)
}

// Writes as much of a block at this place as there is room for.
fn write_block(out: &mut [u8], at: usize, block: &[u8; 64])
    requires { at ≤ length out.old }
    ensures { take (at + 64) out.new ≡ take at out.old ++ take (length out.old - at) block.now }
{
    let room = out.len() - at;
    if room < 64 {
        out[at..].copy_from_slice(&block[..room]);
    } else {
        out[at..at + 64].copy_from_slice(block);
    }
}

// Fills `out` with the output keying material of an info in three pieces. The key is hashed once.
fn fill(prk: &[u8; 64], purpose: &[u8], len: &[u8], label: &[u8], out: &mut [u8])
    requires { length out.old ≤ 16320 }
    ensures { out.new ≡ expand_of prk.now (purpose.now ++ len.now ++ label.now) (length out.old) }
{
    let keyed = Hmac::new(prk);
    let blocks = out.len().div_ceil(64) as u8;
    let mut block = [0; 64];
    for i in 0..blocks {
        block = if i == 0 {
            first_block(&keyed, purpose, len, label)
        } else {
            next_block(&keyed, &block, purpose, len, label, i + 1)
        };
        write_block(out, 64 * usize::from(i), &block);
    }
}

/// Fills `out` with the output keying material of a key and an info (section 2.3).
pub fn expand(prk: &[u8; 64], info: &[u8], out: &mut [u8])
    requires { length out.old ≤ 16320 }
    ensures { out.new ≡ expand_of prk.now info.now (length out.old) }
{
    fill(prk, info, &[], &[], out);
}

/// Fills `out` with the output keying material whose info is a purpose, the length of a label as one byte,
/// and the label.
pub fn expand_labelled(prk: &[u8; 64], purpose: &[u8], label: &[u8], out: &mut [u8])
    requires label { length label.now ≤ 255 }
    requires room { length out.old ≤ 16320 }
    ensures { out.new ≡ expand_of prk.now (labelled purpose.now label.now) (length out.old) }
{
    fill(prk, purpose, &[label.len() as u8], label, out);
}
