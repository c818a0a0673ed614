ghost use Rattle.std.specs.Prelude.{◌≡◌, ◌≤◌, ◌<◌, ◌+◌, ◌++◌, length, take, drop, true};
ghost use Rattle.std.specs.Str.{bytes_eq};
ghost use Rattle.dpe_box.specs.Sealed.{keys as keys_for, ciphered, tag as tag_for, sealed_box, has_form as has_form_of, opened, admits as admits_of, has_bit as has_bit_of, masks_of, ciphertext_of, keys_of, before_tag, tag_of};
ghost use Rattle.dpe_box.specs.Laws.{OpensAsSealed, UnsealsAsSealed};
ghost use Rattle.dpe_box.specs.Unsealed.{Authenticates, MalformedExactly, Opens, Unseals, unopened_of};

use crate::policy::{NotOpened, Opened, Policy, Unopened};
use dpe_chacha::apply;
use dpe_hkdf::{expand_labelled, extract};
use dpe_hmac::hmac_of;

// A box has its version, 16 bytes of salt, both masks and two bytes of length before its ciphertext, and
// 64 bytes of tag behind.

// The keys of a box: 32 bytes for the cipher, and then 64 for the tag.
#[tactic(auto, unfolding(crate::specs::Sealed::keys))]
fn keys(cdi: &[u8; 32], label: &[u8], policy: &Policy, salt: &[u8]) -> [u8; 96]
    requires { length label.now ≤ 64 }
    ensures { result ≡ keys_for cdi.now label.now policy.now salt.now }
{
    let purpose = [
        b'D',
        b'P',
        b'E',
        b'-',
        b'B',
        b'O',
        b'X',
        policy.localities,
        policy.modes,
    ];
    let prk = extract(Some(salt), cdi);
    let mut key = [0; 96];
    expand_labelled(&prk, &purpose, label, &mut key);
    key
}

// Enciphers a text, or deciphers it.
#[tactic(auto, unfolding(crate::specs::Sealed::ciphered))]
fn cipher(key: &[u8; 96], text: &mut [u8])
    requires { length text.old ≤ 4096 }
    ensures { text.new ≡ ciphered key.now text.old }
{
    let mut cipher_key = [0; 32];
    cipher_key.copy_from_slice(&key[..32]);
    apply(&cipher_key, &[0; 12], 0, text);
}

// The tag of what stands before it.
#[tactic(auto, unfolding(crate::specs::Sealed::tag))]
fn tag(key: &[u8; 96], front: &[u8]) -> [u8; 64]
    ensures { result ≡ tag_for key.now front.now }
{
    let (_, tag_key) = key.split_at(32);
    hmac_of(tag_key, front)
}

// Writes a piece at a place.
fn put(room: &mut [u8], at: usize, piece: &[u8])
    requires { at + length piece.now ≤ length room.old }
    ensures front { take (at + length piece.now) room.new ≡ take at room.old ++ piece.now }
    ensures rest { drop (at + length piece.now) room.new ≡ drop (at + length piece.now) room.old }
{
    room[at..at + piece.len()].copy_from_slice(piece);
}

// Writes the ciphertext of a text at a place.
fn put_ciphered(key: &[u8; 96], room: &mut [u8], at: usize, text: &[u8])
    requires room { at + length text.now ≤ length room.old }
    requires text { length text.now ≤ 2048 }
    ensures front { take (at + length text.now) room.new ≡ take at room.old ++ ciphered key.now text.now }
    ensures rest { drop (at + length text.now) room.new ≡ drop (at + length text.now) room.old }
{
    let part = &mut room[at..at + text.len()];
    part.copy_from_slice(text);
    cipher(key, part);
}

/// Seals data of at most 2,048 bytes under a label of at most 64, and answers the length of the box, which
/// is 85 bytes more than the data has. Bits 0 to 3 of the modes may be set.
#[tactic(auto, unfolding(crate::specs::Sealed::sealed_box))]
pub fn seal(
    cdi: &[u8; 32],
    label: &[u8],
    policy: &Policy,
    salt: &[u8; 16],
    plain: &[u8],
    out: &mut [u8; 4096],
) -> usize
    requires label { length label.now ≤ 64 }
    requires modes { policy.now.modes ≤ 15 }
    requires plain { length plain.now ≤ 2048 }
    ensures len { result ≡ 85 + length plain.now }
    ensures written { take result out.new ≡ sealed_box cdi.now label.now policy.now salt.now plain.now }
    ensures rest { drop result out.new ≡ drop result out.old }
{
    let key = keys(cdi, label, policy, salt);
    put(out, 0, &[1]);
    put(out, 1, salt);
    put(out, 17, &[policy.localities, policy.modes]);
    put(out, 19, &(plain.len() as u16).to_be_bytes());
    put_ciphered(&key, out, 21, plain);
    let end = 21 + plain.len();
    let tag = tag(&key, &out[..end]);
    put(out, end, &tag);
    end + 64
}

fn has_bit(mask: u8, i: u8) -> bool
    ensures { result ≡ has_bit_of mask i }
{
    i < 8 && (mask >> i) % 2 == 1
}

/// Whether bit `locality` of the one mask and bit `mode` of the other are set.
pub fn admits(policy: &Policy, locality: u8, mode: u8) -> bool
    ensures { result ≡ admits_of policy.now locality mode }
{
    has_bit(policy.localities, locality) && has_bit(policy.modes, mode)
}

// The version, the modes and the length that a box has.
fn is_box(bytes: &[u8]) -> bool
    ensures { result ≡ has_form_of bytes.now }
{
    if bytes.len() < 85 {
        return false;
    }
    let len = u16::from_be_bytes([bytes[19], bytes[20]]);
    bytes[0] == 1 && bytes[18] <= 15 && len <= 2048 && bytes.len() == 85 + usize::from(len)
}

/// Whether bytes have the form of a box: its version, modes of at most 15, and a length of at most 2,048 that is
/// theirs. The others are those that opening calls malformed, under whatever CDI and label.
pub fn has_form(sealed: &[u8]) -> bool
    ensures form { result ≡ has_form_of sealed.now }
    ensures exact { MalformedExactly result sealed.now }
{
    is_box(sealed)
}

// Whether the last 64 bytes, all of them, are the tag of what stands before them.
fn has_tag(key: &[u8; 96], sealed: &[u8]) -> bool
    requires { 85 ≤ length sealed.now }
    ensures { result ≡ bytes_eq (tag_of sealed.now) (tag_for key.now (before_tag sealed.now)) }
{
    let (front, last) = sealed.split_at(sealed.len() - 64);
    let expected = tag(key, front);
    last == expected.as_slice()
}

// What a box with the form and the tag is opened with.
#[derive(Clone, Copy)]
struct Authentic {
    key: [u8; 96],
    policy: Policy,
}

// Tests the form, and then the tag.
fn authenticated(cdi: &[u8; 32], label: &[u8], sealed: &[u8]) -> Result<Authentic, NotOpened>
    requires { length label.now ≤ 64 }
    ensures { Authenticates result cdi.now label.now sealed.now }
{
    if !has_form(sealed) {
        return Err(NotOpened::Malformed);
    }
    let policy = Policy {
        localities: sealed[17],
        modes: sealed[18],
    };
    let key = keys(cdi, label, &policy, &sealed[1..17]);
    if !has_tag(&key, sealed) {
        return Err(NotOpened::Refused);
    }
    Ok(Authentic { key, policy })
}

// What stands between the head of a box and its tag.
fn ciphertext(sealed: &[u8]) -> &[u8]
    requires { has_form_of sealed.now ≡ true }
    ensures bound { length result.now ≤ 2048 }
    ensures text { result.now ≡ ciphertext_of sealed.now }
{
    &sealed[21..sealed.len() - 64]
}

// Writes what a ciphertext stands for.
fn open_into(key: &[u8; 96], text: &[u8], out: &mut [u8; 2048])
    requires { length text.now ≤ 2048 }
    ensures text { take (length text.now) out.new ≡ ciphered key.now text.now }
    ensures rest { drop (length text.now) out.new ≡ drop (length text.now) out.old }
{
    let plain = &mut out[..text.len()];
    plain.copy_from_slice(text);
    cipher(key, plain);
}

/// Opens a box under a label of at most 64 bytes, whoever asks: the data at the front of `out`, its length,
/// and the masks.
pub fn open_box(
    cdi: &[u8; 32],
    label: &[u8],
    sealed: &[u8],
    out: &mut [u8; 2048],
) -> Result<Opened, NotOpened>
    requires { length label.now ≤ 64 }
    ensures { Opens result (opened cdi.now label.now sealed.now) out.old out.new }
{
    match authenticated(cdi, label, sealed) {
        Ok(found) => {
            let text = ciphertext(sealed);
            open_into(&found.key, text, out);
            Ok(Opened {
                len: text.len(),
                policy: found.policy,
            })
        }
        Err(error) => Err(error),
    }
}

fn unopened(error: NotOpened) -> Unopened
    ensures { result ≡ unopened_of error }
{
    match error {
        NotOpened::Malformed => Unopened::Malformed,
        NotOpened::Refused => Unopened::Refused,
    }
}

/// Opens a box under a label of at most 64 bytes, for a locality and a mode: the data at the front of `out`,
/// and its length. The form is tested first, then the tag, then the masks.
pub fn unseal(
    cdi: &[u8; 32],
    label: &[u8],
    sealed: &[u8],
    locality: u8,
    mode: u8,
    out: &mut [u8; 2048],
) -> Result<usize, Unopened>
    requires { length label.now ≤ 64 }
    ensures { Unseals result (opened cdi.now label.now sealed.now) locality mode out.old out.new }
{
    match authenticated(cdi, label, sealed) {
        Ok(found) => {
            if !admits(&found.policy, locality, mode) {
                return Err(Unopened::PolicyRefused);
            }
            let text = ciphertext(sealed);
            open_into(&found.key, text, out);
            Ok(text.len())
        }
        Err(error) => Err(unopened(error)),
    }
}

/// What was put into a box comes out of it.
pub fn opens_as_sealed()
    ensures { OpensAsSealed }
{}

/// `unseal` of what `seal` wrote gives the data, where the masks admit.
pub fn unseals_as_sealed()
    ensures { UnsealsAsSealed }
{}
