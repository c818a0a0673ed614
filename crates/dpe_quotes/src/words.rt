//! The program's words.
ghost use Rattle.std.specs.Prelude.{◌≡◌, ◌≤◌, ℕ, List, [], ◌∷◌, Ok, length, IfSome, IfNone};
ghost use Rattle.hex.specs.Hex.{decode_sized};
ghost use Rattle.dpe_quotes.specs.Words.{AreFaulty, AskFor, IsMake, IsNonce, IsVerify, texts};

use std::marker::Model;

/// The fewest and the most bytes of a nonce.
const MIN_NONCE: usize = 8;

const MAX_NONCE: usize = 64;

/// A nonce of 8 to 64 bytes.
#[derive(Drop)]
pub struct NonceBytes {
    room: [u8; MAX_NONCE],
    len: usize,
}

impl Model for NonceBytes {
    ghost use Rattle.std.specs.Prelude.{ℕ, List, ◌≤◌, take};

    ghost Value = { List ℕ };

    ghost view = { λ n. take n.len n.room };

    ghost invariant = { λ n. (8 ≤ n.len) × (n.len ≤ 64) };
}

impl NonceBytes {
    /// The bytes.
    pub fn bytes(&self) -> &[u8]
        ensures bytes { result.now ≡ self.now }
        ensures least { 8 ≤ length self.now }
        ensures most { length self.now ≤ MAX_NONCE }
    {
        &self.room[..self.len]
    }
}

/// What `verify` asks for: whether a quote with this nonce proves its path to the holder of this seed.
#[derive(Drop)]
pub struct VerifyRequest {
    pub seed: [u8; 32],
    pub nonce: NonceBytes,
}

/// What `make` asks for: the quote of a path, with this nonce and the tag that was given for it.
#[derive(Drop)]
pub struct MakeRequest {
    pub nonce: NonceBytes,
    pub tag: [u8; 64],
}

/// What the words ask for.
#[derive(Drop)]
pub enum Request {
    Verify(VerifyRequest),
    Make(MakeRequest),
}

// A seed in hexadecimal digits.
fn parse_seed(digits: &str) -> Option<[u8; 32]>
    ensures found { IfSome result (λ seed. decode_sized digits.now 32 ≡ Ok seed) }
    ensures none { IfNone result ((seed : List ℕ) → decode_sized digits.now 32 ≡ Ok seed → ⊥) }
{
    let mut seed = [0; 32];
    match hex::decode_to_slice(digits, &mut seed) {
        Ok(()) => Some(seed),
        Err(_) => None,
    }
}

// A tag in hexadecimal digits.
fn parse_tag(digits: &str) -> Option<[u8; 64]>
    ensures found { IfSome result (λ tag. decode_sized digits.now 64 ≡ Ok tag) }
    ensures none { IfNone result ((tag : List ℕ) → decode_sized digits.now 64 ≡ Ok tag → ⊥) }
{
    let mut tag = [0; 64];
    match hex::decode_to_slice(digits, &mut tag) {
        Ok(()) => Some(tag),
        Err(_) => None,
    }
}

// A nonce in hexadecimal digits.
fn parse_nonce(digits: &str) -> Option<NonceBytes>
    ensures found { IfSome result (λ nonce. IsNonce digits.now nonce) }
    ensures none { IfNone result ((nonce : List ℕ) → IsNonce digits.now nonce → ⊥) }
{
    let len = digits.len() / 2;
    if len < MIN_NONCE {
        return None;
    }
    if len > MAX_NONCE {
        return None;
    }
    let mut room = [0; MAX_NONCE];
    match hex::decode_to_slice(digits, &mut room[..len]) {
        Ok(()) => Some(NonceBytes { room, len }),
        Err(_) => None,
    }
}

// What the words of `verify` ask for.
fn read_verify(name: &str, seed: &str, nonce: &str) -> Option<VerifyRequest>
    ensures found { IfSome result (λ asked. IsVerify (name.now ∷ seed.now ∷ nonce.now ∷ []) asked) }
    ensures none { IfNone result ((asked : VerifyRequest) → IsVerify (name.now ∷ seed.now ∷ nonce.now ∷ []) asked → ⊥) }
{
    if name != "verify" {
        return None;
    }
    let seed = parse_seed(seed)?;
    let nonce = parse_nonce(nonce)?;
    Some(VerifyRequest { seed, nonce })
}

// What the words of `make` ask for.
fn read_make(name: &str, nonce: &str, tag: &str) -> Option<MakeRequest>
    ensures found { IfSome result (λ asked. IsMake (name.now ∷ nonce.now ∷ tag.now ∷ []) asked) }
    ensures none { IfNone result ((asked : MakeRequest) → IsMake (name.now ∷ nonce.now ∷ tag.now ∷ []) asked → ⊥) }
{
    if name != "make" {
        return None;
    }
    let nonce = parse_nonce(nonce)?;
    let tag = parse_tag(tag)?;
    Some(MakeRequest { nonce, tag })
}

// What three words ask for.
fn read_three(name: &str, second: &str, third: &str) -> Option<Request>
    ensures found { IfSome result (AskFor (name.now ∷ second.now ∷ third.now ∷ [])) }
    ensures none { IfNone result (AreFaulty (name.now ∷ second.now ∷ third.now ∷ [])) }
{
    if let Some(asked) = read_verify(name, second, third) {
        return Some(Request::Verify(asked));
    }
    match read_make(name, second, third) {
        Some(asked) => Some(Request::Make(asked)),
        None => None,
    }
}

/// What the words `verify SEED NONCE` or `make NONCE TAG` ask for.
pub fn read_words(words: &[&str]) -> Option<Request>
    ensures found { IfSome result (AskFor (texts words.now)) }
    ensures none { IfNone result (AreFaulty (texts words.now)) }
{
    if words.len() != 3 {
        return None;
    }
    read_three(words[0], words[1], words[2])
}
