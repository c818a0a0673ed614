//! The program's words.
ghost use Rattle.std.specs.Prelude.{◌≡◌, ◌≤◌, ℕ, List, [], ◌∷◌, Ok, length, IfSome, IfNone};
ghost use Rattle.std.specs.Fmt.{decimal};
ghost use Rattle.hex.specs.Hex.{decode_sized};
ghost use Rattle.dpe_ratchets.specs.Words.{AreFaulty, AskFor, IsLabel, IsOpen, IsSeal, texts};

use crate::parts::TOP;
use dpe_text::parse_number;
use std::marker::Model;

/// The most bytes of a label.
const MAX_LABEL: usize = 64;

/// The last locality and the last mode.
const MAX_LOCALITY: u16 = 7;

const MAX_MODE: u16 = 3;

/// A label of at most 64 bytes.
#[derive(Drop)]
pub struct Label {
    room: [u8; MAX_LABEL],
    len: usize,
}

impl Model for Label {
    ghost use Rattle.std.specs.Prelude.{ℕ, List, ◌≤◌, take};

    ghost Value = { List ℕ };

    ghost view = { λ l. take l.len l.room };

    ghost invariant = { λ l. l.len ≤ 64 };
}

impl Label {
    /// The bytes.
    pub fn bytes(&self) -> &[u8]
        ensures bytes { result.now ≡ self.now }
        ensures few { length self.now ≤ MAX_LABEL }
    {
        &self.room[..self.len]
    }
}

/// What `seal` asks for: a box of this version, at a stage of version `own` of this CDI.
#[derive(Drop)]
pub struct SealRequest {
    pub cdi: [u8; 32],
    pub own: u16,
    pub version: u16,
    pub label: Label,
    pub salt: [u8; 16],
}

/// What `open` asks for: the data of a box, at a stage of version `own` of this CDI, for a locality and a mode.
#[derive(Drop)]
pub struct OpenRequest {
    pub cdi: [u8; 32],
    pub own: u16,
    pub label: Label,
    pub locality: u8,
    pub mode: u8,
}

/// What the words ask for.
#[derive(Drop)]
pub enum Request {
    Seal(SealRequest),
    Open(OpenRequest),
}

// A CDI in hexadecimal digits.
fn parse_cdi(digits: &str) -> Option<[u8; 32]>
    ensures found { IfSome result (λ cdi. decode_sized digits.now 32 ≡ Ok cdi) }
    ensures none { IfNone result ((cdi : List ℕ) → decode_sized digits.now 32 ≡ Ok cdi → ⊥) }
{
    let mut cdi = [0; 32];
    match hex::decode_to_slice(digits, &mut cdi) {
        Ok(()) => Some(cdi),
        Err(_) => None,
    }
}

// A salt in hexadecimal digits.
fn parse_salt(digits: &str) -> Option<[u8; 16]>
    ensures found { IfSome result (λ salt. decode_sized digits.now 16 ≡ Ok salt) }
    ensures none { IfNone result ((salt : List ℕ) → decode_sized digits.now 16 ≡ Ok salt → ⊥) }
{
    let mut salt = [0; 16];
    match hex::decode_to_slice(digits, &mut salt) {
        Ok(()) => Some(salt),
        Err(_) => None,
    }
}

// A label in hexadecimal digits.
fn parse_label(digits: &str) -> Option<Label>
    ensures found { IfSome result (λ label. IsLabel digits.now label) }
    ensures none { IfNone result ((label : List ℕ) → IsLabel digits.now label → ⊥) }
{
    let len = digits.len() / 2;
    if len > MAX_LABEL {
        return None;
    }
    let mut room = [0; MAX_LABEL];
    match hex::decode_to_slice(digits, &mut room[..len]) {
        Ok(()) => Some(Label { room, len }),
        Err(_) => None,
    }
}

// A number up to a most, in decimal digits.
fn parse_up_to(word: &str, most: u16) -> Option<u16>
    ensures found { IfSome result (λ n. (word.now ≡ decimal n) × (n ≤ most)) }
    ensures none { IfNone result ((n : ℕ) → word.now ≡ decimal n → n ≤ most → ⊥) }
{
    let number = parse_number(word)?;
    if number > u64::from(most) {
        return None;
    }
    Some(number as u16)
}

// What the words of `seal` ask for.
fn read_seal(
    name: &str,
    cdi: &str,
    own: &str,
    version: &str,
    label: &str,
    salt: &str,
) -> Option<SealRequest>
    ensures found { IfSome result (λ asked.
        IsSeal (name.now ∷ cdi.now ∷ own.now ∷ version.now ∷ label.now ∷ salt.now ∷ []) asked) }
    ensures none { IfNone result ((asked : SealRequest)
        → IsSeal (name.now ∷ cdi.now ∷ own.now ∷ version.now ∷ label.now ∷ salt.now ∷ []) asked → ⊥) }
{
    if name != "seal" {
        return None;
    }
    let cdi = parse_cdi(cdi)?;
    let own = parse_up_to(own, TOP)?;
    let version = parse_up_to(version, own)?;
    let label = parse_label(label)?;
    let salt = parse_salt(salt)?;
    Some(SealRequest {
        cdi,
        own,
        version,
        label,
        salt,
    })
}

// What the words of `open` ask for.
fn read_open(
    name: &str,
    cdi: &str,
    own: &str,
    label: &str,
    locality: &str,
    mode: &str,
) -> Option<OpenRequest>
    ensures found { IfSome result (λ asked.
        IsOpen (name.now ∷ cdi.now ∷ own.now ∷ label.now ∷ locality.now ∷ mode.now ∷ []) asked) }
    ensures none { IfNone result ((asked : OpenRequest)
        → IsOpen (name.now ∷ cdi.now ∷ own.now ∷ label.now ∷ locality.now ∷ mode.now ∷ []) asked → ⊥) }
{
    if name != "open" {
        return None;
    }
    let cdi = parse_cdi(cdi)?;
    let own = parse_up_to(own, TOP)?;
    let label = parse_label(label)?;
    let locality = parse_up_to(locality, MAX_LOCALITY)?;
    let mode = parse_up_to(mode, MAX_MODE)?;
    Some(OpenRequest {
        cdi,
        own,
        label,
        locality: locality as u8,
        mode: mode as u8,
    })
}

// What six words ask for.
fn read_six(
    name: &str,
    second: &str,
    third: &str,
    fourth: &str,
    fifth: &str,
    sixth: &str,
) -> Option<Request>
    ensures found { IfSome result
        (AskFor (name.now ∷ second.now ∷ third.now ∷ fourth.now ∷ fifth.now ∷ sixth.now ∷ [])) }
    ensures none { IfNone result
        (AreFaulty (name.now ∷ second.now ∷ third.now ∷ fourth.now ∷ fifth.now ∷ sixth.now ∷ [])) }
{
    if let Some(asked) = read_seal(name, second, third, fourth, fifth, sixth) {
        return Some(Request::Seal(asked));
    }
    match read_open(name, second, third, fourth, fifth, sixth) {
        Some(asked) => Some(Request::Open(asked)),
        None => None,
    }
}

/// What the words `seal CDI W V LABEL SALT` or `open CDI W LABEL LOCALITY MODE` ask for.
pub fn read_words(words: &[&str]) -> Option<Request>
    ensures found { IfSome result (AskFor (texts words.now)) }
    ensures none { IfNone result (AreFaulty (texts words.now)) }
{
    if words.len() != 6 {
        return None;
    }
    read_six(words[0], words[1], words[2], words[3], words[4], words[5])
}
