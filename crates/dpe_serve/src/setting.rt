//! What the words of the server say.
ghost use Rattle.std.specs.Prelude.{◌≡◌, ◌≤◌, ℕ, ◌∷◌, IfSome, IfNone, length};
ghost use Rattle.std.specs.Fmt.{decimal};
ghost use Rattle.std.specs.Bool.{OnTrue, OnFalse};
ghost use Rattle.std.specs.List.{AllByRecursion};
ghost use Rattle.dpe_serve.specs.Setting.{DoorWord as SpelledDoor, Spell, SpellNone, OneSetting, texts};
ghost use Rattle.dpe_serve.specs.Words.{setting_of, SpellsDoor, SpellsIts};

use dpe_text::parse_number;

/// The most doors.
pub(crate) const MAX_DOORS: usize = 16;

/// The most connections of a door.
const MAX_EACH: u64 = 65_535;

/// The most entries of a journal.
const MAX_ENTRIES: u64 = 65_536;

/// The words before the door words.
const FRONT: usize = 5;

/// What the words say. The door words are read again where the doors are opened.
#[derive(Clone, Copy)]
pub(crate) struct Setting<'a> {
    pub(crate) seed: &'a str,
    pub(crate) journal: &'a str,
    /// The most connections of a door.
    pub(crate) each: u32,
    /// The most entries of the journal.
    pub(crate) entries: u32,
    /// The first serial.
    pub(crate) first: u64,
    pub(crate) doors: &'a [&'a str],
}

/// The locality of the connections that come in at a path.
#[derive(Clone, Copy)]
pub(crate) struct DoorWord<'a> {
    pub(crate) locality: u8,
    pub(crate) path: &'a str,
}

/// A digit from 0 to 7, a colon and a path.
pub(crate) fn read_door<'a>(word: &'a str) -> Option<DoorWord<'a>>
    ensures found { IfSome result (λ d. SpellsDoor word.entry.now (record { locality = d.locality; path = d.path.now })) }
    ensures none { IfNone result ((d : SpelledDoor) → SpellsDoor word.entry.now d → ⊥) }
{
    let bytes = word.as_bytes();
    if bytes.len() < 3 {
        return None;
    }
    if bytes[0] < b'0' {
        return None;
    }
    if bytes[0] > b'7' {
        return None;
    }
    if bytes[1] != b':' {
        return None;
    }
    Some(DoorWord {
        locality: bytes[0] - b'0',
        path: &word[2..],
    })
}

// A number from 1 to the limit.
fn parse_count(word: &str, limit: u64) -> Option<u32>
    requires { limit ≤ 65536 }
    ensures found { IfSome result (λ n. (word.now ≡ decimal n) × (1 ≤ n) × (n ≤ limit)) }
    ensures none { IfNone result ((n : ℕ) → word.now ≡ decimal n → 1 ≤ n → n ≤ limit → ⊥) }
{
    let Some(number) = parse_number(word) else {
        return None;
    };
    if number == 0 {
        return None;
    }
    if number > limit {
        return None;
    }
    Some(number as u32)
}

// Whether each word is a door word.
fn are_doors(words: &[&str]) -> bool
    ensures yes { OnTrue result (AllByRecursion SpellsIts (texts words.now)) }
    ensures no { OnFalse result (AllByRecursion SpellsIts (texts words.now) → ⊥) }
{
    for word in words {
        match read_door(word) {
            Some(_) => {}
            None => return false,
        }
    }
    true
}

// What the first five words and the door words say.
fn read_parts<'a>(
    seed: &'a str,
    journal: &'a str,
    each: &str,
    entries: &str,
    first: &str,
    doors: &'a [&'a str],
) -> Option<Setting<'a>>
    requires { (1 ≤ length doors.now) × (length doors.now ≤ MAX_DOORS) }
    ensures found { IfSome result (λ s. Spell
        (seed.entry.now ∷ journal.entry.now ∷ each.now ∷ entries.now ∷ first.now ∷ texts doors.entry.now) (setting_of s)) }
    ensures doors { IfSome result (λ s. AllByRecursion SpellsIts (texts s.doors.now)) }
    ensures none { IfNone result (SpellNone
        (seed.entry.now ∷ journal.entry.now ∷ each.now ∷ entries.now ∷ first.now ∷ texts doors.entry.now)) }
{
    if seed.is_empty() {
        return None;
    }
    if journal.is_empty() {
        return None;
    }
    let Some(each) = parse_count(each, MAX_EACH) else {
        return None;
    };
    let Some(entries) = parse_count(entries, MAX_ENTRIES) else {
        return None;
    };
    let Some(first) = parse_number(first) else {
        return None;
    };
    if !are_doors(doors) {
        return None;
    }
    Some(Setting {
        seed,
        journal,
        each,
        entries,
        first,
        doors,
    })
}

/// What the words say: `SEED JOURNAL EACH ENTRIES FIRST DOOR [DOOR ..]`, with 1 to 16 `DOOR` words. `SEED` and `JOURNAL` are
/// paths, `EACH` is 1 to 65,535, `ENTRIES` 1 to 65,536, `FIRST` below 2^64. `None` exactly where they aren't of the form.
pub(crate) fn read_words<'a>(words: &'a [&'a str]) -> Option<Setting<'a>>
    ensures found { IfSome result (λ s. Spell (texts words.entry.now) (setting_of s)) }
    ensures doors { IfSome result (λ s. AllByRecursion SpellsIts (texts s.doors.now)) }
    ensures none { IfNone result (SpellNone (texts words.entry.now)) }
{
    if words.len() <= FRONT {
        return None;
    }
    if words.len() > FRONT + MAX_DOORS {
        return None;
    }
    read_parts(
        words[0],
        words[1],
        words[2],
        words[3],
        words[4],
        &words[FRONT..],
    )
}

/// Does nothing. The words spell at most one setting.
pub fn one_setting()
    ensures { OneSetting }
{}
