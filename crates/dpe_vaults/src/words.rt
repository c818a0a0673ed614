//! The program's words.
ghost use Rattle.std.specs.Prelude.{◌≡◌, ◌≤◌, ℕ, [], ◌∷◌, IfSome, IfNone};
ghost use Rattle.std.specs.Fmt.{decimal};
ghost use Rattle.dpe_vaults.specs.Words.{AreFaulty, AskFor, texts, entry_limit};

use crate::storage::MAX_ENTRIES;
use dpe_text::parse_number;

// A number of entries that a vault may have.
fn parse_entries(text: &str) -> Option<u32>
    ensures found { IfSome result (λ n. (text.now ≡ decimal n) × (1 ≤ n) × (n ≤ entry_limit)) }
    ensures none { IfNone result ((n : ℕ) → text.now ≡ decimal n → 1 ≤ n → n ≤ entry_limit → ⊥) }
{
    let entries = parse_number(text)?;
    if entries == 0 {
        return None;
    }
    if entries > u64::from(MAX_ENTRIES) {
        return None;
    }
    Some(entries as u32)
}

// The entries that one word asks for.
fn read_one(word: &str) -> Option<u32>
    ensures found { IfSome result (AskFor (word.now ∷ [])) }
    ensures none { IfNone result (AreFaulty (word.now ∷ [])) }
{
    parse_entries(word)
}

/// How many entries the words ask for.
pub fn read_words(words: &[&str]) -> Option<u32>
    ensures found { IfSome result (AskFor (texts words.now)) }
    ensures none { IfNone result (AreFaulty (texts words.now)) }
{
    if words.len() != 1 {
        return None;
    }
    read_one(words[0])
}
