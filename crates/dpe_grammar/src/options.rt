//! The words of a line behind its names: each begins with a key, and gives a value behind it.
ghost use Rattle.std.specs.Prelude.{◌≡◌, ◌≤◌, ℕ, IfSome, length, Some, None, count_by, []};
ghost use Rattle.std.specs.Option.{option_map};
ghost use Rattle.std.specs.List.{list_any};
ghost use Rattle.dpe_grammar.specs.Values.{texts, value_of, HasSize, number_in, name_in};
ghost use Rattle.dpe_grammar.specs.Options.{has_key, value_at as value_behind, are_known as known_words, are_single as single_words, bytes_in as sized_bytes, bytes_at as bytes_behind, number_at as number_behind, or_default, optional, flag_at as flag_behind};

use crate::value::{MAX_BYTES, Value, bytes_in, decode, parse_name, parse_up_to};

// Whether a word begins with one of the keys.
fn is_known(word: &[u8], keys: &[&[u8]]) -> bool
    ensures { result ≡ list_any (λ key. has_key key word.now) (texts keys.now) }
{
    for key in keys {
        if word.starts_with(key) {
            return true;
        }
    }
    false
}

// How many words begin with the key.
fn count(key: &[u8], words: &[&[u8]]) -> usize
    ensures { result ≡ count_by (has_key key.now) (texts words.now) }
{
    let mut count = 0;
    for word in words {
        if word.starts_with(key) {
            count += 1;
        }
    }
    count
}

/// Whether each word begins with one of the keys.
pub fn are_known(words: &[&[u8]], keys: &[&[u8]]) -> bool
    ensures { result ≡ known_words (texts keys.now) (texts words.now) }
{
    for word in words {
        if !is_known(word, keys) {
            return false;
        }
    }
    true
}

/// Whether no two words begin with the same key.
pub fn are_single(words: &[&[u8]], keys: &[&[u8]]) -> bool
    ensures { result ≡ single_words (texts keys.now) (texts words.now) }
{
    for key in keys {
        if count(key, words) > 1 {
            return false;
        }
    }
    true
}

/// What stands behind the key, in the first word that begins with it.
pub fn value_at<'a>(words: &[&'a [u8]], key: &[u8]) -> Option<&'a [u8]>
    ensures { option_map (λ t. t.now) result ≡ value_behind key.now (texts words.now) }
{
    for word in words {
        if word.starts_with(key) {
            return Some(&word[key.len()..]);
        }
    }
    None
}

/// The byte string behind a key that has to be there.
pub fn bytes_at<'a>(words: &[&'a [u8]], key: &[u8], least: usize, most: usize) -> Option<Value<'a>>
    requires { most ≤ MAX_BYTES }
    ensures value { option_map value_of result ≡ bytes_behind key.now least most (texts words.now) }
    ensures size { IfSome result (λ v. HasSize least most (value_of v)) }
{
    bytes_in(value_at(words, key)?, least, most)
}

/// The byte string behind a key, or no bytes where the key is absent.
pub fn bytes_or_none<'a>(words: &[&'a [u8]], key: &[u8], most: usize) -> Option<Value<'a>>
    requires { most ≤ MAX_BYTES }
    ensures value { option_map value_of result ≡ or_default [] (sized_bytes 0 most) (value_behind key.now (texts words.now)) }
    ensures size { IfSome result (λ v. length (value_of v) ≤ most) }
{
    match value_at(words, key) {
        None => Some(Value::Digits(&[])),
        Some(text) => bytes_in(text, 0, most),
    }
}

/// The 64 bytes of a word.
pub fn parse_input(text: &[u8]) -> Option<[u8; 64]>
    ensures { result ≡ sized_bytes 64 64 text.now }
{
    let value = bytes_in(text, 64, 64)?;
    let mut input = [0; 64];
    decode(&value, &mut input);
    Some(input)
}

/// The input behind a key that has to be there.
pub fn input_at(words: &[&[u8]], key: &[u8]) -> Option<[u8; 64]>
    ensures { result ≡ bytes_behind key.now 64 64 (texts words.now) }
{
    parse_input(value_at(words, key)?)
}

/// The input behind a key that may be absent.
pub fn optional_input(words: &[&[u8]], key: &[u8]) -> Option<Option<[u8; 64]>>
    ensures { result ≡ optional (sized_bytes 64 64) (value_behind key.now (texts words.now)) }
{
    match value_at(words, key) {
        None => Some(None),
        Some(text) => Some(Some(parse_input(text)?)),
    }
}

/// The number behind a key that has to be there.
pub fn number_at(words: &[&[u8]], key: &[u8], most: u8) -> Option<u8>
    ensures { result ≡ number_behind key.now most (texts words.now) }
{
    parse_up_to(value_at(words, key)?, most)
}

/// The number behind a key, or the default where the key is absent.
pub fn number_or(words: &[&[u8]], key: &[u8], most: u8, default: u8) -> Option<u8>
    ensures { result ≡ or_default default (number_in most) (value_behind key.now (texts words.now)) }
{
    match value_at(words, key) {
        None => Some(default),
        Some(text) => parse_up_to(text, most),
    }
}

/// The number behind a key that may be absent.
pub fn optional_number(words: &[&[u8]], key: &[u8], most: u8) -> Option<Option<u8>>
    ensures { result ≡ optional (number_in most) (value_behind key.now (texts words.now)) }
{
    match value_at(words, key) {
        None => Some(None),
        Some(text) => Some(Some(parse_up_to(text, most)?)),
    }
}

/// The name behind a key that may be absent.
pub fn optional_name<'a>(words: &[&'a [u8]], key: &[u8]) -> Option<Option<&'a [u8]>>
    ensures { option_map (option_map (λ t. t.now)) result ≡ optional name_in (value_behind key.now (texts words.now)) }
{
    match value_at(words, key) {
        None => Some(None),
        Some(text) => Some(Some(parse_name(text)?)),
    }
}

/// Whether a word that has no value is there.
pub fn flag(words: &[&[u8]], key: &[u8]) -> Option<bool>
    ensures { result ≡ flag_behind key.now (texts words.now) }
{
    match value_at(words, key) {
        None => Some(false),
        Some(value) => {
            if value.is_empty() {
                return Some(true);
            }
            None
        }
    }
}
