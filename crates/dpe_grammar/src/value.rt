//! The values that words spell: names, byte strings and numbers.
ghost use Rattle.std.specs.Prelude.{◌≡◌, ◌↔◌, ◌<◌, ◌≤◌, ◌^◌, ℕ, IsTrue, IsOk, IfSome, IfNone, length, take, replicate, Some, None};
ghost use Rattle.std.specs.Option.{option_map, option_and_then};
ghost use Rattle.std.specs.Result.{result_ok};
ghost use Rattle.std.specs.List.{list_all};
ghost use Rattle.std.specs.Fmt.{decimal};
ghost use Rattle.hex.specs.Hex.{decode_of, decode_sized};
ghost use Rattle.dpe_grammar.specs.Values.{bytes_value, times_64, sized, number_in, name_in, value_of, spelt_by, HasSize, is_name_byte};

use dpe_text::parse_number;

/// The most characters of a name.
const MAX_NAME: usize = 32;

/// The most bytes of a value.
pub const MAX_BYTES: usize = 4_000;

/// How many bytes a star and two digits mean.
const REPEATS: usize = 64;

/// A byte string as a word spells it.
#[derive(Clone, Copy)]
pub enum Value<'a> {
    /// An even number of hexadecimal digits of either case.
    Digits(&'a [u8]),
    /// 64 times this byte.
    Repeated(u8),
}

// A byte of two digits, 64 times, where 64 is in the range.
fn repeated_in<'a>(digits: &[u8], least: usize, most: usize) -> Option<Value<'a>>
    ensures value { option_map value_of result ≡ option_and_then (sized least most)
        (option_map times_64 (result_ok (decode_sized digits.now 1))) }
    ensures size { IfSome result (λ v. HasSize least most (value_of v)) }
{
    if REPEATS < least || most < REPEATS {
        return None;
    }
    let mut byte = [0; 1];
    match hex::decode_to_slice(digits, &mut byte) {
        Ok(()) => Some(Value::Repeated(byte[0])),
        Err(_) => None,
    }
}

// The bytes of hexadecimal digits, where their number is in the range.
fn digits_in(text: &[u8], least: usize, most: usize) -> Option<Value<'_>>
    requires { most ≤ MAX_BYTES }
    ensures value { option_map value_of result ≡ option_and_then (sized least most) (result_ok (decode_of text.now)) }
    ensures size { IfSome result (λ v. HasSize least most (value_of v)) }
{
    let len = text.len() / 2;
    if len < least {
        return None;
    }
    if most < len {
        return None;
    }
    let mut room = [0; MAX_BYTES];
    match hex::decode_to_slice(text, &mut room[..len]) {
        Ok(()) => Some(Value::Digits(text)),
        Err(_) => None,
    }
}

/// The byte string of a word, where it has so many bytes.
pub fn bytes_in(text: &[u8], least: usize, most: usize) -> Option<Value<'_>>
    requires { most ≤ MAX_BYTES }
    ensures value { option_map value_of result ≡ option_and_then (sized least most) (bytes_value text.now) }
    ensures size { IfSome result (λ v. HasSize least most (value_of v)) }
{
    if text.is_empty() || text[0] != b'*' {
        return digits_in(text, least, most);
    }
    repeated_in(&text[1..], least, most)
}

/// Puts the bytes of a value at the front of the room, and says how many there are.
pub fn decode(value: &Value<'_>, room: &mut [u8]) -> usize
    requires { length (value_of value.now) ≤ length room.old }
    ensures len { result ≡ length (value_of value.now) }
    ensures bytes { take result room.new ≡ value_of value.now }
{
    match value {
        Value::Digits(digits) => decode_digits(digits, room),
        Value::Repeated(byte) => repeat(*byte, room),
    }
}

// 64 times a byte.
fn repeat(byte: u8, room: &mut [u8]) -> usize
    requires { REPEATS ≤ length room.old }
    ensures len { result ≡ REPEATS }
    ensures bytes { take result room.new ≡ replicate 64 byte }
{
    room[..REPEATS].copy_from_slice(&[byte; REPEATS]);
    REPEATS
}

// The bytes that digits spell, none where they spell none.
fn decode_digits(digits: &[u8], room: &mut [u8]) -> usize
    requires { length (spelt_by digits.now) ≤ length room.old }
    ensures len { result ≡ length (spelt_by digits.now) }
    ensures bytes { take result room.new ≡ spelt_by digits.now }
{
    let len = digits.len() / 2;
    if len > room.len() {
        return 0;
    }
    match hex::decode_to_slice(digits, &mut room[..len]) {
        Ok(()) => len,
        Err(_) => 0,
    }
}

// Whether each byte is a lower case letter or a digit.
fn are_name_bytes(text: &[u8]) -> bool
    ensures { result ≡ list_all is_name_byte text.now }
{
    text.iter()
        .all(|byte| matches!(*byte, b'a'..=b'z' | b'0'..=b'9'))
}

/// A word of 1 to 32 characters out of `a` to `z` and `0` to `9`.
pub fn parse_name(text: &[u8]) -> Option<&[u8]>
    ensures { option_map (λ t. t.now) result ≡ name_in text.now }
{
    if text.is_empty() || text.len() > MAX_NAME {
        return None;
    }
    if are_name_bytes(text) {
        return Some(text);
    }
    None
}

/// The number of a word, where it is up to the limit.
pub fn parse_up_to(text: &[u8], most: u8) -> Option<u8>
    ensures { result ≡ number_in most text.now }
{
    let Ok(digits) = str::from_utf8(text) else {
        return None;
    };
    match parse_number(digits) {
        None => None,
        Some(n) => {
            if n > u64::from(most) {
                return None;
            }
            Some(n as u8)
        }
    }
}
