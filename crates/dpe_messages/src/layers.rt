//! The layers of a payload, and the pairs of a flat map, lent from its bytes.
ghost use Rattle.std.specs.Prelude.{◌≡◌, ℕ, List, Option, Some, None};
ghost use Rattle.std.specs.Option.{option_map};
ghost use Rattle.dpe_messages.specs.Reading.{outer_of, value_of, entry_of};
ghost use Rattle.dpe_messages.specs.Found.{view, Answers, value_by};

use dpe_cbor::{Kind, Reader};

/// A value of a flat map.
#[derive(Clone, Copy)]
pub enum Found<'a> {
    Number(u64),
    Bytes(&'a [u8]),
    Text(&'a str),
    Truth(bool),
}

/// The session of a payload, and the bytes in it.
#[tactic(auto, unfolding(crate::specs::Reading::outer_of))]
pub fn outer(payload: &[u8]) -> Option<(u64, &[u8])>
    ensures { option_map (λ e. (e.0, e.1.now)) result ≡ outer_of payload.now }
{
    let mut reader = Reader::new(payload);
    let Ok(count) = reader.array() else {
        return None;
    };
    if count != 2 {
        return None;
    }
    let Ok(session) = reader.uint() else {
        return None;
    };
    let Ok(inner) = reader.bytes() else {
        return None;
    };
    if reader.end().is_err() {
        return None;
    }
    Some((session, inner))
}

fn value_of_kind<'a>(kind: Kind, reader: &mut Reader<'a>) -> Option<Found<'a>>
    ensures { Answers view result reader.new.rest (value_by kind reader.old.rest) }
{
    match kind {
        Kind::Uint => match reader.uint() {
            Ok(n) => Some(Found::Number(n)),
            Err(_) => None,
        },
        Kind::Bytes => match reader.bytes() {
            Ok(b) => Some(Found::Bytes(b)),
            Err(_) => None,
        },
        Kind::Text => match reader.text() {
            Ok(t) => Some(Found::Text(t)),
            Err(_) => None,
        },
        _ => match reader.bool() {
            Ok(b) => Some(Found::Truth(b)),
            Err(_) => None,
        },
    }
}

fn value<'a>(reader: &mut Reader<'a>) -> Option<Found<'a>>
    ensures { Answers view result reader.new.rest (value_of reader.old.rest) }
{
    let kind = reader.kind();
    value_of_kind(kind, reader)
}

#[tactic(auto, unfolding(crate::specs::Reading::entry_of))]
pub fn entry<'a>(reader: &mut Reader<'a>, last: Option<u64>) -> Option<(u64, Found<'a>)>
    ensures { Answers (λ e. (e.0, view e.1)) result reader.new.rest (entry_of last reader.old.rest) }
{
    match reader.key(last) {
        Err(_) => None,
        Ok(key) => match value(reader) {
            None => None,
            Some(found) => Some((key, found)),
        },
    }
}
