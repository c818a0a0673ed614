//! The fields of which the parts of a journal are made, and how far the bytes that were read so far go.
ghost use Rattle.std.specs.Prelude.{◌≡◌, ◌≤◌, ◌<◌, ◌+◌, ◌^◌, ℕ, List, [], ◌∷◌, length, take, drop};
ghost use Rattle.std.specs.Int.{from_be_bytes, w16};
ghost use Rattle.dpe_journal.specs.Fields.{IsField, AreFields, Judged};

use dpe_io::MAX_PACKET;

/// The highest first byte of a packet's length.
const MOST_HIGH: u8 = 0x10;

/// A field of a part.
#[derive(Clone, Copy)]
pub(crate) enum Field {
    /// This byte.
    Exact(u8),
    /// A byte that is at most so much.
    AtMost(u8),
    /// So many bytes.
    Free(usize),
    /// A payload of at most 4,096 bytes behind its length in two bytes.
    Packet,
}

/// How far bytes go of what is to stand there.
#[derive(Clone, Copy)]
pub(crate) enum Front {
    /// They begin with the whole, which has so many bytes.
    Whole(usize),
    /// They begin it, and at least so many bytes are still to come.
    Short(usize),
    /// Nothing that may stand there begins so.
    Wrong,
}

/// The length that a packet's first two bytes tell.
pub(crate) fn told_length(bytes: &[u8]) -> usize
    requires { 2 ≤ length bytes.now }
    ensures told { result ≡ from_be_bytes w16 (take 2 bytes.now) }
    ensures range { result < 2 ^ 16 }
{
    usize::from(u16::from_be_bytes([bytes[0], bytes[1]]))
}

fn judge_packet(bytes: &[u8]) -> Front
    ensures { Judged (IsField Field.Packet) bytes.now result }
{
    if bytes.is_empty() {
        return Front::Short(2);
    }
    if bytes.len() == 1 {
        return judge_high(bytes[0]);
    }
    let len = told_length(bytes);
    if len > MAX_PACKET {
        return Front::Wrong;
    }
    if bytes.len() < 2 + len {
        return Front::Short(2 + len - bytes.len());
    }
    Front::Whole(2 + len)
}

fn judge_high(high: u8) -> Front
    ensures { Judged (IsField Field.Packet) (high ∷ []) result }
{
    if high > MOST_HIGH {
        Front::Wrong
    } else {
        Front::Short(1)
    }
}

fn judge_field(field: Field, bytes: &[u8]) -> Front
    ensures { Judged (IsField field) bytes.now result }
{
    match field {
        Field::Exact(byte) => judge_exact(byte, bytes),
        Field::AtMost(most) => judge_at_most(most, bytes),
        Field::Free(size) => judge_free(size, bytes),
        Field::Packet => judge_packet(bytes),
    }
}

fn judge_exact(byte: u8, bytes: &[u8]) -> Front
    ensures { Judged (IsField (Field.Exact byte)) bytes.now result }
{
    if bytes.is_empty() {
        return Front::Short(1);
    }
    if bytes[0] == byte {
        Front::Whole(1)
    } else {
        Front::Wrong
    }
}

fn judge_at_most(most: u8, bytes: &[u8]) -> Front
    ensures { Judged (IsField (Field.AtMost most)) bytes.now result }
{
    if bytes.is_empty() {
        return Front::Short(1);
    }
    if bytes[0] <= most {
        Front::Whole(1)
    } else {
        Front::Wrong
    }
}

fn judge_free(size: usize, bytes: &[u8]) -> Front
    ensures { Judged (IsField (Field.Free size)) bytes.now result }
{
    if bytes.len() < size {
        return Front::Short(size - bytes.len());
    }
    Front::Whole(size)
}

/// Tells how far the bytes go of these fields, one after another. Some bytes must be such fields.
pub(crate) fn judge(fields: &[Field], bytes: &[u8]) -> Front
    requires { (word : List ℕ) × AreFields fields.now word }
    ensures { Judged (AreFields fields.now) bytes.now result }
{
    if fields.is_empty() {
        return Front::Whole(0);
    }
    let (_, later) = fields.split_at(1);
    let size = match judge_field(fields[0], bytes) {
        Front::Whole(size) => size,
        Front::Short(need) => return Front::Short(need),
        Front::Wrong => return Front::Wrong,
    };
    let (_, rest) = bytes.split_at(size);
    match judge(later, rest) {
        Front::Whole(more) => Front::Whole(size + more),
        Front::Short(need) => Front::Short(need),
        Front::Wrong => Front::Wrong,
    }
}
