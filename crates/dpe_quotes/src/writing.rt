//! Writing a quote.
ghost use Rattle.std.specs.Prelude.{◌≡◌, ◌≤◌, ◌<◌, ◌+◌, ◌++◌, All, length, take, drop};
ghost use Rattle.dpe_cbor.specs.Encoding.{encoding, head, items_encoding};
ghost use Rattle.dpe_cbor.specs.Written.{Appends};
ghost use Rattle.dpe_quotes.specs.Quotes.{input_item, input_items, IsInput};
ghost use Rattle.dpe_quotes.specs.Spelled.{Spells};

use crate::parts::{FIELDS, PARTS};
use dpe_cbor::Writer;
use dpe_inputs::Input;

/// The most bytes of a quote: 32 inputs of 266 bytes, a nonce and a tag of 66, and three bytes for the heads of its arrays.
const MAX_QUOTE: usize = 8_647;

// Each of these writes where there is room for it: the head of an array that is one byte long, or at most two, ...
fn put_array(writer: &mut Writer<'_>, count: u64)
    requires few { count < 24 }
    requires room { writer.old.len + 1 ≤ length writer.old.room.now }
    ensures written { Appends writer.old writer.new (head 4 count) }
    ensures len { writer.new.len ≡ writer.old.len + 1 }
{
    writer.array(count).unwrap();
}

fn put_path_head(writer: &mut Writer<'_>, depth: u64)
    requires few { depth ≤ 32 }
    requires room { writer.old.len + 2 ≤ length writer.old.room.now }
    ensures written { Appends writer.old writer.new (head 4 depth) }
    ensures len { writer.new.len ≤ writer.old.len + 2 }
{
    writer.array(depth).unwrap();
}

// ... a byte string of at most 64 bytes, and a mode.
fn put_string(writer: &mut Writer<'_>, content: &[u8])
    requires few { length content.now ≤ 64 }
    requires room { writer.old.len + 66 ≤ length writer.old.room.now }
    ensures written { Appends writer.old writer.new (head 2 (length content.now) ++ content.now) }
    ensures len { writer.new.len ≤ writer.old.len + 66 }
{
    writer.bytes(content).unwrap();
}

fn put_mode(writer: &mut Writer<'_>, mode: u8)
    requires few { mode ≤ 3 }
    requires room { writer.old.len + 1 ≤ length writer.old.room.now }
    ensures written { Appends writer.old writer.new (head 0 mode) }
    ensures len { writer.new.len ≡ writer.old.len + 1 }
{
    writer.uint(u64::from(mode)).unwrap();
}

// Writes an input.
fn put_input(writer: &mut Writer<'_>, input: &Input)
    requires mode { input.now.mode ≤ 3 }
    requires room { writer.old.len + 266 ≤ length writer.old.room.now }
    ensures written { Appends writer.old writer.new (encoding (input_item input.now)) }
    ensures is_input { IsInput input.now }
    ensures len { writer.new.len ≤ writer.old.len + 266 }
{
    put_array(writer, FIELDS);
    put_string(writer, &input.code);
    put_string(writer, &input.config);
    put_string(writer, &input.authority);
    put_mode(writer, input.mode);
    put_string(writer, &input.hidden);
}

// Writes the inputs of a path.
fn put_path(writer: &mut Writer<'_>, path: &[Input])
    requires depth { length path.now ≤ 32 }
    requires modes { All (λ x. x.mode ≤ 3) path.now }
    requires room { writer.old.len + 8514 ≤ length writer.old.room.now }
    ensures written { Appends writer.old writer.new (head 4 (length path.now) ++ items_encoding (input_items path.now)) }
    ensures len { writer.new.len ≤ writer.old.len + 8514 }
    ensures inputs { All IsInput path.now }
{
    put_path_head(writer, path.len() as u64);
    for input in path {
        put_input(writer, input);
    }
}

/// Writes the quote of a path of at most 32 inputs with modes 0 to 3, of a nonce of 8 to 64 bytes, and of the tag that was
/// given for it, and answers its length. What stands behind it in the room stays as it was.
#[tactic(auto, unfolding(crate::specs::Quotes::quote_bytes))]
pub fn write_quote(path: &[Input], nonce: &[u8], tag: &[u8; 64], room: &mut [u8; 8647]) -> usize
    requires depth { length path.now ≤ 32 }
    requires modes { All (λ x. x.mode ≤ 3) path.now }
    requires least { 8 ≤ length nonce.now }
    requires most { length nonce.now ≤ 64 }
    ensures within { result ≤ MAX_QUOTE }
    ensures written { Spells (record { nonce = nonce.now; path = path.now; tag = tag.now }) (take result room.new) }
    ensures behind { drop result room.new ≡ drop result room.old }
{
    let mut writer = Writer::new(room);
    put_array(&mut writer, PARTS);
    put_string(&mut writer, nonce);
    put_path(&mut writer, path);
    put_string(&mut writer, tag);
    writer.len()
}
