//! Messages: session 0 around a number and a flat map, which a table of rows gives.
ghost use Rattle.std.specs.Prelude.{◌≡◌, ◌+◌, ◌<◌, ◌≤◌, ◌^◌, ◌++◌, ℕ, length, take, drop};
ghost use Rattle.dpe_cbor.specs.Item.{uint, bytes as byte_string};
ghost use Rattle.dpe_cbor.specs.Encoding.{head, encoding};
ghost use Rattle.dpe_cbor.specs.Written.{Appends, Fits};
ghost use Rattle.dpe_messages.specs.FlatMap.{item_of};
ghost use Rattle.dpe_messages.specs.Found.{view};
ghost use Rattle.dpe_messages.specs.Message.{message, inner, present, rows_of, row_encoding, rows_encoding};

use crate::layers::Found;
use dpe_cbor::Writer;

/// A row of a table of arguments: a key, and its value where the pair is there.
pub type Row<'a> = (u64, Option<Found<'a>>);

fn head_len(argument: u64) -> usize
    ensures len { (major : ℕ) → result ≡ length (head major argument) }
    ensures within { result ≤ 9 }
{
    if argument < 24 {
        return 1;
    }
    if argument < 0x100 {
        return 2;
    }
    if argument < 0x1_0000 {
        return 3;
    }
    if argument < 0x1_0000_0000 {
        return 5;
    }
    9
}

fn value_len(value: &Found<'_>) -> usize
    requires { length (encoding (item_of (view value.now))) < 2 ^ 63 }
    ensures { result ≡ length (encoding (item_of (view value.now))) }
{
    match value {
        Found::Number(number) => head_len(*number),
        Found::Bytes(bytes) => head_len(bytes.len() as u64) + bytes.len(),
        Found::Text(text) => head_len(text.len() as u64) + text.len(),
        Found::Truth(_) => 1,
    }
}

fn row_len(row: &Row<'_>) -> usize
    requires { length (row_encoding row.now) < 2 ^ 63 }
    ensures { result ≡ length (row_encoding row.now) }
{
    match &row.1 {
        None => 0,
        Some(value) => head_len(row.0) + value_len(value),
    }
}

fn rows_len(rows: &[Row<'_>]) -> usize
    requires { length (rows_encoding rows.now) < 2 ^ 63 }
    ensures { result ≡ length (rows_encoding rows.now) }
{
    let mut len = 0;
    for row in rows {
        len += row_len(row);
    }
    len
}

fn count(rows: &[Row<'_>]) -> u64
    ensures { result ≡ length (present (rows_of rows.now)) }
{
    let mut count = 0;
    for row in rows {
        if row.1.is_some() {
            count += 1;
        }
    }
    count
}

// Each of these writes where there is room for it.
fn put_uint(writer: &mut Writer<'_>, number: u64)
    requires { Fits writer.old (head 0 number) }
    ensures { Appends writer.old writer.new (head 0 number) }
{
    writer.uint(number).unwrap();
}

fn put_array(writer: &mut Writer<'_>, count: u64)
    requires { Fits writer.old (head 4 count) }
    ensures { Appends writer.old writer.new (head 4 count) }
{
    writer.array(count).unwrap();
}

fn put_map(writer: &mut Writer<'_>, count: u64)
    requires { Fits writer.old (head 5 count) }
    ensures { Appends writer.old writer.new (head 5 count) }
{
    writer.map(count).unwrap();
}

fn put_bytes_head(writer: &mut Writer<'_>, len: u64)
    requires { Fits writer.old (head 2 len) }
    ensures { Appends writer.old writer.new (head 2 len) }
{
    writer.bytes_head(len).unwrap();
}

fn put_value(writer: &mut Writer<'_>, value: &Found<'_>)
    requires { Fits writer.old (encoding (item_of (view value.now))) }
    ensures { Appends writer.old writer.new (encoding (item_of (view value.now))) }
{
    match value {
        Found::Number(number) => writer.uint(*number).unwrap(),
        Found::Bytes(bytes) => writer.bytes(bytes).unwrap(),
        Found::Text(text) => writer.text(text).unwrap(),
        Found::Truth(truth) => writer.bool(*truth).unwrap(),
    }
}

fn put_row(writer: &mut Writer<'_>, row: &Row<'_>)
    requires { Fits writer.old (row_encoding row.now) }
    ensures { Appends writer.old writer.new (row_encoding row.now) }
{
    match &row.1 {
        None => (),
        Some(value) => {
            put_uint(writer, row.0);
            put_value(writer, value);
        }
    }
}

fn put_rows(writer: &mut Writer<'_>, rows: &[Row<'_>])
    requires { Fits writer.old (rows_encoding rows.now) }
    ensures { Appends writer.old writer.new (rows_encoding rows.now) }
{
    for row in rows {
        put_row(writer, row);
    }
}

// The array of the number and the map.
fn put_inner(writer: &mut Writer<'_>, number: u64, rows: &[Row<'_>])
    requires { Fits writer.old (inner number (present (rows_of rows.now))) }
    ensures { Appends writer.old writer.new (inner number (present (rows_of rows.now))) }
{
    put_array(writer, 2);
    put_uint(writer, number);
    put_map(writer, count(rows));
    put_rows(writer, rows);
}

fn inner_len(number: u64, rows: &[Row<'_>]) -> usize
    requires { length (inner number (present (rows_of rows.now))) < 2 ^ 63 }
    ensures { result ≡ length (inner number (present (rows_of rows.now))) }
{
    1 + head_len(number) + head_len(count(rows)) + rows_len(rows)
}

/// Writes the message of session 0 around a number and a map, and answers its length.
pub fn write_message(number: u64, rows: &[Row<'_>], room: &mut [u8; 4096]) -> usize
    requires { length (message number (present (rows_of rows.now))) ≤ 4096 }
    ensures within { result ≤ 4096 }
    ensures written { take result room.new ≡ message number (present (rows_of rows.now)) }
    ensures behind { drop result room.new ≡ drop result room.old }
{
    let len = inner_len(number, rows);
    let mut writer = Writer::new(room);
    put_array(&mut writer, 2);
    put_uint(&mut writer, 0);
    put_bytes_head(&mut writer, len as u64);
    put_inner(&mut writer, number, rows);
    writer.len()
}
