//! The parts of a quote, read one by one. A part that isn't whole and as asked is told by the place where it begins.
ghost use Rattle.std.specs.Prelude.{◌≡◌, ◌≢◌, []};
ghost use Rattle.dpe_quotes.specs.Claimed.{claimed};
ghost use Rattle.dpe_quotes.specs.Reading.{array_in, between, input_in, number_in, string_in, told, Within};

use dpe_cbor::{NotDeterministic, Reader};

/// The bytes of an input's byte strings, and of a tag.
pub(crate) const DIGEST_SIZE: u64 = 64;

/// The last mode.
const MAX_MODE: u64 = 3;

/// The items of a quote's array.
pub(crate) const PARTS: u64 = 3;

/// The items of an input's array.
pub(crate) const FIELDS: u64 = 5;

/// One input of the claimed path, as it stands in the quote.
#[derive(Clone, Copy)]
pub(crate) struct ClaimedInput<'a> {
    pub(crate) code: &'a [u8],
    pub(crate) config: &'a [u8],
    pub(crate) authority: &'a [u8],
    pub(crate) mode: u8,
    pub(crate) hidden: &'a [u8],
}

// The fault of a part that begins where the reader stands. A byte is left there.
fn fault_here(reader: &Reader<'_>) -> NotDeterministic
    ensures { reader.now.rest ≢ [] → result.at ≡ reader.now.at }
{
    match reader.end() {
        Ok(()) => NotDeterministic { at: 0 },
        Err(fault) => fault,
    }
}

// Whether a number is one that is asked for.
fn is_between(number: u64, least: u64, most: u64) -> bool
    ensures { result ≡ between least most number }
{
    least <= number && number <= most
}

/// Reads the head of an array of `least` to `most` items, and answers how many they are.
pub(crate) fn read_array(
    reader: &mut Reader<'_>,
    least: u64,
    most: u64,
) -> Result<u64, NotDeterministic>
    ensures read { told (λ n. n) result reader.new ≡ array_in least most reader.old }
    ensures place { Within reader.old result reader.new }
{
    let here = fault_here(reader);
    let count = reader.array()?;
    if !is_between(count, least, most) {
        return Err(here);
    }
    Ok(count)
}

/// Reads a byte string of `least` to `most` bytes.
pub(crate) fn read_string<'a>(
    reader: &mut Reader<'a>,
    least: u64,
    most: u64,
) -> Result<&'a [u8], NotDeterministic>
    ensures read { told (λ b. b.now) result reader.new ≡ string_in least most reader.old }
    ensures place { Within reader.old result reader.new }
{
    let here = fault_here(reader);
    let bytes = reader.bytes()?;
    if !is_between(bytes.len() as u64, least, most) {
        return Err(here);
    }
    Ok(bytes)
}

// Reads a mode.
fn read_mode(reader: &mut Reader<'_>) -> Result<u8, NotDeterministic>
    ensures read { told (λ n. n) result reader.new ≡ number_in 0 3 reader.old }
    ensures place { Within reader.old result reader.new }
{
    let here = fault_here(reader);
    let mode = reader.uint()?;
    if !is_between(mode, 0, MAX_MODE) {
        return Err(here);
    }
    Ok(mode as u8)
}

// Reads a byte string of an input.
fn read_digest<'a>(reader: &mut Reader<'a>) -> Result<&'a [u8], NotDeterministic>
    ensures read { told (λ b. b.now) result reader.new ≡ string_in 64 64 reader.old }
    ensures place { Within reader.old result reader.new }
{
    read_string(reader, DIGEST_SIZE, DIGEST_SIZE)
}

/// Reads an input.
pub(crate) fn read_input<'a>(reader: &mut Reader<'a>) -> Result<ClaimedInput<'a>, NotDeterministic>
    ensures read { told claimed result reader.new ≡ input_in reader.old }
    ensures place { Within reader.old result reader.new }
{
    read_array(reader, FIELDS, FIELDS)?;
    let code = read_digest(reader)?;
    let config = read_digest(reader)?;
    let authority = read_digest(reader)?;
    let mode = read_mode(reader)?;
    let hidden = read_digest(reader)?;
    Ok(ClaimedInput {
        code,
        config,
        authority,
        mode,
        hidden,
    })
}
