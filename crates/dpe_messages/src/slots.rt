//! The values of a flat map, by their keys, filled in one pass.
ghost use Rattle.std.specs.Prelude.{◌≡◌, ◌==◌, ◌&&◌, ◌||◌, ◌<◌, ℕ, Bool, true, Some, None, length, replicate, is_some, count_by};
ghost use Rattle.std.specs.List.{list_any, list_all};
ghost use Rattle.std.specs.Option.{option_map};
ghost use Rattle.dpe_messages.specs.Found.{view};
ghost use Rattle.dpe_messages.specs.Reading.{entries_of, inner_of};
ghost use Rattle.dpe_messages.specs.Arguments.{asks_outside, asks_outside_at, is_argument, is_in_range};
ghost use Rattle.dpe_messages.specs.Arguments.{is_required as requires_it, is_one_of_two as takes_one, has_required, has_one_of_two};
ghost use Rattle.dpe_messages.specs.Slots.{value_in, with_pair, is_right_in, ReadsSlots, ReadsInner};

use crate::arguments::{Argument, Outside, Presence, Range, arguments_of};
use crate::layers::{Found, entry};
use dpe_cbor::Reader;

/// The values of the arguments of a command, by their keys.
#[derive(Clone, Copy)]
pub struct Slots<'a> {
    values: [Option<Found<'a>>; 13],
    /// Each pair that was read is an argument of the command's table, and in its range.
    all_in_table: bool,
}

fn is_in(range: Range, value: Found<'_>) -> bool
    ensures { result ≡ is_in_range range (view value.entry) }
{
    match (range, value) {
        (Range::BytesBetween(least, most), Found::Bytes(b)) => least <= b.len() && b.len() <= most,
        (Range::NumberUpTo(most), Found::Number(n)) => n <= most,
        (Range::Boolean, Found::Truth(_)) => true,
        _ => false,
    }
}

fn is_in_table(table: &[Argument], key: u64, value: Found<'_>) -> bool
    ensures { result ≡ is_argument table.now (key, view value.entry) }
{
    table.iter().any(|argument| argument.key == key && is_in(argument.range, value))
}

fn asks(outside: Outside, value: Option<Found<'_>>) -> bool
    ensures { result ≡ asks_outside outside (option_map view value.entry) }
{
    match (outside, value) {
        (Outside::IfTrue, Some(Found::Truth(b))) => b,
        (Outside::UnlessTrue, None) => true,
        (Outside::UnlessTrue, Some(Found::Truth(b))) => !b,
        _ => false,
    }
}

fn is_required(presence: Presence) -> bool
    ensures { result ≡ requires_it presence }
{
    match presence {
        Presence::Required => true,
        Presence::Optional | Presence::OneOfTwo => false,
    }
}

fn is_one_of_two(presence: Presence) -> bool
    ensures { result ≡ takes_one presence }
{
    match presence {
        Presence::OneOfTwo => true,
        Presence::Required | Presence::Optional => false,
    }
}

fn takes_one_of_two(table: &[Argument]) -> bool
    ensures { result ≡ list_any (λ a. takes_one a.presence) table.now }
{
    table
        .iter()
        .any(|argument| is_one_of_two(argument.presence))
}

impl<'a> Slots<'a> {
    fn empty() -> Slots<'a>
        ensures values { result.values ≡ replicate 13 None }
        ensures tested { result.all_in_table ≡ true }
    {
        Slots {
            values: [None; 13],
            all_in_table: true,
        }
    }

    /// Takes up a pair, and tests it.
    fn put(&mut self, table: &[Argument], key: u64, value: Found<'a>)
        ensures { self.new ≡ with_pair table.now key value.entry self.old }
    {
        self.all_in_table = self.all_in_table && is_in_table(table, key, value);
        if key < 13 {
            self.values[key as usize] = Some(value);
        }
    }

    /// The value of the argument with this key.
    pub fn value(&self, key: u64) -> Option<Found<'a>>
        ensures { option_map view result ≡ value_in self.now key }
    {
        match self.values.get(key as usize) {
            Some(value) => *value,
            None => None,
        }
    }

    /// Whether an argument asks for something outside the profile.
    pub fn asks_outside(&self, table: &[Argument]) -> bool
        ensures { result ≡ asks_outside_at table.now (value_in self.now) }
    {
        table.iter().any(|argument| asks(argument.outside, self.value(argument.key)))
    }

    fn has_required(&self, table: &[Argument]) -> bool
        ensures { result ≡ has_required table.now (value_in self.now) }
    {
        table.iter().all(|argument| !is_required(argument.presence)
            || self.value(argument.key).is_some())
    }

    fn count_of_two(&self, table: &[Argument]) -> usize
        ensures { result ≡ count_by (λ a. takes_one a.presence && is_some (value_in self.now a.key)) table.now }
    {
        table
            .iter()
            .filter(|argument| is_one_of_two(argument.presence)
                && self.value(argument.key).is_some())
            .count()
    }

    fn has_one_of_two(&self, table: &[Argument]) -> bool
        ensures { result ≡ has_one_of_two table.now (value_in self.now) }
    {
        !takes_one_of_two(table) || self.count_of_two(table) == 1
    }

    /// Whether each pair is an argument in its range, and each argument stands there as it has to.
    pub fn is_right(&self, table: &[Argument]) -> bool
        ensures { result ≡ is_right_in table.now self.now }
    {
        self.all_in_table && self.has_required(table) && self.has_one_of_two(table)
    }
}

// Reads so many pairs.
fn pairs<'a>(reader: &mut Reader<'a>, count: u64, table: &[Argument]) -> Option<Slots<'a>>
    ensures { ReadsSlots table.now result reader.new.rest (entries_of count None reader.old.rest) }
{
    let mut slots = Slots::empty();
    let mut last = None;
    for _ in 0..count {
        match entry(reader, last) {
            None => return None,
            Some((key, value)) => {
                slots.put(table, key, value);
                last = Some(key);
            }
        }
    }
    Some(slots)
}

/// The number and the map in an inner layer.
#[tactic(auto, unfolding(crate::specs::Reading::inner_of, crate::specs::Reading::flat_map_of))]
pub fn inner(bytes: &[u8]) -> Option<(u64, Slots<'_>)>
    ensures { ReadsInner result (inner_of bytes.now) }
{
    let mut reader = Reader::new(bytes);
    let Ok(items) = reader.array() else {
        return None;
    };
    if items != 2 {
        return None;
    }
    let Ok(number) = reader.uint() else {
        return None;
    };
    let Ok(count) = reader.map() else {
        return None;
    };
    let Some(slots) = pairs(&mut reader, count, arguments_of(number)) else {
        return None;
    };
    if reader.end().is_err() {
        return None;
    }
    Some((number, slots))
}
