//! The parts of a journal, read one by one.
ghost use Rattle.std.specs.Prelude.{◌≡◌, ◌≢◌, ◌↔◌, ◌⊎◌, ◌+◌, ◌^◌, ◌<◌, ◌≤◌, ℕ, length, slice_index, take, List, Option, drop, IsTrue, Ok, IfOk, IfErr, OnErr, MatchResult};
ghost use Rattle.std.specs.Io.KnownBytes.{Consumes, Keeps, IsAtEnd};
ghost use Rattle.dpe_io.specs.Causes.{HasCause};
ghost use Rattle.dpe_journal.specs.Fields.{Judged, Words, lengthened};
ghost use Rattle.dpe_journal.specs.Journal.{end_bytes, record_bytes};
ghost use Rattle.dpe_journal.specs.Places.{stage_of, IsPlace};
ghost use Rattle.dpe_journal.specs.Reading.{ReadsPart, EndsJournal, stage_behind, HasReadCause, stage_after, part_of, StopsShort, HasStopCause, ReadsNothing, fault_of};
ghost use Rattle.dpe_journal.specs.Stages.{at_front, behind, over, part_bytes, MayStand, IsPart, IsHeader, IsRecord};
ghost use Rattle.dpe_journal.specs.Stored.{entry_of};

use crate::decode::{first_serial, store};
use crate::entry::Entry;
use crate::fields::{Field, Front, judge};
use crate::write::{END, END_SIZE, HEADER_SIZE, MAX_RECORD, MAX_RECORDS, RECORD, RECORD_SIZE};
use dpe_io::{Failed, Source};
use std::marker::Model;
use thiserror::Error;

/// The bytes of a record without its random bytes and payloads.
const FIXED_SIZE: usize = 18;

/// What was read of a journal.
#[derive(Clone, Copy, Debug, PartialEq, Eq)]
pub enum Next {
    /// The header, with the first serial.
    Header(u64),
    /// A record.
    Entry,
    /// The end, with the number of records.
    End(u64),
}

/// Why no part of a journal was read. A place is the number of bytes before the part.
#[derive(Clone, Copy, Debug, PartialEq, Eq, Error)]
pub enum RecordFault {
    /// No part that may stand there begins so; or a byte stands behind the end.
    #[error("malformed at {at}")]
    Malformed { at: u64 },
    /// The source ended before or within a part.
    #[error("truncated at {at}")]
    Truncated { at: u64 },
    /// The source failed.
    #[error("read fault")]
    ReadFault,
}

/// What may stand next.
#[derive(Clone, Copy)]
enum Expected {
    Header,
    /// A record or the end.
    Part,
    Nothing,
}

/// Why no part was read.
#[derive(Clone, Copy)]
enum Stop {
    Wrong,
    Cut,
    Failed,
}

// "DPEJ", the version and the first serial.
fn header_fields() -> [Field; 6]
    ensures { Words IsHeader result }
{
    [
        Field::Exact(b'D'),
        Field::Exact(b'P'),
        Field::Exact(b'E'),
        Field::Exact(b'J'),
        Field::Exact(1),
        Field::Free(8),
    ]
}

// The three numbers, the locality, the random bytes and the two payloads.
fn record_fields() -> [Field; 6]
    ensures { Words IsRecord result }
{
    [
        Field::Exact(RECORD),
        Field::Free(12),
        Field::AtMost(7),
        Field::Free(32),
        Field::Packet,
        Field::Packet,
    ]
}

// The end with this number of records.
fn end_fields(records: u32) -> [Field; 9]
    ensures { Words (λ bytes. bytes ≡ end_bytes records) result }
{
    let count = u64::from(records).to_be_bytes();
    [
        Field::Exact(END),
        Field::Exact(count[0]),
        Field::Exact(count[1]),
        Field::Exact(count[2]),
        Field::Exact(count[3]),
        Field::Exact(count[4]),
        Field::Exact(count[5]),
        Field::Exact(count[6]),
        Field::Exact(count[7]),
    ]
}

// A part has so many bytes at least, so as many are still to come.
fn lengthen(front: Front, have: usize, size: usize) -> Front
    ensures { result ≡ lengthened front have size }
{
    match front {
        Front::Short(need) => Front::Short(need.max(size.saturating_sub(have))),
        Front::Whole(size) => Front::Whole(size),
        Front::Wrong => Front::Wrong,
    }
}

// How far the bytes go of a header.
fn judge_header(bytes: &[u8]) -> Front
    ensures { Judged (IsPart at_front) bytes.now result }
{
    lengthen(judge(&header_fields(), bytes), bytes.len(), HEADER_SIZE)
}

// How far the bytes go of a record, whose first byte they have.
fn judge_record(records: u32, bytes: &[u8]) -> Front
    requires some { 0 < length bytes.now }
    requires tag { slice_index bytes.now 0 ≡ RECORD }
    requires few { records < MAX_RECORDS }
    ensures { Judged (IsPart (behind records)) bytes.now result }
{
    lengthen(judge(&record_fields(), bytes), bytes.len(), RECORD_SIZE)
}

// How far the bytes go of the end.
fn judge_end(records: u32, bytes: &[u8]) -> Front
    requires some { 0 < length bytes.now }
    requires no_record { (slice_index bytes.now 0 ≢ RECORD) ⊎ (MAX_RECORDS ≤ records) }
    ensures { Judged (IsPart (behind records)) bytes.now result }
{
    lengthen(judge(&end_fields(records), bytes), bytes.len(), END_SIZE)
}

fn judge_record_or_end(records: u32, bytes: &[u8]) -> Front
    ensures { Judged (IsPart (behind records)) bytes.now result }
{
    if bytes.is_empty() {
        return Front::Short(END_SIZE);
    }
    if bytes[0] != RECORD {
        return judge_end(records, bytes);
    }
    if records < MAX_RECORDS {
        return judge_record(records, bytes);
    }
    judge_end(records, bytes)
}

// How far the bytes go of a part that may stand there.
fn judge_part(expected: Expected, records: u32, bytes: &[u8]) -> Front
    ensures { Judged (IsPart (stage_of expected records)) bytes.now result }
{
    match expected {
        Expected::Header => judge_header(bytes),
        Expected::Part => judge_record_or_end(records, bytes),
        Expected::Nothing => Front::Wrong,
    }
}

// The same of the front of the room.
fn judge_room(expected: Expected, records: u32, room: &[u8; MAX_RECORD], have: usize) -> Front
    requires { have ≤ MAX_RECORD }
    ensures { Judged (IsPart (stage_of expected records)) (take have room.now) result }
{
    judge_part(expected, records, &room[..have])
}

// Reads at most so many bytes behind the front of the room, and says how many: none only at the end.
fn read_behind<S: Source>(
    source: &mut S,
    room: &mut [u8; MAX_RECORD],
    have: usize,
    need: usize,
) -> Result<usize, Failed>
    requires some { 0 < need }
    requires within { have + need ≤ MAX_RECORD }
    ensures bound { IfOk result (λ count. count ≤ need) }
    ensures end_within { IfOk result (λ count. have + count ≤ MAX_RECORD) }
    ensures bytes { IfOk result (λ count. Consumes (S.left source.old) (S.left source.new) (take count (drop have room.new))) }
    ensures front { take have room.new ≡ take have room.old }
    ensures end { IfOk result (λ count. count ≡ 0 → IsAtEnd (S.left source.new)) }
    ensures kept { OnErr result (Keeps (S.left source.old) (S.left source.new)) }
    ensures cause { HasCause (S.faults source.old) (S.faults source.new) result }
    ensures beside { S.beside source.new ≡ S.beside source.old }
{
    source.read(&mut room[have..have + need])
}

// Reads a part that may stand there into the front of the room, and says how long it is.
fn read_part<S: Source>(
    source: &mut S,
    room: &mut [u8; MAX_RECORD],
    expected: Expected,
    records: u32,
) -> Result<usize, Stop>
    ensures part { IfOk result (λ size. (size ≤ MAX_RECORD) × IsPart (stage_of expected records) (take size room.new)) }
    ensures taken { IfOk result (λ size. Consumes (S.left source.old) (S.left source.new) (take size room.new)) }
    ensures stop { IfErr result (StopsShort (S.left source.old) (S.left source.new) (stage_of expected records)) }
    ensures cause { HasStopCause (S.faults source.old) (S.faults source.new) result }
    ensures beside { S.beside source.new ≡ S.beside source.old }
{
    let mut have = 0;
    'reads: loop {
        let need = match judge_room(expected, records, room, have) {
            Front::Whole(_) => return Ok(have),
            Front::Wrong => return Err(Stop::Wrong),
            Front::Short(need) => need,
        };
        let count = match read_behind(source, room, have, need) {
            Ok(count) => count,
            Err(Failed) => return Err(Stop::Failed),
        };
        if count == 0 {
            return Err(Stop::Cut);
        }
        have += count;
    }
}

// What a stop is as a fault of the part at this place.
fn fault_at(stop: Stop, at: u64) -> RecordFault
    ensures { result ≡ fault_of stop at }
{
    match stop {
        Stop::Wrong => RecordFault::Malformed { at },
        Stop::Cut => RecordFault::Truncated { at },
        Stop::Failed => RecordFault::ReadFault,
    }
}

// Tells, behind the end, whether a byte follows.
fn read_behind_end<S: Source>(source: &mut S) -> Result<bool, Failed>
    ensures read { ReadsNothing (S.left source.old) (S.left source.new) result }
    ensures cause { HasCause (S.faults source.old) (S.faults source.new) result }
    ensures beside { S.beside source.new ≡ S.beside source.old }
{
    let mut byte = [0; 1];
    match source.read(&mut byte) {
        Ok(count) => Ok(count > 0),
        Err(Failed) => Err(Failed),
    }
}

// What is answered behind the right end at this place.
fn end_journal<S: Source>(source: &mut S, records: u32, at: u64) -> Result<Next, RecordFault>
    requires { at + END_SIZE < 2 ^ 64 }
    ensures ends { EndsJournal (S.left source.old) (S.left source.new) records at result }
    ensures cause { HasReadCause (S.faults source.old) (S.faults source.new) result }
    ensures beside { S.beside source.new ≡ S.beside source.old }
{
    match read_behind_end(source) {
        Ok(false) => Ok(Next::End(u64::from(records))),
        Ok(true) => Err(RecordFault::Malformed {
            at: at + END_SIZE as u64,
        }),
        Err(Failed) => Err(RecordFault::ReadFault),
    }
}

// Where a reader stands: how many bytes stand before the next part, what may stand there, and how many records were read.
#[derive(Clone, Copy)]
struct Place {
    at: u64,
    expected: Expected,
    records: u32,
}

// What is answered where this record or end was taken: a record goes into the entry, and nothing may follow the end.
fn answer_behind<S: Source>(
    source: &mut S,
    part: &[u8],
    records: u32,
    at: u64,
    entry: &mut Entry,
) -> Result<Next, RecordFault>
    requires part { IsPart (behind records) part.now }
    requires some { 0 < length part.now }
    requires at { at + END_SIZE < 2 ^ 64 }
    ensures reads { (old : Option (List ℕ)) → Consumes old (S.left source.old) part.now
        → ReadsPart old (S.left source.new) (behind records) at (entry_of entry.new) result }
    ensures entry { result ≢ Ok Next.Entry → entry.new ≡ entry.old }
    ensures cause { HasReadCause (S.faults source.old) (S.faults source.new) result }
    ensures beside { S.beside source.new ≡ S.beside source.old }
{
    if part[0] == RECORD {
        store(part, entry);
        return Ok(Next::Entry);
    }
    end_journal(source, records, at)
}

// The same of any part.
fn answer_part<S: Source>(
    source: &mut S,
    part: &[u8],
    place: Place,
    entry: &mut Entry,
) -> Result<Next, RecordFault>
    requires part { IsPart (stage_of place.expected place.records) part.now }
    requires at { place.at + END_SIZE < 2 ^ 64 }
    ensures reads { (old : Option (List ℕ)) → Consumes old (S.left source.old) part.now
        → ReadsPart old (S.left source.new) (stage_of place.expected place.records) place.at (entry_of entry.new) result }
    ensures entry { result ≢ Ok Next.Entry → entry.new ≡ entry.old }
    ensures cause { HasReadCause (S.faults source.old) (S.faults source.new) result }
    ensures beside { S.beside source.new ≡ S.beside source.old }
{
    match place.expected {
        Expected::Header => Ok(Next::Header(first_serial(part))),
        Expected::Part => answer_behind(source, part, place.records, place.at, entry),
        Expected::Nothing => unreachable!(),
    }
}

// Reads one part at this place, a record into the entry.
fn read_next<S: Source>(
    source: &mut S,
    room: &mut [u8; MAX_RECORD],
    place: Place,
    entry: &mut Entry,
) -> Result<Next, RecordFault>
    requires { place.at + END_SIZE < 2 ^ 64 }
    ensures reads { ReadsPart (S.left source.old) (S.left source.new) (stage_of place.expected place.records) place.at
        (entry_of entry.new) result }
    ensures entry { result ≢ Ok Next.Entry → entry.new ≡ entry.old }
    ensures cause { HasReadCause (S.faults source.old) (S.faults source.new) result }
    ensures beside { S.beside source.new ≡ S.beside source.old }
{
    match read_part(source, room, place.expected, place.records) {
        Ok(size) => answer_part(source, &room[..size], place, entry),
        Err(stop) => Err(fault_at(stop, place.at)),
    }
}

// The bytes of an entry's record.
fn record_size(entry: &Entry) -> u64
    ensures size { result ≡ length (record_bytes (entry_of entry.now)) }
    ensures most { result ≤ MAX_RECORD }
{
    let payloads = entry.call.payload().len() + entry.reply.bytes().len();
    (FIXED_SIZE + entry.call.random().len() + payloads) as u64
}

// Where a reader stands after a part was read.
fn place_behind(place: Place, next: Next, entry: &Entry) -> Place
    requires right { MayStand (stage_of place.expected place.records) (part_of next (entry_of entry.now)) }
    requires place { IsPlace place }
    ensures stage { stage_of result.expected result.records ≡ stage_behind (stage_of place.expected place.records) next }
    ensures at { result.at ≡ place.at + length (part_bytes (part_of next (entry_of entry.now))) }
    ensures place { IsPlace result }
{
    match next {
        Next::Header(_first) => Place {
            at: place.at + HEADER_SIZE as u64,
            expected: Expected::Part,
            records: 0,
        },
        Next::Entry => Place {
            at: place.at + record_size(entry),
            expected: Expected::Part,
            records: place.records + 1,
        },
        Next::End(_count) => Place {
            at: place.at + END_SIZE as u64,
            expected: Expected::Nothing,
            records: place.records,
        },
    }
}

/// Reads a journal from a source: the header, the records and the end. It has memory for one record, and takes no more.
#[derive(Drop)]
pub struct Records<S: Source> {
    source: S,
    room: [u8; MAX_RECORD],
    place: Place,
}

impl<S: Source> Model for Records<S> {
    ghost use Rattle.dpe_journal.specs.Places.{Reading, IsPlace, stage_of};

    ghost Value = { Reading S };

    ghost view = { λ r. record { source = r.source; at = r.place.at; stage = stage_of r.place.expected r.place.records } };

    ghost invariant = { λ r. IsPlace r.place };
}

impl<S: Source> Records<S> {
    /// A reader before the header.
    pub fn new(source: S) -> Records<S>
        ensures { result ≡ record { source = source; at = 0; stage = at_front } }
    {
        Records {
            source,
            room: [0; MAX_RECORD],
            place: Place {
                at: 0,
                expected: Expected::Header,
                records: 0,
            },
        }
    }

    /// Whether the end or a fault was answered.
    pub fn ended(&self) -> bool
        ensures { IsTrue result ↔ (self.now.stage ≡ over) }
    {
        matches!(self.place.expected, Expected::Nothing)
    }

    /// Gives the source back as the reading left it.
    pub fn release(self) -> S
        ensures { result ≡ self.source }
    {
        let Records {
            source,
            room: _,
            place: _,
        } = self;
        source
    }

    /// Reads one part: the header, then each record into the entry, then the end, behind which the source must be at its
    /// end. After the end or a fault it has ended, and the entry is changed by a record alone.
    ///
    /// A read fault comes only where the source's count of faults rose.
    pub fn next(&mut self, entry: &mut Entry) -> Result<Next, RecordFault>
        requires { self.old.stage ≢ over }
        ensures reads { ReadsPart (S.left self.old.source) (S.left self.new.source) self.old.stage self.old.at
            (entry_of entry.new) result }
        ensures stage { self.new.stage ≡ stage_after self.old.stage result }
        ensures at { IfOk result (λ next. self.new.at ≡ self.old.at + length (part_bytes (part_of next (entry_of entry.new)))) }
        ensures entry { result ≢ Ok Next.Entry → entry.new ≡ entry.old }
        ensures cause { HasReadCause (S.faults self.old.source) (S.faults self.new.source) result }
        ensures beside { S.beside self.new.source ≡ S.beside self.old.source }
    {
        match read_next(&mut self.source, &mut self.room, self.place, entry) {
            Ok(next) => {
                self.place = place_behind(self.place, next, entry);
                Ok(next)
            }
            Err(fault) => {
                self.place.expected = Expected::Nothing;
                Err(fault)
            }
        }
    }
}
