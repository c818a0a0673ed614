//! A record's bytes, stored as an entry.
ghost use Rattle.std.specs.Prelude.{◌≡◌, ◌<◌, ◌≤◌, ◌+◌, ◌^◌, ◌++◌, ℕ, List, length, take, drop};
ghost use Rattle.std.specs.Int.{from_be_bytes, w32, w64};
ghost use Rattle.dpe_model.specs.History as history;
ghost use Rattle.dpe_journal.specs.Journal.{packet, header_bytes, record_bytes};
ghost use Rattle.dpe_journal.specs.Stages.{IsHeader, IsRecord};
ghost use Rattle.dpe_journal.specs.Stored.{entry_of};

use crate::entry::Entry;
use crate::fields::told_length;
use dpe_io::MAX_PACKET;

/// The bytes of a record before its payloads.
const HEAD_SIZE: usize = 46;

// The number of four bytes at this place, big-endian.
fn number(bytes: &[u8], at: usize) -> u32
    requires { at + 4 ≤ length bytes.now }
    ensures { result ≡ from_be_bytes w32 (take 4 (drop at bytes.now)) }
{
    let (_, rest) = bytes.split_at(at);
    u32::from_be_bytes([rest[0], rest[1], rest[2], rest[3]])
}

// The payload of the packet at the front, and what follows it.
fn split_packet(bytes: &[u8]) -> (&[u8], &[u8])
    requires { (payload rest : List ℕ) × (length payload ≤ MAX_PACKET) × (bytes.now ≡ packet payload ++ rest) }
    ensures { (payload rest : List ℕ) → length payload ≤ MAX_PACKET → bytes.now ≡ packet payload ++ rest
        → (result.0.now ≡ payload) × (result.1.now ≡ rest) }
{
    let len = told_length(bytes);
    let (_, behind) = bytes.split_at(2);
    behind.split_at(len)
}

// The 32 bytes behind the locality.
fn random(head: &[u8]) -> &[u8]
    requires { length head.now ≡ HEAD_SIZE }
    ensures { result.now ≡ drop 14 head.now }
{
    let (_, random) = head.split_at(14);
    random
}

/// Stores the entry whose record these bytes are.
pub(crate) fn store(bytes: &[u8], entry: &mut Entry)
    requires { IsRecord bytes.now }
    ensures { (e : history.Entry) → history.IsEntry e → bytes.now ≡ record_bytes e → entry_of entry.new ≡ e }
{
    let (head, payloads) = bytes.split_at(HEAD_SIZE);
    let (payload, rest) = split_packet(payloads);
    let (reply, _) = split_packet(rest);
    entry.caller = number(head, 1);
    entry.call.store(
        number(head, 5),
        number(head, 9),
        head[13],
        random(head),
        payload,
    );
    entry.reply.set(reply);
}

/// The first serial in a header.
pub(crate) fn first_serial(bytes: &[u8]) -> u64
    requires { IsHeader bytes.now }
    ensures header { bytes.now ≡ header_bytes result }
    ensures range { result < 2 ^ 64 }
{
    let (_, serial) = bytes.split_at(5);
    u64::from_be_bytes([
        serial[0], serial[1], serial[2], serial[3], serial[4], serial[5], serial[6], serial[7],
    ])
}
