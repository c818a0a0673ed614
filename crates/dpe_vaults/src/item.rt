//! The program's input and output: calls and replies as bytes.
ghost use Rattle.std.specs.Prelude.{◌≡◌, ◌≢◌, ℕ, ◌+◌, ◌≤◌, ◌<◌, ◌↔◌, length, take, drop, IfOk, IfSome, IfNone, IsTrue, OnErr};
ghost use Rattle.std.specs.Io.KnownBytes.{Consumes, IsAtEnd};
ghost use Rattle.dpe_io.specs.Causes.{HasCause};
ghost use Rattle.dpe_link.specs.Reading.{TakesPart};
ghost use Rattle.dpe_vaults.specs.Calls.{least_name, most_name};
ghost use Rattle.dpe_vaults.specs.Items.{op_number, reply_bytes, Judged, ReadsItem, HasFault};

use crate::call::{Op, VaultCall};
use crate::reply::VaultReply;
use dpe_io::{Failed, MAX_PACKET, Source};
use dpe_link::fill;

/// The most bytes of an item.
pub(crate) const MAX_ITEM: usize = 2_170;

/// The bytes of a reply before those that were asked for: the code and their length.
const REPLY_HEAD_SIZE: usize = 3;

/// The most bytes of a written reply.
pub(crate) const MAX_REPLY: usize = REPLY_HEAD_SIZE + MAX_PACKET;

/// The bytes before a name: the locality, the operation and the name's length.
const HEAD_SIZE: usize = 3;

/// The bytes of a box's length.
const LENGTH_SIZE: usize = 2;

/// What bytes are as the front of an item.
#[derive(Clone, Copy)]
pub(crate) enum Front {
    /// They begin with an item.
    Whole,
    /// At least so many bytes more are needed.
    Short(usize),
    /// They begin no item.
    Wrong,
}

/// What was read in an item's place.
#[derive(Clone, Copy)]
pub(crate) enum Taken {
    /// A whole item, and just its bytes were taken.
    Whole,
    /// Nothing: the source is at its end.
    End,
    /// Bytes that begin no item.
    NoItem,
    /// The source failed, and less than an item was taken.
    Fault,
}

// The operation of a number.
fn op_of(number: u8) -> Option<Op>
    ensures found { IfSome result (λ op. number ≡ op_number op) }
    ensures none { IfNone result ((op : Op) → number ≢ op_number op) }
{
    match number {
        0 => Some(Op::Put),
        1 => Some(Op::Get),
        2 => Some(Op::Remove),
        3 => Some(Op::Names),
        _ => None,
    }
}

// Whether there is such a locality, and a name may have this size.
fn is_head(locality: u8, op: Op, size: usize) -> bool
    ensures { IsTrue result ↔ ((locality ≤ 7) × (least_name op ≤ size) × (size ≤ most_name op)) }
{
    locality <= 7 && op.least_name() <= size && size <= op.most_name()
}

// What bytes are as the front of an item, which is stored where they begin with a whole one.
fn judge(bytes: &[u8], call: &mut VaultCall) -> Front
    ensures { Judged bytes.now call.new result }
{
    if bytes.len() < HEAD_SIZE {
        return Front::Short(HEAD_SIZE - bytes.len());
    }
    let (head, behind) = bytes.split_at(HEAD_SIZE);
    let Some(op) = op_of(head[1]) else {
        return Front::Wrong;
    };
    let size = usize::from(head[2]);
    if !is_head(head[0], op, size) {
        return Front::Wrong;
    }
    if behind.len() < size + LENGTH_SIZE {
        return Front::Short(size + LENGTH_SIZE - behind.len());
    }
    let (name, behind) = behind.split_at(size);
    let (told, behind) = behind.split_at(LENGTH_SIZE);
    let length = usize::from(u16::from_be_bytes([told[0], told[1]]));
    if length > op.most_sealed() {
        return Front::Wrong;
    }
    if behind.len() < length {
        return Front::Short(length - behind.len());
    }
    call.store(head[0], op, name, &behind[..length]);
    Front::Whole
}

// Reads so many bytes behind those that the room has, and says how many it got.
fn fill_behind<S: Source>(
    source: &mut S,
    room: &mut [u8; MAX_ITEM],
    have: usize,
    need: usize,
) -> Result<usize, Failed>
    requires { have + need ≤ MAX_ITEM }
    ensures bound { IfOk result (λ count. count ≤ need) }
    ensures bytes { IfOk result (λ count. Consumes (S.left source.old) (S.left source.new) (take count (drop have room.new))) }
    ensures front { take have room.new ≡ take have room.old }
    ensures end { IfOk result (λ count. count < need → IsAtEnd (S.left source.new)) }
    ensures part { OnErr result (TakesPart (S.left source.old) (S.left source.new) need) }
    ensures cause { HasCause (S.faults source.old) (S.faults source.new) result }
{
    fill(source, &mut room[have..have + need])
}

/// Reads one item, which may be any call after another answer than a whole one. It takes no memory.
pub(crate) fn read_item<S: Source>(
    source: &mut S,
    room: &mut [u8; MAX_ITEM],
    call: &mut VaultCall,
) -> Taken
    ensures item { ReadsItem (S.left source.old) (S.left source.new) call.new result }
    ensures cause { HasFault (S.faults source.old) (S.faults source.new) result }
{
    let mut have = 0;
    'reads: loop {
        let need = match judge(&room[..have], call) {
            Front::Whole => return Taken::Whole,
            Front::Wrong => return Taken::NoItem,
            Front::Short(need) => need,
        };
        let count = match fill_behind(source, room, have, need) {
            Ok(count) => count,
            Err(Failed) => return Taken::Fault,
        };
        if have + count == 0 {
            return Taken::End;
        }
        if count < need {
            return Taken::NoItem;
        }
        have += count;
    }
}

/// Writes a reply to the front of the room, and says how long it is.
pub(crate) fn put_reply(reply: &VaultReply, room: &mut [u8; MAX_REPLY]) -> usize
    ensures within { result ≤ MAX_REPLY }
    ensures written { take result room.new ≡ reply_bytes reply.now }
{
    let bytes = reply.bytes.bytes();
    let size = (bytes.len() as u16).to_be_bytes();
    let (head, behind) = room.split_at_mut(REPLY_HEAD_SIZE);
    head.copy_from_slice(&[reply.code, size[0], size[1]]);
    behind[..bytes.len()].copy_from_slice(bytes);
    REPLY_HEAD_SIZE + bytes.len()
}
