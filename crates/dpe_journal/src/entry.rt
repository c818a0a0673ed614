//! A call and its reply, stored in memory of fixed size.
ghost use Rattle.std.specs.Prelude.{◌≡◌, ◌^◌, ◌<◌, ◌≤◌, length, take, []};
ghost use Rattle.std.proofs.Common.{replicate};
ghost use Rattle.dpe_cbor.specs.Decoding.{AreBytes};
ghost use Rattle.dpe_model.specs.History.{IsEntry};
ghost use Rattle.dpe_journal.specs.BookViews.{answered, answer_to, stepped};
ghost use Rattle.dpe_journal.specs.Stored.{entry_of};

use dpe_core::Core;
use dpe_inputs::Count;
use dpe_io::{MAX_PACKET, Packet};
use std::marker::Model;

/// What a caller sent: over which of its connections, its number on that connection, from 0, its locality from 0 to 7,
/// the random bytes drawn for it, and a payload of at most 4,096 bytes.
#[derive(Drop)]
pub struct Call {
    connection: u32,
    index: u32,
    locality: u8,
    random: [u8; 32],
    payload: Packet,
}

impl Model for Call {
    ghost use Rattle.std.specs.Prelude.{◌≡◌, ◌≤◌, length};
    ghost use Rattle.dpe_journal.specs.Entries.{Sent};

    ghost Value = { Sent };

    ghost view = { λ c. record {
      connection = c.connection;
      index = c.index;
      locality = c.locality;
      random = c.random;
      payload = c.payload;
    } };

    ghost invariant = { λ c. (c.locality ≤ 7) × (length c.random ≡ 32) };
}

impl Call {
    /// A call of these five parts.
    pub fn new(connection: u32, index: u32, locality: u8, random: &[u8; 32], payload: &[u8]) -> Call
        requires near { locality ≤ 7 }
        requires few { length payload.now ≤ MAX_PACKET }
        ensures { result ≡ record {
          connection = connection;
          index = index;
          locality = locality;
          random = random.now;
          payload = payload.now;
        } }
    {
        let mut stored = Packet::new();
        stored.set(payload);
        Call {
            connection,
            index,
            locality,
            random: *random,
            payload: stored,
        }
    }

    /// The number of the caller's connection.
    pub fn connection(&self) -> u32
        ensures connection { result ≡ self.now.connection }
        ensures fits { self.now.connection < 2 ^ 32 }
    {
        self.connection
    }

    /// The call's number on its connection, from 0.
    pub fn index(&self) -> u32
        ensures index { result ≡ self.now.index }
        ensures fits { self.now.index < 2 ^ 32 }
    {
        self.index
    }

    /// The caller's locality.
    pub fn locality(&self) -> u8
        ensures locality { result ≡ self.now.locality }
        ensures near { self.now.locality ≤ 7 }
    {
        self.locality
    }

    /// The random bytes drawn for the call.
    pub fn random(&self) -> &[u8; 32]
        ensures random { result.now ≡ self.now.random }
        ensures long { length self.now.random ≡ 32 }
    {
        &self.random
    }

    /// The command's payload.
    pub fn payload(&self) -> &[u8]
        ensures payload { result.now ≡ self.now.payload }
        ensures few { length self.now.payload ≤ MAX_PACKET }
    {
        self.payload.bytes()
    }

    // Stores these five parts.
    pub(crate) fn store(
        &mut self,
        connection: u32,
        index: u32,
        locality: u8,
        random: &[u8],
        payload: &[u8],
    )
        requires near { locality ≤ 7 }
        requires random { length random.now ≡ 32 }
        requires few { length payload.now ≤ MAX_PACKET }
        ensures stored { self.new ≡ record {
          connection = connection;
          index = index;
          locality = locality;
          random = random.now;
          payload = payload.now;
        } }
        ensures bytes { AreBytes random.now × AreBytes payload.now }
    {
        self.connection = connection;
        self.index = index;
        self.locality = locality;
        self.random.copy_from_slice(random);
        self.payload.set(payload);
    }
}

// Has the executor write its reply to a call into a room, and says how long it is.
fn write_reply(core: &mut Core, call: &Call, room: &mut [u8; MAX_PACKET]) -> usize
    ensures within { result ≤ length (take MAX_PACKET room.new) }
    ensures reply { take result (take MAX_PACKET room.new) ≡ answer_to core.old call.now }
    ensures core { core.new ≡ stepped core.old call.now }
{
    let mut folds = Count::new();
    core.execute(
        call.locality(),
        call.random(),
        call.payload(),
        room,
        &mut folds,
    )
}

// Has the executor write its reply to a call into the room of a packet.
fn execute(core: &mut Core, call: &Call, reply: &mut Packet)
    ensures reply { reply.new ≡ answer_to core.old call.now }
    ensures core { core.new ≡ stepped core.old call.now }
{
    let size = write_reply(core, call, reply.whole());
    reply.truncate(size);
}

// Copies a packet.
fn copy(from: &Packet, to: &mut Packet)
    ensures copied { to.new ≡ from.now }
    ensures few { length from.now ≤ MAX_PACKET }
    ensures bytes { AreBytes from.now }
{
    let bytes = from.bytes();
    to.set(bytes);
}

/// A call, who made it, and the reply to it.
#[derive(Drop)]
pub struct Entry {
    pub caller: u32,
    pub call: Call,
    pub reply: Packet,
}

impl Entry {
    /// Caller 0, zeros and empty lists.
    pub fn new() -> Entry
        ensures caller { result.caller ≡ 0 }
        ensures call { result.call ≡ record {
          connection = 0;
          index = 0;
          locality = 0;
          random = replicate 32 0;
          payload = [];
        } }
        ensures reply { result.reply ≡ [] }
    {
        Entry {
            caller: 0,
            call: Call::new(0, 0, 0, &[0; 32], &[]),
            reply: Packet::new(),
        }
    }

    // Stores a caller's call and the reply that the executor gives to it, and copies the reply out.
    pub(crate) fn answer(&mut self, core: &mut Core, caller: u32, call: &Call, reply: &mut Packet)
        ensures stored { entry_of self.new ≡ answered core.old caller call.now }
        ensures entry { IsEntry (answered core.old caller call.now) }
        ensures core { core.new ≡ stepped core.old call.now }
        ensures reply { reply.new ≡ answer_to core.old call.now }
    {
        self.caller = caller;
        self.call.store(
            call.connection(),
            call.index(),
            call.locality(),
            call.random(),
            call.payload(),
        );
        execute(core, call, &mut self.reply);
        copy(&self.reply, reply);
    }
}
