ghost use Rattle.std.specs.Prelude.{◌≡◌, ◌≤◌, length, take, []};

use std::marker::Model;

/// The most bytes of a packet.
pub const MAX_PACKET: usize = 4_096;

/// A list of at most 4,096 bytes in a fixed array.
#[derive(Drop)]
pub struct Packet {
    room: [u8; MAX_PACKET],
    len: usize,
}

impl Model for Packet {
    ghost use Rattle.std.specs.Prelude.{ℕ, List, ◌≤◌, take};

    ghost Value = { List ℕ };

    ghost view = { λ p. take p.len p.room };

    ghost invariant = { λ p. p.len ≤ 4096 };
}

impl Packet {
    ghost use Rattle.std.specs.Borrow.{Lends, Array, sem, u8 as byte};
    ghost use Rattle.dpe_io.specs.contracts.packet.Packet.{the_row};

    /// No bytes.
    pub fn new() -> Packet
        ensures { result ≡ [] }
    {
        Packet {
            room: [0; MAX_PACKET],
            len: 0,
        }
    }

    /// The bytes.
    pub fn bytes(&self) -> &[u8]
        ensures bytes { result.now ≡ self.now }
        ensures few { length self.now ≤ MAX_PACKET }
    {
        &self.room[..self.len]
    }

    /// Makes it these bytes.
    pub fn set(&mut self, from: &[u8])
        requires { length from.now ≤ MAX_PACKET }
        ensures { self.new ≡ from.now }
    {
        self.room[..from.len()].copy_from_slice(from);
        self.len = from.len();
    }

    /// Makes it all the bytes of its room, whatever they are, and lends them to be written over.
    pub fn whole(&mut self) -> &mut [u8; MAX_PACKET]
        ensures* writes_back { sem 𝓛 (Lends the_row (Array byte 0) self.entry result (λ bytes. take 4096 bytes)) }
    {
        self.len = MAX_PACKET;
        &mut self.room
    }

    /// Keeps the first bytes, so many, and drops those behind.
    pub fn truncate(&mut self, len: usize)
        requires { len ≤ length self.old }
        ensures { self.new ≡ take len self.old }
    {
        self.len = len;
    }
}
