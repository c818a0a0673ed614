//! HMAC (RFC 2104) with SHA-512, over a message that comes piece by piece. Nothing here takes memory.
#![tactic(auto)]

ghost use Rattle.std.specs.Prelude.{◌≡◌, ◌++◌, ℕ, List, [], map, bit_xor};
ghost use Rattle.dpe_hmac.specs.Hmac.{hmac, block_of};
ghost use Rattle.dpe_hmac.specs.Keyed.{Holds};

use sha2::{Digest, Sha512};

/// A key, and the bytes that were appended so far. A clone is the same state, and takes no memory: so one
/// key's two first blocks are hashed once for several messages.
#[derive(Clone, Drop)]
pub struct Hmac {
    inner: Sha512,
    outer: Sha512,
}

// A key, replaced by its digest where it is longer than a block, and then zeros up to the length of a block.
fn key_block(key: &[u8]) -> [u8; 128]
    ensures { result ≡ block_of key.now }
{
    let mut block = [0; 128];
    if key.len() > 128 {
        let digest = Sha512::digest(key);
        block[..64].copy_from_slice(&digest);
    } else {
        block[..key.len()].copy_from_slice(key);
    }
    block
}

// Each byte of a block combined with the byte of a pad by exclusive or.
fn padded(block: &[u8; 128], pad: u8) -> [u8; 128]
    ensures { result ≡ map (λ b. bit_xor b pad) block.now }
{
    let mut masked = *block;
    for b in masked.iter_mut() {
        *b ^= pad;
    }
    masked
}

impl Hmac {
    /// An `Hmac` of this key and no bytes.
    #[tactic(auto, unfolding(crate::specs::Keyed::Holds))]
    pub fn new(key: &[u8]) -> Hmac
        ensures { Holds result key.now [] }
    {
        let block = key_block(key);
        let inner_pad = padded(&block, 0x36);
        let outer_pad = padded(&block, 0x5c);
        let mut inner = Sha512::new();
        inner.update(inner_pad);
        let mut outer = Sha512::new();
        outer.update(outer_pad);
        Hmac { inner, outer }
    }

    /// Appends a piece to the message, which may come in pieces of any lengths.
    #[tactic(auto, unfolding(crate::specs::Keyed::Holds))]
    pub fn update(&mut self, piece: &[u8])
        ensures { (key m : List ℕ) → Holds self.old key m → Holds self.new key (m ++ piece.now) }
    {
        self.inner.update(piece);
    }

    /// The authentication code of all that was appended.
    #[tactic(auto, unfolding(crate::specs::Keyed::Holds, crate::specs::Hmac::hmac))]
    pub fn finish(self) -> [u8; 64]
        ensures { (key m : List ℕ) → Holds self key m → result ≡ hmac key m }
    {
        let Hmac { inner, mut outer } = self;
        let digest = inner.finalize();
        outer.update(digest);
        outer.finalize()
    }
}

/// The authentication code of a whole message under a key of any length.
pub fn hmac_of(key: &[u8], message: &[u8]) -> [u8; 64]
    ensures { result ≡ hmac key.now message.now }
{
    let mut mac = Hmac::new(key);
    mac.update(message);
    mac.finish()
}
