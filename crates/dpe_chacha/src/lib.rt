//! The key stream of ChaCha20 (RFC 8439) over `rand_chacha`. Nothing here takes memory.
#![tactic(auto)]

ghost use Rattle.std.specs.Prelude.{◌≡◌, ◌≤◌, ◌<◌, ◌+◌, ◌-◌, ◌*◌, ◌^◌, ◌++◌, length, take, drop, ℕ};
ghost use Rattle.std.specs.Int.{div_ceil};
ghost use Rattle.rand_core.specs.Steps.{u32_at, fill_via_u32};
ghost use Rattle.rand_chacha.specs.ChaCha.{key_of, next_word};
ghost use Rattle.dpe_chacha.specs.ChaCha20.{chacha20, combined};

use rand_chacha::ChaCha20Rng;
use rand_core::{SeedableRng, utils};

// The generator at the block of this key, nonce and counter. Its block counter has the counter in
// its low half and the nonce's first word in its high half; its stream has the other two words.
fn placed(key: &[u8; 32], nonce: &[u8; 12], counter: u32) -> ChaCha20Rng
    ensures { result ≡ record {
      key = key_of key.now;
      stream = u32_at nonce.now 1 + u32_at nonce.now 2 * 2 ^ 32;
      word_pos = 16 * (counter + u32_at nonce.now 0 * 2 ^ 32);
    } }
{
    let first = u64::from(utils::read_u32(nonce, 0));
    let second = u64::from(utils::read_u32(nonce, 1));
    let third = u64::from(utils::read_u32(nonce, 2));
    let mut rng = ChaCha20Rng::from_seed(*key);
    rng.set_stream(second + (third << 32));
    rng.set_word_pos(16 * u128::from(u64::from(counter) + (first << 32)));
    rng
}

// The bytes of the next 16 words.
fn next_block(rng: &mut ChaCha20Rng) -> [u8; 64]
    ensures { (result, rng.new) ≡ fill_via_u32 (next_word 10) 64 rng.old }
{
    let mut block = [0; 64];
    utils::fill_bytes_via_u32(rng, &mut block);
    block
}

// Adds as much of a block as there is text.
fn add(text: &mut [u8], block: &[u8])
    ensures { text.new ≡ combined text.old block.now }
{
    for i in 0..text.len().min(block.len()) {
        text[i] ^= block[i];
    }
}

/// Adds the key stream to a text by exclusive or, from the block of this counter on: so it both enciphers
/// and deciphers (section 2.4). The counters of the blocks begun fit in 32 bits.
pub fn apply(key: &[u8; 32], nonce: &[u8; 12], counter: u32, text: &mut [u8])
    requires { counter + div_ceil (length text.old) 64 ≤ 2 ^ 32 }
    ensures { text.new ≡ chacha20 key.now nonce.now counter text.old }
{
    let mut rng = placed(key, nonce, counter);
    for i in 0..text.len().div_ceil(64) {
        let block = next_block(&mut rng);
        let (_, part) = text.split_at_mut(64 * i);
        add(part, &block);
    }
}
