//! The handles that replies gave, each with the locality that it was issued to.
ghost use Rattle.std.specs.Prelude.{◌≡◌, ◌%◌, ◌≤◌, ◌<◌, length};
ghost use Rattle.dpe_tape.specs.Pool.{picked, without_picked, with_pair, pool_limit};

use arrayvec::ArrayVec;

/// The most pairs of a pool.
const MAX_PAIRS: usize = 64;

/// A handle and its locality.
#[derive(Clone, Copy, Default)]
pub struct Pair {
    pub handle: [u8; 16],
    pub locality: u8,
}

/// The handles that may be named, the oldest first.
pub type Pool = ArrayVec<Pair, MAX_PAIRS>;

// The place that a number picks in a pool.
fn place(pool: &Pool, number: u32) -> usize
    requires { 0 < length pool.now.items }
    ensures place { result ≡ number % length pool.now.items }
    ensures within { result < length pool.now.items }
{
    number as usize % pool.len()
}

/// The pair that a number picks: 16 zeros at locality 0 from an empty pool.
pub fn pick(pool: &Pool, number: u32) -> Pair
    ensures { result ≡ picked pool.now.items number }
{
    if pool.is_empty() {
        return Pair {
            handle: [0; 16],
            locality: 0,
        };
    }
    pool[place(pool, number)]
}

/// Takes that pair out.
pub fn take_out(pool: &mut Pool, number: u32)
    ensures { pool.new.items ≡ without_picked pool.old.items number }
{
    if pool.is_empty() {
        return;
    }
    let at = place(pool, number);
    let _ = pool.remove(at);
}

/// Appends a pair. Where the pool is full, its oldest pair goes.
#[tactic(auto, unfolding(crate::specs::Pool::with_pair))]
pub fn append(pool: &mut Pool, pair: Pair)
    ensures { pool.new.items ≡ with_pair pool.old.items pair }
{
    if pool.is_full() {
        let _ = pool.remove(0);
    }
    pool.push(pair);
}
