//! A running sum: the object that the threads share here.
ghost use Rattle.std.specs.Prelude.{◌≡◌, ℕ, ◌+◌, ◌-◌, ◌*◌, ◌<◌, ◌≤◌, [], ◌∷◌, ◌++◌, length, IfOk, take, vec_len};
ghost use Rattle.desk_bench.specs.Sums.{Sums, sum_of, IsRunningSum, sums_prefix};

use dpe_desk::{Entry, Sequential};
use std::alloc::{AllocError, Global};
use std::marker::Model;

/// Each call adds a number, and its reply is the sum so far. All memory is taken when it is made.
#[derive(Drop)]
pub struct RunningSum {
    rows: Vec<Entry<u32, u64>>,
    used: usize,
    sum: u64,
    rounds: u32,
    heat: u64,
}

impl Model for RunningSum {
    ghost Value = { Sums };

    ghost view = { λ s. record { entries = take s.used s.rows.items; most = vec_len s.rows } };

    ghost invariant = { λ s. (s.used ≤ vec_len s.rows) × (vec_len s.rows ≤ 65536) × (s.sum ≤ s.used * 4294967295) × (s.sum ≡ sum_of (take s.used s.rows.items)) × IsRunningSum 0 (take s.used s.rows.items) };
}

impl RunningSum {
    /// A sum of at most so many numbers. Each call keeps the processor for so many rounds.
    pub fn new(alloc: Global, most: usize, rounds: u32) -> Result<RunningSum, AllocError>
        requires { most ≤ 65536 }
        ensures { IfOk result (λ s. (s.entries ≡ []) × (s.most ≡ most)) }
    {
        Ok(RunningSum {
            rows: blanks(alloc, most)?,
            used: 0,
            sum: 0,
            rounds,
            heat: 0,
        })
    }

    /// The sum of all numbers so far.
    pub fn sum(&self) -> u64
        ensures { result ≡ sum_of self.now.entries }
    {
        self.sum
    }

    fn add(&mut self, caller: u32, call: u32) -> u64
        requires { length self.old.entries < self.old.most }
        ensures same { self.new.most ≡ self.old.most }
        ensures reply { result ≡ sum_of self.old.entries + call }
        ensures more { self.new.entries ≡ self.old.entries ++ record { caller = caller; call = call; reply = result } ∷ [] }
        ensures legal { IsRunningSum 0 self.new.entries }
    {
        let reply = self.sum + call as u64;
        self.rows[self.used] = Entry {
            caller,
            call,
            reply,
        };
        self.used += 1;
        self.sum = reply;
        reply
    }
}

// So many entries to be written over.
fn blanks(alloc: Global, most: usize) -> Result<Vec<Entry<u32, u64>>, AllocError>
    ensures { IfOk result (λ rows. vec_len rows ≡ most) }
{
    let mut rows = Vec::with_capacity(alloc, most)?;
    for _at in 0..most {
        rows.push(Entry {
            caller: 0,
            call: 0,
            reply: 0,
        })?;
    }
    Ok(rows)
}

// Keeps the processor for so many rounds. What comes out means nothing.
fn busy(rounds: u32, heat: u64) -> u64 {
    let mut x = heat;
    for _ in 0..rounds {
        x = (x ^ (x >> 29))
            .wrapping_mul(0x2545_f491_4f6c_dd1d)
            .wrapping_add(1);
    }
    x
}

impl Sequential for RunningSum {
    type Call = u32;

    type Reply = u64;

    ghost kind = { λ s. record s { entries = [] } };

    ghost entries = { λ s. s.entries };

    ghost left = { λ s. s.most - length s.entries };

    ghost legal = { λ _ es. IsRunningSum 0 es };

    fn length(&self) -> u64 {
        self.used as u64
    }

    fn room(&self) -> u64 {
        (self.rows.len() - self.used) as u64
    }

    fn step(&mut self, caller: u32, call: &u32, reply: &mut u64) {
        self.heat = busy(self.rounds, self.heat);
        *reply = self.add(caller, *call);
    }

    ghost legal_prefix = { λ k xs ys. sums_prefix 0 xs ys };
}
