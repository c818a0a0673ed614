ghost use Rattle.std.specs.Prelude.{◌≡◌, ◌↔◌, Some, IfOk, IsOk, IsErr, MatchResult, Contains};
ghost use Rattle.dpe_io.specs.Causes.{HasCause, CountsOne, one_more};
ghost use Rattle.dpe_io.specs.Told.{Draws};

use crate::memory::call_fails;
use crate::outside::Entropy;
use crate::traits::Failed;
use std::alloc::{AllocError, Global};
use std::collections::VecDeque;
use std::marker::Model;

// The next word, or zeros where none is left.
fn draw_word(words: &mut VecDeque<[u8; 32]>, room: &mut [u8; 32])
    ensures { Draws (Some words.old.items) (Some words.new.items) room.new }
{
    match words.pop_front() {
        Some(word) => *room = word,
        None => *room = [0; 32],
    }
}

/// An entropy in memory, which gives the listed words in order and then zeros.
#[derive(Drop)]
pub struct MemEntropy {
    words: VecDeque<[u8; 32]>,
    failing: Vec<u32>,
    calls: u64,
    faults: u64,
}

impl Model for MemEntropy {
    ghost use Rattle.dpe_io.specs.Memory.{Drawing};

    ghost Value = { Drawing };

    ghost view = { λ e. record {
      words = e.words.items;
      failing = e.failing.items;
      calls = e.calls;
      faults = e.faults;
    } };
}

impl MemEntropy {
    /// An entropy of these words. The draws whose numbers `failing` lists fail, counted from 0. It may answer want of
    /// memory.
    pub fn new(alloc: Global, words: &[[u8; 32]], failing: &[u32]) -> Result<MemEntropy, AllocError>
        ensures { IfOk result (λ entropy. entropy ≡ record {
          words = words.now;
          failing = failing.now;
          calls = 0;
          faults = 0;
        }) }
    {
        Ok(MemEntropy {
            words: VecDeque::from_vec(Vec::from_slice(alloc, words)?),
            failing: Vec::from_slice(alloc, failing)?,
            calls: 0,
            faults: 0,
        })
    }

    /// How many draws failed; the count stops at 2^64 - 1.
    pub fn faults(&self) -> u64
        ensures { result ≡ self.now.faults }
    {
        self.faults
    }
}

impl Entropy for MemEntropy {
    ghost words = { λ e. Some e.words };

    ghost faults = { λ e. e.faults };

    fn draw(&mut self, room: &mut [u8; 32]) -> Result<(), Failed>
        ensures words { MatchResult result (λ _. Draws (Some self.old.words) (Some self.new.words) room.new)
            (λ _. Some self.new.words ≡ Some self.old.words) }
        ensures cause { HasCause self.old.faults self.new.faults result }
        ensures fails { IsErr result ↔ Contains self.old.failing self.old.calls }
        ensures calls { self.new.calls ≡ one_more self.old.calls }
        ensures faults { CountsOne self.old.faults self.new.faults result }
        ensures stays { self.new.failing ≡ self.old.failing }
        ensures untouched { IsErr result → room.new ≡ room.old }
    {
        if call_fails(&self.failing, &mut self.calls) {
            self.faults = self.faults.saturating_add(1);
            return Err(Failed);
        }
        draw_word(&mut self.words, room);
        Ok(())
    }
}

/// An entropy in memory that never fails, which gives the listed words in order and then zeros.
#[derive(Drop)]
pub struct SureEntropy {
    words: VecDeque<[u8; 32]>,
}

impl Model for SureEntropy {
    ghost use Rattle.std.specs.Prelude.{ℕ, List};

    ghost Value = { List (List ℕ) };

    ghost view = { λ e. e.words.items };
}

impl SureEntropy {
    /// An entropy of these words. It may answer want of memory.
    pub fn new(alloc: Global, words: &[[u8; 32]]) -> Result<SureEntropy, AllocError>
        ensures { IfOk result (λ entropy. entropy ≡ words.now) }
    {
        Ok(SureEntropy {
            words: VecDeque::from_vec(Vec::from_slice(alloc, words)?),
        })
    }
}

impl Entropy for SureEntropy {
    ghost words = { λ e. Some e };

    ghost faults = { λ _. 0 };

    fn draw(&mut self, room: &mut [u8; 32]) -> Result<(), Failed>
        ensures words { MatchResult result (λ _. Draws (Some self.old) (Some self.new) room.new)
            (λ _. Some self.new ≡ Some self.old) }
        ensures cause { HasCause 0 0 result }
        ensures sure { IsOk result }
    {
        draw_word(&mut self.words, room);
        Ok(())
    }
}
