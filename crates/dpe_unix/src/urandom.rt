ghost use Rattle.std.specs.Prelude.{◌≡◌};
ghost use Rattle.dpe_io.specs.Causes.{HasCause, CountsOne};

use crate::words_ahead::WordsAhead;
use dpe_io::{Entropy, Failed};
use std::fs::File;
use std::marker::Model;

/// An entropy over `/dev/urandom`, or any file that gives random bytes. It draws a block at once, and hands out
/// each word of it once. It answers `Failed` where no whole word comes, and counts it.
#[derive(Drop)]
pub struct Urandom {
    words: WordsAhead<File>,
    faults: u64,
}

impl Model for Urandom {
    ghost use Rattle.std.specs.Prelude.{ℕ};

    ghost Value = { ℕ };

    ghost view = { λ e. e.faults };
}

impl Urandom {
    /// An entropy over this file, with no fault yet.
    pub fn new(file: File) -> Urandom
        ensures { result ≡ 0 }
    {
        Urandom {
            words: WordsAhead::new(file),
            faults: 0,
        }
    }

    /// How many draws failed; the count stops at 2^64 - 1.
    pub fn faults(&self) -> u64
        ensures { result ≡ self.now }
    {
        self.faults
    }
}

impl Entropy for Urandom {
    ghost use Rattle.std.specs.Prelude.{None};

    ghost words = { λ _. None };

    ghost faults = { λ e. e };

    fn draw(&mut self, room: &mut [u8; 32]) -> Result<(), Failed>
        ensures cause { HasCause self.old self.new result }
        ensures counts { CountsOne self.old self.new result }
    {
        match self.words.draw(room) {
            Ok(()) => Ok(()),
            Err(_) => {
                self.faults = self.faults.saturating_add(1);
                Err(Failed)
            }
        }
    }
}
