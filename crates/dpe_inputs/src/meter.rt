ghost use Rattle.std.specs.Prelude.{◌≡◌, ℕ};
ghost use Rattle.dpe_inputs.specs.Meters.{counted};

use std::marker::Model;

/// What counts the folds of a path.
pub trait Meter {
    // how many folds were counted
    ghost count: { Self → ℕ };

    /// Counts one fold, or stays at 2^64 - 1.
    fn fold(&mut self)
        ensures { count self.new ≡ counted (count self.old) };
}

/// A meter that tells its count.
#[derive(Drop)]
pub struct Count {
    folds: u64,
}

impl Model for Count {
    ghost Value = { ℕ };

    ghost view = { λ count. count.folds };
}

impl Count {
    /// No fold yet.
    pub fn new() -> Count
        ensures { result ≡ 0 }
    {
        Count { folds: 0 }
    }

    /// How many folds were counted.
    pub fn folds(&self) -> u64
        ensures { result ≡ self.now }
    {
        self.folds
    }
}

impl Meter for Count {
    ghost count = { λ count. count };

    fn fold(&mut self) {
        self.folds = self.folds.saturating_add(1);
    }
}
