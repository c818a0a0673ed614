//! A house in memory that keeps the paths that it was asked for.
ghost use Rattle.std.specs.Prelude.{◌≡◌};

use dpe_io::{Failed, House, MemDoor, MemEntropy, MemHouse, MemSink, MemSource};

/// A house, and the paths that it was asked for, with a space before each.
#[derive(Drop)]
pub(crate) struct Asked {
    pub(crate) house: MemHouse,
    pub(crate) paths: String,
}

impl Asked {
    fn keep(&mut self, path: &str)
        ensures { self.new.house ≡ self.old.house }
    {
        let _ = self.paths.push(' ');
        let _ = self.paths.push_str(path);
    }
}

impl House for Asked {
    type Seed = MemSource;

    type Door = MemDoor;

    type Journal = MemSink;

    type Entropy = MemEntropy;

    ghost seeds = { λ h. h.house.seeds };

    ghost journals = { λ h. h.house.journals };

    ghost entropies = { λ h. h.house.entropies };

    ghost doors = { λ h. h.house.doors };

    fn seed(&mut self, path: &str) -> Result<MemSource, Failed> {
        self.keep(path);
        self.house.seed(path)
    }

    fn journal(&mut self, path: &str) -> Result<MemSink, Failed> {
        self.keep(path);
        self.house.journal(path)
    }

    fn entropy(&mut self) -> Result<MemEntropy, Failed> {
        self.house.entropy()
    }

    fn door(&mut self, path: &str) -> Result<MemDoor, Failed> {
        self.keep(path);
        self.house.door(path)
    }

    fn take_seed(&mut self, seed: MemSource) {
        self.house.take_seed(seed)
    }

    fn take_entropy(&mut self, place: u32, entropy: MemEntropy) {
        self.house.take_entropy(place, entropy)
    }

    fn take_door(&mut self, place: u32, door: MemDoor) {
        self.house.take_door(place, door)
    }

    fn take_journal(&mut self, journal: MemSink) {
        self.house.take_journal(journal)
    }
}
