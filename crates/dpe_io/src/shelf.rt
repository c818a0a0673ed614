ghost use Rattle.std.specs.Prelude.{◌≡◌, ℕ, ◌+◌, ◌≤◌, IfOk, All};
ghost use Rattle.dpe_io.specs.Causes.{one_more};
ghost use Rattle.dpe_io.specs.Memory.{CountsBack, OpensAt};
ghost use Rattle.dpe_io.specs.Told.{all_unopened, IsOpening, Returns, Placed};

use crate::memory::{MemSource, call_fails};
use crate::outside::Shelf;
use crate::stock::Stock;
use crate::traits::Failed;
use std::alloc::{AllocError, Global};
use std::marker::Model;

/// A shelf in memory: files, of which each opening hands out the next.
#[derive(Drop)]
pub struct MemShelf {
    files: Stock<MemSource>,
    failing: Vec<u32>,
    calls: u64,
}

impl Model for MemShelf {
    ghost use Rattle.dpe_io.specs.Memory.{OnShelf};

    ghost Value = { OnShelf };

    ghost view = { λ s. record { files = s.files; failing = s.failing.items; calls = s.calls } };
}

impl MemShelf {
    /// A shelf of these files. The openings whose numbers `failing` lists fail, counted from 0. It may answer
    /// want of memory.
    pub fn new(
        alloc: Global,
        files: Vec<MemSource>,
        failing: &[u32],
    ) -> Result<MemShelf, AllocError>
        requires { All (λ file. file.faults ≡ 0) files.items }
        ensures { IfOk result (λ shelf. shelf ≡ record {
          files = all_unopened files.items;
          failing = failing.now;
          calls = 0;
        }) }
    {
        Ok(MemShelf {
            files: Stock::new(alloc, files)?,
            failing: Vec::from_slice(alloc, failing)?,
            calls: 0,
        })
    }
}

impl Shelf for MemShelf {
    type File = MemSource;

    ghost files = { λ s. s.files };

    fn file(&mut self, _path: &str) -> Result<MemSource, Failed>
        ensures opens { IsOpening self.old.files self.new.files result }
        ensures faultless { IfOk result (λ file. file.faults ≡ 0) }
        ensures exact { OpensAt self.old.failing self.old.calls self.old.files self.new.files result }
        ensures calls { (self.new.calls ≡ one_more self.old.calls) × (self.new.failing ≡ self.old.failing) }
    {
        let fails = call_fails(&self.failing, &mut self.calls);
        self.files.open(fails)
    }

    fn take_file(&mut self, place: u32, file: MemSource)
        requires { 1 ≤ self.old.files.out }
        ensures back { Returns self.old.files file.faults file self.new.files }
        ensures places { Placed self.old.files place self.new.files }
        ensures counts { CountsBack file.faults self.old.files.faults self.new.files.faults }
        ensures calls { (self.new.calls ≡ self.old.calls) × (self.new.failing ≡ self.old.failing) }
    {
        self.files.take_back_at(place, file)
    }
}
