ghost use Rattle.std.specs.Prelude.{◌≡◌, ℕ, ◌+◌, ◌≤◌, Some, IfOk, IfSome, IsSomeAnd, All, [], ◌∷◌, slice_get};
ghost use Rattle.std.specs.Option.{option_copied};
ghost use Rattle.dpe_io.specs.Causes.{one_more};
ghost use Rattle.dpe_io.specs.Memory.{CountsBack, IsUnused, OpensAt};
ghost use Rattle.dpe_io.specs.Told.{all_unopened, IsOpening, Returns, Placed, KeepsPlaces};

use crate::doors::MemDoor;
use crate::entropy::MemEntropy;
use crate::memory::{MemSink, MemSource, call_fails};
use crate::outside::House;
use crate::stock::Stock;
use crate::traits::Failed;
use std::alloc::{AllocError, Global};
use std::marker::Model;

/// A house in memory: a seed, a journal, entropies and doors, of which each opening hands out the next of its kind.
#[derive(Drop)]
pub struct MemHouse {
    seeds: Stock<MemSource>,
    journals: Stock<MemSink>,
    entropies: Stock<MemEntropy>,
    doors: Stock<MemDoor>,
    failing: Vec<u32>,
    calls: u64,
}

impl Model for MemHouse {
    ghost use Rattle.dpe_io.specs.Memory.{InHouse};

    ghost Value = { InHouse };

    ghost view = { λ h. record {
      seeds = h.seeds;
      journals = h.journals;
      entropies = h.entropies;
      doors = h.doors;
      failing = h.failing.items;
      calls = h.calls;
    } };
}

impl MemHouse {
    /// A house of these objects. The openings whose numbers `failing` lists fail, those of all kinds counted together
    /// from 0. It may answer want of memory.
    pub fn new(
        alloc: Global,
        seed: MemSource,
        journal: MemSink,
        doors: Vec<MemDoor>,
        entropies: Vec<MemEntropy>,
        failing: &[u32],
    ) -> Result<MemHouse, AllocError>
        requires seed { seed.faults ≡ 0 }
        requires journal { journal.faults ≡ 0 }
        requires empty { journal.bytes ≡ [] }
        requires doors { All IsUnused doors.items }
        requires entropies { All (λ entropy. entropy.faults ≡ 0) entropies.items }
        ensures { IfOk result (λ house. house ≡ record {
          seeds = all_unopened (seed ∷ []);
          journals = all_unopened (journal ∷ []);
          entropies = all_unopened entropies.items;
          doors = all_unopened doors.items;
          failing = failing.now;
          calls = 0;
        }) }
    {
        Ok(MemHouse {
            seeds: Stock::of_one(alloc, seed)?,
            journals: Stock::of_one(alloc, journal)?,
            entropies: Stock::new(alloc, entropies)?,
            doors: Stock::new(alloc, doors)?,
            failing: Vec::from_slice(alloc, failing)?,
            calls: 0,
        })
    }

    /// The doors that were handed back, in order.
    pub fn doors(&self) -> &[MemDoor]
        ensures { self.now.doors.back ≡ Some result.now }
    {
        self.doors.back()
    }

    /// The entropies that were handed back, in order.
    pub fn entropies(&self) -> &[MemEntropy]
        ensures { self.now.entropies.back ≡ Some result.now }
    {
        self.entropies.back()
    }

    /// The journal, once it was handed back.
    pub fn journal_sink(&self) -> Option<&MemSink>
        ensures { IsSomeAnd self.now.journals.back (λ back. option_copied result ≡ slice_get back 0) }
    {
        self.journals.back().first()
    }
}

impl House for MemHouse {
    type Seed = MemSource;

    type Door = MemDoor;

    type Journal = MemSink;

    type Entropy = MemEntropy;

    ghost seeds = { λ h. h.seeds };

    ghost journals = { λ h. h.journals };

    ghost entropies = { λ h. h.entropies };

    ghost doors = { λ h. h.doors };

    fn seed(&mut self, _path: &str) -> Result<MemSource, Failed>
        ensures opens { IsOpening self.old.seeds self.new.seeds result }
        ensures faultless { IfOk result (λ seed. seed.faults ≡ 0) }
        ensures journals { self.new.journals ≡ self.old.journals }
        ensures entropies { self.new.entropies ≡ self.old.entropies }
        ensures doors { self.new.doors ≡ self.old.doors }
        ensures exact { OpensAt self.old.failing self.old.calls self.old.seeds self.new.seeds result }
        ensures calls { (self.new.calls ≡ one_more self.old.calls) × (self.new.failing ≡ self.old.failing) }
    {
        let fails = call_fails(&self.failing, &mut self.calls);
        self.seeds.open(fails)
    }

    fn journal(&mut self, _path: &str) -> Result<MemSink, Failed>
        ensures opens { IsOpening self.old.journals self.new.journals result }
        ensures faultless { IfOk result (λ journal. journal.faults ≡ 0) }
        ensures empty { IfOk result (λ journal. journal.bytes ≡ []) }
        ensures seeds { self.new.seeds ≡ self.old.seeds }
        ensures entropies { self.new.entropies ≡ self.old.entropies }
        ensures doors { self.new.doors ≡ self.old.doors }
        ensures exact { OpensAt self.old.failing self.old.calls self.old.journals self.new.journals result }
        ensures calls { (self.new.calls ≡ one_more self.old.calls) × (self.new.failing ≡ self.old.failing) }
    {
        let fails = call_fails(&self.failing, &mut self.calls);
        self.journals.open(fails)
    }

    fn entropy(&mut self) -> Result<MemEntropy, Failed>
        ensures opens { IsOpening self.old.entropies self.new.entropies result }
        ensures faultless { IfOk result (λ entropy. entropy.faults ≡ 0) }
        ensures seeds { self.new.seeds ≡ self.old.seeds }
        ensures journals { self.new.journals ≡ self.old.journals }
        ensures doors { self.new.doors ≡ self.old.doors }
        ensures exact { OpensAt self.old.failing self.old.calls self.old.entropies self.new.entropies result }
        ensures calls { (self.new.calls ≡ one_more self.old.calls) × (self.new.failing ≡ self.old.failing) }
    {
        let fails = call_fails(&self.failing, &mut self.calls);
        self.entropies.open(fails)
    }

    fn door(&mut self, _path: &str) -> Result<MemDoor, Failed>
        ensures opens { IsOpening self.old.doors self.new.doors result }
        ensures faultless { IfOk result (λ door. door.faults ≡ 0) }
        ensures none_ended { IfOk result (λ door. door.ended ≡ []) }
        ensures seeds { self.new.seeds ≡ self.old.seeds }
        ensures journals { self.new.journals ≡ self.old.journals }
        ensures entropies { self.new.entropies ≡ self.old.entropies }
        ensures exact { OpensAt self.old.failing self.old.calls self.old.doors self.new.doors result }
        ensures calls { (self.new.calls ≡ one_more self.old.calls) × (self.new.failing ≡ self.old.failing) }
    {
        let fails = call_fails(&self.failing, &mut self.calls);
        self.doors.open(fails)
    }

    fn take_seed(&mut self, seed: MemSource)
        requires { 1 ≤ self.old.seeds.out }
        ensures back { Returns self.old.seeds seed.faults seed self.new.seeds }
        ensures places { KeepsPlaces self.old.seeds self.new.seeds }
        ensures counts { CountsBack seed.faults self.old.seeds.faults self.new.seeds.faults }
        ensures journals { self.new.journals ≡ self.old.journals }
        ensures entropies { self.new.entropies ≡ self.old.entropies }
        ensures doors { self.new.doors ≡ self.old.doors }
        ensures calls { (self.new.calls ≡ self.old.calls) × (self.new.failing ≡ self.old.failing) }
    {
        self.seeds.take_back(seed)
    }

    fn take_entropy(&mut self, place: u32, entropy: MemEntropy)
        requires { 1 ≤ self.old.entropies.out }
        ensures back { Returns self.old.entropies entropy.faults entropy self.new.entropies }
        ensures places { Placed self.old.entropies place self.new.entropies }
        ensures counts { CountsBack entropy.faults self.old.entropies.faults self.new.entropies.faults }
        ensures seeds { self.new.seeds ≡ self.old.seeds }
        ensures journals { self.new.journals ≡ self.old.journals }
        ensures doors { self.new.doors ≡ self.old.doors }
        ensures calls { (self.new.calls ≡ self.old.calls) × (self.new.failing ≡ self.old.failing) }
    {
        self.entropies.take_back_at(place, entropy)
    }

    fn take_door(&mut self, place: u32, door: MemDoor)
        requires { 1 ≤ self.old.doors.out }
        ensures back { Returns self.old.doors door.faults door self.new.doors }
        ensures places { Placed self.old.doors place self.new.doors }
        ensures counts { CountsBack door.faults self.old.doors.faults self.new.doors.faults }
        ensures seeds { self.new.seeds ≡ self.old.seeds }
        ensures journals { self.new.journals ≡ self.old.journals }
        ensures entropies { self.new.entropies ≡ self.old.entropies }
        ensures calls { (self.new.calls ≡ self.old.calls) × (self.new.failing ≡ self.old.failing) }
    {
        self.doors.take_back_at(place, door)
    }

    fn take_journal(&mut self, journal: MemSink)
        requires { 1 ≤ self.old.journals.out }
        ensures back { Returns self.old.journals journal.faults journal self.new.journals }
        ensures places { KeepsPlaces self.old.journals self.new.journals }
        ensures counts { CountsBack journal.faults self.old.journals.faults self.new.journals.faults }
        ensures seeds { self.new.seeds ≡ self.old.seeds }
        ensures entropies { self.new.entropies ≡ self.old.entropies }
        ensures doors { self.new.doors ≡ self.old.doors }
        ensures calls { (self.new.calls ≡ self.old.calls) × (self.new.failing ≡ self.old.failing) }
    {
        self.journals.take_back(journal)
    }
}
