ghost use Rattle.std.specs.Prelude.{◌≡◌, ℕ, ◌+◌, ◌≤◌, ◌<◌, ◌↔◌, ◌⊎◌, Some, IfOk, IsErr, IsTrue, All, [], ◌∷◌};
ghost use Rattle.dpe_io.specs.Causes.{CountsOne};
ghost use Rattle.dpe_io.specs.Memory.{CountsBack, IsFaultless, IsUnused};
ghost use Rattle.dpe_io.specs.Told.{all_unopened, IsOpening, Returns, Placed, KeepsPlaces};

use crate::doors::{MemConn, MemDoor};
use crate::entropy::MemEntropy;
use crate::memory::{MemSink, MemSource};
use crate::traits::Failed;
use std::alloc::{AllocError, Global};
use std::collections::VecDeque;
use std::marker::Model;

/// An object in memory that counts its faults.
pub(crate) trait Counted {
    // the count
    ghost count: { Self → ℕ };
    // what holds of an object when it is opened
    ghost is_new: { Self → Type 0 };

    /// Whether no call on it failed.
    fn is_faultless(&self) -> bool
        ensures { IsTrue result ↔ (count self.now ≡ 0) };
}

// The count of faults of the objects handed back, once this one is.
fn count_back<T: Counted>(object: &T, faults: u64) -> u64
    ensures { CountsBack (T.count object.now) faults result }
{
    if object.is_faultless() {
        return faults;
    }
    faults.saturating_add(1)
}

/// Objects of one kind: those that are yet to be opened, and those that were handed back with their places.
#[derive(Drop)]
pub(crate) struct Stock<T: Counted> {
    unopened: VecDeque<T>,
    back: Vec<T>,
    places: Vec<u32>,
    opened: usize,
    out: usize,
    failed: u64,
    faults: u64,
}

impl<T: Counted> Model for Stock<T> {
    ghost use Rattle.std.specs.Prelude.{◌+◌, ◌≤◌, Some, All, vec_len, vec_capacity};
    ghost use Rattle.std.specs.VecDeque.{deque_len};
    ghost use Rattle.dpe_io.specs.Told.{Kind};

    ghost Value = { Kind T };

    ghost view = { λ s. record {
      unopened = Some s.unopened.items;
      back = Some s.back.items;
      places = Some s.places.items;
      opened = s.opened;
      out = s.out;
      failed = s.failed;
      faults = s.faults;
    } };

    // each object will find room when it is handed back
    ghost invariant = { λ s. (s.out + deque_len s.unopened + vec_len s.back ≤ vec_capacity s.back)
        × (s.out + deque_len s.unopened + vec_len s.places ≤ vec_capacity s.places)
        × (s.opened + deque_len s.unopened ≤ vec_capacity s.back) × All T.is_new s.unopened.items };
}

impl<T: Counted + Drop> Stock<T> {
    /// Takes all the room that it will need. It may answer want of memory.
    pub(crate) fn new(alloc: Global, objects: Vec<T>) -> Result<Stock<T>, AllocError>
        requires { All T.is_new objects.items }
        ensures { IfOk result (λ stock. stock ≡ all_unopened objects.items) }
    {
        let back = Vec::with_capacity(alloc, objects.len())?;
        let places = Vec::with_capacity(alloc, objects.len())?;
        Ok(Stock {
            unopened: VecDeque::from_vec(objects),
            back,
            places,
            opened: 0,
            out: 0,
            failed: 0,
            faults: 0,
        })
    }

    /// A stock of one object. It may answer want of memory.
    pub(crate) fn of_one(alloc: Global, object: T) -> Result<Stock<T>, AllocError>
        requires { T.is_new object }
        ensures { IfOk result (λ stock. stock ≡ all_unopened (object ∷ [])) }
    {
        let mut objects = Vec::new(alloc);
        objects.push(object)?;
        Stock::new(alloc, objects)
    }

    /// The next object, unless the opening is to fail or none is left.
    pub(crate) fn open(&mut self, fails: bool) -> Result<T, Failed>
        ensures opens { IsOpening self.old self.new result }
        ensures new { IfOk result T.is_new }
        ensures fails { IsErr result ↔ (IsTrue fails ⊎ (self.old.unopened ≡ Some [])) }
        ensures counts { CountsOne self.old.failed self.new.failed result }
    {
        if fails {
            self.failed = self.failed.saturating_add(1);
            return Err(Failed);
        }
        match self.unopened.pop_front() {
            Some(object) => {
                self.opened += 1;
                self.out += 1;
                Ok(object)
            }
            None => {
                self.failed = self.failed.saturating_add(1);
                Err(Failed)
            }
        }
    }

    /// Takes an object back.
    pub(crate) fn take_back(&mut self, object: T)
        requires { 1 ≤ self.old.out }
        ensures back { Returns self.old (T.count object) object self.new }
        ensures places { KeepsPlaces self.old self.new }
        ensures counts { CountsBack (T.count object) self.old.faults self.new.faults }
    {
        self.faults = count_back(&object, self.faults);
        self.out -= 1;
        self.back.push_reserved(object);
    }

    /// Takes the object of this place back.
    pub(crate) fn take_back_at(&mut self, place: u32, object: T)
        requires { 1 ≤ self.old.out }
        ensures back { Returns self.old (T.count object) object self.new }
        ensures places { Placed self.old place self.new }
        ensures counts { CountsBack (T.count object) self.old.faults self.new.faults }
    {
        self.faults = count_back(&object, self.faults);
        self.out -= 1;
        self.back.push_reserved(object);
        self.places.push_reserved(place);
    }

    /// The objects that were handed back, in order.
    pub(crate) fn back(&self) -> &[T]
        ensures { self.now.back ≡ Some result.now }
    {
        &self.back
    }
}

impl Counted for MemSource {
    ghost count = { λ s. s.faults };

    ghost is_new = { λ s. s.faults ≡ 0 };

    fn is_faultless(&self) -> bool {
        self.faults() == 0
    }
}

impl Counted for MemSink {
    ghost count = { λ s. s.faults };

    ghost is_new = { λ s. (s.faults ≡ 0) × (s.bytes ≡ []) };

    fn is_faultless(&self) -> bool {
        self.faults() == 0
    }
}

impl Counted for MemEntropy {
    ghost count = { λ e. e.faults };

    ghost is_new = { λ e. e.faults ≡ 0 };

    fn is_faultless(&self) -> bool {
        self.faults() == 0
    }
}

impl Counted for MemDoor {
    ghost count = { λ d. d.faults };

    ghost is_new = { IsUnused };

    fn is_faultless(&self) -> bool {
        self.faults() == 0
    }
}

impl Counted for MemConn {
    ghost count = { λ c. c.source.faults + c.sink.faults };

    ghost is_new = { IsFaultless };

    fn is_faultless(&self) -> bool {
        self.source().faults() == 0 && self.sink().faults() == 0
    }
}
