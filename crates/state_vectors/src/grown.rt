//! Rows that call the tree of contexts.
ghost use Rattle.std.specs.Prelude.{◌≡◌, ◌<◌, ◌≤◌, IsTrue};
ghost use Rattle.dpe_tree.specs.Tree.{IsUsed, IsLive};

use crate::fault::Fault;
use crate::numbers::small;
use crate::replies::printed;
use dpe_inputs::{Cdis, Input};
use dpe_tree::{MOST_DEPTH, MOST_LIVE, MOST_PLACES, Place, Tree};
use std::alloc::{AllocError, Global};
use std::marker::Model;

/// A tree, and the place of each context that was ever made, in the order of their making. So many of them live. A
/// context's birth is its number in that order, and all births are before the next one.
#[derive(Drop)]
pub struct Grown {
    tree: Tree,
    places: Vec<Place>,
    next: u64,
    live: u32,
}

impl Model for Grown {
    ghost use Rattle.state_vectors.specs.Births.{IsGrown};
    ghost use Rattle.std.specs.Prelude.{ℕ};

    ghost Value = { ℕ };

    ghost view = { λ grown. grown.next };

    ghost invariant = { λ grown. IsGrown grown.tree grown.next grown.live };
}

// An input that differs in its mode alone.
fn input(mode: u8) -> Input {
    Input {
        code: [1; 64],
        config: [2; 64],
        authority: [3; 64],
        mode,
        hidden: [0; 64],
    }
}

// CDIs of one byte each.
fn marked(mark: u8) -> Cdis {
    Cdis {
        attest: [mark; 32],
        seal: [mark ^ 255; 32],
    }
}

// Whether a place has other CDIs than zeros, which live contexts alone have.
fn is_live(tree: &Tree, place: Place) -> bool
    ensures live { IsTrue result → IsLive tree.now place.0 }
    ensures used { IsTrue result → IsUsed tree.now place.0 }
{
    place.0 < MOST_PLACES && tree.cdis(place).seal != [0; 32]
}

// Whether the way from a place to the root leads to another.
fn leads_to(tree: &Tree, below: Place, place: Place) -> bool
    requires { IsUsed tree.now below.0 }
    ensures { IsTrue result → IsUsed tree.now place.0 }
{
    let mut at = below;
    for _step in 0..=MOST_DEPTH {
        if at == place {
            return true;
        }
        match tree.lineage_step(at) {
            Some((parent, _)) => at = parent,
            None => return false,
        }
    }
    false
}

// Whether a place is that of a live context or above one.
fn is_used(tree: &Tree, places: &[Place], place: Place) -> bool
    ensures { IsTrue result → IsUsed tree.now place.0 }
{
    for below in places {
        if is_live(tree, *below) && leads_to(tree, *below, place) {
            return true;
        }
    }
    false
}

impl Grown {
    /// A root alone.
    pub(crate) fn start(alloc: Global, mark: u8) -> Result<Grown, AllocError> {
        let mut tree = Tree::make(alloc)?;
        let root = tree.root(&marked(mark));
        let mut places = Vec::new(alloc);
        places.extend_from_slice(&[root])?;
        Ok(Grown {
            tree,
            places,
            next: 1,
            live: 1,
        })
    }

    // The place of a context, where no other was made there later.
    fn place(&self, context: &str) -> Result<Place, Fault> {
        let Ok(at) = context.parse::<usize>() else {
            return Err(Fault::Unreadable);
        };
        match self.places.get(at) {
            Some(place) if self.context_at(*place) == at => Ok(*place),
            _ => Err(Fault::Unmet),
        }
    }

    // The context that was made last at a place.
    fn context_at(&self, place: Place) -> usize {
        let mut last = 0;
        for (at, other) in self.places.iter().enumerate() {
            if *other == place {
                last = at;
            }
        }
        last
    }

    fn add_child(&mut self, parent: Place, mode: u8, mark: u8) -> Result<Place, Fault> {
        if self.next == u64::MAX || self.live >= MOST_LIVE || !is_live(&self.tree, parent) {
            return Err(Fault::Unmet);
        }
        if self.tree.depth(parent) >= MOST_DEPTH {
            return Err(Fault::Unmet);
        }
        let place = self
            .tree
            .add_child(parent, self.next, &input(mode), &marked(mark));
        self.next += 1;
        self.live += 1;
        Ok(place)
    }

    fn replace(&mut self, parent: Place, mode: u8, mark: u8) -> Result<Place, Fault> {
        if self.next == u64::MAX || !is_live(&self.tree, parent) {
            return Err(Fault::Unmet);
        }
        if self.tree.depth(parent) >= MOST_DEPTH {
            return Err(Fault::Unmet);
        }
        let place = self
            .tree
            .replace(parent, self.next, &input(mode), &marked(mark));
        self.next += 1;
        Ok(place)
    }

    fn retire(&mut self, place: Place) -> Result<(), Fault> {
        if !is_live(&self.tree, place) {
            return Err(Fault::Unmet);
        }
        self.tree.retire(place);
        self.live -= 1;
        Ok(())
    }

    fn make(&mut self, alloc: Global, words: &[&str], keeps: bool) -> Result<String, Fault> {
        let [parent, mode, mark] = words else {
            return Err(Fault::Unreadable);
        };
        let parent = self.place(parent)?;
        let (mode, mark) = (small(mode)?, small(mark)?);
        let place = if keeps {
            self.add_child(parent, mode, mark)?
        } else {
            self.replace(parent, mode, mark)?
        };
        self.places.extend_from_slice(&[place])?;
        Ok(format!(in alloc; "{}", self.context_at(place))?)
    }

    fn tell(&self, alloc: Global, context: &str) -> Result<String, Fault> {
        let place = self.place(context)?;
        if place.0 >= MOST_PLACES || !is_used(&self.tree, &self.places, place) {
            return Err(Fault::Unmet);
        }
        let depth = self.tree.depth(place);
        let mode = self.tree.mode(place);
        let step = self.tree.lineage_step(place);
        let from = self.told_step(alloc, step)?;
        let seal = printed(alloc, &self.tree.cdis(place).seal)?;
        Ok(format!(in alloc; "depth {depth}, mode {mode}, {from}, {seal}")?)
    }

    // The parent, and the serial of a birth.
    fn told_step(&self, alloc: Global, step: Option<(Place, u64)>) -> Result<String, AllocError> {
        match step {
            Some((parent, birth)) => {
                format!(in alloc; "below {} by {birth}", self.context_at(parent))
            }
            None => String::from_str(alloc, "the root"),
        }
    }

    fn below(&self, alloc: Global, words: &[&str]) -> Result<String, Fault> {
        let [above, place] = words else {
            return Err(Fault::Unreadable);
        };
        let above = self.place(above)?;
        let place = self.place(place)?;
        if !is_used(&self.tree, &self.places, above) || !is_used(&self.tree, &self.places, place) {
            return Err(Fault::Unmet);
        }
        let answer = if self.tree.below(above, place) {
            "yes"
        } else {
            "no"
        };
        Ok(String::from_str(alloc, answer)?)
    }

    fn end(&mut self, alloc: Global, context: &str) -> Result<String, Fault> {
        let place = self.place(context)?;
        self.retire(place)?;
        Ok(format!(in alloc; "{} live", self.live)?)
    }

    /// The line of a row.
    pub(crate) fn answer(
        &mut self,
        alloc: Global,
        call: &str,
        words: &[&str],
    ) -> Result<String, Fault> {
        match call {
            "add" => self.make(alloc, words, true),
            "replace" => self.make(alloc, words, false),
            "below" => self.below(alloc, words),
            _ => self.answer_for(alloc, call, words),
        }
    }

    // The line of a row about one context.
    fn answer_for(&mut self, alloc: Global, call: &str, words: &[&str]) -> Result<String, Fault> {
        let [context] = words else {
            return Err(Fault::Unreadable);
        };
        match call {
            "retire" => self.end(alloc, context),
            "tell" => self.tell(alloc, context),
            _ => Err(Fault::Unreadable),
        }
    }
}
