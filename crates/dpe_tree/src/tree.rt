//! The arena, and what changes it.
ghost use Rattle.std.specs.Prelude.{◌≡◌, ℕ, ◌+◌, ◌<◌, ◌≤◌, ◌↔◌, [], length, IfOk, IfSome, Some, None, IsTrue};
ghost use Rattle.dpe_tree.specs.Tree.{IsEmpty, IsUsed, IsLive, IsFree, IsUnborn, IsStep, IsTree, IsTrimmed, BeginsWith, SameElsewhere, lineage as lineage_at, depth as depth_at, mode as mode_at, cdis as cdis_at, live_count, context, with_node, ended, replaced, root as root_node, child, place_limit, depth_limit, context_limit};

use crate::free::next_free;
use crate::fresh::{links, places_below, unused_states};
use crate::node::{Link, State, ancestor, attach, attach_instead, attach_root};
use crate::trim::retire_at;
use dpe_inputs::{Cdis, Input};
use std::alloc::{AllocError, Global};
use std::marker::Model;

/// The most steps from the root to a context.
pub const MOST_DEPTH: u8 = 32;
/// The most live contexts.
pub const MOST_LIVE: u32 = 1_024;
/// How many places there are: 32,769, for 1,024 contexts 32 steps below the root and the root. That is as many as can
/// ever be used.
pub const MOST_PLACES: u32 = MOST_LIVE * MOST_DEPTH as u32 + 1;

/// The number of a place, below `MOST_PLACES`.
#[derive(Clone, Copy, Debug, PartialEq, Eq)]
pub struct Place(pub u32);

/// A tree of contexts. A place is used while its context or one below it is live. All memory is taken by `make`.
#[derive(Drop)]
pub struct Tree {
    links: Vec<Link>,
    states: Vec<State>,
    free: Vec<u32>,
}

impl Model for Tree {
    ghost use Rattle.dpe_tree.specs.Tree.{Places, place_limit};
    ghost use Rattle.dpe_tree.specs.Arena.{nodes, IsArena};
    ghost use Rattle.std.specs.Prelude.{◌≤◌};
    ghost use Rattle.std.specs.Vec.{vec_capacity};

    ghost Value = { Places };

    ghost view = { λ t. nodes t.links.items t.states.items };

    ghost invariant = { λ t. IsArena t.links.items t.states.items t.free.items × (place_limit ≤ vec_capacity t.free) };
}

impl Tree {
    /// An empty tree, with all the memory that it ever has.
    pub fn make(alloc: Global) -> Result<Tree, AllocError>
        ensures empty { IfOk result IsEmpty }
        ensures live { IfOk result (λ tree. live_count tree ≡ 0) }
    {
        Ok(Tree {
            links: links(alloc, MOST_PLACES)?,
            states: unused_states(alloc, MOST_PLACES)?,
            free: places_below(alloc, MOST_PLACES)?,
        })
    }

    /// What holds of each tree, for callers' proofs: the call does nothing.
    pub fn shape(&self)
        ensures { IsTree self.now }
    {
        let _links = &self.links;
    }

    /// Makes the root, whose context has an empty lineage.
    pub fn root(&mut self, cdis: &Cdis) -> Place
        requires { IsEmpty self.old }
        ensures free { IsFree self.old result.0 }
        ensures tree { self.new ≡ with_node self.old result.0 (root_node cdis.now) }
        ensures live { live_count self.new ≡ 1 }
    {
        let at = next_free(&mut self.free);
        attach_root(&mut self.links, &mut self.states, at, cdis);
        Place(at)
    }

    /// Adds a child of a live context, under a birth serial that no used place has.
    pub fn add_child(&mut self, parent: Place, birth: u64, input: &Input, cdis: &Cdis) -> Place
        requires parent { IsLive self.old parent.0 }
        requires depth { depth_at self.old parent.0 < depth_limit }
        requires room { live_count self.old < context_limit }
        requires birth { IsUnborn self.old birth }
        ensures free { IsFree self.old result.0 }
        ensures tree { self.new ≡ with_node self.old result.0 (child self.old parent.0 birth input.now cdis.now) }
        ensures live { live_count self.new ≡ live_count self.old + 1 }
    {
        let at = next_free(&mut self.free);
        attach(
            &mut self.links,
            &mut self.states,
            parent.0,
            at,
            birth,
            input,
            cdis,
        );
        Place(at)
    }

    /// Adds a child of a live context, and ends that context.
    pub fn replace(&mut self, parent: Place, birth: u64, input: &Input, cdis: &Cdis) -> Place
        requires parent { IsLive self.old parent.0 }
        requires depth { depth_at self.old parent.0 < depth_limit }
        requires birth { IsUnborn self.old birth }
        ensures free { IsFree self.old result.0 }
        ensures tree { self.new ≡ replaced self.old parent.0 result.0 birth input.now cdis.now }
        ensures live { live_count self.new ≡ live_count self.old }
    {
        let at = next_free(&mut self.free);
        attach_instead(
            &mut self.links,
            &mut self.states,
            parent.0,
            at,
            birth,
            input,
            cdis,
        );
        Place(at)
    }

    /// Ends a live context: its CDIs become zeros, and the places that no live context needs are given back.
    pub fn retire(&mut self, place: Place)
        requires { IsLive self.old place.0 }
        ensures tree { IsTrimmed (ended self.old place.0) self.new }
        ensures gone { context self.new place.0 ≡ None }
        ensures others { SameElsewhere self.old self.new place.0 }
        ensures live { live_count self.old ≡ live_count self.new + 1 }
    {
        retire_at(&self.links, &mut self.states, &mut self.free, place.0);
    }

    /// Whether the lineage of `place` begins with that of `above`.
    pub fn below(&self, above: Place, place: Place) -> bool
        requires above { IsUsed self.now above.0 }
        requires place { IsUsed self.now place.0 }
        ensures { IsTrue result ↔ BeginsWith (lineage_at self.now place.0) (lineage_at self.now above.0) }
    {
        let depth = self.links[place.0 as usize].depth;
        let depth_above = self.links[above.0 as usize].depth;
        depth_above <= depth && ancestor(&self.links, place.0, depth - depth_above) == above.0
    }

    /// The CDIs of a live context, and zeros for every other place.
    pub fn cdis(&self, place: Place) -> &Cdis
        requires { place.0 < place_limit }
        ensures { result.now ≡ cdis_at self.now place.0 }
    {
        &self.states[place.0 as usize].cdis
    }

    /// The mode of the last input on the way from the root, or 0 for the root.
    pub fn mode(&self, place: Place) -> u8
        requires { IsUsed self.now place.0 }
        ensures { result ≡ mode_at self.now place.0 }
    {
        self.links[place.0 as usize].input.mode
    }

    /// How many steps the place is below the root.
    pub fn depth(&self, place: Place) -> u8
        requires { IsUsed self.now place.0 }
        ensures { result ≡ depth_at self.now place.0 }
    {
        self.links[place.0 as usize].depth
    }

    /// The parent and the birth serial, or `None` for the root.
    pub fn lineage_step(&self, place: Place) -> Option<(Place, u64)>
        requires { IsUsed self.now place.0 }
        ensures root { result ≡ None ↔ lineage_at self.now place.0 ≡ [] }
        ensures step { IfSome result (λ s. IsStep self.now place.0 s.0.0 s.1) }
    {
        let link = &self.links[place.0 as usize];
        if link.depth == 0 {
            None
        } else {
            Some((Place(link.parent), link.birth))
        }
    }
}
