//! Giving back what no live context needs.
ghost use Rattle.std.specs.Prelude.{◌≡◌, ◌<◌, ◌≤◌, true, length, vec_capacity};
ghost use Rattle.dpe_tree.specs.Tree.{place_limit};
ghost use Rattle.dpe_tree.specs.Arena.{link_in, state_in, HaveUse, HaveUseBut, IsBase, IsPruned, stopped};

use crate::free::give_back;
use crate::node::{Link, State, end, lose_child, release};

/// Ends the context of a place, and gives back what no live context needs.
pub fn retire_at(links: &[Link], states: &mut [State], free: &mut Vec<u32>, place: u32)
    requires within { place < length states.old }
    requires base { IsBase links.now (stopped states.old place) free.old.items }
    requires place { (state_in (stopped states.old place) place).used ≡ true }
    requires uses { HaveUseBut (stopped states.old place) place }
    requires room { place_limit ≤ vec_capacity free.old }
    ensures base { IsBase links.now states.new free.new.items }
    ensures uses { HaveUse states.new }
    ensures pruned { IsPruned (link_in links.now) (state_in (stopped states.old place)) (state_in states.new) }
    ensures room { vec_capacity free.new ≡ vec_capacity free.old }
{
    end(states, place);
    trim(links, states, free, place);
}

/// Gives back the place while it is neither live nor has a child, and then its parent likewise, up to the root.
fn trim(links: &[Link], states: &mut [State], free: &mut Vec<u32>, place: u32)
    requires base { IsBase links.now states.old free.old.items }
    requires place { (state_in states.old place).used ≡ true }
    requires uses { HaveUseBut states.old place }
    requires room { place_limit ≤ vec_capacity free.old }
    ensures base { IsBase links.now states.new free.new.items }
    ensures uses { HaveUse states.new }
    ensures pruned { IsPruned (link_in links.now) (state_in states.old) (state_in states.new) }
    ensures room { vec_capacity free.new ≡ vec_capacity free.old }
{
    let mut at = place;
    while !states[at as usize].live && states[at as usize].children == 0 {
        release(states, at);
        give_back(free, at);
        if links[at as usize].depth == 0 {
            return;
        }
        at = links[at as usize].parent;
        lose_child(states, at);
    }
}
