//! What an empty arena is made of.
ghost use Rattle.std.specs.Prelude.{◌≡◌, ◌≤◌, IfOk, length, vec_capacity};
ghost use Rattle.dpe_tree.specs.Arena.{AreUnused, AreBelow};

use crate::node::{Link, State, TOP, UNUSED};
use std::alloc::{AllocError, Global};

/// So many links.
pub fn links(alloc: Global, many: u32) -> Result<Vec<Link>, AllocError>
    ensures { IfOk result (λ links. length links.items ≡ many) }
{
    let mut links = Vec::with_capacity(alloc, many as usize)?;
    for _place in 0..many {
        links.push(TOP)?;
    }
    Ok(links)
}

/// So many states of places that aren't used.
pub fn unused_states(alloc: Global, many: u32) -> Result<Vec<State>, AllocError>
    ensures length { IfOk result (λ states. length states.items ≡ many) }
    ensures unused { IfOk result (λ states. AreUnused states.items) }
{
    let mut states = Vec::with_capacity(alloc, many as usize)?;
    for _place in 0..many {
        states.push(UNUSED)?;
    }
    Ok(states)
}

/// The numbers below this one, with room for no more.
pub fn places_below(alloc: Global, many: u32) -> Result<Vec<u32>, AllocError>
    ensures places { IfOk result (λ places. AreBelow places.items many) }
    ensures capacity { IfOk result (λ places. many ≤ vec_capacity places) }
{
    let mut places = Vec::with_capacity(alloc, many as usize)?;
    for place in 0..many {
        places.push(place)?;
    }
    Ok(places)
}
