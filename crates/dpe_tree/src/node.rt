//! What the arena keeps of each place.
ghost use Rattle.std.specs.Prelude.{◌≡◌, ℕ, ◌+◌, ◌-◌, ◌^◌, ◌<◌, ◌≤◌, length, slice_set};
ghost use Rattle.dpe_tree.specs.Arena.{link_in, state_in, up, live_with, unused, one_child_more, one_child_less, attached, started, stopped, top};

use crate::tree::MOST_PLACES;
use dpe_inputs::{Cdis, Input};

/// The parent of the root: no place has this number.
pub const NO_PLACE: u32 = MOST_PLACES;

const NO_CDIS: Cdis = Cdis {
    attest: [0; 32],
    seal: [0; 32],
};

const NO_INPUT: Input = Input {
    code: [0; 64],
    config: [0; 64],
    authority: [0; 64],
    mode: 0,
    hidden: [0; 64],
};

/// What stays while a place is used: its parent, how far it is from the root, and the birth of its context. The root
/// has depth 0 and no birth.
#[derive(Clone, Copy)]
pub struct Link {
    pub parent: u32,
    pub depth: u8,
    pub birth: u64,
    pub input: Input,
}

/// What changes: whether the place is used, whether its context is live, how many used places have it as their parent,
/// and the CDIs, which are zeros unless the context is live.
#[derive(Clone, Copy)]
pub struct State {
    pub used: bool,
    pub live: bool,
    pub children: u32,
    pub cdis: Cdis,
}

/// The link of the root.
pub const TOP: Link = Link {
    parent: NO_PLACE,
    depth: 0,
    birth: 0,
    input: NO_INPUT,
};

/// The state of a place that was never used.
pub const UNUSED: State = State {
    used: false,
    live: false,
    children: 0,
    cdis: NO_CDIS,
};

/// The place that many steps above this one.
pub fn ancestor(links: &[Link], place: u32, steps: u8) -> u32
    requires { (k : ℕ) → k < steps → up (link_in links.now) k place < length links.now }
    ensures { result ≡ up (link_in links.now) steps place }
{
    let mut at = place;
    for _step in 0..steps {
        at = links[at as usize].parent;
    }
    at
}

/// Links a place below its parent.
fn grow(links: &mut [Link], parent: u32, place: u32, birth: u64, input: &Input)
    requires parent { parent < length links.old }
    requires depth { (link_in links.old parent).depth < 255 }
    requires place { place < length links.old }
    ensures { links.new ≡ attached links.old parent place birth input.now }
{
    links[place as usize] = Link {
        parent,
        depth: links[parent as usize].depth + 1,
        birth,
        input: *input,
    };
}

/// Makes a place a live one with these CDIs and no child.
fn start(states: &mut [State], place: u32, cdis: &Cdis)
    requires { place < length states.old }
    ensures { states.new ≡ slice_set states.old place (live_with cdis.now) }
{
    states[place as usize] = State {
        used: true,
        live: true,
        children: 0,
        cdis: *cdis,
    };
}

/// Ends the context of a place, whose CDIs become zeros.
pub fn end(states: &mut [State], place: u32)
    requires { place < length states.old }
    ensures { states.new ≡ stopped states.old place }
{
    let state = &mut states[place as usize];
    state.live = false;
    state.cdis = NO_CDIS;
}

/// One child more.
fn gain_child(states: &mut [State], place: u32)
    requires place { place < length states.old }
    requires room { (state_in states.old place).children + 1 < 2 ^ 32 }
    ensures { states.new ≡ one_child_more states.old place }
{
    states[place as usize].children += 1;
}

/// One child less.
pub fn lose_child(states: &mut [State], place: u32)
    requires place { place < length states.old }
    requires child { 0 < (state_in states.old place).children }
    ensures { states.new ≡ one_child_less states.old place }
{
    states[place as usize].children -= 1;
}

/// The place isn't used any more.
pub fn release(states: &mut [State], place: u32)
    requires { place < length states.old }
    ensures { states.new ≡ slice_set states.old place (unused (state_in states.old place)) }
{
    states[place as usize].used = false;
}

/// Makes the place the live root.
pub fn attach_root(links: &mut [Link], states: &mut [State], place: u32, cdis: &Cdis)
    requires links { place < length links.old }
    requires states { place < length states.old }
    ensures links { links.new ≡ slice_set links.old place top }
    ensures states { states.new ≡ slice_set states.old place (live_with cdis.now) }
{
    links[place as usize] = TOP;
    start(states, place, cdis);
}

/// Puts a live place below its parent.
pub fn attach(
    links: &mut [Link],
    states: &mut [State],
    parent: u32,
    place: u32,
    birth: u64,
    input: &Input,
    cdis: &Cdis,
)
    requires links { (parent < length links.old) × (place < length links.old) }
    requires states { (parent < length states.old) × (place < length states.old) }
    requires depth { (link_in links.old parent).depth < 255 }
    requires children { (state_in states.old parent).children + 1 < 2 ^ 32 }
    ensures links { links.new ≡ attached links.old parent place birth input.now }
    ensures states { states.new ≡ started states.old parent place cdis.now }
{
    grow(links, parent, place, birth, input);
    gain_child(states, parent);
    start(states, place, cdis);
}

/// Puts a live place below its parent, whose context ends.
pub fn attach_instead(
    links: &mut [Link],
    states: &mut [State],
    parent: u32,
    place: u32,
    birth: u64,
    input: &Input,
    cdis: &Cdis,
)
    requires links { (parent < length links.old) × (place < length links.old) }
    requires states { (parent < length states.old) × (place < length states.old) }
    requires depth { (link_in links.old parent).depth < 255 }
    requires children { (state_in states.old parent).children + 1 < 2 ^ 32 }
    ensures links { links.new ≡ attached links.old parent place birth input.now }
    ensures states { states.new ≡ started (stopped states.old parent) parent place cdis.now }
{
    end(states, parent);
    attach(links, states, parent, place, birth, input, cdis);
}
