//! A ratchet of versions for boxes: firmware of a version opens what any earlier version sealed, and nothing that a later
//! one did. Nothing here takes memory.
#![tactic(auto)]

mod laws;
mod parts;
mod program;
mod stage;
mod words;

pub use laws::{each_key_follows, opens_from_its_version_on};
pub use program::ratchet_main;
pub use stage::{RatchetFault, Stage, top};
