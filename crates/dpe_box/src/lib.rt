//! Sealed boxes: data under a CDI and a label, for the localities and modes that a policy names. Nothing
//! here takes memory.
#![tactic(auto)]

mod policy;
mod sealing;

pub use policy::{NotOpened, Opened, Policy, Unopened};
pub use sealing::{admits, has_form, open_box, opens_as_sealed, seal, unseal, unseals_as_sealed};
