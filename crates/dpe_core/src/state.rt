use crate::contexts::Contexts;
use dpe_inputs::Unsalted;

/// The serials, whether a root was ever made, and the live contexts.
#[derive(Drop)]
pub struct CoreState {
    pub first: u64,
    pub next: u64,
    pub made: bool,
    pub contexts: Contexts,
    /// The state of the absent salt, which each signature begins with.
    pub unsalted: Unsalted,
}
