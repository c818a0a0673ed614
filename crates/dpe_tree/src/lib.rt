//! The arena of secrets: a fixed tree of contexts, each with its lineage and, while it is live, its two CDIs.
#![tactic(auto)]

mod free;
mod fresh;
mod node;
mod tree;
mod trim;

pub use tree::{MOST_DEPTH, MOST_LIVE, MOST_PLACES, Place, Tree};
