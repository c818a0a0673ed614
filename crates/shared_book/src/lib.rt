//! Threads that share a book: each makes its calls by a pass of its own, and all of them stand in one history.
#![tactic(auto)]

mod share;

pub use share::{act_both, act_often, open};
