//! The executor: one command of a caller, executed over the arena of secrets and the table of handles.
#![tactic(auto)]

mod boxes;
mod codes;
mod contexts;
mod derivation;
mod executor;
mod handles;
mod judging;
mod obeying;
mod replies;
mod state;

pub use executor::Core;
