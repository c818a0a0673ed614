//! The command lines of a boot script: which words are a command, and what it asks for.
#![tactic(auto)]

mod act;
mod grammar;
mod options;
mod value;

pub use act::{Act, Config, Derive, Seal, Sign, Unseal};
pub use grammar::{Asking, read_asking};
pub use value::{Value, decode};
