//! The sequential DPE over a tape of commands, and over a load that is made of a number.
#![tactic(auto)]

mod act;
mod batch;
mod draws;
mod law;
mod load;
mod pool;
mod run;
mod stock;
mod tally;
mod tape;
mod words;

pub use batch::batch_main;
pub use tape::{ItemBuffer, Taken, read_item};
