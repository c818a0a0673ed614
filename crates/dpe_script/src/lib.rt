//! The client of a DICE Protection Environment: reads a boot script, checks it whole, and runs it on its links.
#![tactic(auto)]

mod answer;
mod client;
mod command;
mod end;
mod links;
mod names;
mod run;
mod script;
mod values;

pub use answer::take_answer;
pub use client::client_main;
pub use command::write_act;
pub use names::Names;
pub use script::{Line, Script, ScriptFault, read_script};
pub use values::Values;
