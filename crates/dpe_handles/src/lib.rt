//! The table of live handles: which context each handle names, found in a few steps.
#![tactic(auto)]

mod find;
mod row;
mod table;

pub use row::Row;
pub use table::{MOST_ROWS, Steps, Table};
