//! Text for people: numbers read, and lines put together in a fixed room and written to a sink.
#![tactic(auto)]

mod number;
mod text;
mod writing;

pub use number::parse_number;
pub use text::{MAX_TEXT, Text};
pub use writing::{print, send};
