//! Connections served in order: each frame that comes in is one command, made as one call of the shared book, and the reply
//! goes back as a frame. A worker serves the connections of one door.
#![tactic(auto)]

mod connection;
mod law;
mod room;
mod worker;

pub use connection::{End, serve_connection};
pub use law::{closed_where_nothing_failed, one_ending};
pub use room::Room;
pub use worker::{Tally, Worker, serve_worker};
