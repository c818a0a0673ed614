//! The real outside: houses, shelves and docks over files, Unix sockets and `/dev/urandom`, and how a program begins and
//! ends. The objects tell nothing of content; that the system does what std says of it is trusted.
#![tactic(auto)]

mod ahead;
mod dock;
mod door;
mod house;
mod limit;
mod link;
mod openings;
mod program;
mod report;
mod shelf;
mod urandom;
mod words;
mod words_ahead;

pub use ahead::{FILE_AHEAD, LINK_AHEAD, ReadAhead};
pub use dock::FileDock;
pub use door::UnixDoor;
pub use house::UnixHouse;
pub use limit::idle_limit;
pub use link::UnixLink;
pub use program::run_program;
pub use report::{Cause, Manual, tell};
pub use shelf::FileShelf;
pub use urandom::Urandom;
pub use words::NO_MEMORY;
pub use words_ahead::WordsAhead;
