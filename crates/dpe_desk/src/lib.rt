//! One sequential object, shared by threads in turns.
//!
//! A call draws a ticket, waits until it is served, steps the object and passes the turn on. There is one history of
//! all calls; what a caller's pass has seen is always a beginning of it.
#![tactic(auto)]

mod desk;
mod pass;
mod plays;
mod rule;
mod sequential;
mod view;

pub use desk::{ALL_STAKE, Desk, Full, NoMemory};
pub use pass::Pass;
pub use rule::{About, Turns};
pub use sequential::{Entry, Sequential};
pub use view::{Terms, View};
