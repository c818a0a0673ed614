//! The server: connections that come in at doors, each command made as one call of the shared book, and the journal of them
//! all.
#![tactic(auto)]

mod closing;
mod crew;
mod opening;
mod seed;
mod serve;
mod setting;
mod summary;

pub use crew::{Post, serve_all};
pub use dpe_connections::{
    End, Room, Tally, Worker, closed_where_nothing_failed, one_ending, serve_connection,
    serve_worker,
};
pub use serve::{headline_is_met, serve_main};
pub use setting::one_setting;
