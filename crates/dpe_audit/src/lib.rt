//! Audits a journal: whether its history is legal, what lives after it, and what it has.
#![tactic(auto)]

ghost use Rattle.dpe_audit.specs.Replay.{OneFinding, SomeFinding};

mod audit;
mod judging;
mod listing;
mod reading;
mod replay;
mod seed;
mod texts;
mod verdict;
mod words;

pub use replay::replay_main;

/// Each list of bytes is found to be something, for one mode and seed.
pub fn some_finding()
    ensures { SomeFinding }
{}

/// And to be one thing alone.
pub fn one_finding()
    ensures { OneFinding }
{}
