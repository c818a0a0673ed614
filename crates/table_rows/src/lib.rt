//! Tables of calls, of which each row has words: what a word stands for, and how an answer is told.
#![tactic(auto)]

mod fault;
mod names;
mod pieces;
mod told;
mod words;

pub use fault::RowFault;
pub use names::Names;
pub use told::{
    Told, field, field_or_none, flag, number, put, put_alike, put_digits, separate, show,
    show_alike,
};
pub use words::{Word, words_of};
