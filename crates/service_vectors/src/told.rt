//! What the rows tell in common.
use std::alloc::AllocError;
use table_rows::{RowFault, Told, Word, put, show, show_alike};

/// How many bytes a read gives at most: each journal and each connection is read in these ways too, and tells the same.
pub(crate) const SMALL_PIECES: [usize; 2] = [1, 7];

/// A piece that takes all bytes of a row.
pub(crate) const WHOLE: usize = 9_000;

// The most bytes that are told as they are.
const FULL: usize = 1_000;

/// What is told where the ways differ.
pub(crate) static DIFFERS: &str = ", and differs in other pieces";

/// Tells bytes behind their name; more than 1,000 that aren't alike by their number and their SHA-512.
pub(crate) fn bytes(told: &mut String, name: &str, bytes: &[u8]) -> Told {
    put(told, name)?;
    if bytes.len() > FULL {
        return show(told, bytes);
    }
    show_alike(told, bytes)
}

/// The bytes of the only word.
pub(crate) fn only<'a>(words: &'a [Word<'_>]) -> Result<&'a [u8], RowFault> {
    match words {
        [word] => word.bytes(),
        _ => Err(RowFault::Unreadable),
    }
}

/// Tells what calls answer that differ in one number: each answer once, behind the least number that has it.
#[derive(Drop)]
pub(crate) struct Runs {
    pub(crate) last: String,
}

impl Runs {
    /// Tells the answer at the next number, where it is another.
    pub(crate) fn add(
        &mut self,
        number: usize,
        answer: String,
        told: &mut String,
    ) -> Result<(), AllocError> {
        if self.last.as_str() != answer.as_str() {
            if !told.is_empty() {
                told.push_str("; ")?;
            }
            write!(told, "{number}: {answer}")?;
            self.last = answer;
        }
        Ok(())
    }
}
