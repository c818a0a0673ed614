//! What came of a run, and how it is shown.
use crate::bytes::shown;
use std::alloc::{AllocError, Global};

/// The status of a run, what was written or printed, the paths that were asked for, and what was sent on each link that was
/// handed back.
#[derive(Drop)]
pub struct Outcome {
    pub status: u8,
    pub output: Vec<u8>,
    pub paths: Vec<u8>,
    pub sent: Vec<Vec<u8>>,
}

// Appends a part, behind a `|`.
fn add_part(alloc: Global, text: &mut String, bytes: &[u8]) -> Result<(), AllocError> {
    let part = shown(alloc, bytes)?;
    let line = format!(in alloc; " | {part}")?;
    text.push_str(line.as_str())
}

impl Outcome {
    /// As a line: the parts with `|` between them, without the paths where none was asked for.
    pub(crate) fn shown(&self, alloc: Global) -> Result<String, AllocError> {
        let mut text = format!(in alloc; "{}", self.status)?;
        add_part(alloc, &mut text, &self.output)?;
        if !self.paths.is_empty() {
            add_part(alloc, &mut text, &self.paths)?;
        }
        for sent in &self.sent {
            add_part(alloc, &mut text, sent)?;
        }
        Ok(text)
    }
}
