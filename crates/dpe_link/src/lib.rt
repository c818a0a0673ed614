//! Frames on a stream: a payload of at most 4,096 bytes behind its length in four bytes.
#![tactic(auto)]

ghost use Rattle.dpe_link.specs.Frames.{FramesAreOne};

mod read;
mod write;

pub use read::{FrameFault, fill, read_frame};
pub use write::{WriteFault, append_frame, write_frame};

/// Bytes are the frames of one list of payloads, and of one rest that begins with no whole frame.
pub fn frames_are_one()
    ensures { FramesAreOne }
{}
