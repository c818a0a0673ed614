//! How a run ends.

/// How a run ended, once its words were right.
#[derive(Clone, Copy)]
pub enum End {
    /// Each line was answered.
    Done,
    /// Want of memory, before a link was opened.
    NoMemory,
    /// The script couldn't be opened, or read.
    NoScript,
    /// A line of the script is bad, or the script is too long.
    BadScript,
    /// A link couldn't be opened, or failed.
    LinkFault,
    /// What came back for a line is no reply.
    BadReply,
    /// The output failed.
    OutputFault,
}
