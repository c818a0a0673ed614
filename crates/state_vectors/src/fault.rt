//! Why a row has no answer.
use std::alloc::AllocError;
use table_rows::RowFault;

/// Why a row has no answer.
#[derive(Clone, Copy)]
pub enum Fault {
    /// The row has another form than the table's head tells.
    Unreadable,
    /// What the call asks for doesn't hold.
    Unmet,
    /// The executor and the plain evaluator reply otherwise.
    Differ,
    /// They tell other contexts.
    ContextsDiffer,
    /// There is no memory.
    Memory,
}

impl From<AllocError> for Fault {
    fn from(_: AllocError) -> Fault {
        Fault::Memory
    }
}

impl From<RowFault> for Fault {
    fn from(fault: RowFault) -> Fault {
        match fault {
            RowFault::Unreadable => Fault::Unreadable,
            RowFault::OutOfMemory => Fault::Memory,
        }
    }
}
