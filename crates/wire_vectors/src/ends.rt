//! Sources and sinks in memory, as rows name them.
use dpe_io::{MemSink, MemSource};
use std::alloc::Global;
use table_rows::{RowFault, Word};

/// A source of these bytes that gives a piece at most in a read, and of which these reads fail.
pub(crate) fn source(
    alloc: Global,
    given: &Word<'_>,
    piece: &Word<'_>,
    failing: &Word<'_>,
) -> Result<MemSource, RowFault> {
    let failing = failing.numbers(alloc)?;
    Ok(MemSource::new(alloc, given.bytes()?, piece.size()?, &failing)?)
}

/// A sink with such a room that takes a piece at most in a write, and of which these calls fail.
pub(crate) fn sink(
    alloc: Global,
    room: &Word<'_>,
    piece: &Word<'_>,
    failing: &Word<'_>,
) -> Result<MemSink, RowFault> {
    let failing = failing.numbers(alloc)?;
    Ok(MemSink::new(alloc, room.number()?, piece.size()?, &failing)?)
}
