//! The history of all that an executor did, stored beside it; and its journal: the entries as bytes, written to a sink and
//! read back from a source, record by record.
#![tactic(auto)]

ghost use Rattle.dpe_journal.specs.Journal.{JournalIsOne};
ghost use Rattle.dpe_journal.specs.Reading.{OneAnswer, SomeAnswer};

mod book;
mod decode;
mod entry;
mod fields;
mod records;
mod shared;
mod storage;
mod write;

pub use book::Book;
pub use entry::{Call, Entry};
pub use records::{Next, RecordFault, Records};
pub use shared::seen_is_legal;
pub use write::{MAX_RECORDS, SinkFault, write_journal};

/// The bytes of a journal are those of one first serial and of one history.
pub fn journal_is_one()
    ensures { JournalIsOne }
{}

/// Bytes that are read from one place on have an answer.
pub fn some_answer()
    ensures { SomeAnswer }
{}

/// And one alone, where no read fails.
pub fn one_answer()
    ensures { OneAnswer }
{}
