//! The journal of a house: written at the end, and handed back.
ghost use Rattle.std.specs.Prelude.{◌≡◌, ◌≤◌, OnOk, OnErr};
ghost use Rattle.dpe_journal.specs.Journal.{journal_bytes};
ghost use Rattle.dpe_serve.specs.Closings.{HandsBackWhole, HandsBackPart};

use dpe_io::{Failed, House};
use dpe_journal::Book;

/// Writes the journal of the book, flushes, and hands the sink back, whatever came of it.
pub(crate) fn write_back<H: House>(
    house: &mut H,
    book: &Book,
    journal: H::Journal,
) -> Result<(), Failed>
    requires { 1 ≤ (H.journals house.old).out }
    ensures whole { OnOk result (HandsBackWhole H.Journal.bytes H.Journal.faults
        (journal_bytes book.now.first book.now.history) (H.journals house.old) journal (H.journals house.new)) }
    ensures part { OnErr result (HandsBackPart H.Journal.bytes H.Journal.faults
        (journal_bytes book.now.first book.now.history) (H.journals house.old) journal (H.journals house.new)) }
    ensures seeds { H.seeds house.new ≡ H.seeds house.old }
    ensures doors { H.doors house.new ≡ H.doors house.old }
    ensures entropies { H.entropies house.new ≡ H.entropies house.old }
{
    let mut journal = journal;
    let written = book.write_to(&mut journal);
    house.take_journal(journal);
    match written {
        Ok(()) => Ok(()),
        Err(_) => Err(Failed),
    }
}
