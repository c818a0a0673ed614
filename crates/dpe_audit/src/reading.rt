//! A journal's header and its records, read one by one.
ghost use Rattle.std.specs.Prelude.{◌≡◌, ◌+◌, ◌<◌, ◌^◌, ℕ, length, IfOk, IfErr, OnOk};
ghost use Rattle.std.specs.Io.KnownBytes.{Consumes};
ghost use Rattle.dpe_journal.specs.Journal.{header_bytes, record_bytes};
ghost use Rattle.dpe_journal.specs.Reading.{StopsThere, HasReadCause};
ghost use Rattle.dpe_journal.specs.Stages.{at_front, behind};
ghost use Rattle.dpe_journal.specs.Stored.{entry_of};
ghost use Rattle.dpe_audit.specs.Taking.{TakesRecord, HasTakeCause};

use dpe_io::Source;
use dpe_journal::{Entry, Next, RecordFault, Records};

/// What was read in the place of a record.
#[derive(Clone, Copy)]
pub enum Taken {
    /// A record, which stands in the entry.
    Record,
    /// The journal's end.
    End,
    /// Neither.
    Fault(RecordFault),
}

/// Reads the header, and gives the first serial.
pub fn read_header<S: Source>(
    records: &mut Records<S>,
    entry: &mut Entry,
) -> Result<u64, RecordFault>
    requires { records.old.stage ≡ at_front }
    ensures range { IfOk result (λ first. first < 2 ^ 64) }
    ensures header { IfOk result (λ first. Consumes (S.left records.old.source)
        (S.left records.new.source) (header_bytes first)) }
    ensures stage { OnOk result (records.new.stage ≡ behind 0) }
    ensures at { OnOk result (records.new.at ≡ records.old.at + 13) }
    ensures fault { IfErr result (StopsThere (S.left records.old.source) (S.left records.new.source)
        at_front records.old.at) }
    ensures cause { HasReadCause (S.faults records.old.source) (S.faults records.new.source) result }
{
    match records.next(entry) {
        Ok(next) => match next {
            Next::Header(first) => Ok(first),
            Next::Entry => unreachable!(),
            Next::End(_) => unreachable!(),
        },
        Err(fault) => Err(fault),
    }
}

/// Reads what stands behind the header and the records before: a record into the entry, or the end.
pub fn read_record<S: Source>(records: &mut Records<S>, entry: &mut Entry) -> Taken
    requires { (count : ℕ) × (records.old.stage ≡ behind count) }
    ensures takes { (count : ℕ) → records.old.stage ≡ behind count
        → TakesRecord (S.left records.old.source) (S.left records.new.source) count records.old.at (entry_of entry.new) result }
    ensures stage { (count : ℕ) → records.old.stage ≡ behind count → result ≡ Taken.Record
        → records.new.stage ≡ behind (count + 1) }
    ensures at { result ≡ Taken.Record → records.new.at ≡ records.old.at + length (record_bytes (entry_of entry.new)) }
    ensures cause { HasTakeCause (S.faults records.old.source) (S.faults records.new.source) result }
{
    match records.next(entry) {
        Ok(next) => match next {
            Next::Header(_) => unreachable!(),
            Next::Entry => Taken::Record,
            Next::End(_) => Taken::End,
        },
        Err(fault) => Taken::Fault(fault),
    }
}
