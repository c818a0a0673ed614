//! The replies of a history, compared with those that an executor gives.
ghost use Rattle.std.specs.Prelude.{◌≡◌, ◌+◌, ◌<◌, ℕ, OnOk, IfErr, count_by, List, [], ◌∷◌, ◌++◌};
ghost use Rattle.dpe_model.specs.History as history;
ghost use Rattle.dpe_journal.specs.Stages.{behind};
ghost use Rattle.dpe_journal.specs.Stored.{entry_of};
ghost use Rattle.dpe_audit.specs.Judging.{Judges, HasJudgeCause, Counts, IsOther, given_reply, machine_after};
ghost use Rattle.dpe_audit.specs.Printed as printed;

use crate::reading::{Taken, read_record};
use dpe_core::Core;
use dpe_inputs::Count;
use dpe_io::{MAX_PACKET, Source};
use dpe_journal::{Entry, RecordFault, Records};
use dpe_messages::reply_code;

/// How many entries there are, and how many of their replies have another code than 0.
#[derive(Clone, Copy)]
pub struct Tally {
    pub entries: u32,
    pub refused: u32,
}

/// How the judging of a history ended.
#[derive(Clone, Copy)]
pub enum Judgement {
    /// Each reply is the one that is given there.
    Legal(Tally),
    /// The reply of the last entry, of this number, isn't. The one that is given there has so many bytes.
    Differs { number: u32, len: usize },
    /// The journal has a fault behind the records.
    Faulty(RecordFault),
}

// Executes an entry's command, and says how long the reply is where it is another than the entry's.
fn reproduce(core: &mut Core, entry: &Entry, room: &mut [u8; MAX_PACKET]) -> Result<(), usize>
    ensures stands { core.new ≡ machine_after core.old (entry_of entry.now ∷ []) }
    ensures same { OnOk result ((entry_of entry.now).reply ≡ given_reply core.old (entry_of entry.now)) }
    ensures other { IfErr result (IsOther core.old (entry_of entry.now) room.new) }
{
    let mut folds = Count::new();
    let call = &entry.call;
    let len = core.execute(
        call.locality(),
        call.random(),
        call.payload(),
        room,
        &mut folds,
    );
    if entry.reply.bytes() == &room[..len] {
        return Ok(());
    }
    Err(len)
}

// Whether the reply has another code than 0.
fn is_refused(entry: &Entry) -> bool
    ensures { result ≡ printed.is_refused (entry_of entry.now) }
{
    match reply_code(entry.reply.bytes()) {
        Some(code) => code != 0,
        None => true,
    }
}

// One entry more.
fn counted(tally: Tally, entry: &Entry) -> Tally
    requires entries { tally.entries < 65536 }
    requires refused { tally.refused < 65536 }
    ensures { (H : List history.Entry) → Counts tally H → Counts result (H ++ entry_of entry.now ∷ []) }
{
    Tally {
        entries: tally.entries + 1,
        refused: tally.refused + u32::from(is_refused(entry)),
    }
}

/// Executes the commands of the records behind the header, one by one, and compares the replies, up to the first that
/// differs. The entry is then the one that has it, and the reply that is given there stands at the front of the room.
pub fn judge<S: Source>(
    records: &mut Records<S>,
    core: &mut Core,
    entry: &mut Entry,
    room: &mut [u8; MAX_PACKET],
) -> Judgement
    requires { records.old.stage ≡ behind 0 }
    ensures judges { Judges core.old (S.left records.old.source) (S.left records.new.source) records.old.at
        core.new (entry_of entry.new) room.new result }
    ensures cause { HasJudgeCause (S.faults records.old.source) (S.faults records.new.source) result }
{
    let mut tally = Tally {
        entries: 0,
        refused: 0,
    };
    'records: loop {
        match read_record(records, entry) {
            Taken::Record => {}
            Taken::End => return Judgement::Legal(tally),
            Taken::Fault(fault) => return Judgement::Faulty(fault),
        }
        match reproduce(core, entry, room) {
            Ok(()) => {}
            Err(len) => {
                return Judgement::Differs {
                    number: tally.entries,
                    len,
                };
            }
        }
        tally = counted(tally, entry);
    }
}
