//! What the program does.
ghost use Rattle.std.specs.Prelude.{◌≡◌, ◌≢◌, ◌<◌, ◌≤◌, ◌↔◌, ◌⊎◌, ℕ, List, [], Some, length, OnOk, OnErr};
ghost use Rattle.std.specs.Io.KnownBytes.{Appends};
ghost use Rattle.dpe_io.specs.Causes.{HasCause, Rose};
ghost use Rattle.dpe_text.specs.Writing.{AppendsFront};
ghost use Rattle.dpe_vaults.specs.Items.{reply_bytes, ReadsEnd, HasFault};
ghost use Rattle.dpe_vaults.specs.Kept.{calls_of, reply_to};
ghost use Rattle.dpe_vaults.specs.Runs.{ForEntries, IsRunStatus, IsStatus, LeadsTo, Ran};
ghost use Rattle.dpe_vaults.specs.Views.{next_entry, with_entry};
ghost use Rattle.dpe_vaults.specs.Words.{AreFaulty, AskFor, texts};

use crate::call::VaultCall;
use crate::item::{MAX_ITEM, MAX_REPLY, Taken, put_reply, read_item};
use crate::reply::VaultReply;
use crate::vault::Vault;
use crate::words::read_words;
use dpe_io::{Failed, Sink, Source};
use dpe_link::fill;
use dpe_text::print;
use std::alloc::Global;

// Who asks, in the vault's list.
const CALLER: u32 = 0;

// Does what a call asks, and writes the reply. The room and the reply may hold anything.
fn answer<K: Sink>(
    vault: &mut Vault,
    call: &VaultCall,
    reply: &mut VaultReply,
    room: &mut [u8; MAX_REPLY],
    sink: &mut K,
) -> Result<(), Failed>
    requires { length vault.old.entries < vault.old.capacity }
    ensures vault { vault.new ≡ with_entry vault.old (next_entry vault.old 0 call.now) }
    ensures ok { OnOk result (Appends (K.bytes sink.old) (K.bytes sink.new)
        (reply_bytes (reply_to (calls_of vault.old.entries) call.now))) }
    ensures front { OnErr result (AppendsFront (K.bytes sink.old) (K.bytes sink.new)
        (reply_bytes (reply_to (calls_of vault.old.entries) call.now))) }
    ensures cause { HasCause (K.faults sink.old) (K.faults sink.new) result }
{
    vault.step(CALLER, call, reply);
    let len = put_reply(reply, room);
    print(sink, &room[..len])
}

// Tells whether the source is at its end, behind the last item.
fn read_end<S: Source>(source: &mut S) -> Taken
    ensures end { ReadsEnd (S.left source.old) (S.left source.new) result }
    ensures cause { HasFault (S.faults source.old) (S.faults source.new) result }
{
    let mut byte = [0; 1];
    let Ok(count) = fill(source, &mut byte) else {
        return Taken::Fault;
    };
    if count == 0 {
        return Taken::End;
    }
    Taken::NoItem
}

// Does what the items ask, one by one, and writes the replies.
fn answer_all<S: Source, K: Sink>(
    vault: &mut Vault,
    entries: u32,
    source: &mut S,
    sink: &mut K,
) -> u8
    requires { vault.old ≡ record { capacity = entries; entries = [] } }
    ensures statuses { IsRunStatus result }
    ensures ran { Ran entries (S.left source.old) (S.left source.new) (K.bytes sink.old) (K.bytes sink.new) result }
    ensures source_fault { result ≡ 4 → Rose (S.faults source.old) (S.faults source.new) }
    ensures sink_fault { result ≡ 7 → Rose (K.faults sink.old) (K.faults sink.new) }
    ensures source_kept { result ≢ 4 → S.faults source.new ≡ S.faults source.old }
    ensures sink_kept { result ≢ 7 → K.faults sink.new ≡ K.faults sink.old }
{
    let mut room = [0; MAX_ITEM];
    let mut out = [0; MAX_REPLY];
    let mut call = VaultCall::blank();
    let mut reply = VaultReply::new();
    for _turn in 0..entries {
        match read_item(source, &mut room, &mut call) {
            Taken::Whole => {}
            Taken::End => return 0,
            Taken::NoItem => return 9,
            Taken::Fault => return 4,
        }
        let Ok(()) = answer(vault, &call, &mut reply, &mut out, sink) else {
            return 7;
        };
    }
    match read_end(source) {
        Taken::Fault => 4,
        Taken::NoItem => 10,
        _ => 0,
    }
}

// Does what the items ask, and hands on the replies once all are written. A failed flush is a fault of the sink, whatever the
// end was.
fn answer_and_flush<S: Source, K: Sink>(
    vault: &mut Vault,
    entries: u32,
    source: &mut S,
    sink: &mut K,
) -> u8
    requires { vault.old ≡ record { capacity = entries; entries = [] } }
    ensures statuses { IsRunStatus result }
    ensures ran { Ran entries (S.left source.old) (S.left source.new) (K.bytes sink.old) (K.bytes sink.new) result }
    ensures source_fault { result ≡ 4 → Rose (S.faults source.old) (S.faults source.new) }
    ensures sink_fault { result ≡ 7 → Rose (K.faults sink.old) (K.faults sink.new) }
    ensures source_kept { result ≢ 4 → result ≢ 7 → S.faults source.new ≡ S.faults source.old }
    ensures sink_kept { result ≢ 7 → K.faults sink.new ≡ K.faults sink.old }
{
    let status = answer_all(vault, entries, source, sink);
    if status == 7 {
        return 7;
    }
    match sink.flush() {
        Ok(()) => status,
        Err(Failed) => 7,
    }
}

/// Answers the items of the source by a vault for as many calls as the one word ENTRIES says, 1 to 4,096, and answers the
/// program's exit status. The replies are written to the sink.
///
/// 0 done; 2 words out of form; 3 no memory; 4 the source; 7 the sink; 9 bytes that are no item; 10 more than ENTRIES items.
pub fn vault_main<S: Source, K: Sink>(
    alloc: Global,
    words: &[&str],
    source: &mut S,
    sink: &mut K,
) -> u8
    ensures statuses { IsStatus result }

    // 2: exactly where the words are of another form. At 2 and at 3, want of memory, nothing is read or written.
    ensures words { (result ≡ 2) ↔ AreFaulty (texts words.now) }
    ensures untouched { result ≡ 2 → (source.new ≡ source.old) × (sink.new ≡ sink.old) }
    ensures no_memory { result ≡ 3 → (source.new ≡ source.old) × (sink.new ≡ sink.old) }

    // 4 and 7: only where the source failed, and only where the sink did.
    ensures source_fault { result ≡ 4 → Rose (S.faults source.old) (S.faults source.new) }
    ensures sink_fault { result ≡ 7 → Rose (K.faults sink.old) (K.faults sink.new) }
    ensures source_kept { result ≢ 4 → result ≢ 7 → S.faults source.new ≡ S.faults source.old }
    ensures sink_kept { result ≢ 7 → K.faults sink.new ≡ K.faults sink.old }

    // At every other status items were read and answered, in order, and the status says what stands behind them.
    ensures ran { result ≢ 2 → result ≢ 3 → ForEntries (texts words.now) (λ entries.
        Ran entries (S.left source.old) (S.left source.new) (K.bytes sink.old) (K.bytes sink.new) result) }

    // Right words and no fault give the one status of the bytes that a source tells, or 3.
    ensures complete { (entries : ℕ) (bytes : List ℕ) (status : ℕ) → AskFor (texts words.now) entries
        → S.left source.old ≡ Some bytes → LeadsTo entries bytes status
        → (Rose (S.faults source.old) (S.faults source.new) → ⊥)
        → (Rose (K.faults sink.old) (K.faults sink.new) → ⊥) → (result ≡ status) ⊎ (result ≡ 3) }
    ensures leads { (entries : ℕ) (bytes : List ℕ) → AskFor (texts words.now) entries
        → S.left source.old ≡ Some bytes → (result ≡ 0) ⊎ ((result ≡ 9) ⊎ (result ≡ 10)) → LeadsTo entries bytes result }
{
    let Some(entries) = read_words(words) else {
        return 2;
    };
    let Ok(mut vault) = Vault::make(alloc, entries) else {
        return 3;
    };
    answer_and_flush(&mut vault, entries, source, sink)
}
