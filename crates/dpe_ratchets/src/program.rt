//! What the program does.
ghost use Rattle.std.specs.Prelude.{◌≡◌, ◌≢◌, ◌+◌, ◌≤◌, ◌↔◌, ℕ, List, Some, length, take, IfOk};
ghost use Rattle.std.specs.Io.KnownBytes.{Appends};
ghost use Rattle.dpe_io.specs.Causes.{Rose};
ghost use Rattle.dpe_text.specs.Writing.{AppendsFront};
ghost use Rattle.dpe_ratchets.specs.Boxes.{Answer, data_of, result_of};
ghost use Rattle.dpe_ratchets.specs.Ends.{answer_status, answer_to, box_for, Ends, ForRequest, IsRefusal, IsStatus, status_for};
ghost use Rattle.dpe_ratchets.specs.Words.{AreFaulty, AskFor, texts};

use crate::parts::TOP;
use crate::stage::{RatchetFault, top};
use crate::words::{OpenRequest, Request, SealRequest, read_words};
use dpe_box::Policy;
use dpe_io::{Failed, Sink, Source};
use dpe_link::fill;
use dpe_text::send;

/// The most bytes that can be sealed, and the most that what is opened can have.
const MAX_PLAIN: usize = 2_048;

const MAX_SEALED: usize = 2_136;

/// Every locality and every mode.
const EVERYBODY: Policy = Policy {
    localities: 255,
    modes: 15,
};

// Seals at the asked version.
fn seal_for(asked: &SealRequest, plain: &[u8], out: &mut [u8; 4096]) -> usize
    requires own { asked.now.own ≤ TOP }
    requires version { asked.now.version ≤ asked.now.own }
    requires plain { length plain.now ≤ MAX_PLAIN }
    ensures len { result ≡ 88 + length plain.now }
    ensures written { take result out.new ≡ box_for asked.now plain.now }
{
    let stage = top(&asked.cdi).down(asked.own);
    let label = asked.label.bytes();
    stage.seal(asked.version, label, &EVERYBODY, &asked.salt, plain, out)
}

// Opens at the asked version.
fn open_for(asked: &OpenRequest, sealed: &[u8], out: &mut [u8; 2048]) -> Result<usize, RatchetFault>
    requires { asked.now.own ≤ TOP }
    ensures answer { result ≡ result_of (answer_to asked.now sealed.now) }
    ensures data { IfOk result (λ len. take len out.new ≡ data_of (answer_to asked.now sealed.now)) }
    ensures bound { IfOk result (λ len. len ≤ 2048) }
{
    let stage = top(&asked.cdi).down(asked.own);
    let label = asked.label.bytes();
    stage.open_box(label, sealed, asked.locality, asked.mode, out)
}

// The status of a fault.
fn fault_status(fault: &RatchetFault) -> u8
    ensures status { (a : Answer) → Err fault.now ≡ result_of a → result ≡ answer_status a }
    ensures refusal { IsRefusal result × (30 ≤ result) }
{
    match fault {
        RatchetFault::Malformed => 30,
        RatchetFault::Refused => 31,
        RatchetFault::PolicyRefused => 32,
        RatchetFault::TooNew { version: _ } => 33,
    }
}

// Writes bytes: 0, or 7 where the sink failed.
fn send_status<K: Sink>(sink: &mut K, bytes: &[u8]) -> u8
    ensures statuses { result ≢ 7 → result ≡ 0 }
    ensures sent { result ≡ 0 → Appends (K.bytes sink.old) (K.bytes sink.new) bytes.now }
    ensures unsent { result ≡ 7 → AppendsFront (K.bytes sink.old) (K.bytes sink.new) bytes.now }
    ensures fault { result ≡ 7 → Rose (K.faults sink.old) (K.faults sink.new) }
    ensures kept { result ≢ 7 → K.faults sink.new ≡ K.faults sink.old }
{
    match send(sink, bytes) {
        Ok(()) => 0,
        Err(Failed) => 7,
    }
}

// Seals the source's bytes.
fn run_seal<S: Source, K: Sink>(asked: &SealRequest, source: &mut S, sink: &mut K) -> u8
    requires own { asked.now.own ≤ TOP }
    requires version { asked.now.version ≤ asked.now.own }
    ensures statuses { IsStatus result × (result ≢ 2) }
    ensures ends { result ≢ 4 → Ends (Request.Seal asked.now) (S.left source.old) (S.left source.new)
        (K.bytes sink.old) (K.bytes sink.new) result }
    ensures source_fault { result ≡ 4 → Rose (S.faults source.old) (S.faults source.new) }
    ensures sink_fault { result ≡ 7 → Rose (K.faults sink.old) (K.faults sink.new) }
    ensures source_kept { result ≢ 4 → S.faults source.new ≡ S.faults source.old }
    ensures sink_kept { result ≢ 7 → K.faults sink.new ≡ K.faults sink.old }
    ensures unwritten { result ≢ 0 → result ≢ 7 → sink.new ≡ sink.old }
{
    let mut room = [0; MAX_PLAIN + 1];
    let Ok(count) = fill(source, &mut room) else {
        return 4;
    };
    if count > MAX_PLAIN {
        return 34;
    }
    let mut out = [0; 4096];
    let len = seal_for(asked, &room[..count], &mut out);
    send_status(sink, &out[..len])
}

// Opens the source's bytes.
fn run_open<S: Source, K: Sink>(asked: &OpenRequest, source: &mut S, sink: &mut K) -> u8
    requires { asked.now.own ≤ TOP }
    ensures statuses { IsStatus result × (result ≢ 2) }
    ensures ends { result ≢ 4 → Ends (Request.Open asked.now) (S.left source.old) (S.left source.new)
        (K.bytes sink.old) (K.bytes sink.new) result }
    ensures source_fault { result ≡ 4 → Rose (S.faults source.old) (S.faults source.new) }
    ensures sink_fault { result ≡ 7 → Rose (K.faults sink.old) (K.faults sink.new) }
    ensures source_kept { result ≢ 4 → S.faults source.new ≡ S.faults source.old }
    ensures sink_kept { result ≢ 7 → K.faults sink.new ≡ K.faults sink.old }
    ensures unwritten { result ≢ 0 → result ≢ 7 → sink.new ≡ sink.old }
{
    let mut room = [0; MAX_SEALED + 1];
    let Ok(count) = fill(source, &mut room) else {
        return 4;
    };
    let mut data = [0; 2048];
    match open_for(asked, &room[..count], &mut data) {
        Ok(len) => send_status(sink, &data[..len]),
        Err(fault) => fault_status(&fault),
    }
}

/// Does what the words ask for, and answers the program's exit status. The words `seal CDI W V LABEL SALT` seal the
/// source's bytes at version V by the stage of version W of the CDI, for every locality and mode; `open CDI W LABEL
/// LOCALITY MODE` open them at that stage. What comes of it is written to the sink.
///
/// 0 done; 2 words out of form; 4 the source; 7 the sink; 30 malformed, 31 refused, 32 refused by its policy, 33 of a newer
/// version; 34 more than 2,048 bytes to be sealed.
pub fn ratchet_main<S: Source, K: Sink>(words: &[&str], source: &mut S, sink: &mut K) -> u8
    ensures statuses { IsStatus result }

    // 2: exactly where the words are of neither form. Nothing is read or written.
    ensures words { (result ≡ 2) ↔ AreFaulty (texts words.now) }
    ensures untouched { result ≡ 2 → (source.new ≡ source.old) × (sink.new ≡ sink.old) }

    // 4: only where the source failed. At 4 and at 30 to 34 nothing is written.
    ensures source_fault { result ≡ 4 → Rose (S.faults source.old) (S.faults source.new) }
    ensures unwritten { result ≢ 0 → result ≢ 7 → sink.new ≡ sink.old }

    // 7: only where the sink failed. No count rose but that of the source at 4, and of the sink at 7.
    ensures sink_fault { result ≡ 7 → Rose (K.faults sink.old) (K.faults sink.new) }
    ensures source_kept { result ≢ 4 → S.faults source.new ≡ S.faults source.old }
    ensures sink_kept { result ≢ 7 → K.faults sink.new ≡ K.faults sink.old }

    // Every other status is that of the source's bytes, and at 0 what the request makes of them is written.
    ensures ends { result ≢ 2 → result ≢ 4 → ForRequest (texts words.now) (λ asked.
        Ends asked (S.left source.old) (S.left source.new) (K.bytes sink.old) (K.bytes sink.new) result) }

    // Right words and no fault give the status of the bytes that a source tells.
    ensures complete { (asked : Request) (bytes : List ℕ) → AskFor (texts words.now) asked
        → S.left source.old ≡ Some bytes
        → (Rose (S.faults source.old) (S.faults source.new) → ⊥)
        → (Rose (K.faults sink.old) (K.faults sink.new) → ⊥) → result ≡ status_for asked bytes }
{
    let Some(request) = read_words(words) else {
        return 2;
    };
    match request {
        Request::Seal(asked) => run_seal(&asked, source, sink),
        Request::Open(asked) => run_open(&asked, source, sink),
    }
}
