ghost use Rattle.std.specs.Prelude.{◌≡◌, ◌≢◌, ◌≤◌, ◌↔◌, ◌⊎◌, ℕ, List, Some};
ghost use Rattle.std.specs.Io.KnownBytes.{Appends};
ghost use Rattle.dpe_io.specs.Causes.{Rose};
ghost use Rattle.dpe_tape.specs.Answers.{batch};
ghost use Rattle.dpe_tape.specs.Batch.{ForRun, ForEither, IsStatus, IsLoadStatus};
ghost use Rattle.dpe_tape.specs.LoadText.{load_text};
ghost use Rattle.dpe_tape.specs.Reading.{AppendsFront};
ghost use Rattle.dpe_tape.specs.Run.{AnswersTape, CutShort, Unsent, Malformed, Overlong};
ghost use Rattle.dpe_tape.specs.Tape.{IsWhole, IsMalformed, IsOverlong};
ghost use Rattle.dpe_tape.specs.Words.{IsRun, IsLoad, AreFaulty, command_limit, texts};

use crate::load::text_of_load;
use crate::run::{End, run};
use crate::words::{Load, Request, read_words};
use dpe_io::{Failed, Sink, Source};
use dpe_text::send;
use std::alloc::Global;

// Executes a load and writes its text. All memory is taken before anything is written.
fn load_status<K: Sink>(alloc: Global, load: &Load, sink: &mut K) -> u8
    requires { load.now.commands ≤ command_limit }
    ensures statuses { IsLoadStatus result }
    ensures sent { result ≡ 0
        → Appends (K.bytes sink.old) (K.bytes sink.new) (load_text load.now.number load.now.commands) }
    ensures unsent { result ≡ 7
        → AppendsFront (K.bytes sink.old) (K.bytes sink.new) (load_text load.now.number load.now.commands) }
    ensures fault { result ≡ 7 → Rose (K.faults sink.old) (K.faults sink.new) }
    ensures kept { result ≢ 7 → K.faults sink.new ≡ K.faults sink.old }
    ensures no_memory { result ≡ 3 → sink.new ≡ sink.old }
{
    let Ok(text) = text_of_load(alloc, load) else {
        return 3;
    };
    match send(sink, text.as_bytes()) {
        Ok(()) => 0,
        Err(Failed) => 7,
    }
}

/// Executes what the words ask for, and answers the program's exit status. The words `run`, a seed and a first serial
/// read a tape from the source and write the frames of its replies to the sink; `load` and two numbers write the text
/// of a load, and leave the source.
///
/// 0 done; 2 words out of form; 3 no memory; 4 the source; 7 the sink; 9 a malformed tape; 10 an overlong one.
pub fn batch_main<S: Source, K: Sink>(
    alloc: Global,
    words: &[&str],
    source: &mut S,
    sink: &mut K,
) -> u8
    ensures statuses { IsStatus result }

    // 0: the source's bytes were a tape, read to its end, and the sink got the batch; or it got the text of the load.
    ensures done { result ≡ 0 → ForEither (texts words.now) (λ seed first.
        AnswersTape (batch seed first) (S.left source.old) (S.left source.new) (K.bytes sink.old) (K.bytes sink.new))
        (λ n k. Appends (K.bytes sink.old) (K.bytes sink.new) (load_text n k)) }

    // 2: exactly where the words are of neither form. At 2 and at 3, want of memory, nothing is read or written.
    ensures words { (result ≡ 2) ↔ AreFaulty (texts words.now) }
    ensures untouched { result ≡ 2 → (source.new ≡ source.old) × (sink.new ≡ sink.old) }
    ensures no_memory { result ≡ 3 → (source.new ≡ source.old) × (sink.new ≡ sink.old) }

    // At the others no count rose but that of the source at 4, and of the sink at 7.
    ensures sink_kept { result ≢ 7 → K.faults sink.new ≡ K.faults sink.old }
    ensures source_kept { result ≢ 4 → result ≢ 7 → S.faults source.new ≡ S.faults source.old }

    // 4: only where the source failed. The replies of the whole items stand in the sink.
    ensures source_fault { result ≡ 4 → Rose (S.faults source.old) (S.faults source.new) }
    ensures cut { result ≡ 4 → ForRun (texts words.now) (λ seed first.
        CutShort (batch seed first) (S.left source.old) (S.left source.new) (K.bytes sink.old) (K.bytes sink.new)) }

    // 7: only where the sink failed. A front of the replies of the whole items, or of the load's text, stands in the sink.
    ensures sink_fault { result ≡ 7 → Rose (K.faults sink.old) (K.faults sink.new) }
    ensures unsent { result ≡ 7 → ForEither (texts words.now) (λ seed first.
        Unsent (batch seed first) (S.left source.old) (S.left source.new) (K.bytes sink.old) (K.bytes sink.new))
        (λ n k. AppendsFront (K.bytes sink.old) (K.bytes sink.new) (load_text n k)) }

    // 9: fewer items than a tape may have, and then bytes that are no item. The replies of the items stand in the sink.
    ensures malformed { result ≡ 9 → ForRun (texts words.now) (λ seed first.
        Malformed (batch seed first) (S.left source.old) (S.left source.new) (K.bytes sink.old) (K.bytes sink.new)) }

    // 10: as many items as a tape may have, and then a byte. The replies of the items stand in the sink.
    ensures overlong { result ≡ 10 → ForRun (texts words.now) (λ seed first.
        Overlong (batch seed first) (S.left source.old) (S.left source.new) (K.bytes sink.old) (K.bytes sink.new)) }

    // The bytes that a source of a run tells are of the kind that the status says.
    ensures whole_bytes { (seed : List ℕ) (first : ℕ) (bytes : List ℕ) → IsRun (texts words.now) seed first
        → result ≡ 0 → S.left source.old ≡ Some bytes → IsWhole bytes }
    ensures malformed_bytes { (bytes : List ℕ) → result ≡ 9 → S.left source.old ≡ Some bytes → IsMalformed bytes }
    ensures overlong_bytes { (bytes : List ℕ) → result ≡ 10 → S.left source.old ≡ Some bytes → IsOverlong bytes }

    // A load ends with 0, 3 or 7, and leaves the source. No fault gives 0 or 3.
    ensures load_statuses { (n k : ℕ) → IsLoad (texts words.now) n k → IsLoadStatus result }
    ensures load_source { (n k : ℕ) → IsLoad (texts words.now) n k → source.new ≡ source.old }
    ensures load_complete { (n k : ℕ) → IsLoad (texts words.now) n k
        → (Rose (K.faults sink.old) (K.faults sink.new) → ⊥) → (result ≡ 0) ⊎ (result ≡ 3) }

    // Right words of a run and no fault give the status of that kind, or 3.
    ensures complete { (seed : List ℕ) (first : ℕ) (bytes : List ℕ) → IsRun (texts words.now) seed first
        → S.left source.old ≡ Some bytes → IsWhole bytes
        → (Rose (S.faults source.old) (S.faults source.new) → ⊥)
        → (Rose (K.faults sink.old) (K.faults sink.new) → ⊥) → (result ≡ 0) ⊎ (result ≡ 3) }
    ensures refused { (seed : List ℕ) (first : ℕ) (bytes : List ℕ) → IsRun (texts words.now) seed first
        → S.left source.old ≡ Some bytes → IsMalformed bytes
        → (Rose (S.faults source.old) (S.faults source.new) → ⊥)
        → (Rose (K.faults sink.old) (K.faults sink.new) → ⊥) → (result ≡ 9) ⊎ (result ≡ 3) }
    ensures too_many { (seed : List ℕ) (first : ℕ) (bytes : List ℕ) → IsRun (texts words.now) seed first
        → S.left source.old ≡ Some bytes → IsOverlong bytes
        → (Rose (S.faults source.old) (S.faults source.new) → ⊥)
        → (Rose (K.faults sink.old) (K.faults sink.new) → ⊥) → (result ≡ 10) ⊎ (result ≡ 3) }
{
    let Some(request) = read_words(words) else {
        return 2;
    };
    let request = match request {
        Request::Run(request) => request,
        Request::Load(load) => return load_status(alloc, &load, sink),
    };
    let Ok(end) = run(alloc, &request, source, sink) else {
        return 3;
    };
    match end {
        End::Done => 0,
        End::SourceFault => 4,
        End::SinkFault => 7,
        End::Malformed => 9,
        End::Overlong => 10,
    }
}
