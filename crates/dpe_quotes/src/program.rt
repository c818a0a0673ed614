//! What the program does.
ghost use Rattle.std.specs.Prelude.{◌≡◌, ◌≢◌, ◌↔◌, ℕ, List, Some, take};
ghost use Rattle.std.specs.Io.KnownBytes.{Appends};
ghost use Rattle.dpe_io.specs.Causes.{Rose};
ghost use Rattle.dpe_link.specs.Reading.{TakesPart};
ghost use Rattle.dpe_text.specs.Writing.{AppendsFront};
ghost use Rattle.dpe_quotes.specs.Ends.{Ends, ForRequest, HasStatus, IsStatus, line_of, room_for, verdict_status};
ghost use Rattle.dpe_quotes.specs.Words.{AreFaulty, AskFor, texts};

use crate::stored::{BLANK, INPUT_SIZE, MAX_INPUTS, read_path};
use crate::verifying::{QuoteFault, verify};
use crate::words::{MakeRequest, Request, VerifyRequest, read_words};
use crate::writing::write_quote;
use dpe_io::{Failed, Sink, Source};
use dpe_link::fill;
use dpe_text::{Text, send};

/// The most bytes that `verify` reads: a byte more than a longest quote has.
const QUOTE_ROOM: usize = 8_648;

/// The most bytes that `make` reads: a byte more than a longest path has.
const PATH_ROOM: usize = MAX_INPUTS * INPUT_SIZE + 1;

// The line of a verdict.
fn line(found: &Result<u8, QuoteFault>) -> Text
    ensures { result ≡ line_of found.now }
{
    let mut text = Text::new();
    match found {
        Ok(depth) => {
            text.push(b"accepted ");
            text.push_number(u64::from(*depth));
        }
        Err(QuoteFault::Malformed { at }) => {
            text.push(b"malformed at ");
            text.push_number(u64::from(*at));
        }
        Err(QuoteFault::Nonce) => text.push(b"nonce differs"),
        Err(QuoteFault::Tag) => text.push(b"tag differs"),
    }
    text.push(b"\n");
    text
}

// The status of a verdict.
fn status_of(found: &Result<u8, QuoteFault>) -> u8
    ensures status { result ≡ verdict_status found.now }
    ensures known { IsStatus result × (result ≢ 2) × (result ≢ 4) × (result ≢ 7) }
{
    match found {
        Ok(_) => 0,
        Err(QuoteFault::Malformed { at: _ }) => 20,
        Err(QuoteFault::Nonce) => 21,
        Err(QuoteFault::Tag) => 22,
    }
}

// Writes bytes, and answers this status, or 7 where the sink failed.
fn send_status<K: Sink>(sink: &mut K, bytes: &[u8], status: u8) -> u8
    requires { status ≢ 7 }
    ensures statuses { result ≢ 7 → result ≡ status }
    ensures sent { result ≢ 7 → Appends (K.bytes sink.old) (K.bytes sink.new) bytes.now }
    ensures unsent { result ≡ 7 → AppendsFront (K.bytes sink.old) (K.bytes sink.new) bytes.now }
    ensures fault { result ≡ 7 → Rose (K.faults sink.old) (K.faults sink.new) }
    ensures kept { result ≢ 7 → K.faults sink.new ≡ K.faults sink.old }
{
    match send(sink, bytes) {
        Ok(()) => status,
        Err(Failed) => 7,
    }
}

// Checks the source's bytes.
fn run_verify<S: Source, K: Sink>(asked: &VerifyRequest, source: &mut S, sink: &mut K) -> u8
    ensures statuses { IsStatus result × (result ≢ 2) }
    ensures ends { result ≢ 4 → Ends (Request.Verify asked.now) (S.left source.old) (S.left source.new)
        (K.bytes sink.old) (K.bytes sink.new) result }
    ensures unread { result ≡ 4 → Rose (S.faults source.old) (S.faults source.new) × (sink.new ≡ sink.old) }
    ensures part { result ≡ 4 → TakesPart (S.left source.old) (S.left source.new) 8648 }
    ensures sink_fault { result ≡ 7 → Rose (K.faults sink.old) (K.faults sink.new) }
    ensures source_kept { result ≢ 4 → S.faults source.new ≡ S.faults source.old }
    ensures sink_kept { result ≢ 7 → K.faults sink.new ≡ K.faults sink.old }
{
    let mut room = [0; QUOTE_ROOM];
    let Ok(count) = fill(source, &mut room) else {
        return 4;
    };
    let found = verify(&asked.seed, asked.nonce.bytes(), &room[..count]);
    send_status(sink, line(&found).bytes(), status_of(&found))
}

// Makes the quote of the source's path.
fn run_make<S: Source, K: Sink>(asked: &MakeRequest, source: &mut S, sink: &mut K) -> u8
    ensures statuses { IsStatus result × (result ≢ 2) }
    ensures ends { result ≢ 4 → Ends (Request.Make asked.now) (S.left source.old) (S.left source.new)
        (K.bytes sink.old) (K.bytes sink.new) result }
    ensures unread { result ≡ 4 → Rose (S.faults source.old) (S.faults source.new) × (sink.new ≡ sink.old) }
    ensures part { result ≡ 4 → TakesPart (S.left source.old) (S.left source.new) 8225 }
    ensures sink_fault { result ≡ 7 → Rose (K.faults sink.old) (K.faults sink.new) }
    ensures source_kept { result ≢ 4 → S.faults source.new ≡ S.faults source.old }
    ensures sink_kept { result ≢ 7 → K.faults sink.new ≡ K.faults sink.old }
{
    let mut room = [0; PATH_ROOM];
    let Ok(count) = fill(source, &mut room) else {
        return 4;
    };
    let mut path = [BLANK; MAX_INPUTS];
    let Some(depth) = read_path(&room[..count], &mut path) else {
        return 9;
    };
    let mut out = [0; 8647];
    let len = write_quote(&path[..depth], asked.nonce.bytes(), &asked.tag, &mut out);
    send_status(sink, &out[..len], 0)
}

/// Does what the words ask for, and answers the program's exit status. The words `make NONCE TAG` write the quote of the
/// path that the source has: inputs of 257 bytes each. The words `verify SEED NONCE` check the quote that the source has,
/// and print one line.
///
/// 0 made, or accepted; 2 words out of form; 4 the source; 7 the sink; 9 no path; 20 malformed, 21 another nonce, 22 another
/// tag.
pub fn quote_main<S: Source, K: Sink>(words: &[&str], source: &mut S, sink: &mut K) -> u8
    ensures statuses { IsStatus result }

    // 2: exactly where the words are of neither form. Nothing is read or written.
    ensures words { (result ≡ 2) ↔ AreFaulty (texts words.now) }
    ensures untouched { result ≡ 2 → (source.new ≡ source.old) × (sink.new ≡ sink.old) }

    // 4: only where the source failed, after fewer bytes than are read at most, and nothing is written. 7: only where the
    // sink failed.
    ensures unread { result ≡ 4 → Rose (S.faults source.old) (S.faults source.new) × (sink.new ≡ sink.old) }
    ensures part { result ≡ 4 → ForRequest (texts words.now) (λ asked.
        TakesPart (S.left source.old) (S.left source.new) (room_for asked)) }
    ensures sink_fault { result ≡ 7 → Rose (K.faults sink.old) (K.faults sink.new) }
    ensures source_kept { result ≢ 4 → S.faults source.new ≡ S.faults source.old }
    ensures sink_kept { result ≢ 7 → K.faults sink.new ≡ K.faults sink.old }

    // Every other status is that of the source's bytes, and what they come to is written. So 9 comes exactly where they
    // are to be a path and are none.
    ensures ends { result ≢ 2 → result ≢ 4 → ForRequest (texts words.now) (λ asked.
        Ends asked (S.left source.old) (S.left source.new) (K.bytes sink.old) (K.bytes sink.new) result) }

    // Right words and no fault give the status of the bytes that a source tells, of as many as are read at most.
    ensures complete { (asked : Request) (bytes : List ℕ) → AskFor (texts words.now) asked
        → S.left source.old ≡ Some bytes
        → (Rose (S.faults source.old) (S.faults source.new) → ⊥)
        → (Rose (K.faults sink.old) (K.faults sink.new) → ⊥)
        → HasStatus asked (take (room_for asked) bytes) result }
{
    let Some(request) = read_words(words) else {
        return 2;
    };
    match request {
        Request::Verify(asked) => run_verify(&asked, source, sink),
        Request::Make(asked) => run_make(&asked, source, sink),
    }
}
