//! The client's top call.
ghost use Rattle.std.specs.Prelude.{◌≡◌, ◌≢◌, ◌↔◌, ◌⊎◌, ◌+◌, ◌≤◌, ◌<◌, All, IfOk, IfErr, OnErr, List, ℕ, [], false, true, length, take};
ghost use Rattle.std.specs.List.{list_all};
ghost use Rattle.std.specs.Vec.{vec_capacity};
ghost use Rattle.std.specs.Io.KnownBytes.{Appends};
ghost use Rattle.dpe_io.specs.Causes.{Rose};
ghost use Rattle.dpe_script.specs.Client.{is_path, are_right as are_words_right, links_in, bad_line_said, fault_said, Loads, LoadsNone, KindKept, KindFailed, HasKindCause, Ends, EndCausedBy, WordsEnd, WordsCausedBy, IsStatus, status_of, ForScript, ForLines, IfBad, RunsOnLinks, FailsAtLink, FailsAtReply, Unprinted, Unfailed, TellsScript, TellBytes, TellAnswers};
ghost use Rattle.dpe_script.specs.CodeNames.{names_of};
ghost use Rattle.dpe_script.specs.CodeScript.{AreBelow, AreKnown, IsLineInRange, IsLineKnown, lines_are};
ghost use Rattle.dpe_script.specs.CodeValues.{IsReady, values_of};
ghost use Rattle.dpe_script.specs.Meaning.{no_values};
ghost use Rattle.dpe_script.specs.Script.{Line as ScriptLine, right, bad_line, max_script, script_of};
ghost use Rattle.dpe_grammar.specs.Values.{texts};

use crate::end::End;
use crate::links::run_on_links;
use crate::run::Cause;
use crate::script::{Line, MAX_SCRIPT, Script, ScriptFault, read_script};
use crate::values::Values;
use dpe_io::{Dock, Failed, Sink};
use dpe_link::fill;
use dpe_text::{Text, send};
use std::alloc::Global;

/// The most links.
const MAX_LINKS: usize = 8;

// Whether no word is empty.
fn are_paths(words: &[&str]) -> bool
    ensures { result ≡ list_all is_path (texts words.now) }
{
    for word in words {
        if word.is_empty() {
            return false;
        }
    }
    true
}

// One script and 1 to 8 links, all paths that aren't empty.
fn are_right(words: &[&str]) -> bool
    ensures { result ≡ are_words_right (texts words.now) }
{
    if words.len() < 2 || words.len() > 1 + MAX_LINKS {
        return false;
    }
    are_paths(words)
}

// Reads a file into the room, and says how many bytes it got.
fn load<D: Dock>(dock: &mut D, path: &str, room: &mut [u8]) -> Result<usize, Failed>
    ensures bound { IfOk result (λ count. count ≤ length room.new) }
    ensures loads { IfOk result (λ count. Loads D.File.left D.File.faults (length room.new)
        (D.scripts dock.old) (D.scripts dock.new) (take count room.new)) }
    ensures fails { OnErr result (LoadsNone D.File.left D.File.faults (length room.new)
        (D.scripts dock.old) (D.scripts dock.new)) }
    ensures cause { HasKindCause result (D.scripts dock.old) (D.scripts dock.new) }
    ensures back { (D.scripts dock.new).out ≡ (D.scripts dock.old).out }
    ensures links { D.links dock.new ≡ D.links dock.old }
{
    let Ok(mut file) = dock.script(path) else {
        return Err(Failed);
    };
    match fill(&mut file, room) {
        Ok(count) => {
            dock.take_script(file);
            Ok(count)
        }
        Err(Failed) => {
            dock.take_script(file);
            Err(Failed)
        }
    }
}

// The text on a bad line.
fn bad_line_text(line: usize) -> Text
    ensures { result ≡ bad_line_said line }
{
    let mut text = Text::new();
    text.push(b"line ");
    text.push_number(line as u64);
    text.push(b"\n");
    text
}

// The text on a fault of a link or of a reply.
fn fault_text(line: usize, what: &[u8]) -> Text
    requires { length what.now ≤ 8 }
    ensures { result ≡ fault_said line what.now }
{
    let mut text = Text::new();
    text.push(b"line ");
    text.push_number(line as u64);
    text.push(b" ");
    text.push(what);
    text.push(b"\n");
    text
}

// Runs the lines on the links, and prints the text on a fault.
fn run_lines<D: Dock, O: Sink>(
    dock: &mut D,
    paths: &[&str],
    links: Vec<D::Link>,
    lines: &[Line<'_>],
    values: &mut Values<'_>,
    out: &mut O,
) -> End
    requires none { links.items ≡ [] }
    requires room { length paths.now ≤ vec_capacity links }
    requires few { length paths.now ≤ 8 }
    requires ready { IsReady values.old }
    requires known { All (IsLineKnown (names_of values.old.names)) lines.now }
    requires range { All IsLineInRange lines.now }
    requires link { All (λ l. l.link < length paths.now) lines.now }
    requires fresh { values_of values.old ≡ no_values }
    ensures ends { Ends result D.Link.told (length paths.now) (right (lines_are lines.now)) (D.links dock.old)
        (D.links dock.new) (O.bytes out.old) (O.bytes out.new) }
    ensures cause { EndCausedBy result (D.links dock.old) (D.links dock.new) (O.faults out.old) (O.faults out.new) }
    ensures back { (D.links dock.new).out ≡ (D.links dock.old).out }
    ensures scripts { D.scripts dock.new ≡ D.scripts dock.old }
    ensures answered { TellAnswers D.Link.told (D.links dock.old) (length paths.now) (lines_are lines.now) → result ≢
        End.BadReply }
{
    let fault = match run_on_links(dock, paths, links, lines, values, out) {
        Ok(()) => {
            return match send(out, b"") {
                Ok(()) => End::Done,
                Err(Failed) => End::OutputFault,
            };
        }
        Err(fault) => fault,
    };
    match fault.cause {
        Cause::Link => match send(out, fault_text(fault.line, b"link").bytes()) {
            Ok(()) => End::LinkFault,
            Err(Failed) => End::OutputFault,
        },
        Cause::Reply => match send(out, fault_text(fault.line, b"reply").bytes()) {
            Ok(()) => End::BadReply,
            Err(Failed) => End::OutputFault,
        },
        Cause::Output => End::OutputFault,
    }
}

// Takes all memory that a run takes, and runs the lines of a script.
fn run_script<D: Dock, O: Sink>(
    alloc: Global,
    dock: &mut D,
    paths: &[&str],
    script: Script<'_>,
    out: &mut O,
) -> End
    requires few { length paths.now ≤ 8 }
    requires range { All IsLineInRange script.lines.items }
    requires link { AreBelow (length paths.now) script }
    requires known { AreKnown script }
    ensures ends { Ends result D.Link.told (length paths.now) (right (lines_are script.entry.lines.items))
        (D.links dock.old) (D.links dock.new) (O.bytes out.old) (O.bytes out.new) }
    ensures cause { EndCausedBy result (D.links dock.old) (D.links dock.new) (O.faults out.old) (O.faults out.new) }
    ensures back { (D.links dock.new).out ≡ (D.links dock.old).out }
    ensures scripts { D.scripts dock.new ≡ D.scripts dock.old }
    ensures answered { TellAnswers D.Link.told (D.links dock.old) (length paths.now)
        (lines_are script.entry.lines.items) → result ≢ End.BadReply }
{
    let Script { lines, names } = script;
    let Ok(mut values) = Values::new(alloc, names) else {
        return End::NoMemory;
    };
    let Ok(links) = Vec::with_capacity(alloc, paths.len()) else {
        return End::NoMemory;
    };
    run_lines(dock, paths, links, &lines, &mut values, out)
}

// Reads a script, and runs its lines.
fn run_text<D: Dock, O: Sink>(
    alloc: Global,
    dock: &mut D,
    paths: &[&str],
    text: &[u8],
    out: &mut O,
) -> End
    requires few { length paths.now ≤ 8 }
    ensures ends { Ends result D.Link.told (length paths.now) (script_of (length paths.now) text.now) (D.links dock.old)
        (D.links dock.new) (O.bytes out.old) (O.bytes out.new) }
    ensures cause { EndCausedBy result (D.links dock.old) (D.links dock.new) (O.faults out.old) (O.faults out.new) }
    ensures back { (D.links dock.new).out ≡ (D.links dock.old).out }
    ensures scripts { D.scripts dock.new ≡ D.scripts dock.old }
    ensures answered { (lines : List ScriptLine) → script_of (length paths.now) text.now ≡ right lines → TellAnswers
        D.Link.told (D.links dock.old) (length paths.now) lines → result ≢ End.BadReply }
{
    match read_script(alloc, text, paths.len() as u8) {
        Ok(script) => run_script(alloc, dock, paths, script, out),
        Err(ScriptFault::NoMemory) => End::NoMemory,
        Err(ScriptFault::BadLine(line)) => match send(out, bad_line_text(line).bytes()) {
            Ok(()) => End::BadScript,
            Err(Failed) => End::OutputFault,
        },
    }
}

// Reads the script that the words name, and runs it on the links that they name.
fn run_words<D: Dock, O: Sink>(
    alloc: Global,
    dock: &mut D,
    words: &[&str],
    room: &mut [u8],
    out: &mut O,
) -> End
    requires right { are_words_right (texts words.now) ≡ true }
    requires room { length room.old ≡ max_script + 1 }
    ensures ends { WordsEnd result D.File.left D.File.faults D.Link.told (texts words.now) (D.scripts dock.old)
        (D.scripts dock.new) (D.links dock.old) (D.links dock.new) (O.bytes out.old) (O.bytes out.new) }
    ensures cause { WordsCausedBy result (D.scripts dock.old) (D.scripts dock.new) (D.links dock.old) (D.links dock.new)
        (O.faults out.old) (O.faults out.new) }
    ensures links_back { (D.links dock.new).out ≡ (D.links dock.old).out }
    ensures script_back { (D.scripts dock.new).out ≡ (D.scripts dock.old).out }
    ensures answered { (bytes : List ℕ) (lines : List ScriptLine) → TellsScript D.File.left (D.scripts dock.old) bytes →
        script_of (links_in (texts words.now)) bytes ≡ right lines → TellAnswers D.Link.told (D.links dock.old)
        (links_in (texts words.now)) lines → result ≢ End.BadReply }
{
    match load(dock, words[0], room) {
        Ok(count) => run_text(alloc, dock, &words[1..], &room[..count], out),
        Err(Failed) => End::NoScript,
    }
}

// The status that the program ends with.
fn status(end: End) -> u8
    ensures { result ≡ status_of end }
{
    match end {
        End::Done => 0,
        End::NoMemory => 3,
        End::NoScript => 4,
        End::OutputFault => 7,
        End::BadScript => 13,
        End::LinkFault => 14,
        End::BadReply => 15,
    }
}

/// Runs a script against links, and prints a line of text for each of its commands. The words are the script's path and 1 to 8
/// paths of links, none of them empty. All memory is taken before a link is opened. What is answered is the program's exit
/// status.
pub fn client_main<D: Dock, O: Sink>(alloc: Global, words: &[&str], dock: &mut D, out: &mut O) -> u8
    ensures statuses { IsStatus result }

    // 0: each command line was sent and answered, and all was printed.
    ensures done { result ≡ 0 → ForLines D.File.left D.File.faults (texts words.now) (D.scripts dock.old)
        (D.scripts dock.new) (λ count lines. RunsOnLinks D.Link.told count lines (D.links dock.old) (D.links dock.new)
        (O.bytes out.old) (O.bytes out.new)) }

    // 2: exactly where the words aren't of the form. Nothing is opened or printed.
    ensures words { (result ≡ 2) ↔ (are_words_right (texts words.now) ≡ false) }
    ensures untouched { result ≡ 2 → (dock.new ≡ dock.old) × (out.new ≡ out.old) }

    // 3, want of memory, and 4: no link is opened, and nothing is printed. At 4 the script couldn't be opened, or not read.
    ensures no_memory { result ≡ 3 → (D.links dock.new ≡ D.links dock.old) × (O.bytes out.new ≡ O.bytes out.old) }
    ensures no_script { result ≡ 4 → (D.links dock.new ≡ D.links dock.old) × (O.bytes out.new ≡ O.bytes out.old) }
    ensures unloaded { result ≡ 4 → LoadsNone D.File.left D.File.faults (max_script + 1) (D.scripts dock.old)
        (D.scripts dock.new) }

    // 13: the script is bad, and its first bad line is printed. No link is opened.
    ensures bad { result ≡ 13 → ForScript D.File.left D.File.faults (texts words.now) (D.scripts dock.old) (D.scripts dock.new)
        (λ count script. IfBad script (λ number. Appends (O.bytes out.old) (O.bytes out.new) (bad_line_said number))) }
    ensures bad_unopened { result ≡ 13 → D.links dock.new ≡ D.links dock.old }

    // 14: a link couldn't be opened, or failed; and 15: what came for a line is no reply. The text on that is printed.
    ensures link { result ≡ 14 → ForLines D.File.left D.File.faults (texts words.now) (D.scripts dock.old)
        (D.scripts dock.new) (λ count lines. FailsAtLink Appends D.Link.told count lines (D.links dock.old)
        (D.links dock.new) (O.bytes out.old) (O.bytes out.new)) }
    ensures reply { result ≡ 15 → ForLines D.File.left D.File.faults (texts words.now) (D.scripts dock.old)
        (D.scripts dock.new) (λ count lines. FailsAtReply Appends D.Link.told count lines (D.links dock.old)
        (D.links dock.new) (O.bytes out.old) (O.bytes out.new)) }

    // 7: the output failed, within the text of the answers or within that on a fault.
    ensures unprinted { result ≡ 7 → ForScript D.File.left D.File.faults (texts words.now) (D.scripts dock.old)
        (D.scripts dock.new) (λ count script. Unprinted D.Link.told count script (D.links dock.old) (D.links dock.new)
        (O.bytes out.old) (O.bytes out.new)) }

    // The counts that rise: of the script at 4, of the links at 14, of the output at 7. The others stay as they were, but that 7
    // may stand in the place of 14.
    ensures script_fault { result ≡ 4 → KindFailed (D.scripts dock.old) (D.scripts dock.new) }
    ensures link_fault { result ≡ 14 → KindFailed (D.links dock.old) (D.links dock.new) }
    ensures out_fault { result ≡ 7 → Rose (O.faults out.old) (O.faults out.new) }
    ensures script_kept { result ≢ 4 → KindKept (D.scripts dock.old) (D.scripts dock.new) }
    ensures links_kept { result ≢ 7 → result ≢ 14 → KindKept (D.links dock.old) (D.links dock.new) }
    ensures out_kept { result ≢ 7 → O.faults out.new ≡ O.faults out.old }

    // Whatever the status is, what was opened is handed back.
    ensures script_back { (D.scripts dock.new).out ≡ (D.scripts dock.old).out }
    ensures links_back { (D.links dock.new).out ≡ (D.links dock.old).out }

    // Right words, and no count that rose: a bad script gives 13, and a right one 0 where the links tell answers to its lines, and 15
    // where they tell something else; or 3.
    ensures refused { (bytes : List ℕ) (number : ℕ) → are_words_right (texts words.now) ≡ true
        → TellsScript D.File.left (D.scripts dock.old) bytes → script_of (links_in (texts words.now)) bytes ≡ bad_line number
        → Unfailed (D.scripts dock.old) (D.scripts dock.new) → (Rose (O.faults out.old) (O.faults out.new) → ⊥)
        → (result ≡ 13) ⊎ (result ≡ 3) }
    ensures complete { (bytes : List ℕ) (lines : List ScriptLine) → are_words_right (texts words.now) ≡ true →
        TellsScript D.File.left (D.scripts dock.old) bytes → script_of (links_in (texts words.now)) bytes ≡ right lines
        → TellAnswers D.Link.told (D.links dock.old) (links_in (texts words.now)) lines → Unfailed (D.scripts dock.old)
        (D.scripts dock.new) → Unfailed (D.links dock.old) (D.links dock.new) →
        (Rose (O.faults out.old) (O.faults out.new) → ⊥) → (result ≡ 0) ⊎ (result ≡ 3) }
    ensures unanswered { (bytes : List ℕ) (lines : List ScriptLine) → are_words_right (texts words.now) ≡ true →
        TellsScript D.File.left (D.scripts dock.old) bytes → script_of (links_in (texts words.now)) bytes ≡ right lines
        → TellBytes D.Link.told (D.links dock.old) (links_in (texts words.now)) →
        (TellAnswers D.Link.told (D.links dock.old) (links_in (texts words.now)) lines → ⊥) → Unfailed
        (D.scripts dock.old) (D.scripts dock.new) → Unfailed (D.links dock.old) (D.links dock.new) →
        (Rose (O.faults out.old) (O.faults out.new) → ⊥) → (result ≡ 15) ⊎ (result ≡ 3) }
{
    if !are_right(words) {
        return 2;
    }
    let Ok(mut room) = vec![in alloc; 0; MAX_SCRIPT + 1] else {
        return 3;
    };
    let end = run_words(alloc, dock, words, &mut room, out);
    status(end)
}
