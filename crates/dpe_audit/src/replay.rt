ghost use Rattle.std.specs.Prelude.{◌≡◌, ◌≢◌, ◌⊎◌};
ghost use Rattle.std.specs.List.{AllByRecursion};
ghost use Rattle.dpe_io.specs.Causes.{Rose};
ghost use Rattle.dpe_audit.specs.Finding.{Finding, status_of};
ghost use Rattle.dpe_audit.specs.Listing.{mode_of as mode_listing};
ghost use Rattle.dpe_audit.specs.Mode.{Judges};
ghost use Rattle.dpe_audit.specs.Replay.{status_at, IsStatus, ForRequest, HasNoRequest, SameCounts, CountRose, Replays};
ghost use Rattle.dpe_audit.specs.Replay.{FailsToRead, RunEnds, FileEnds, HasRunCause, Expects, ExpectsNoSeed, FilesFaultless};
ghost use Rattle.dpe_audit.specs.Shelves.{HasWrongSize};
ghost use Rattle.dpe_audit.specs.Tasks.{mode_of as mode_of_task, seed_of};
ghost use Rattle.dpe_audit.specs.Verdicts.{mode_of as mode_viewing};
ghost use Rattle.dpe_audit.specs.Words.{texts, mode_of, IsPath};

use crate::audit::{End, Task, audit_journal};
use crate::listing::Choice;
use crate::seed::{SeedFile, read_seed};
use crate::verdict::View;
use crate::words::{Answer, Request, read_words};
use dpe_io::{Failed, Shelf, Sink};
use dpe_journal::Records;
use std::alloc::Global;

// Opens the journal, the file of this place, does with it what is asked for and hands it back.
fn audit_file<F: Shelf, O: Sink>(
    alloc: Global,
    task: &Task,
    path: &str,
    place: u32,
    shelf: &mut F,
    out: &mut O,
) -> End
    ensures ends { FileEnds F.File.left F.File.faults (mode_of_task task.now) (seed_of task.now)
        (F.files shelf.old) place (F.files shelf.new)
        (O.bytes out.old) (O.bytes out.new) result }
    ensures cause { HasRunCause result (F.files shelf.old) (F.files shelf.new) (O.faults out.old) (O.faults out.new) }
    ensures untouched { result ≡ End.NoMemory → out.new ≡ out.old }
    ensures handed_back { (F.files shelf.new).out ≡ (F.files shelf.old).out }
{
    let file = match shelf.file(path) {
        Ok(file) => file,
        Err(Failed) => return End::ReadFault,
    };
    let mut records = Records::new(file);
    let end = audit_journal(alloc, task, &mut records, out);
    shelf.take_file(place, records.release());
    end
}

// Takes the seed, and judges the journal.
fn judge_file<F: Shelf, O: Sink>(
    alloc: Global,
    view: View,
    seed: &str,
    journal: &str,
    shelf: &mut F,
    out: &mut O,
) -> End
    ensures ends { RunEnds F.File.left F.File.faults (mode_viewing view) (F.files shelf.old) (F.files shelf.new)
        (O.bytes out.old) (O.bytes out.new) result }
    ensures cause { HasRunCause result (F.files shelf.old) (F.files shelf.new) (O.faults out.old) (O.faults out.new) }
    ensures no_memory { result ≡ End.NoMemory → out.new ≡ out.old }
    ensures wrong_seed { result ≡ End.WrongSeed → out.new ≡ out.old }
    ensures handed_back { (F.files shelf.new).out ≡ (F.files shelf.old).out }
{
    match read_seed(shelf, seed) {
        SeedFile::Holds(seed) => {
            let task = Task::Judge { view, seed };
            audit_file(alloc, &task, journal, 1, shelf, out)
        }
        SeedFile::WrongSize => End::WrongSeed,
        SeedFile::Unread => End::ReadFault,
    }
}

// Lists the journal.
fn list_file<F: Shelf, O: Sink>(
    alloc: Global,
    choice: Choice,
    journal: &str,
    shelf: &mut F,
    out: &mut O,
) -> End
    ensures ends { RunEnds F.File.left F.File.faults (mode_listing choice) (F.files shelf.old) (F.files shelf.new)
        (O.bytes out.old) (O.bytes out.new) result }
    ensures cause { HasRunCause result (F.files shelf.old) (F.files shelf.new) (O.faults out.old) (O.faults out.new) }
    ensures no_memory { result ≡ End.NoMemory → out.new ≡ out.old }
    ensures wrong_seed { result ≡ End.WrongSeed → out.new ≡ out.old }
    ensures handed_back { (F.files shelf.new).out ≡ (F.files shelf.old).out }
{
    audit_file(alloc, &Task::Print(choice), journal, 0, shelf, out)
}

// Does what the words ask for.
fn run<F: Shelf, O: Sink>(alloc: Global, request: Request<'_>, shelf: &mut F, out: &mut O) -> End
    ensures ends { RunEnds F.File.left F.File.faults (mode_of request.entry) (F.files shelf.old) (F.files shelf.new)
        (O.bytes out.old) (O.bytes out.new) result }
    ensures cause { HasRunCause result (F.files shelf.old) (F.files shelf.new) (O.faults out.old) (O.faults out.new) }
    ensures no_memory { result ≡ End.NoMemory → out.new ≡ out.old }
    ensures wrong_seed { result ≡ End.WrongSeed → out.new ≡ out.old }
    ensures handed_back { (F.files shelf.new).out ≡ (F.files shelf.old).out }
{
    match request {
        Request::Check { seed, journal } => {
            judge_file(alloc, View::Counts, seed, journal, shelf, out)
        }
        Request::Live { seed, journal } => {
            judge_file(alloc, View::Contexts, seed, journal, shelf, out)
        }
        Request::List { journal } => list_file(alloc, Choice::All, journal, shelf, out),
        Request::Connection {
            journal,
            caller,
            number,
        } => list_file(
            alloc,
            Choice::Connection { caller, number },
            journal,
            shelf,
            out,
        ),
    }
}

// The exit status of an end.
fn status_of_end(end: End) -> u8
    ensures { result ≡ status_at end }
{
    match end {
        End::Whole => 0,
        End::NoMemory => 3,
        End::ReadFault => 4,
        End::WriteFault => 7,
        End::WrongSeed => 8,
        End::NoJournal => 11,
        End::Differs => 12,
    }
}

/// Audits a journal, as the words ask for: `check SEED JOURNAL`, `live SEED JOURNAL`, `list JOURNAL` or
/// `connection JOURNAL CALLER CONNECTION`. The files of the shelf are opened in the order of these words, and each is
/// handed back. What is answered is the program's exit status: 0 whole, and legal where replies are compared; 2 words out
/// of form; 3 no memory; 4 a file unread; 7 output; 8 not 32 bytes of seed; 11 no journal; 12 a reply that differs.
pub fn replay_main<F: Shelf, O: Sink>(
    alloc: Global,
    words: &[&str],
    shelf: &mut F,
    out: &mut O,
) -> u8
    ensures statuses { IsStatus result }

    // 2: exactly where the words aren't of a form, but for want of memory. No file is opened then, and nothing printed.
    ensures words { result ≡ 2 → HasNoRequest (texts words.now) }
    ensures no_request { HasNoRequest (texts words.now) → (result ≡ 2) ⊎ ((result ≡ 3) × AllByRecursion IsPath (texts words.now)) }
    ensures untouched { result ≡ 2 → (shelf.new ≡ shelf.old) × (out.new ≡ out.old) }

    // 0: the journal is whole, and legal where replies are compared. Its text was printed.
    ensures done { result ≡ 0 → ForRequest (texts words.now) (λ mode. Replays F.File.left F.File.faults mode
        (F.files shelf.old) (F.files shelf.new) (O.bytes out.old) (O.bytes out.new) End.Whole) }

    // 11: the bytes are no journal. The place was printed, behind the lines of the records before it.
    ensures no_journal { result ≡ 11 → ForRequest (texts words.now) (λ mode. Replays F.File.left F.File.faults mode
        (F.files shelf.old) (F.files shelf.new) (O.bytes out.old) (O.bytes out.new) End.NoJournal) }

    // 12: the first reply that differs. Its entry and both replies were printed.
    ensures differs { result ≡ 12 → ForRequest (texts words.now) (λ mode. Replays F.File.left F.File.faults mode
        (F.files shelf.old) (F.files shelf.new) (O.bytes out.old) (O.bytes out.new) End.Differs) }

    // 7: a front of the text was printed.
    ensures unsent { result ≡ 7 → ForRequest (texts words.now) (λ mode. Replays F.File.left F.File.faults mode
        (F.files shelf.old) (F.files shelf.new) (O.bytes out.old) (O.bytes out.new) End.WriteFault) }

    // 4: a file couldn't be opened or read. Just the lines of the records before were printed.
    ensures unread { result ≡ 4 → ForRequest (texts words.now) (λ mode. FailsToRead F.File.left F.File.faults mode
        (F.files shelf.old) (F.files shelf.new) (O.bytes out.old) (O.bytes out.new)) }

    // 8: the seed's file hasn't 32 bytes. The journal wasn't opened, and nothing printed.
    ensures wrong_seed { result ≡ 8 → ForRequest (texts words.now) (λ mode. Judges mode
        × HasWrongSize F.File.left F.File.faults (F.files shelf.old) (F.files shelf.new)) }
    ensures silent { result ≡ 8 → out.new ≡ out.old }

    // 3: memory is wanted, before a file is opened, or when just the header was taken of the journal. Nothing was printed.
    ensures no_memory { result ≡ 3 → (shelf.new ≡ shelf.old) ⊎ ForRequest (texts words.now) (λ mode. Replays
        F.File.left F.File.faults mode (F.files shelf.old) (F.files shelf.new) (O.bytes out.old) (O.bytes out.new) End.NoMemory) }
    ensures nothing_printed { result ≡ 3 → out.new ≡ out.old }

    // The output's count rose just at 7, and a count of the files at 4, and else only at 7.
    ensures sink_fault { result ≡ 7 → Rose (O.faults out.old) (O.faults out.new) }
    ensures sink_kept { result ≢ 7 → O.faults out.new ≡ O.faults out.old }
    ensures file_fault { result ≡ 4 → CountRose (F.files shelf.old) (F.files shelf.new) }
    ensures files_kept { result ≢ 4 → result ≢ 7 → SameCounts (F.files shelf.old) (F.files shelf.new) }
    ensures handed_back { (F.files shelf.new).out ≡ (F.files shelf.old).out }

    // Right words, a seed of 32 bytes where one is needed, and no fault: the status of what is found, or 3.
    ensures exact { (finding : Finding) → Expects F.File.left (texts words.now) (F.files shelf.old).unopened finding
        → FilesFaultless (F.files shelf.old) (F.files shelf.new) → (Rose (O.faults out.old) (O.faults out.new) → ⊥)
        → (result ≡ status_of finding) ⊎ (result ≡ 3) }

    // Right words, a seed of another length, and no fault: 8, or 3.
    ensures no_seed { ExpectsNoSeed F.File.left (texts words.now) (F.files shelf.old).unopened
        → FilesFaultless (F.files shelf.old) (F.files shelf.new) → (result ≡ 8) ⊎ (result ≡ 3) }
{
    match read_words(alloc, words) {
        Answer::Request(request) => status_of_end(run(alloc, request, shelf, out)),
        Answer::NoForm => 2,
        Answer::NoMemory => 3,
    }
}
