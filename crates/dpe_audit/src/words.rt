//! The words of the program, read with `clap`.
ghost use Rattle.std.specs.Prelude.{codes, ◌≡◌, ◌↔◌, ◌^◌, ◌<◌, ℕ, List, Option, Some, false, IfOk, IfErr, IfSome, IfNone, IsTrue};
ghost use Rattle.std.specs.List.{All, AllByRecursion};
ghost use Rattle.std.specs.Fmt.{decimal};
ghost use Rattle.clap.specs.Words.{Row, app_of, first_of, found_of, kind_of, rows_of, rule_of, shape_of, subcommand_rows_of, with_subcommand};
ghost use Rattle.clap.specs.declared.builder.command.Command.TheViews.{out-Command as fields_of};
ghost use Rattle.dpe_audit.specs.Commands.{Asks, AsksThree, bare, calling, connecting, judging, listing, program, reading, required};
ghost use Rattle.clap.specs.Simple.{Shape};
ghost use Rattle.dpe_audit.specs.Mode.{Mode};
ghost use Rattle.dpe_audit.specs.Words.{IsPath, IsRequest, IsAnswer, NamesConnection, InRange, texts, words_of};

use clap::error::ErrorKind;
use clap::{Arg, ArgMatches, Command, Error};
use dpe_text::parse_number;
use std::alloc::{AllocError, Global};

/// What the words ask for. The paths aren't empty, and begin with no `-`.
#[derive(Clone, Copy)]
pub enum Request<'a> {
    /// Whether the journal's history is legal.
    Check {
        seed: &'a str,
        journal: &'a str,
    },
    /// What lives after the journal's history.
    Live {
        seed: &'a str,
        journal: &'a str,
    },
    /// The journal's records.
    List {
        journal: &'a str,
    },
    /// The replies of one connection of a caller.
    Connection {
        journal: &'a str,
        caller: u32,
        number: u32,
    },
}

/// What was made of the words.
#[derive(Clone, Copy)]
pub enum Answer<'a> {
    /// They ask for this.
    Request(Request<'a>),
    /// They are of no form.
    NoForm,
    NoMemory,
}

// A positional argument that is required.
fn required_arg<'a>(alloc: Global, id: &'a str) -> Arg<'a>
    ensures rule { rule_of result ≡ required id.entry.now }
    ensures local { result.global ≡ false }
{
    Arg::new(alloc, id).required(true)
}

// `NAME SEED JOURNAL`
fn judging_command<'a>(alloc: Global, name: &'a str) -> Result<Command<'a>, AllocError>
    ensures shape { IfOk result (λ command. shape_of command ≡ judging name.entry.now) }
    ensures local { IfOk result (λ command. (fields_of command).has_globals ≡ false) }
{
    Command::new(alloc, name)
        .arg(required_arg(alloc, "seed"))?
        .arg(required_arg(alloc, "journal"))
}

// `NAME JOURNAL`
fn journal_command<'a>(alloc: Global, name: &'a str) -> Result<Command<'a>, AllocError>
    ensures shape { IfOk result (λ command. shape_of command ≡ reading name.entry.now) }
    ensures local { IfOk result (λ command. (fields_of command).has_globals ≡ false) }
{
    Command::new(alloc, name).arg(required_arg(alloc, "journal"))
}

// `connection JOURNAL CALLER`
fn caller_command<'a>(alloc: Global) -> Result<Command<'a>, AllocError>
    ensures shape { IfOk result (λ command. shape_of command ≡ calling) }
    ensures local { IfOk result (λ command. (fields_of command).has_globals ≡ false) }
{
    journal_command(alloc, "connection")?.arg(required_arg(alloc, "caller"))
}

// `connection JOURNAL CALLER CONNECTION`
fn connecting_command<'a>(alloc: Global) -> Result<Command<'a>, AllocError>
    ensures shape { IfOk result (λ command. shape_of command ≡ connecting) }
    ensures local { IfOk result (λ command. (fields_of command).has_globals ≡ false) }
{
    caller_command(alloc)?.arg(required_arg(alloc, "number"))
}

// The program without its subcommands. It has no options, and no subcommand `help`.
fn bare_command<'a>(alloc: Global) -> Command<'a>
    ensures { app_of result ≡ bare }
{
    Command::new(alloc, "dpe_replay")
        .no_binary_name(true)
        .disable_help_flag(true)
        .disable_help_subcommand(true)
        .subcommand_required(true)
}

// A command with one subcommand more, where memory was there for it.
fn with_given<'a>(
    command: Command<'a>,
    subcommand: Result<Command<'a>, AllocError>,
) -> Result<Command<'a>, AllocError>
    requires local { IfOk subcommand (λ given. (fields_of given).has_globals ≡ false) }
    ensures { (shape : Shape) → IfOk subcommand.entry (λ given. shape_of given ≡ shape)
        → IfOk result (λ more. app_of more ≡ with_subcommand (app_of command.entry) shape) }
{
    match subcommand {
        Ok(given) => command.subcommand(given),
        Err(error) => Err(error),
    }
}

// One command with four subcommands.
fn program_command<'a>(alloc: Global) -> Result<Command<'a>, AllocError>
    ensures { IfOk result (λ command. app_of command ≡ program) }
{
    let command = with_given(bare_command(alloc), judging_command(alloc, "check"))?;
    let command = with_given(command, judging_command(alloc, "live"))?;
    let command = with_given(command, journal_command(alloc, "list"))?;
    with_given(command, connecting_command(alloc))
}

// Parses words of which each is a path.
fn parse<'a>(alloc: Global, words: &'a [&'a str]) -> Result<ArgMatches<'a>, Error>
    ensures parsed { IfOk result (λ matches. AllByRecursion IsPath (texts words.entry.now)
        → Asks (texts words.entry.now) (subcommand_rows_of matches)) }
    ensures refused { IfErr result (λ error. (mode : Mode) → IsRequest (texts words.entry.now) mode
        → kind_of error ≡ ErrorKind.OutOfMemory) }
{
    let command = program_command(alloc)?;
    command.try_get_matches_from(words)
}

// The word that the argument of this name has.
fn word_of<'a>(matches: &ArgMatches<'a>, id: &str) -> &'a str
    ensures { (word : List ℕ) → first_of id.now (rows_of (found_of matches.now)) ≡ Some word → result.now ≡ word }
{
    match matches.get_str(id) {
        Some(word) => word,
        None => "",
    }
}

// Whether the word may be a path.
fn is_path(word: &str) -> bool
    ensures { IsTrue result ↔ IsPath word.now }
{
    let bytes = word.as_bytes();
    if bytes.is_empty() {
        return false;
    }
    bytes[0] != b'-'
}

// Whether each word may be a path.
fn are_paths(words: &[&str]) -> bool
    ensures { IsTrue result ↔ All (λ word. IsPath word.now) words.now }
{
    words.iter().all(|word| is_path(word))
}

// A number below 2^32 in decimal digits, with no sign and no leading zero but in `0` itself.
fn parse_u32(word: &str) -> Option<u32>
    ensures found { IfSome result (λ n. word.now ≡ decimal n) }
    ensures none { IfNone result ((n : ℕ) → n < 2 ^ 32 → word.now ≡ decimal n → ⊥) }
{
    match parse_number(word) {
        Some(number) => {
            if number > u64::from(u32::MAX) {
                return None;
            }
            Some(number as u32)
        }
        None => None,
    }
}

// What the words of `connection` ask for.
fn connection_of<'a>(matches: &ArgMatches<'a>) -> Option<Request<'a>>
    ensures found { (words : List (List ℕ)) → AsksThree words (Some (codes "connection", rows_of (found_of matches.now)))
        → IfSome result (λ request. (words ≡ words_of request) × InRange request) }
    ensures none { (words : List (List ℕ)) → AsksThree words (Some (codes "connection", rows_of (found_of matches.now)))
        → IfNone result ((caller number : ℕ) → NamesConnection words caller number → ⊥) }
{
    let caller = parse_u32(word_of(matches, "caller"))?;
    let number = parse_u32(word_of(matches, "number"))?;
    Some(Request::Connection {
        journal: word_of(matches, "journal"),
        caller,
        number,
    })
}

// What words ask for that were parsed.
fn request_of<'a>(matches: &ArgMatches<'a>) -> Option<Request<'a>>
    ensures found { (words : List (List ℕ)) → Asks words (subcommand_rows_of matches.now)
        → IfSome result (λ request. (words ≡ words_of request) × InRange request) }
    ensures none { (words : List (List ℕ)) → Asks words (subcommand_rows_of matches.now)
        → IfNone result ((mode : Mode) → IsRequest words mode → ⊥) }
{
    let Some((name, matches)) = matches.subcommand() else {
        return None;
    };
    if name == "check" {
        return Some(Request::Check {
            seed: word_of(matches, "seed"),
            journal: word_of(matches, "journal"),
        });
    }
    if name == "live" {
        return Some(Request::Live {
            seed: word_of(matches, "seed"),
            journal: word_of(matches, "journal"),
        });
    }
    if name == "list" {
        return Some(Request::List {
            journal: word_of(matches, "journal"),
        });
    }
    connection_of(matches)
}

/// What the words ask for. Words that aren't paths are refused before they are parsed, which may want memory.
pub fn read_words<'a>(alloc: Global, words: &'a [&'a str]) -> Answer<'a>
    ensures { IsAnswer (texts words.entry.now) result }
{
    if !are_paths(words) {
        return Answer::NoForm;
    }
    match parse(alloc, words) {
        Ok(matches) => match request_of(&matches) {
            Some(request) => Answer::Request(request),
            None => Answer::NoForm,
        },
        Err(error) => {
            if error.kind() == ErrorKind::OutOfMemory {
                return Answer::NoMemory;
            }
            Answer::NoForm
        }
    }
}
