//! Reads a script: its commands, or its first bad line.
ghost use Rattle.std.specs.Prelude.{◌≡◌, ◌+◌, ◌<◌, ◌≤◌, ◌^◌, ◌==◌, IfOk, IfErr, OnOk, IfSome, MatchResult, All, ℕ, length, Some, None, IsTrue, ◌↔◌, IsUtf8, map, nat_lt};
ghost use Rattle.std.specs.Option.{option_map};
ghost use Rattle.std.specs.List.{slice_split};
ghost use Rattle.std.specs.Str.{is_utf8};
ghost use Rattle.dpe_grammar.specs.Values.{texts, words_of};
ghost use Rattle.dpe_grammar.specs.Acts.{act_of, IsInRange};
ghost use Rattle.dpe_grammar.specs.Grammar.{asking_in, asking_of};
ghost use Rattle.dpe_script.specs.Script.{is_skipped as is_line_skipped, lines_of, step, asked, script_from, script_of, right};
ghost use Rattle.dpe_script.specs.Names.{no_names};
ghost use Rattle.dpe_script.specs.CodeNames.{names_of};
ghost use Rattle.dpe_script.specs.CodeScript.{lines_are, HasForm, IsFormInRange, IsFormBelow, IsLineInRange, AreBelow, AreKnown, IsAdded, IsBad, IsBadScript};

use crate::names::Names;
use dpe_grammar::{Act, Asking, read_asking};
use std::alloc::{AllocError, Global};

/// The most bytes of a script, and of a line without its line feed.
pub const MAX_SCRIPT: usize = 1_048_576;

const MAX_LINE: usize = 8_192;

/// A command line; lines are counted from 1.
#[derive(Clone, Copy)]
pub struct Line<'a> {
    pub number: usize,
    pub link: u8,
    pub act: Act<'a>,
}

/// A script that was read and checked: its command lines, and the names that they introduce.
#[derive(Drop)]
pub struct Script<'a> {
    pub lines: Vec<Line<'a>>,
    pub names: Names<'a>,
}

/// Why there is no script.
#[derive(Clone, Copy, Debug, PartialEq, Eq)]
pub enum ScriptFault {
    /// Want of memory.
    NoMemory,
    /// The first bad line; 0 where the script is too long.
    BadLine(usize),
}

// What a line is, apart from the names that it uses and introduces.
#[derive(Clone, Copy)]
enum Form<'a> {
    Skipped,
    Asks(Asking<'a>),
    Bad,
}

// The words of a line.
fn split_words<'a>(alloc: Global, line: &'a [u8]) -> Result<Vec<&'a [u8]>, AllocError>
    ensures { IfOk result (λ words. texts words.items ≡ words_of line.now) }
{
    line.split(|byte| *byte == b' ').collect(alloc)
}

// The lines of a script.
fn split_lines<'a>(alloc: Global, text: &'a [u8]) -> Result<Vec<&'a [u8]>, AllocError>
    ensures { IfOk result (λ lines. texts lines.items ≡ lines_of text.now) }
{
    text.split(|byte| *byte == b'\n').collect(alloc)
}

// Whether a line is empty or a remark.
fn is_skipped(line: &[u8]) -> bool
    ensures { result ≡ is_line_skipped line.now }
{
    line.is_empty() || line[0] == b'#'
}

// Whether a line is UTF-8.
fn is_text(line: &[u8]) -> bool
    ensures { result ≡ is_utf8 line.now }
{
    match str::from_utf8(line) {
        Ok(_) => true,
        Err(_) => false,
    }
}

// The command of a line.
fn read_words<'a>(
    alloc: Global,
    line: &'a [u8],
    links: u8,
) -> Result<Option<Asking<'a>>, AllocError>
    ensures asking { IfOk result (λ a. option_map asking_of a ≡ asking_in links (words_of line.now)) }
    ensures range { IfOk result (λ a. IfSome a (λ asking. IsInRange (act_of asking.act))) }
    ensures link { IfOk result (λ a. IfSome a (λ asking. asking.link < links)) }
{
    let words = split_words(alloc, line)?;
    Ok(read_asking(&words, links))
}

// What a line is. It may answer want of memory.
fn read_line<'a>(alloc: Global, line: &'a [u8], links: u8) -> Result<Form<'a>, AllocError>
    ensures form { IfOk result (λ form. HasForm links line.now form) }
    ensures range { IfOk result IsFormInRange }
    ensures link { IfOk result (IsFormBelow links) }
{
    if line.len() > MAX_LINE {
        return Ok(Form::Bad);
    }
    if is_skipped(line) {
        if is_text(line) {
            return Ok(Form::Skipped);
        }
        return Ok(Form::Bad);
    }
    match read_words(alloc, line, links) {
        Ok(Some(asking)) => Ok(Form::Asks(asking)),
        Ok(None) => Ok(Form::Bad),
        Err(error) => Err(error),
    }
}

// Adds a command line to a script.
fn add_asking<'a>(
    script: &mut Script<'a>,
    number: usize,
    asking: &Asking<'a>,
) -> Result<(), ScriptFault>
    requires range { All IsLineInRange script.old.lines.items }
    requires known { AreKnown script.old }
    ensures added { IfOk result (λ _. IsAdded number (asked (names_of script.old.names) (Some (asking_of asking.now))) script.old script.new) }
    ensures bad { IfErr result (λ fault. IsBad number (asked (names_of script.old.names) (Some (asking_of asking.now))) fault) }
    ensures range { IsInRange (act_of asking.now.act) → OnOk result (All IsLineInRange script.new.lines.items) }
    ensures link { (links : ℕ) → asking.now.link < links → AreBelow links script.old → OnOk result (AreBelow links script.new) }
    ensures known { OnOk result (AreKnown script.new) }
{
    if !script.names.knows(&asking.act) {
        return Err(ScriptFault::BadLine(number));
    }
    let Ok(()) = script.names.introduce(&asking.act) else {
        return Err(ScriptFault::NoMemory);
    };
    if script.names.are_too_many() {
        return Err(ScriptFault::BadLine(number));
    }
    let line = Line {
        number,
        link: asking.link,
        act: asking.act,
    };
    match script.lines.push(line) {
        Ok(()) => Ok(()),
        Err(_) => Err(ScriptFault::NoMemory),
    }
}

// Adds a line to a script.
fn add_line<'a>(
    alloc: Global,
    script: &mut Script<'a>,
    number: usize,
    line: &'a [u8],
    links: u8,
) -> Result<(), ScriptFault>
    requires range { All IsLineInRange script.old.lines.items }
    requires link { AreBelow links script.old }
    requires known { AreKnown script.old }
    ensures added { IfOk result (λ _. IsAdded number (step links (names_of script.old.names) line.now) script.old script.new) }
    ensures bad { IfErr result (λ fault. IsBad number (step links (names_of script.old.names) line.now) fault) }
    ensures range { OnOk result (All IsLineInRange script.new.lines.items) }
    ensures link { OnOk result (AreBelow links script.new) }
    ensures known { OnOk result (AreKnown script.new) }
{
    match read_line(alloc, line, links) {
        Ok(Form::Skipped) => Ok(()),
        Ok(Form::Asks(asking)) => add_asking(script, number, &asking),
        Ok(Form::Bad) => Err(ScriptFault::BadLine(number)),
        Err(_) => Err(ScriptFault::NoMemory),
    }
}

/// Reads and checks a script of at most 1,048,576 bytes, for so many links. It may answer want of memory.
pub fn read_script<'a>(alloc: Global, text: &'a [u8], links: u8) -> Result<Script<'a>, ScriptFault>
    ensures script { MatchResult result (λ s. script_of links text.now ≡ right (lines_are s.lines.items))
        (λ fault. IsBadScript (script_of links text.now) fault) }
    ensures range { IfOk result (λ s. All IsLineInRange s.lines.items) }
    ensures link { IfOk result (AreBelow links) }
    ensures known { IfOk result AreKnown }
{
    if text.len() > MAX_SCRIPT {
        return Err(ScriptFault::BadLine(0));
    }
    let Ok(lines) = split_lines(alloc, text) else {
        return Err(ScriptFault::NoMemory);
    };
    read_lines(alloc, &lines, links)
}

// Reads the lines of a script.
fn read_lines<'a>(alloc: Global, lines: &[&'a [u8]], links: u8) -> Result<Script<'a>, ScriptFault>
    ensures script { MatchResult result (λ s. script_from links 1 no_names (texts lines.now) ≡ right (lines_are s.lines.items))
        (λ fault. IsBadScript (script_from links 1 no_names (texts lines.now)) fault) }
    ensures range { IfOk result (λ s. All IsLineInRange s.lines.items) }
    ensures link { IfOk result (AreBelow links) }
    ensures known { IfOk result AreKnown }
{
    let mut script = Script {
        lines: Vec::new(alloc),
        names: Names::new(alloc),
    };
    for (at, line) in lines.iter().enumerate() {
        match add_line(alloc, &mut script, at + 1, line, links) {
            Ok(()) => {}
            Err(fault) => return Err(fault),
        }
    }
    Ok(script)
}
