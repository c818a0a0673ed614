//! A row: which call it is of.
use crate::bytes::{Names, read_bytes};
use crate::job::{Job, Program};
use crate::options::read_options;
use crate::reading::{items_of, lines_of};
use crate::sweep::outcomes;
use std::alloc::{AllocError, AllocFailed, Global};

/// Why a row has no answer.
#[derive(Clone, Copy)]
pub enum Fault {
    /// It is of no form.
    Unreadable,
    NoMemory,
}

impl From<AllocError> for Fault {
    fn from(_error: AllocError) -> Fault {
        Fault::NoMemory
    }
}

impl<T: Drop> From<AllocFailed<T>> for Fault {
    fn from(_error: AllocFailed<T>) -> Fault {
        Fault::NoMemory
    }
}

// The program of this name.
fn program_of(name: &str) -> Option<Program> {
    match name {
        "batch" => Some(Program::Batch),
        "client" => Some(Program::Client),
        "audit" => Some(Program::Audit),
        _ => None,
    }
}

// The fields of a row, behind its call.
fn fields_of<'a>(alloc: Global, text: &'a str) -> Result<Vec<&'a str>, AllocError> {
    let mut fields = Vec::new(alloc);
    for field in text.split('|') {
        fields.push(field.trim())?;
    }
    Ok(fields)
}

// The words of a field: `-` is the empty word, and `$NAME` the text of this name.
fn words_of<'a>(alloc: Global, names: &'a Names, field: &'a str) -> Result<Vec<&'a str>, Fault> {
    let mut words = Vec::new(alloc);
    for word in field.split_whitespace() {
        words.push(names.word(word)?)?;
    }
    Ok(words)
}

// The row of a program: its words, the options, and the bytes of each file or link.
fn job_of<'a>(
    alloc: Global,
    names: &'a Names,
    program: Program,
    fields: &[&'a str],
) -> Result<Job<'a>, Fault> {
    let Some((words, others)) = fields.split_first() else {
        return Err(Fault::Unreadable);
    };
    let Some((options, contents)) = others.split_first() else {
        return Err(Fault::Unreadable);
    };
    let mut files = Vec::new(alloc);
    for content in contents {
        files.push(read_bytes(alloc, names, content)?)?;
    }
    Ok(Job {
        program,
        words: words_of(alloc, names, words)?,
        options: read_options(options)?,
        files,
    })
}

// What is told of the bytes of a row's second field, read as a tape or as a script for so many links.
fn reading_of(alloc: Global, names: &Names, name: &str, fields: &[&str]) -> Result<String, Fault> {
    if fields.len() != 2 {
        return Err(Fault::Unreadable);
    }
    let bytes = read_bytes(alloc, names, fields[1])?;
    match name {
        "items" => items_of(alloc, read_options(fields[0])?, &bytes),
        "script" => lines_of(alloc, fields[0], &bytes),
        _ => Err(Fault::Unreadable),
    }
}

/// What is printed for a row; nothing where it names bytes for the rows below it.
pub(crate) fn answer(alloc: Global, names: &mut Names, row: &str) -> Result<Option<String>, Fault> {
    let Some((name, text)) = row.split_once(' ') else {
        return Err(Fault::Unreadable);
    };
    if name == "let" {
        names.define(alloc, text)?;
        return Ok(None);
    }
    let fields = fields_of(alloc, text)?;
    match program_of(name) {
        Some(program) => Ok(Some(outcomes(alloc, &job_of(alloc, names, program, &fields)?)?)),
        None => Ok(Some(reading_of(alloc, names, name, &fields)?)),
    }
}
