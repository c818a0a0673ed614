//! Rows that read and write payloads.
use crate::{commands, replies};
use dpe_messages::{command_number, reply_code};
use table_rows::{RowFault, Told, Word, number, put};

/// Tells a row about payloads.
pub(crate) fn tell(call: &str, words: &[Word<'_>], told: &mut String) -> Told {
    let Some((first, others)) = words.split_first() else {
        return Err(RowFault::Unreadable);
    };
    match call {
        "command" => commands::read(first, told),
        "reply" => replies::read(first.text, others, told),
        "answers" => replies::asked(first, told),
        "number" => tell_number(first, told),
        "code" => tell_code(first, told),
        "ask" => commands::write(first.text, others, told),
        "answer" => replies::write(first.text, others, told),
        _ => Err(RowFault::Unreadable),
    }
}

fn tell_number(payload: &Word<'_>, told: &mut String) -> Told {
    number_or_none(command_number(payload.bytes()?), told)
}

fn tell_code(payload: &Word<'_>, told: &mut String) -> Told {
    number_or_none(reply_code(payload.bytes()?), told)
}

fn number_or_none(answer: Option<u64>, told: &mut String) -> Told {
    match answer {
        Some(value) => number(told, "", value),
        None => put(told, "none"),
    }
}
