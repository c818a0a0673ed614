//! How the objects of a row behave.
use crate::bytes::read_number;
use crate::row::Fault;

/// The calls of one kind.
#[derive(Clone, Copy)]
pub enum Call {
    /// The openings.
    Open,
    /// The reads of what is opened first: a script, a seed.
    First,
    /// The reads of a tape, of each link, of a journal.
    Read,
    /// The writes and flushes of each link.
    Write,
    /// The writes and flushes of the output.
    Out,
}

/// No call has this number.
const NEVER: u32 = u32::MAX;

/// How much goes in a call, and which calls fail.
#[derive(Clone, Copy)]
pub struct Options {
    /// The most bytes that a read gives, at least 1.
    pub give: usize,
    /// The most bytes that a write takes, at least 1.
    pub take: usize,
    /// The bytes that the output has room for.
    pub room: usize,
    /// Of each kind the number of the call that fails, from 0.
    pub open: u32,
    pub first: u32,
    pub read: u32,
    pub write: u32,
    pub out: u32,
    /// Whether the row is to run once for each call of a kind, which fails, and for how many of them.
    pub each: Option<(Call, u32)>,
}

impl Options {
    /// Nothing fails.
    pub(crate) fn new() -> Options {
        Options {
            give: 64,
            take: 64,
            room: 8_192,
            open: NEVER,
            first: NEVER,
            read: NEVER,
            write: NEVER,
            out: NEVER,
            each: None,
        }
    }

    /// The same where this call fails.
    pub(crate) fn failing(mut self, call: Call, number: u32) -> Options {
        match call {
            Call::Open => self.open = number,
            Call::First => self.first = number,
            Call::Read => self.read = number,
            Call::Write => self.write = number,
            Call::Out => self.out = number,
        }
        self
    }
}

// The kind of calls of this name.
fn call_of(name: &str) -> Result<Call, Fault> {
    match name {
        "open" => Ok(Call::Open),
        "first" => Ok(Call::First),
        "read" => Ok(Call::Read),
        "write" => Ok(Call::Write),
        "out" => Ok(Call::Out),
        _ => Err(Fault::Unreadable),
    }
}

// Takes a number of bytes, or the call that fails.
fn set_number(mut options: Options, name: &str, number: u32) -> Result<Options, Fault> {
    match name {
        "give" => options.give = number as usize,
        "take" => options.take = number as usize,
        "room" => options.room = number as usize,
        _ => options = options.failing(call_of(name)?, number),
    }
    Ok(options)
}

// Takes a setting, such as `give=5`, `read=3` or `each-read=22`.
fn set(options: Options, name: &str, number: u64) -> Result<Options, Fault> {
    let Ok(number) = u32::try_from(number) else {
        return Err(Fault::Unreadable);
    };
    let Some(kind) = name.strip_prefix("each-") else {
        return set_number(options, name, number);
    };
    Ok(Options {
        each: Some((call_of(kind)?, number)),
        ..options
    })
}

/// The options of a field; `-` is none.
pub(crate) fn read_options(field: &str) -> Result<Options, Fault> {
    let mut options = Options::new();
    if field == "-" {
        return Ok(options);
    }
    for setting in field.split_whitespace() {
        let Some((name, digits)) = setting.split_once('=') else {
            return Err(Fault::Unreadable);
        };
        options = set(options, name, read_number(digits)?)?;
    }
    Ok(options)
}
