//! The rows of a table.
use crate::asked::ask;
use crate::both::Both;
use crate::drawn::draw_all;
use crate::fault::Fault;
use crate::grown::Grown;
use crate::handles;
use crate::numbers::{number, small};
use crate::replies::{printed, told};
use dpe_handles::Table;
use dpe_messages::reply_code;
use dpe_model::LiveRow;
use sha2::{Digest, Sha256};
use std::alloc::{AllocError, Global};
use table_rows::Word;

/// What the rows of a table are tried on.
#[derive(Drop)]
pub struct Trial {
    both: Both,
    grown: Grown,
    table: Table,
}

// What is told of the context at a place.
fn context(alloc: Global, both: &Both, words: &[&str]) -> Result<String, Fault> {
    let [place] = words else {
        return Err(Fault::Unreadable);
    };
    let Ok(at) = place.parse::<u32>() else {
        return Err(Fault::Unreadable);
    };
    match both.row(at) {
        Some(row) => Ok(told_context(alloc, &row)?),
        None => Ok(String::from_str(alloc, "no context")?),
    }
}

fn told_context(alloc: Global, row: &LiveRow) -> Result<String, AllocError> {
    let handle = printed(alloc, &row.handle)?;
    let derives = if row.may_derive { "derives" } else { "final" };
    format!(in alloc;
        "{handle} at locality {}, depth {}, mode {}, {derives}",
        row.locality, row.depth, row.mode
    )
}

// How many commands were asked and accepted, and all replies, one behind the other.
#[derive(Drop)]
struct Tally {
    asked: u64,
    accepted: u64,
    replies: Sha256,
}

impl Tally {
    fn add(&mut self, reply: &[u8]) {
        self.asked = self.asked.saturating_add(1);
        if reply_code(reply) == Some(0) {
            self.accepted = self.accepted.saturating_add(1);
        }
        self.replies.update(reply);
    }
}

// The commands, with `;` between them, once.
fn ask_all(alloc: Global, both: &mut Both, words: &[&str], tally: &mut Tally) -> Result<(), Fault> {
    for command in words.split(|word| *word == ";") {
        ask(alloc, both, command)?;
        tally.add(both.reply());
    }
    Ok(())
}

// The same commands so many times. A hash of all replies tells them.
fn repeated(alloc: Global, both: &mut Both, words: &[&str]) -> Result<String, Fault> {
    let Some((times, words)) = words.split_first() else {
        return Err(Fault::Unreadable);
    };
    let mut tally = Tally {
        asked: 0,
        accepted: 0,
        replies: Sha256::new(),
    };
    for _ in 0..number(times)? {
        ask_all(alloc, both, words, &mut tally)?;
    }
    let Tally {
        asked,
        accepted,
        replies,
    } = tally;
    let digest = hex::encode(alloc, replies.finalize())?;
    Ok(format!(in alloc; "{accepted} of {asked} accepted, sha256 {digest}")?)
}

impl Trial {
    /// A history from a seed of zeros, a root alone, and an empty table.
    pub(crate) fn start(alloc: Global) -> Result<Trial, AllocError> {
        Ok(Trial {
            both: Both::start(alloc, &[0; 32], 1)?,
            grown: Grown::start(alloc, 1)?,
            table: Table::make(alloc)?,
        })
    }

    fn begin(&mut self, alloc: Global, words: &[&str]) -> Result<String, Fault> {
        let [seed, first] = words else {
            return Err(Fault::Unreadable);
        };
        let seed = Word::read(alloc, self.both.names(), seed).array::<32>()?;
        let first = number(first)?;
        self.both.begin(alloc, &seed, first)?;
        self.counts(alloc)
    }

    fn counts(&self, alloc: Global) -> Result<String, Fault> {
        let (live, folds) = self.both.counts();
        Ok(format!(in alloc; "{live} live, {folds} folds")?)
    }

    fn tree_row(&mut self, alloc: Global, words: &[&str]) -> Result<String, Fault> {
        let Some((call, others)) = words.split_first() else {
            return Err(Fault::Unreadable);
        };
        match *call {
            "root" => self.plant(alloc, others),
            call => self.grown.answer(alloc, call, others),
        }
    }

    fn plant(&mut self, alloc: Global, words: &[&str]) -> Result<String, Fault> {
        let [mark] = words else {
            return Err(Fault::Unreadable);
        };
        self.grown = Grown::start(alloc, small(mark)?)?;
        Ok(String::from_str(alloc, "0")?)
    }

    fn command(&mut self, alloc: Global, words: &[&str]) -> Result<String, Fault> {
        ask(alloc, &mut self.both, words)?;
        Ok(told(alloc, self.both.reply())?)
    }

    fn try_row(&mut self, alloc: Global, words: &[&str]) -> Result<String, Fault> {
        let Some((call, others)) = words.split_first() else {
            return Err(Fault::Unreadable);
        };
        match *call {
            "start" => self.begin(alloc, others),
            "counts" => self.counts(alloc),
            "context" => context(alloc, &self.both, others),
            "tree" => self.tree_row(alloc, others),
            "table" => handles::answer(alloc, &mut self.table, others),
            "repeat" => repeated(alloc, &mut self.both, others),
            "draw" => draw_all(alloc, &mut self.both, others),
            _ => self.command(alloc, words),
        }
    }

    fn difference(&self, alloc: Global) -> Result<String, AllocError> {
        let core = told(alloc, self.both.reply())?;
        let plain = told(alloc, self.both.plain_reply())?;
        format!(in alloc; "THEY DIFFER: {core} by the executor, {plain} by the plain one")
    }

    /// The line that a row's call or command gives.
    pub(crate) fn answer(&mut self, alloc: Global, row: &str) -> Result<String, AllocError> {
        let words: Vec<&str> = row.split_whitespace().collect(alloc)?;
        match self.try_row(alloc, &words) {
            Ok(line) => Ok(line),
            Err(Fault::Unreadable) => String::from_str(alloc, "NOT A ROW"),
            Err(Fault::Differ) => self.difference(alloc),
            Err(Fault::ContextsDiffer) => String::from_str(alloc, "THEY TELL OTHER CONTEXTS"),
            Err(Fault::Unmet) => String::from_str(alloc, "may not be called"),
            Err(Fault::Memory) => Err(AllocError),
        }
    }
}
