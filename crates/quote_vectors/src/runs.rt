//! The rows of a check, and of a run of the program's call.
use dpe_io::{MemSink, MemSource};
use dpe_quotes::{QuoteFault, quote_main};
use std::alloc::{AllocError, Global};
use table_rows::{RowFault, Told, Word, number, put, show_alike};

/// The most bytes of one read and of one write.
const PIECE: usize = 4_096;

/// The most bytes that are written.
const ROOM: usize = 8_647;

/// The most bytes of a quote that is checked.
const MAX_QUOTE: usize = 8_648;

/// `SEED NONCE QUOTE`: the depth that a quote proves, or its fault.
pub(crate) fn verify(words: &[Word<'_>], told: &mut String) -> Told {
    let [seed, nonce, quote] = words else {
        return Err(RowFault::Unreadable);
    };
    let seed: [u8; 32] = seed.array()?;
    match dpe_quotes::verify(&seed, nonce.bytes()?, quote.at_most(MAX_QUOTE)?) {
        Ok(depth) => number(told, "depth ", u64::from(depth)),
        Err(QuoteFault::Malformed { at }) => number(told, "malformed ", u64::from(at)),
        Err(QuoteFault::Nonce) => put(told, "nonce"),
        Err(QuoteFault::Tag) => put(told, "tag"),
    }
}

// A source of these bytes, of which these reads fail.
fn source(alloc: Global, bytes: &Word<'_>, failing: &Word<'_>) -> Result<MemSource, RowFault> {
    let failing = failing.numbers(alloc)?;
    Ok(MemSource::new(alloc, bytes.bytes()?, PIECE, &failing)?)
}

// A sink, of which these writes fail.
fn sink(alloc: Global, failing: &Word<'_>) -> Result<MemSink, RowFault> {
    let failing = failing.numbers(alloc)?;
    Ok(MemSink::new(alloc, ROOM, PIECE, &failing)?)
}

// The words of the program, of which `-` is the empty one.
fn asked<'a>(alloc: Global, words: &[Word<'a>]) -> Result<Vec<&'a str>, AllocError> {
    let mut asked = Vec::new(alloc);
    for word in words {
        asked.push(if word.whole == "-" { "" } else { word.whole })?;
    }
    Ok(asked)
}

/// `SOURCE READS WRITES WORDS`: the status of a run over these bytes, whose reads and writes of these numbers fail, and what
/// it wrote.
pub(crate) fn run(alloc: Global, words: &[Word<'_>], told: &mut String) -> Told {
    let [bytes, reads, writes, words @ ..] = words else {
        return Err(RowFault::Unreadable);
    };
    let mut source = source(alloc, bytes, reads)?;
    let mut sink = sink(alloc, writes)?;
    let asked = asked(alloc, words)?;
    run_over(&asked, &mut source, &mut sink, told)
}

fn run_over(words: &[&str], source: &mut MemSource, sink: &mut MemSink, told: &mut String) -> Told {
    let status = quote_main(words, source, sink);
    number(told, "", u64::from(status))?;
    put(told, " ")?;
    show_alike(told, sink.bytes())
}
