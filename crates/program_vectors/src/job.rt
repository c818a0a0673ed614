//! A program's run over objects in memory.
ghost use Rattle.std.specs.Prelude.{◌≡◌, IfOk};
ghost use Rattle.dpe_io.specs.Memory.{IsFaultless};

use crate::asked::{AskedDock, AskedShelf};
use crate::options::Options;
use crate::outcome::Outcome;
use crate::row::Fault;
use dpe_audit::replay_main;
use dpe_io::{MemConn, MemDock, MemShelf, MemSink, MemSource};
use dpe_script::client_main;
use dpe_tape::batch_main;
use std::alloc::{AllocError, Global};

/// A program.
#[derive(Clone, Copy)]
pub enum Program {
    Batch,
    Client,
    Audit,
}

/// A program's words, how its objects behave, and the bytes of each: of the tape; of the script and then of each link; of the
/// files, in the order in which they are opened.
#[derive(Drop)]
pub struct Job<'a> {
    pub program: Program,
    pub words: Vec<&'a str>,
    pub options: Options,
    pub files: Vec<Vec<u8>>,
}

// A source of these bytes, of which a read fails.
pub(crate) fn source(
    alloc: Global,
    bytes: &[u8],
    options: &Options,
    failing: u32,
) -> Result<MemSource, Fault>
    ensures { IfOk result (λ source. source.faults ≡ 0) }
{
    if options.give == 0 {
        return Err(Fault::Unreadable);
    }
    Ok(MemSource::new(alloc, bytes, options.give, &[failing])?)
}

// A sink, of which a call fails.
fn sink(alloc: Global, options: &Options, failing: u32) -> Result<MemSink, Fault>
    ensures { IfOk result (λ sink. sink.faults ≡ 0) }
{
    if options.take == 0 {
        return Err(Fault::Unreadable);
    }
    Ok(MemSink::new(alloc, options.room, options.take, &[failing])?)
}

// A link that gives these bytes.
fn link(alloc: Global, gives: &[u8], options: &Options) -> Result<MemConn, Fault>
    ensures { IfOk result IsFaultless }
{
    let source = source(alloc, gives, options, options.read)?;
    let sink = sink(alloc, options, options.write)?;
    Ok(MemConn::new(source, sink))
}

// A dock of a script and links.
fn dock_of(alloc: Global, files: &[Vec<u8>], options: &Options) -> Result<MemDock, Fault> {
    let Some((script, others)) = files.split_first() else {
        return Err(Fault::Unreadable);
    };
    let script = source(alloc, script, options, options.first)?;
    let mut links = Vec::new(alloc);
    for gives in others {
        links.push(link(alloc, gives, options)?)?;
    }
    Ok(MemDock::new(alloc, script, links, &[options.open])?)
}

// A shelf of a seed and a journal, or of a journal alone.
fn shelf_of(alloc: Global, files: &[Vec<u8>], options: &Options) -> Result<MemShelf, Fault> {
    let Some((first, others)) = files.split_first() else {
        return Err(Fault::Unreadable);
    };
    let mut sources = Vec::new(alloc);
    if let Some(journal) = others.first() {
        sources.push(source(alloc, first, options, options.first)?)?;
        sources.push(source(alloc, journal, options, options.read)?)?;
    } else {
        sources.push(source(alloc, first, options, options.read)?)?;
    }
    Ok(MemShelf::new(alloc, sources, &[options.open])?)
}

// What was sent on each link.
fn sent_on(alloc: Global, links: &[MemConn]) -> Result<Vec<Vec<u8>>, AllocError> {
    let mut sent = Vec::new(alloc);
    for link in links {
        sent.push(Vec::from_slice(alloc, link.sink().bytes())?)?;
    }
    Ok(sent)
}

// The tape's replies, or the text of a load.
fn run_batch(alloc: Global, job: &Job<'_>, options: &Options) -> Result<Outcome, Fault> {
    let Some(tape) = job.files.first() else {
        return Err(Fault::Unreadable);
    };
    let mut source = source(alloc, tape, options, options.read)?;
    let mut out = sink(alloc, options, options.out)?;
    Ok(Outcome {
        status: batch_main(alloc, &job.words, &mut source, &mut out),
        output: Vec::from_slice(alloc, out.bytes())?,
        paths: Vec::new(alloc),
        sent: Vec::new(alloc),
    })
}

// What the client prints and sends.
fn run_client(alloc: Global, job: &Job<'_>, options: &Options) -> Result<Outcome, Fault> {
    let mut dock = AskedDock {
        dock: dock_of(alloc, &job.files, options)?,
        paths: Vec::new(alloc),
    };
    let mut out = sink(alloc, options, options.out)?;
    Ok(Outcome {
        status: client_main(alloc, &job.words, &mut dock, &mut out),
        output: Vec::from_slice(alloc, out.bytes())?,
        sent: sent_on(alloc, dock.dock.links())?,
        paths: dock.paths,
    })
}

// What the audit prints.
fn run_audit(alloc: Global, job: &Job<'_>, options: &Options) -> Result<Outcome, Fault> {
    let mut shelf = AskedShelf {
        shelf: shelf_of(alloc, &job.files, options)?,
        paths: Vec::new(alloc),
    };
    let mut out = sink(alloc, options, options.out)?;
    Ok(Outcome {
        status: replay_main(alloc, &job.words, &mut shelf, &mut out),
        output: Vec::from_slice(alloc, out.bytes())?,
        paths: shelf.paths,
        sent: Vec::new(alloc),
    })
}

impl Job<'_> {
    /// Runs the program with these options.
    pub(crate) fn run(&self, alloc: Global, options: Options) -> Result<Outcome, Fault> {
        match self.program {
            Program::Batch => run_batch(alloc, self, &options),
            Program::Client => run_client(alloc, self, &options),
            Program::Audit => run_audit(alloc, self, &options),
        }
    }
}
