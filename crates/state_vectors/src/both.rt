//! The executor and the plain evaluator, side by side.
use crate::fault::Fault;
use dpe_core::Core;
use dpe_inputs::Count;
use dpe_messages::{Asked, Reply, read_reply};
use dpe_model::{LiveRow, Plain};
use std::alloc::{AllocError, Global};
use table_rows::{Names, RowFault};

/// Who asks, and with which random bytes.
#[derive(Clone, Copy)]
pub struct Caller {
    pub locality: u8,
    pub random: [u8; 32],
}

/// Both, from the same seed and first serial, the folds that the executor counts, the names of bytes, of which `box` is the
/// box that was sealed last, and what each replied last.
#[derive(Drop)]
pub struct Both {
    core: Core,
    plain: Plain,
    folds: Count,
    names: Names,
    by_core: Vec<u8>,
    by_plain: Vec<u8>,
}

// Whether both tell the same contexts.
fn same_contexts(core: &Core, plain: &Plain) -> bool {
    let live = core.live();
    if plain.live() != live {
        return false;
    }
    for at in 0..live {
        if core.row(at) != plain.row(at) {
            return false;
        }
    }
    true
}

impl Both {
    /// Before any command.
    pub(crate) fn start(alloc: Global, seed: &[u8; 32], first: u64) -> Result<Both, AllocError> {
        Ok(Both {
            core: Core::make(alloc, seed, first)?,
            plain: Plain::make(alloc, seed, first),
            folds: Count::new(),
            names: Names::new(alloc),
            by_core: Vec::new(alloc),
            by_plain: Vec::new(alloc),
        })
    }

    /// Begins another history. The box that was sealed last stays.
    pub(crate) fn begin(
        &mut self,
        alloc: Global,
        seed: &[u8; 32],
        first: u64,
    ) -> Result<(), AllocError> {
        self.core = Core::make(alloc, seed, first)?;
        self.plain = Plain::make(alloc, seed, first);
        self.folds = Count::new();
        Ok(())
    }

    /// Keeps the box in the reply to a Seal.
    pub(crate) fn keep_box(&mut self, alloc: Global) -> Result<(), RowFault> {
        match read_reply(&Asked::Seal, &self.by_core) {
            Ok(Reply::Made { bytes, .. }) => {
                let sealed = Vec::from_slice(alloc, bytes)?;
                self.names.name(alloc, "box", sealed)
            }
            _ => Ok(()),
        }
    }

    /// What both replied last, or the executor alone where they differ.
    pub(crate) fn reply(&self) -> &[u8] {
        &self.by_core
    }

    /// What the plain evaluator replied last.
    pub(crate) fn plain_reply(&self) -> &[u8] {
        &self.by_plain
    }

    /// The names of bytes.
    pub(crate) fn names(&self) -> &Names {
        &self.names
    }

    /// The names of bytes, to give more of them.
    pub(crate) fn names_mut(&mut self) -> &mut Names {
        &mut self.names
    }

    /// How many contexts live, and how many folds were counted.
    pub(crate) fn counts(&self) -> (u32, u64) {
        (self.core.live(), self.folds.folds())
    }

    /// The context at a place in the order of the serials.
    pub(crate) fn row(&self, at: u32) -> Option<LiveRow> {
        if at < self.core.live() {
            Some(self.core.row(at))
        } else {
            None
        }
    }

    fn ask_core(&mut self, alloc: Global, caller: &Caller, payload: &[u8]) -> Result<(), Fault> {
        if caller.locality > 7 || payload.len() > 4096 {
            return Err(Fault::Unreadable);
        }
        let mut room = [0; 4096];
        let len = self.core.execute(
            caller.locality,
            &caller.random,
            payload,
            &mut room,
            &mut self.folds,
        );
        self.by_core = Vec::from_slice(alloc, &room[..len])?;
        Ok(())
    }

    fn ask_plain(&mut self, alloc: Global, caller: &Caller, payload: &[u8]) -> Result<(), Fault> {
        if caller.locality > 7 || payload.len() > 4096 {
            return Err(Fault::Unreadable);
        }
        let mut room = [0; 4096];
        let len = self
            .plain
            .execute(alloc, caller.locality, &caller.random, payload, &mut room)?;
        self.by_plain = Vec::from_slice(alloc, &room[..len])?;
        Ok(())
    }

    /// Has both reply to a payload, and sees whether they differ.
    pub(crate) fn execute(
        &mut self,
        alloc: Global,
        caller: &Caller,
        payload: &[u8],
    ) -> Result<(), Fault> {
        self.ask_core(alloc, caller, payload)?;
        self.ask_plain(alloc, caller, payload)?;
        if self.by_core.as_slice() != self.by_plain.as_slice() {
            return Err(Fault::Differ);
        }
        if !same_contexts(&self.core, &self.plain) {
            return Err(Fault::ContextsDiffer);
        }
        Ok(())
    }
}
