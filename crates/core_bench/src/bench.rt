//! An executor with many contexts, and one command many times over.
ghost use Rattle.std.specs.Prelude.{◌≤◌, IfSome, length};
ghost use Rattle.dpe_messages.specs.CommandRows.{IsCommandWritable};
ghost use Rattle.dpe_messages.specs.Replies.{payload_limit};

use dpe_core::Core;
use dpe_inputs::Count;
use dpe_messages::{Command, Config, Derive, Seal, Sign, Unseal, write_command};
use std::alloc::{AllocError, Global};

const MESSAGE: [u8; 32] = [0x22; 32];

static CODE: [u8; 64] = [0x11; 64];

static CONFIG: [u8; 64] = [0x21; 64];

static AUTHORITY: [u8; 64] = [0x31; 64];

/// The bytes of a box of 32 bytes, which end the reply to a Seal.
const BOX_LENGTH: usize = 117;

/// An executor over a seed of zeros, whose random bytes are zeros too.
#[derive(Drop)]
pub struct Bench {
    core: Core,
    folds: Count,
}

// A derivation by one layer of a context, or of the default one. The child is the default context of its locality, or
// isn't.
fn derivation<'a>(handle: Option<&'a [u8; 16]>, retain: bool, child_default: bool) -> Command<'a>
    ensures { IsCommandWritable result }
{
    Command::Derive(Derive {
        handle,
        code: &CODE,
        config: Config::Inline(&CONFIG),
        authority: &AUTHORITY,
        mode: 1,
        hidden: None,
        retain,
        may_derive: true,
        locality: None,
        child_default,
    })
}

// A rotation of a context, or of the default one, which keeps its mark where it is to be the default.
fn rotation<'a>(handle: Option<&'a [u8; 16]>, default: bool) -> Command<'a>
    ensures { IsCommandWritable result }
{
    Command::Rotate { handle, default }
}

impl Bench {
    // A root alone, which is the default context.
    fn root(alloc: Global) -> Result<Bench, AllocError> {
        let mut bench = Bench {
            core: Core::make(alloc, &[0; 32], 1)?,
            folds: Count::new(),
        };
        bench.prepare(&Command::Initialize { default: true });
        Ok(bench)
    }

    /// A root with children by one layer, all of which live, and then so many layers in place of the root. The last of
    /// these is the default context.
    // no clause: it is measured, and a stored run shows its reply.
    pub fn make(alloc: Global, live: u32, depth: u32) -> Result<Bench, AllocError> {
        let mut bench = Bench::root(alloc)?;
        for _ in 1..live {
            let root = bench.newest();
            bench.prepare(&derivation(Some(&root), true, false));
        }
        for _ in 0..depth {
            let parent = bench.newest();
            bench.prepare(&derivation(Some(&parent), false, true));
        }
        Ok(bench)
    }

    /// The same, where the default context is the one whose handle is the oldest.
    // no clause: it is measured, and a stored run shows its reply.
    pub fn make_by_default(alloc: Global, live: u32, depth: u32) -> Result<Bench, AllocError> {
        let mut bench = Bench::make(alloc, live, depth)?;
        for _ in 1..live {
            let oldest = bench.handle(0);
            bench.prepare(&rotation(Some(&oldest), false));
        }
        Ok(bench)
    }

    /// A root with contexts below it, each as deep as told by layers of its own. The root's handle is the newest.
    // no clause: it is measured, and a stored run shows its reply.
    pub fn make_family(alloc: Global, live: u32, depth: u32) -> Result<Bench, AllocError> {
        let mut bench = Bench::root(alloc)?;
        for _ in 1..live {
            bench.branch(depth);
        }
        Ok(bench)
    }

    // Adds a context below the newest one, which is then the newest again.
    fn branch(&mut self, depth: u32) {
        let above = self.newest();
        self.prepare(&derivation(Some(&above), true, false));
        let above = self.newest();
        let mut below = self.handle(self.core.live().saturating_sub(2));
        for _ in 1..depth {
            self.prepare(&derivation(Some(&below), false, false));
            below = self.newest();
        }
        self.prepare(&rotation(Some(&above), true));
    }

    // The handle of the context at a place in the order of serials; zeros where there is none.
    fn handle(&self, at: u32) -> [u8; 16] {
        if at < self.core.live() {
            self.core.row(at).handle
        } else {
            [0; 16]
        }
    }

    // The handle made last.
    fn newest(&self) -> [u8; 16] {
        self.handle(self.core.live().saturating_sub(1))
    }

    // Executes a command that isn't counted.
    fn prepare(&mut self, command: &Command<'_>)
        requires { IsCommandWritable command.now }
    {
        let mut payload = [0; 4096];
        let mut reply = [0; 4096];
        let len = write_command(command, &mut payload);
        self.core
            .execute(0, &[0; 32], &payload[..len], &mut reply, &mut self.folds);
    }

    // The length of the reply.
    fn execute(&mut self, command: &Command<'_>, reply: &mut [u8; 4096]) -> usize
        requires { IsCommandWritable command.now }
        ensures { result ≤ 4096 }
    {
        let mut payload = [0; 4096];
        let len = write_command(command, &mut payload);
        self.count(&payload[..len], reply)
    }

    // What is counted: the executor alone. So the program has it as a function of its own.
    #[inline(never)]
    fn count(&mut self, payload: &[u8], reply: &mut [u8; 4096]) -> usize
        requires { length payload.now ≤ payload_limit }
        ensures { result ≤ 4096 }
    {
        self.core
            .execute(0, &[0; 32], payload, reply, &mut self.folds)
    }

    fn sign(&mut self, handle: Option<&[u8; 16]>, reply: &mut [u8; 4096]) -> usize
        ensures { result ≤ 4096 }
    {
        let sign = Sign {
            handle,
            label: b"",
            retain: true,
            message: &MESSAGE,
        };
        self.execute(&Command::Sign(sign), reply)
    }

    fn seal(&mut self, handle: Option<&[u8; 16]>, reply: &mut [u8; 4096]) -> usize
        ensures { result ≤ 4096 }
    {
        let seal = Seal {
            handle,
            label: b"",
            retain: true,
            localities: 255,
            modes: 15,
            plain: &MESSAGE,
        };
        self.execute(&Command::Seal(seal), reply)
    }

    fn unseal(
        &mut self,
        handle: Option<&[u8; 16]>,
        sealed: &[u8; 117],
        reply: &mut [u8; 4096],
    ) -> usize
        ensures { result ≤ 4096 }
    {
        let unseal = Unseal {
            handle,
            label: b"",
            retain: true,
            sealed,
        };
        self.execute(&Command::Unseal(unseal), reply)
    }

    // Derives from a context that is retained, and destroys the child, which isn't counted.
    fn come_and_go(&mut self, handle: Option<&[u8; 16]>, reply: &mut [u8; 4096]) -> usize
        ensures { result ≤ 4096 }
    {
        let len = self.execute(&derivation(handle, true, false), reply);
        let child = self.handle(self.core.live().saturating_sub(2));
        self.prepare(&Command::Destroy {
            handle: Some(&child),
            recursive: false,
        });
        len
    }

    fn destroy(
        &mut self,
        handle: Option<&[u8; 16]>,
        recursive: bool,
        reply: &mut [u8; 4096],
    ) -> usize
        ensures { result ≤ 4096 }
    {
        self.execute(&Command::Destroy { handle, recursive }, reply)
    }

    // A box that the newest context seals.
    fn sealed(&mut self) -> [u8; 117] {
        let mut reply = [0; 4096];
        let newest = self.newest();
        let len = self.seal(Some(&newest), &mut reply);
        let mut sealed = [0; 117];
        if len >= BOX_LENGTH {
            sealed.copy_from_slice(&reply[len - BOX_LENGTH..len]);
        }
        sealed
    }

    /// So many commands, each on the context whose handle is the oldest, or, without a name, on the default one. The
    /// length of the last reply; `None` where there is no command of this kind.
    pub fn repeated(
        &mut self,
        kind: &str,
        named: bool,
        count: u32,
        reply: &mut [u8; 4096],
    ) -> Option<usize>
        ensures { IfSome result (λ len. len ≤ 4096) }
    {
        let sealed = if kind == "unseal" {
            self.sealed()
        } else {
            [0; 117]
        };
        let mut len = 0;
        for _ in 0..count {
            let oldest = self.handle(0);
            let handle = if named { Some(&oldest) } else { None };
            len = self.once(kind, handle, &sealed, reply)?;
        }
        Some(len.min(reply.len()))
    }

    // One command on the context with this handle, or on the default one.
    fn once(
        &mut self,
        kind: &str,
        handle: Option<&[u8; 16]>,
        sealed: &[u8; 117],
        reply: &mut [u8; 4096],
    ) -> Option<usize>
        ensures { IfSome result (λ len. len ≤ 4096) }
    {
        if kind == "sign" {
            Some(self.sign(handle, reply))
        } else if kind == "seal" {
            Some(self.seal(handle, reply))
        } else if kind == "unseal" {
            Some(self.unseal(handle, sealed, reply))
        } else if kind == "rotate" {
            Some(self.execute(&rotation(handle, handle.is_none()), reply))
        } else if kind == "derive" {
            Some(self.come_and_go(handle, reply))
        } else {
            self.destroyed(kind, handle, reply)
        }
    }

    // One context destroyed, or with it all those below it.
    fn destroyed(
        &mut self,
        kind: &str,
        handle: Option<&[u8; 16]>,
        reply: &mut [u8; 4096],
    ) -> Option<usize>
        ensures { IfSome result (λ len. len ≤ 4096) }
    {
        if kind == "destroy" {
            Some(self.destroy(handle, false, reply))
        } else if kind == "recursive" {
            Some(self.destroy(handle, true, reply))
        } else if kind == "family" {
            let root = self.newest();
            Some(self.destroy(Some(&root), true, reply))
        } else {
            None
        }
    }
}
