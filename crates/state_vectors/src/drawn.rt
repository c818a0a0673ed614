//! Commands that are drawn from a number, of which half name no context. The head of the table says what is drawn.
ghost use Rattle.std.specs.Prelude.{◌≤◌, length};

use crate::both::{Both, Caller};
use crate::fault::Fault;
use crate::numbers::number;
use dpe_messages::{Command, Config, Derive, Seal, Sign, Unseal, reply_code, write_command};
use sha2::{Digest, Sha256};
use std::alloc::{AllocError, Global};

const FACTOR: u64 = 6_364_136_223_846_793_005;

const SUMMAND: u64 = 1_442_695_040_888_963_407;

/// The longest box of a command.
const MOST_BOX: usize = 3900;

/// So many codes are counted.
const CODES: usize = 30;

// The number that draws are made from.
#[derive(Drop)]
struct Draws {
    number: u64,
}

// What is drawn for a command.
#[derive(Clone, Copy)]
struct Drawn {
    random: [u8; 32],
    kind: u32,
    argument: u32,
    choice: u32,
    bits: u32,
}

impl Draws {
    fn next(&mut self) -> u32 {
        self.number = self.number.wrapping_mul(FACTOR).wrapping_add(SUMMAND);
        (self.number >> 32) as u32
    }

    fn random(&mut self) -> [u8; 32] {
        let mut random = [0; 32];
        for place in 0..8usize {
            let word = self.next().to_be_bytes();
            random[4 * place..4 * place + 4].copy_from_slice(&word);
        }
        random
    }

    fn command(&mut self) -> Drawn {
        Drawn {
            random: self.random(),
            kind: self.next() % 16,
            argument: self.next(),
            choice: self.next(),
            bits: self.next(),
        }
    }
}

impl Drawn {
    fn bit(&self, place: u32) -> bool
        requires { place ≤ 31 }
    {
        self.bits >> place & 1 == 1
    }

    fn retains(&self) -> bool {
        self.bits % 8 != 0
    }

    // 64 times the argument and so much more.
    fn input(&self, more: u32) -> [u8; 64] {
        [(self.argument.wrapping_add(more) % 256) as u8; 64]
    }
}

// The caller, and the handle of the context that the command names, if it names one.
fn chosen(both: &Both, drawn: &Drawn) -> (Caller, Option<[u8; 16]>) {
    let (live, _) = both.counts();
    let at = drawn.argument.checked_rem(live).unwrap_or(0);
    let (handle, own) = match both.row(at) {
        Some(row) => (row.handle, row.locality),
        None => ([0; 16], 0),
    };
    let other = (drawn.choice / 8 % 8) as u8;
    let caller = Caller {
        locality: if drawn.choice % 8 == 0 { other } else { own },
        random: drawn.random,
    };
    let handle = if drawn.choice / 64 % 2 == 1 {
        None
    } else {
        Some(handle)
    };
    (caller, handle)
}

// What a layer has of just so many bytes.
#[derive(Clone, Copy)]
struct Layer {
    handle: Option<[u8; 16]>,
    code: [u8; 64],
    config: [u8; 64],
    authority: [u8; 64],
}

fn derive(drawn: &Drawn, handle: Option<[u8; 16]>, room: &mut [u8; 4096]) -> usize
    ensures { result ≤ 4096 }
{
    let layer = Layer {
        handle,
        code: drawn.input(0),
        config: drawn.input(1),
        authority: [(drawn.argument % 2) as u8; 64],
    };
    let locality = (drawn.bits / 256 % 8) as u8;
    let derive = Derive {
        handle: layer.handle.as_ref(),
        code: &layer.code,
        config: Config::Inline(&layer.config),
        authority: &layer.authority,
        mode: (drawn.argument / 2 % 4) as u8,
        hidden: None,
        retain: drawn.kind < 5,
        may_derive: drawn.retains(),
        locality: if drawn.bit(3) { Some(locality) } else { None },
        child_default: drawn.bit(4),
    };
    write_command(&Command::Derive(derive), room)
}

fn sign<'a>(drawn: &'a Drawn, handle: Option<&'a [u8; 16]>, room: &mut [u8; 4096]) -> usize
    ensures { result ≤ 4096 }
{
    let sign = Sign {
        handle,
        label: &[],
        retain: drawn.retains(),
        message: &drawn.random,
    };
    write_command(&Command::Sign(sign), room)
}

fn seal<'a>(drawn: &'a Drawn, handle: Option<&'a [u8; 16]>, room: &mut [u8; 4096]) -> usize
    ensures { result ≤ 4096 }
{
    let localities = (drawn.bits / 256 % 256) as u8;
    let modes = (drawn.bits / 65536 % 16) as u8;
    let seal = Seal {
        handle,
        label: &[],
        retain: drawn.retains(),
        localities: if drawn.bit(5) { localities } else { 255 },
        modes: if drawn.bit(6) { modes } else { 15 },
        plain: &drawn.random,
    };
    write_command(&Command::Seal(seal), room)
}

fn unseal<'a>(
    drawn: &Drawn,
    handle: Option<&'a [u8; 16]>,
    sealed: &'a [u8],
    room: &mut [u8; 4096],
) -> usize
    requires { length sealed.now ≤ 3900 }
    ensures { result ≤ 4096 }
{
    let unseal = Unseal {
        handle,
        label: &[],
        retain: drawn.retains(),
        sealed,
    };
    write_command(&Command::Unseal(unseal), room)
}

fn destroy(drawn: &Drawn, handle: Option<&[u8; 16]>, room: &mut [u8; 4096]) -> usize
    ensures { result ≤ 4096 }
{
    let recursive = drawn.bits % 8 == 0;
    write_command(&Command::Destroy { handle, recursive }, room)
}

// The box that was sealed last, or no bytes.
fn last_box(both: &Both) -> &[u8]
    ensures { length result.now ≤ 3900 }
{
    match both.names().get("box") {
        Some(sealed) if sealed.len() <= MOST_BOX => sealed,
        _ => &[],
    }
}

// The payload of a command that uses a context, or of GetProfile.
fn with_context(
    both: &Both,
    drawn: &Drawn,
    handle: Option<[u8; 16]>,
    room: &mut [u8; 4096],
) -> usize
    ensures { result ≤ 4096 }
{
    let named = handle.as_ref();
    let default = drawn.bit(0);
    match drawn.kind {
        0..=5 => derive(drawn, handle, room),
        6 | 7 => write_command(
            &Command::Rotate {
                handle: named,
                default,
            },
            room,
        ),
        8 | 9 => sign(drawn, named, room),
        10 | 11 => seal(drawn, named, room),
        12 | 13 => unseal(drawn, named, last_box(both), room),
        14 => destroy(drawn, named, room),
        _ => write_command(&Command::GetProfile, room),
    }
}

// Has both reply to a drawn command, and keeps the box that it made. Where no context lives it asks for a root.
fn ask(alloc: Global, both: &mut Both, drawn: &Drawn) -> Result<(), Fault> {
    let (caller, handle) = chosen(both, drawn);
    let mut room = [0; 4096];
    let (live, _) = both.counts();
    if live == 0 {
        let default = drawn.bit(0);
        let len = write_command(&Command::Initialize { default }, &mut room);
        return both.execute(alloc, &caller, &room[..len]);
    }
    let len = with_context(both, drawn, handle, &mut room);
    both.execute(alloc, &caller, &room[..len])?;
    if drawn.kind == 10 || drawn.kind == 11 {
        both.keep_box(alloc)?;
    }
    Ok(())
}

// How many replies have each code, behind its number, and the hash of all.
fn told(alloc: Global, counts: &[u32; CODES], replies: Sha256) -> Result<String, AllocError> {
    let mut text = String::new(alloc);
    for (code, count) in counts.iter().enumerate() {
        if *count > 0 {
            write!(text, "{count} with {code}, ")?;
        }
    }
    let digest = hex::encode(alloc, replies.finalize())?;
    write!(text, "sha256 {digest}")?;
    Ok(text)
}

/// So many commands that are drawn from a number: how many replies have which code, and a hash of all, one behind the
/// other.
pub(crate) fn draw_all(alloc: Global, both: &mut Both, words: &[&str]) -> Result<String, Fault> {
    let [first, times] = words else {
        return Err(Fault::Unreadable);
    };
    let mut draws = Draws {
        number: number(first)?,
    };
    let mut counts = [0u32; CODES];
    let mut replies = Sha256::new();
    for _ in 0..number(times)? {
        ask(alloc, both, &draws.command())?;
        replies.update(both.reply());
        let code = reply_code(both.reply()).unwrap_or(0);
        if let Some(count) = counts.get_mut(code as usize) {
            *count = count.saturating_add(1);
        }
    }
    Ok(told(alloc, &counts, replies)?)
}
