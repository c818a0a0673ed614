// Sixteen doors at once, with three hundred commands each.
use crate::programs::{audit, knock, serve, tell, tell_status};
use crate::raw::{INITIALIZE, PROFILE, PROFILE_REPLY, ROOT_MADE, reads};
use std::alloc::{AllocError, Global};
use std::io::{Read, Write};
use std::os::unix::net::UnixStream;
use std::sync::Wait;
use std::thread::{self, Threads};

static DOORS: [&str; 16] = [
    "crowd.a", "crowd.b", "crowd.c", "crowd.d", "crowd.e", "crowd.f", "crowd.g", "crowd.h",
    "crowd.i", "crowd.j", "crowd.k", "crowd.l", "crowd.m", "crowd.n", "crowd.o", "crowd.p",
];

static SERVER: [&str; 21] = [
    "seed",
    "crowd.journal",
    "1",
    "8192",
    "1",
    "0:crowd.a",
    "1:crowd.b",
    "2:crowd.c",
    "3:crowd.d",
    "4:crowd.e",
    "5:crowd.f",
    "6:crowd.g",
    "7:crowd.h",
    "0:crowd.i",
    "1:crowd.j",
    "2:crowd.k",
    "3:crowd.l",
    "4:crowd.m",
    "5:crowd.n",
    "6:crowd.o",
    "7:crowd.p",
];

static AUDIT: [&str; 3] = ["check", "seed", "crowd.journal"];

const LOCALITIES: usize = 8;

// How often a client writes its batch, and how many pairs of commands a batch has: GetProfile, and then InitializeContext.
const BATCHES: usize = 15;

const PAIRS: usize = 10;

// The refusals of InitializeContext: at locality 0 once a root was made, and at any other.
static LOCKED: [u8; 6] = [0x82, 0, 0x43, 0x82, 5, 0xa0];

static NOT_HERE: [u8; 7] = [0x82, 0, 0x44, 0x82, 0x18, 27, 0xa0];

// The frames of a batch.
fn batch_of(alloc: Global) -> Result<Vec<u8>, AllocError> {
    let mut batch = Vec::new(alloc);
    for _ in 0..PAIRS {
        batch.extend_from_slice(&PROFILE)?;
        batch.extend_from_slice(&INITIALIZE)?;
    }
    Ok(batch)
}

// Reads the reply to InitializeContext, and tells whether the root was made. There is no answer where it is neither this
// refusal nor the root's handle.
fn reads_root(stream: &mut UnixStream, refusal: &[u8]) -> Option<bool> {
    let mut head = [0; 4];
    stream.read_exact(&mut head).ok()?;
    let mut room = [0; 64];
    let payload = room.get_mut(..u32::from_be_bytes(head) as usize)?;
    stream.read_exact(payload).ok()?;
    if &*payload == refusal {
        return Some(false);
    }
    payload.starts_with(&ROOT_MADE[4..]).then_some(true)
}

// Writes a batch at once, reads the replies in order, and counts the roots that were made.
fn ask_batch(stream: &mut UnixStream, batch: &[u8], refusal: &[u8]) -> Option<u32> {
    stream.write_all(batch).ok()?;
    let mut roots = 0u32;
    for _ in 0..PAIRS {
        if !reads(stream, &PROFILE_REPLY) {
            return None;
        }
        if reads_root(stream, refusal)? {
            roots = roots.saturating_add(1);
        }
    }
    Some(roots)
}

// Writes all batches, and counts the roots that were made.
fn ask_often(mut stream: UnixStream, batch: &[u8], refusal: &[u8]) -> Option<u32> {
    let mut roots = 0u32;
    for _ in 0..BATCHES {
        roots = roots.saturating_add(ask_batch(&mut stream, batch, refusal)?);
    }
    Some(roots)
}

// A client of one door, which counts the roots that it made.
fn ask_door(host: HostRuntime, batch: &[u8], door: usize) -> Option<u32> {
    let refusal = if door % LOCALITIES == 0 {
        LOCKED.as_slice()
    } else {
        NOT_HERE.as_slice()
    };
    ask_often(knock(host, DOORS.get(door)?)?, batch, refusal)
}

// How many roots were made in all, where each client was answered as it should be.
fn total(counts: &[Option<u32>]) -> Option<u32> {
    let mut roots = 0u32;
    for count in counts {
        roots = roots.saturating_add((*count)?);
    }
    Some(roots)
}

// A client at each door at once, and the roots that each made.
fn ask_all<R: Threads + Sync>(rt: &R, host: HostRuntime) -> Result<Vec<Option<u32>>, AllocError> {
    let batch = batch_of(host.alloc())?;
    thread::map_indices(
        rt,
        host.alloc(),
        DOORS.len(),
        &|door| { ask_door(host, &batch, door) },
    )
}

// Whether each client was answered as it should be, and just one root was made.
fn makes_one_root<R: Threads + Sync>(rt: &R, host: HostRuntime) -> bool {
    match ask_all(rt, host) {
        Ok(counts) => total(&counts) == Some(1),
        Err(_) => false,
    }
}

/// The crowd, and the audit of its journal.
pub(crate) fn try_crowd<R: Threads + Wait + Sync>(rt: &R, host: HostRuntime) {
    let (served, made) = thread::join(rt, || serve(rt, host, &SERVER), || makes_one_root(rt, host));
    tell_status(host, "the server", served);
    tell(
        host,
        "of sixteen clients at once just one makes the root",
        made,
    );
    audit(host, &AUDIT);
}
