// Two workers that ask for the root at once.
ghost use Rattle.std.specs.Prelude.{IfOk};
ghost use Rattle.dpe_io.specs.Memory.{IsUnused};

use crate::programs::{tell, tell_status};
use crate::raw::INITIALIZE;
use dpe_io::{MemConn, MemDoor, MemEntropy, MemHouse, MemSink, MemSource, WriteSink};
use dpe_serve::serve_main;
use std::alloc::{AllocError, Global};
use std::sync::Wait;
use std::thread::Threads;

// The frame of code 5.
static SEED_LOCKED: [u8; 10] = [0, 0, 0, 6, 0x82, 0x00, 0x43, 0x82, 0x05, 0xa0];

// The frame of the reply with the root's handle, with 1 as first serial and random bytes of ones, and of twos.
static OF_ONES: [u8; 28] = [
    0, 0, 0, 0x18, 0x82, 0x00, 0x55, 0x82, 0x00, 0xa1, 0x01, 0x50, 0, 0, 0, 0, 0, 0, 0, 1, 1, 1, 1,
    1, 1, 1, 1, 1,
];

static OF_TWOS: [u8; 28] = [
    0, 0, 0, 0x18, 0x82, 0x00, 0x55, 0x82, 0x00, 0xa1, 0x01, 0x50, 0, 0, 0, 0, 0, 0, 0, 1, 2, 2, 2,
    2, 2, 2, 2, 2,
];

static WORDS: [&str; 7] = ["s", "j", "1", "4", "1", "0:p", "0:q"];

// A door at which one connection asks for the root.
fn door_of(alloc: Global) -> Result<MemDoor, AllocError>
    ensures { IfOk result IsUnused }
{
    let source = MemSource::new(alloc, &INITIALIZE, 7, &[])?;
    let sink = MemSink::new(alloc, 100, 100, &[])?;
    let waiting = vec![in alloc; MemConn::new(source, sink)]?;
    MemDoor::new(alloc, waiting, &[])
}

// A house with two such doors. The random bytes are ones at the first, and twos at the second.
fn house_of(alloc: Global) -> Result<MemHouse, AllocError> {
    let seed = MemSource::new(alloc, &[0; 32], 32, &[])?;
    let journal = MemSink::new(alloc, 1_000, 1_000, &[])?;
    let doors = vec![in alloc; door_of(alloc)?, door_of(alloc)?]?;
    let ones = MemEntropy::new(alloc, &[[1; 32]], &[])?;
    let twos = MemEntropy::new(alloc, &[[2; 32]], &[])?;
    let entropies = vec![in alloc; ones, twos]?;
    MemHouse::new(alloc, seed, journal, doors, entropies, &[])
}

// What the first connection of a door got.
fn got(house: &MemHouse, door: usize) -> Option<&[u8]> {
    let conn = house.doors().get(door)?.ended().first()?;
    Some(conn.sink().bytes())
}

// Whether one of two connections got the root, with random bytes of its own entropy, and the other a refusal.
fn just_one_made_it(house: &MemHouse) -> bool {
    let locked = Some(SEED_LOCKED.as_slice());
    let (one, other) = (got(house, 0), got(house, 1));
    one == Some(OF_ONES.as_slice()) && other == locked
        || one == locked && other == Some(OF_TWOS.as_slice())
}

/// Two workers at one root.
pub(crate) fn try_pair<R: Threads + Wait + Sync>(rt: &R, host: HostRuntime) {
    let Ok(mut house) = house_of(host.alloc()) else {
        return;
    };
    let mut out = WriteSink::new(host.stdout());
    let status = serve_main(rt, host.alloc(), &WORDS, &mut house, &mut out);
    tell_status(host, "the server in memory", status);
    tell(
        host,
        "just one of two workers makes the root, of random bytes of its own",
        just_one_made_it(&house),
    );
}
