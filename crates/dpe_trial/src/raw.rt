// Clients that write what bytes they like: whole frames at once, a frame byte by byte, a part of one, and a wrong head.
use crate::programs::{audit, knock, serve, tell, tell_status};
use std::io::{Read, Write};
use std::os::unix::net::UnixStream;
use std::sync::Wait;
use std::thread::{self, Threads};
use std::time::Duration;

/// The frame of GetProfile, and that of the reply to it.
pub(crate) static PROFILE: [u8; 10] = [0, 0, 0, 6, 0x82, 0, 0x43, 0x82, 1, 0xa0];

pub(crate) static PROFILE_REPLY: [u8; 39] = [
    0, 0, 0, 0x23, 0x82, 0, 0x58, 0x1f, 0x82, 0, 0xa4, 1, 0x6f, 0x64, 0x70, 0x65, 0x2d, 0x73, 0x79,
    0x6d, 0x6d, 0x65, 0x74, 0x72, 0x69, 0x63, 0x2d, 0x32, 2, 0x19, 0x10, 0, 3, 0x19, 4, 0, 4, 0x18,
    0x20,
];

/// The frame of InitializeContext, and that of the reply with the root's handle, before its random bytes.
pub(crate) static INITIALIZE: [u8; 10] = [0, 0, 0, 6, 0x82, 0, 0x43, 0x82, 7, 0xa0];

pub(crate) static ROOT_MADE: [u8; 20] = [
    0, 0, 0, 0x18, 0x82, 0, 0x55, 0x82, 0, 0xa1, 1, 0x50, 0, 0, 0, 0, 0, 0, 0, 1,
];

static DOOR: &str = "raw.a";

static SERVER: [&str; 6] = ["seed", "raw.journal", "4", "64", "1", "0:raw.a"];

static AUDIT: [&str; 3] = ["check", "seed", "raw.journal"];

// The bytes of a handle that are random.
const RANDOM: usize = 8;

// The pause behind a byte that is written alone.
const PAUSE_MILLIS: u64 = 20;

// Three frames that are written at once, of which the second makes the root.
static THREE: [u8; 30] = [
    0, 0, 0, 6, 0x82, 0, 0x43, 0x82, 1, 0xa0, 0, 0, 0, 6, 0x82, 0, 0x43, 0x82, 7, 0xa0, 0, 0, 0, 6,
    0x82, 0, 0x43, 0x82, 1, 0xa0,
];

// The first bytes of a frame, and the head of a frame that is too long.
static CUT: [u8; 5] = [0, 0, 0, 6, 0x82];

static TOO_LONG: [u8; 4] = [0, 0, 0x10, 1];

/// Reads as many bytes as are expected, and tells whether they are these.
pub(crate) fn reads(stream: &mut UnixStream, expected: &[u8]) -> bool {
    let mut room = [0; 64];
    match room.get_mut(..expected.len()) {
        Some(got) => stream.read_exact(got).is_ok() && &*got == expected,
        None => false,
    }
}

// Writes three frames at once, and reads the three replies.
fn write_at_once(mut stream: UnixStream) -> bool {
    stream.write_all(&THREE).is_ok()
        && reads(&mut stream, &PROFILE_REPLY)
        && reads(&mut stream, &ROOT_MADE)
        && stream.read_exact(&mut [0; RANDOM]).is_ok()
        && reads(&mut stream, &PROFILE_REPLY)
}

// Writes a frame byte by byte, with a pause behind each so that the server finds it alone, and reads the reply.
fn write_slowly(host: HostRuntime, mut stream: UnixStream) -> bool {
    for byte in &PROFILE {
        if stream.write_all(&[*byte]).is_err() {
            return false;
        }
        thread::sleep(&host, Duration::from_millis(PAUSE_MILLIS));
    }
    reads(&mut stream, &PROFILE_REPLY)
}

// Writes a head that is too long, and tells whether the server ends the connection with no reply.
fn write_too_long(mut stream: UnixStream) -> bool {
    stream.write_all(&TOO_LONG).is_ok() && matches!(stream.read(&mut [0; 8]), Ok(0))
}

// Writes a part of a frame, and goes away.
fn vanish(mut stream: UnixStream) -> bool {
    stream.write_all(&CUT).is_ok()
}

// One client after another, and whether each was answered as it should be.
fn ask_in_turn(host: HostRuntime) -> Option<[bool; 4]> {
    let at_once = write_at_once(knock(host, DOOR)?);
    let slowly = write_slowly(host, knock(host, DOOR)?);
    let cut = vanish(knock(host, DOOR)?);
    let too_long = write_too_long(knock(host, DOOR)?);
    Some([at_once, slowly, cut, too_long])
}

// Tells whether each client was answered.
fn tell_answered(host: HostRuntime, [at_once, slowly, cut, too_long]: [bool; 4]) {
    tell(
        host,
        "frames that are written at once are answered",
        at_once,
    );
    tell(
        host,
        "a frame that is written byte by byte is answered",
        slowly,
    );
    tell(host, "a client goes away in a frame", cut);
    tell(
        host,
        "behind a head that is too long nothing is answered",
        too_long,
    );
}

/// The clients at one door, and the audit of their journal.
pub(crate) fn try_raw<R: Threads + Wait + Sync>(rt: &R, host: HostRuntime) {
    let (served, asked) = thread::join(rt, || serve(rt, host, &SERVER), || ask_in_turn(host));
    tell_status(host, "the server", served);
    tell_answered(host, asked.unwrap_or([false; 4]));
    audit(host, &AUDIT);
}
