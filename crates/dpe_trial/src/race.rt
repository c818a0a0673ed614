// Two workers of which each needs the other to go on, and two clients that use one handle at once.
use crate::programs::{ROOM, ask, audit, knock, serve, tell, tell_status, text};
use dpe_io::MemSink;
use std::alloc::AllocError;
use std::sync::Wait;
use std::thread::{self, Threads};
use std::{fs, io};

// Each door serves two connections: that of the first client, and that of one of the others. At the last door nobody asks.
static SERVER: [&str; 8] = [
    "seed",
    "race.journal",
    "2",
    "64",
    "1",
    "0:race.a",
    "0:race.b",
    "0:race.z",
];

static FIRST: [&str; 3] = ["root.script", "race.a", "race.b"];

static ONE: [&str; 2] = ["rotate.script", "race.a"];

static OTHER: [&str; 2] = ["rotate.script", "race.b"];

static AUDIT: [&str; 3] = ["check", "seed", "race.journal"];

// What the client prints of a reply with the handle of serial 2, before the handle's random bytes, and of a refused handle.
static ROTATED: &str = "1 - 8200558200a101500000000000000002";

static NO_SUCH_HANDLE: &str = "1 - 8200438211a0\n";

// How many digits a handle has, and how many of them stand before those of its random bytes.
const HANDLE_DIGITS: usize = 32;

const SERIAL_DIGITS: usize = 16;

// How many characters of a line are told: those before the random bytes of its handle.
const SHOWN: usize = 36;

// What the clients print: the one that makes the root, and the two that rotate its handle at once.
#[derive(Drop)]
struct Printed {
    first: MemSink,
    one: MemSink,
    other: MemSink,
}

fn room(host: HostRuntime) -> Result<MemSink, AllocError> {
    MemSink::new(host.alloc(), ROOM, ROOM, &[])
}

fn rooms(host: HostRuntime) -> Result<Printed, AllocError> {
    Ok(Printed {
        first: room(host)?,
        one: room(host)?,
        other: room(host)?,
    })
}

// The digits of the handle at the end of what a client printed.
fn last_handle(printed: &str) -> &str {
    let end = printed.len().saturating_sub(1);
    printed
        .get(end.saturating_sub(HANDLE_DIGITS)..end)
        .unwrap_or_default()
}

// Writes the script that rotates the root's handle.
fn write_rotation(host: HostRuntime, handle: &str) -> io::Result<()> {
    let script = format!(in host.alloc(); "0 raw 820055820ea10150{handle}\n")?;
    fs::write(&host, "rotate.script", script.as_bytes())
}

// Waits for the server. It serves two connections at each door.
fn wait_for_server(host: HostRuntime) -> bool {
    knock(host, "race.z").is_some() && knock(host, "race.z").is_some()
}

// Two clients at once.
fn ask_both<R: Threads + Sync>(
    rt: &R,
    host: HostRuntime,
    one: &mut MemSink,
    other: &mut MemSink,
) -> (u8, u8) {
    thread::join(rt, || ask(host, &ONE, one), || ask(host, &OTHER, other))
}

// All clients, and the statuses that they ended with.
fn ask_all<R: Threads + Sync>(rt: &R, host: HostRuntime, printed: &mut Printed) -> (u8, (u8, u8)) {
    let listens = wait_for_server(host);
    let first = ask(host, &FIRST, &mut printed.first);
    let written = write_rotation(host, last_handle(text(&printed.first))).is_ok();
    tell(host, "the server of the race listens", listens && written);
    (
        first,
        ask_both(rt, host, &mut printed.one, &mut printed.other),
    )
}

// Whether one was told a new handle, and the other that there is no such handle.
fn just_one_won(one: &str, other: &str) -> bool {
    one.starts_with(ROTATED) && other == NO_SUCH_HANDLE
        || other.starts_with(ROTATED) && one == NO_SUCH_HANDLE
}

// Whether the handle has random bytes that are not those of the root.
fn has_new_random(handle: &str, root: &str) -> bool {
    let random = handle.get(SERIAL_DIGITS..).unwrap_or_default();
    handle.len() == HANDLE_DIGITS && root.len() == HANDLE_DIGITS && !root.ends_with(random)
}

// Tells what the clients printed.
fn tell_printed(host: HostRuntime, root: &str, one: &str, other: &str) {
    for line in root.lines() {
        let shown = line.get(..SHOWN).unwrap_or(line);
        let _ = println!(host; "{shown}");
    }
    tell(
        host,
        "just one of two clients rotates the root",
        just_one_won(one, other),
    );
    let winner = if one.starts_with(ROTATED) { one } else { other };
    tell(
        host,
        "the new handle has random bytes of its own",
        has_new_random(last_handle(winner), last_handle(root)),
    );
}

/// The race, and the audit of its journal.
pub(crate) fn try_race<R: Threads + Wait + Sync>(rt: &R, host: HostRuntime) {
    let Ok(mut printed) = rooms(host) else {
        return;
    };
    let (served, asked) = thread::join(
        rt,
        || serve(rt, host, &SERVER),
        || ask_all(rt, host, &mut printed),
    );
    let (first, (one, other)) = asked;
    for (program, status) in [
        ("the server", served),
        ("the first client", first),
        ("one client", one),
        ("the other client", other),
    ] {
        tell_status(host, program, status);
    }
    tell_printed(
        host,
        text(&printed.first),
        text(&printed.one),
        text(&printed.other),
    );
    audit(host, &AUDIT);
}
