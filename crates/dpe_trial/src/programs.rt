// The calls of the three programs, and how a client waits for the server.
use dpe_audit::replay_main;
use dpe_io::{MemSink, WriteSink};
use dpe_script::client_main;
use dpe_serve::serve_main;
use dpe_unix::{FileDock, FileShelf, UnixHouse};
use std::os::unix::net::UnixStream;
use std::sync::Wait;
use std::thread::{self, Threads};
use std::time::Duration;

/// The most bytes that a client prints here.
pub(crate) const ROOM: usize = 4_096;

// How often a client looks whether the server listens, and how long it sleeps before it looks again: half a minute in all.
const LOOKS: u32 = 3_000;

const SLEEP_MILLIS: u64 = 10;

/// Prints a fact, and whether it holds.
pub(crate) fn tell(host: HostRuntime, fact: &str, holds: bool) {
    let answer = if holds { "yes" } else { "NO" };
    let _ = println!(host; "{answer} {fact}");
}

/// Prints the status that a program ended with.
pub(crate) fn tell_status(host: HostRuntime, program: &str, status: u8) {
    let _ = println!(host; "{program} ended with {status}");
}

/// The text that a client printed.
pub(crate) fn text(printed: &MemSink) -> &str {
    str::from_utf8(printed.bytes()).unwrap_or("no text")
}

/// Runs the server, which prints its summary once all its clients have gone.
pub(crate) fn serve<R: Threads + Wait + Sync>(rt: &R, host: HostRuntime, words: &[&str]) -> u8 {
    let mut house = UnixHouse::new(host, None);
    let mut out = WriteSink::new(host.stdout());
    serve_main(rt, host.alloc(), words, &mut house, &mut out)
}

/// Runs the client.
pub(crate) fn ask(host: HostRuntime, words: &[&str], out: &mut MemSink) -> u8 {
    let mut dock = FileDock::new(host, None);
    client_main(host.alloc(), words, &mut dock, out)
}

/// Checks the journal, and prints what the audit prints and its status.
pub(crate) fn audit(host: HostRuntime, words: &[&str]) {
    let mut shelf = FileShelf::new(host);
    let mut out = WriteSink::new(host.stdout());
    let status = replay_main(host.alloc(), words, &mut shelf, &mut out);
    tell_status(host, "the audit", status);
}

/// Connects to a door as soon as the server listens there, but doesn't wait for good.
pub(crate) fn knock(host: HostRuntime, path: &str) -> Option<UnixStream> {
    for _ in 0..LOOKS {
        if let Ok(stream) = UnixStream::connect(&host, path) {
            return Some(stream);
        }
        thread::sleep(&host, Duration::from_millis(SLEEP_MILLIS));
    }
    None
}
