// A boot of six layers over four localities, through the client, the server and the audit of the journal.
use crate::programs::{ROOM, ask, audit, knock, serve, tell, tell_status, text};
use dpe_io::MemSink;
use std::sync::Wait;
use std::thread::{self, Threads};
use std::{fs, io};

// At the last door nobody asks. A server opens its doors in order, so it listens at all once it listens at the last one.
static SERVER: [&str; 10] = [
    "seed",
    "boot.journal",
    "1",
    "8192",
    "1",
    "0:boot.a",
    "1:boot.b",
    "2:boot.c",
    "3:boot.d",
    "0:boot.z",
];

static CLIENT: [&str; 5] = ["boot.script", "boot.a", "boot.b", "boot.c", "boot.d"];

static AUDIT: [&str; 3] = ["check", "seed", "boot.journal"];

static JOURNAL: &str = "boot.journal";

// What the client prints of the box before its digits.
static BEFORE_BOX: &str = "10 0 ";

// The digits of the box of a text of six bytes. It begins with its version; behind the 16 bytes of its salt stand the
// masks of localities and modes, and the length of the text.
const BOX_DIGITS: usize = 182;

static VERSION: &str = "01";

const MASKS_AT: usize = 34;

static MASKS_AND_LENGTH: &str = "08020006";

// Behind the code of a refusal at a journal's end stand one byte of the reply, and the end of nine bytes.
const CODE_FROM_END: usize = 11;

// Whether these are digits of a box of a text of six bytes under the masks of the script. The salt is random.
fn are_box_digits(digits: &str) -> bool {
    digits.len() == BOX_DIGITS
        && digits.starts_with(VERSION)
        && digits
            .get(MASKS_AT..)
            .unwrap_or_default()
            .starts_with(MASKS_AND_LENGTH)
        && digits
            .bytes()
            .all(|digit| matches!(digit, b'0'..=b'9' | b'a'..=b'f'))
}

// Prints a line of the client, without the digits of the box.
fn tell_line(host: HostRuntime, line: &str) {
    match line.strip_prefix(BEFORE_BOX) {
        Some(digits) => tell(host, "10 0 and the digits of a box", are_box_digits(digits)),
        None => {
            let _ = println!(host; "{line}");
        }
    }
}

// Changes the code of the journal's last reply, 17, to 18.
fn forge(host: HostRuntime) -> io::Result<()> {
    let mut journal = fs::read(&host, JOURNAL)?;
    let size = journal.len();
    if let Some(code) = journal.get_mut(size.saturating_sub(CODE_FROM_END)) {
        *code = 18;
    }
    fs::write(&host, JOURNAL, journal.as_slice())
}

// Waits for the server, and runs the client.
fn ask_behind(host: HostRuntime, printed: &mut MemSink) -> u8 {
    let listens = knock(host, "boot.z").is_some();
    tell(host, "the server of the boot listens", listens);
    ask(host, &CLIENT, printed)
}

/// The boot, and the audit of its journal, also of one with a changed byte.
pub(crate) fn try_boot<R: Threads + Wait + Sync>(rt: &R, host: HostRuntime) {
    let Ok(mut printed) = MemSink::new(host.alloc(), ROOM, ROOM, &[]) else {
        return;
    };
    let (served, asked) = thread::join(
        rt,
        || serve(rt, host, &SERVER),
        || ask_behind(host, &mut printed),
    );
    tell_status(host, "the server", served);
    tell_status(host, "the client", asked);
    for line in text(&printed).lines() {
        tell_line(host, line);
    }
    audit(host, &AUDIT);
    tell(
        host,
        "a byte of the journal is changed",
        forge(host).is_ok(),
    );
    audit(host, &AUDIT);
}
