//! How long a connection may wait for its other end: what the environment says of it, and the system's timeouts.
ghost use Rattle.std.specs.Prelude.{◌≡◌, ◌⊎◌, IfSome, IfNone, IsSome};
ghost use Rattle.std.specs.Io.KnownBytes.{Appends};
ghost use Rattle.dpe_unix.specs.Limit.{IsLimit, IsSeconds, IsToldFaulty, OfValue, HasSeconds, faulty_limit};
ghost use Rattle.dpe_unix.specs.Report.{line};

use crate::report::{Manual, print_line};
use dpe_io::Sink;
use dpe_text::parse_number;
use std::env::FillError;
use std::os::unix::net::UnixStream;
use std::rt::Env;
use std::time::Duration;
use std::{io, str};

/// The environment's variable that has the limit, in whole seconds.
const VARIABLE: &str = "DPE_IDLE_SECONDS";

/// A day.
const MOST_SECONDS: u64 = 86_400;

/// What is said of another value.
const FAULTY_LIMIT: &str =
    "DPE_IDLE_SECONDS isn't a number from 1 to 86400, so a silent connection may wait without end: mend it or unset it";

// The limit that a text has.
fn limit_of(text: &str) -> Option<Duration>
    ensures some { IfSome result (IsLimit text.now) }
    ensures none { IfNone result ((limit : Duration) → IsLimit text.now limit → ⊥) }
{
    let seconds = parse_number(text)?;
    if seconds == 0 || seconds > MOST_SECONDS {
        return None;
    }
    Some(Duration::from_secs(seconds))
}

// What the environment has of a limit.
#[derive(Clone, Copy)]
enum Setting {
    Absent,
    Faulty,
    Limit(Duration),
}

// What a value of the variable says.
fn setting_of(value: &[u8]) -> Setting
    ensures { OfValue value.now result }
{
    let Ok(text) = str::from_utf8(value) else {
        return Setting::Faulty;
    };
    match limit_of(text) {
        Some(limit) => Setting::Limit(limit),
        None => Setting::Faulty,
    }
}

// What the environment says. A value that has more bytes than the room is no limit.
fn look_up<R: Env>(rt: &R) -> Setting
    ensures { HasSeconds result }
{
    let mut room = [0; 8];
    match rt.var(VARIABLE, &mut room) {
        Ok(count) => setting_of(&room[..count]),
        Err(FillError::NotPresent) => Setting::Absent,
        Err(FillError::TooLong) => Setting::Faulty,
    }
}

/// How long a connection may wait in a read or a write: the seconds that `DPE_IDLE_SECONDS` has, a decimal number from 1 to
/// 86,400 with no sign and no leading zero. There is no limit where the environment has no such variable, nor where it has
/// another value; that is told to `errors` in a line.
pub fn idle_limit<R: Env, K: Sink>(rt: &R, errors: &mut K, manual: &Manual) -> Option<Duration>
    ensures seconds { IfSome result IsSeconds }
    ensures silent { IsSome result → errors.new ≡ errors.old }
    ensures told { (errors.new ≡ errors.old) ⊎ IsToldFaulty (K.faults errors.old) (K.faults errors.new)
        (Appends (K.bytes errors.old) (K.bytes errors.new) (line manual.now.name.now faulty_limit)) }
{
    match look_up(rt) {
        Setting::Absent => None,
        Setting::Limit(limit) => Some(limit),
        Setting::Faulty => {
            let _ = print_line(errors, manual.name, FAULTY_LIMIT);
            None
        }
    }
}

/// Lets no read and no write of this stream wait longer than the limit, where there is one.
// no clause: std doesn't say how long a call waits.
pub(crate) fn limit_waits(stream: &UnixStream, limit: Option<Duration>) -> io::Result<()> {
    if limit.is_some() {
        stream.set_read_timeout(limit)?;
        stream.set_write_timeout(limit)?;
    }
    Ok(())
}
