//! How a program begins and ends.
ghost use Rattle.std.specs.Prelude.{IfOk};
ghost use Rattle.std.specs.Process.{exit_status};
ghost use Rattle.std.specs.Io.KnownBytes.{Appends};
ghost use Rattle.dpe_unix.specs.Ended.{Answered, Ends, IsTold};
ghost use Rattle.dpe_unix.specs.Report.{report};

use crate::report::{Manual, tell};
use crate::words::{NoStart, program_words};
use dpe_io::Sink;
use std::fs::{File, Files};
use std::io;
use std::os::fd::AsRawFd;
use std::process::ExitCode;
use std::rt::Env;

/// A folder that is always there: a descriptor of it gives no byte to a read and takes none of a write.
const FOLDER: &str = "/";

/// What serves where that folder can't be opened: opened for reading, it gives no byte to a read and takes none of a write.
const NOTHING: &str = "/dev/null";

/// The last of the three standard descriptors.
const LAST_STANDARD: i32 = 2;

/// What stands in the place of standard streams that were closed where the program began, so that no file and no socket
/// gets their descriptors. No byte is read from them, and each write of them fails.
#[derive(Drop)]
struct Placeholders {
    first: Option<File>,
    second: Option<File>,
    third: Option<File>,
}

// Takes the next free descriptor.
fn next_free<R: Files<File = File>>(rt: &R) -> io::Result<File> {
    match File::open(rt, FOLDER) {
        Ok(folder) => Ok(folder),
        Err(_) => File::open(rt, NOTHING),
    }
}

// Takes the next free descriptor, and keeps it where it is one of the standard ones.
fn placeholder<R: Files<File = File>>(rt: &R) -> Option<File> {
    match next_free(rt) {
        Ok(file) if file.as_raw_fd() <= LAST_STANDARD => Some(file),
        _ => None,
    }
}

impl Placeholders {
    // The next free descriptor is the least one, so three tries take all of the standard ones that are free.
    fn take<R: Files<File = File>>(rt: &R) -> Placeholders {
        Placeholders {
            first: placeholder(rt),
            second: placeholder(rt),
            third: placeholder(rt),
        }
    }
}

// Reads the words behind the program's name, and makes the call.
fn status<R, F>(rt: &R, call: F) -> Result<u8, NoStart>
where
    R: Env + AllocGlobal,
    F: FnOnce(&[&str]) -> u8,
    requires { F.IsAlwaysCallable call }
    ensures { IfOk result (λ status. Answered F.FnOnce call status) }
{
    let words = program_words(rt)?;
    let mut texts = Vec::new(rt.alloc());
    for word in &words {
        texts.push(word.as_str())?;
    }
    Ok(call(&texts))
}

/// Runs a program's call over the words behind the program's name, and ends with its status: 2 where a word isn't UTF-8,
/// and 3 where there is no memory for the words. Another status than 0 is told to `errors` (`tell`), as far as it takes it.
///
/// Standard streams that are closed stay closed: no file or socket that the call opens gets a descriptor of theirs, no byte
/// is read from them, and a write of them fails. So it is where `/` or `/dev/null` can be opened for reading.
pub fn run_program<R, K, F>(rt: &R, errors: &mut K, manual: &Manual, call: F) -> ExitCode
where
    R: Env + AllocGlobal + Files<File = File>,
    K: Sink,
    F: FnOnce(&[&str]) -> u8,
    requires { F.IsAlwaysCallable call }
    ensures ends { Ends F.FnOnce call (exit_status result) }
    ensures told { IsTold (K.faults errors.old) (K.faults errors.new) (exit_status result)
        (Appends (K.bytes errors.old) (K.bytes errors.new) (report manual.now (exit_status result))) }
{
    let standard = Placeholders::take(rt);
    let status = match status(rt, call) {
        Ok(status) => status,
        Err(fault) => fault.status(),
    };
    drop(standard);
    if status != 0 {
        let _ = tell(errors, manual, status);
    }
    ExitCode::from(status)
}
