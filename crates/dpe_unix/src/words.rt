//! The words that a program is given.
ghost use Rattle.std.specs.Prelude.{◌≡◌};
ghost use Rattle.dpe_unix.specs.declared.words.NoStart.TheVariants.{FaultyWords, NoMemory};

use std::alloc::{AllocError, AllocFailed};
use std::rt::Env;
use std::{env, io};

/// The status of a program whose words aren't of its form.
pub const FAULTY_WORDS: u8 = 2;

/// The status of a program that lacks memory.
pub const NO_MEMORY: u8 = 3;

/// Why a program can't begin.
#[derive(Clone, Copy, Debug, PartialEq, Eq)]
pub enum NoStart {
    /// A word isn't UTF-8, so the words aren't of the program's form.
    FaultyWords,
    /// Want of memory.
    NoMemory,
}

impl NoStart {
    /// The status that the program ends with: 2 for faulty words, and 3 for want of memory.
    pub fn status(self) -> u8
        ensures words { self ≡ FaultyWords → result ≡ 2 }
        ensures memory { self ≡ NoMemory → result ≡ 3 }
    {
        match self {
            NoStart::FaultyWords => FAULTY_WORDS,
            NoStart::NoMemory => NO_MEMORY,
        }
    }
}

impl<T: Drop> From<AllocFailed<T>> for NoStart {
    fn from(_failed: AllocFailed<T>) -> NoStart {
        NoStart::NoMemory
    }
}

impl From<AllocError> for NoStart {
    fn from(_error: AllocError) -> NoStart {
        NoStart::NoMemory
    }
}

/// The words behind the program's name.
// no clause: std doesn't say which words a program is given.
pub fn program_words<R: Env + AllocGlobal>(rt: &R) -> Result<Vec<String>, NoStart> {
    let arguments = match env::args(rt) {
        Ok(arguments) => arguments,
        Err(error) => {
            if error.kind() == io::ErrorKind::InvalidData {
                return Err(NoStart::FaultyWords);
            }
            return Err(NoStart::NoMemory);
        }
    };
    let mut words = Vec::new(rt.alloc());
    for word in arguments.skip(1) {
        words.push(word)?;
    }
    Ok(words)
}
