//! The arguments of each command, as a table.
ghost use Rattle.std.specs.Prelude.{◌≡◌, ℕ};
ghost use Rattle.dpe_messages.specs.Arguments.{arguments};

/// The values that an argument may have.
#[derive(Clone, Copy)]
pub enum Range {
    /// A byte string of the first to the second length.
    BytesBetween(usize, usize),
    /// An unsigned number of at most this.
    NumberUpTo(u64),
    Boolean,
}

/// Whether an argument has to stand there.
#[derive(Clone, Copy)]
pub enum Presence {
    Required,
    Optional,
    /// It, or the other one of its command.
    OneOfTwo,
}

/// What asks for something outside the profile.
#[derive(Clone, Copy)]
pub enum Outside {
    Nothing,
    IfTrue,
    UnlessTrue,
}

/// A line of the table.
#[derive(Clone, Copy)]
pub struct Argument {
    pub key: u64,
    pub range: Range,
    pub presence: Presence,
    pub outside: Outside,
}

use crate::codes;
use Outside::{IfTrue, Nothing, UnlessTrue};
use Presence::{OneOfTwo, Optional, Required};
use Range::{Boolean, BytesBetween, NumberUpTo};

const HANDLE: Range = BytesBetween(16, 16);

const INPUT: Range = BytesBetween(64, 64);

const LABEL: Range = BytesBetween(0, 64);

// A line of the table: the key, the range, whether it has to stand there, and what of it is outside the profile.
macro_rules! argument {
    ($key:expr, $range:expr, $presence:expr, $outside:expr) => {
        Argument { key: $key, range: $range, presence: $presence, outside: $outside }
    };
}

static INITIALIZE: [Argument; 2] = [
    argument!(1, Boolean, Optional, IfTrue), // simulation
    argument!(2, Boolean, Optional, Nothing), // use-default-context
];

static DERIVE: [Argument; 12] = [
    argument!(1, HANDLE, Optional, Nothing), // handle
    argument!(2, INPUT, Required, Nothing), // code
    argument!(3, INPUT, OneOfTwo, Nothing), // configuration
    argument!(4, BytesBetween(0, 1024), OneOfTwo, Nothing), // configuration descriptor
    argument!(5, INPUT, Required, Nothing), // authority
    argument!(6, NumberUpTo(3), Required, Nothing), // mode
    argument!(7, INPUT, Optional, Nothing), // hidden
    argument!(8, Boolean, Optional, Nothing), // retain-parent
    argument!(9, Boolean, Optional, Nothing), // may-derive
    argument!(10, NumberUpTo(7), Optional, Nothing), // target locality
    argument!(11, Boolean, Optional, IfTrue), // create-certificate
    argument!(12, Boolean, Optional, Nothing), // child-default
];

static SIGN: [Argument; 5] = [
    argument!(1, HANDLE, Optional, Nothing), // handle
    argument!(2, LABEL, Optional, Nothing), // label
    argument!(3, Boolean, Optional, Nothing), // retain-context
    argument!(4, Boolean, Optional, UnlessTrue), // is-symmetric
    argument!(5, BytesBetween(0, 2048), Required, Nothing), // message
];

static SEAL: [Argument; 6] = [
    argument!(1, HANDLE, Optional, Nothing), // handle
    argument!(2, LABEL, Optional, Nothing), // label
    argument!(3, Boolean, Optional, Nothing), // retain-context
    argument!(4, NumberUpTo(255), Optional, Nothing), // localities
    argument!(5, NumberUpTo(15), Optional, Nothing), // modes
    argument!(6, BytesBetween(0, 2048), Required, Nothing), // plaintext
];

static UNSEAL: [Argument; 5] = [
    argument!(1, HANDLE, Optional, Nothing), // handle
    argument!(2, LABEL, Optional, Nothing), // label
    argument!(3, Boolean, Optional, Nothing), // retain-context
    argument!(4, Boolean, Optional, IfTrue), // is-asymmetric
    argument!(5, BytesBetween(0, 3900), Required, Nothing), // box
];

static ROTATE: [Argument; 2] = [
    argument!(1, HANDLE, Optional, Nothing), // handle
    argument!(2, Boolean, Optional, Nothing), // to-be-default
];

static DESTROY: [Argument; 2] = [
    argument!(1, HANDLE, Optional, Nothing), // handle
    argument!(2, Boolean, Optional, Nothing), // destroy-recursively
];

/// The arguments of the command of this number; no other command has any.
pub fn arguments_of(number: u64) -> &'static [Argument]
    ensures { result.now ≡ arguments number }
{
    match number {
        codes::INITIALIZE_CONTEXT => &INITIALIZE,
        codes::DERIVE_CONTEXT => &DERIVE,
        codes::SIGN => &SIGN,
        codes::SEAL => &SEAL,
        codes::UNSEAL => &UNSEAL,
        codes::ROTATE_CONTEXT_HANDLE => &ROTATE,
        codes::DESTROY_CONTEXT => &DESTROY,
        _ => &[],
    }
}
