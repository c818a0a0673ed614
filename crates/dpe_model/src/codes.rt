//! The codes of the refusals.

pub const INVALID_COMMAND: u8 = 2;

pub const INVALID_ARGUMENT: u8 = 3;

pub const SEED_LOCKED: u8 = 5;

pub const UNSUPPORTED: u8 = 16;

pub const NO_SUCH_HANDLE: u8 = 17;

pub const WRONG_LOCALITY: u8 = 18;

pub const DERIVE_NOT_ALLOWED: u8 = 19;

pub const TOO_DEEP: u8 = 20;

pub const CONTEXTS_FULL: u8 = 21;

pub const BOX_MALFORMED: u8 = 22;

pub const BOX_REFUSED: u8 = 23;

pub const POLICY_REFUSED: u8 = 24;

pub const SERIALS_SPENT: u8 = 25;

pub const ROOT_LOCALITY: u8 = 27;

pub const NO_DEFAULT: u8 = 28;

pub const DEFAULT_TAKEN: u8 = 29;
