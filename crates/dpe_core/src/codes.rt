//! The codes by which a command is refused.

/// The payload is no command.
pub const NOT_A_COMMAND: u8 = 2;

/// The arguments aren't those of the command.
pub const BAD_ARGUMENTS: u8 = 3;

/// InitializeContext after a root was made.
pub const SEED_LOCKED: u8 = 5;

/// A command or an argument of the protocol that isn't supported.
pub const UNSUPPORTED: u8 = 16;

/// No live context has the handle.
pub const NO_SUCH_HANDLE: u8 = 17;

/// The context is bound to another locality.
pub const WRONG_LOCALITY: u8 = 18;

/// The context may not be derived from.
pub const DERIVE_NOT_ALLOWED: u8 = 19;

/// The context is as deep as contexts are.
pub const TOO_DEEP: u8 = 20;

/// As many contexts live as may live.
pub const CONTEXTS_FULL: u8 = 21;

/// The box hasn't the form of a box.
pub const BOX_MALFORMED: u8 = 22;

/// The tag of the box is another.
pub const BOX_REFUSED: u8 = 23;

/// The box admits another locality or mode.
pub const POLICY_REFUSED: u8 = 24;

/// The handles to be made would pass the last serial.
pub const SERIALS_SPENT: u8 = 25;

/// InitializeContext away from locality 0.
pub const ROOT_LOCALITY: u8 = 27;

/// No handle is named, and the caller's locality has no default context.
pub const NO_DEFAULT: u8 = 28;

/// The locality has a default context already.
pub const DEFAULT_TAKEN: u8 = 29;
