//! The numbers of the commands, which are 1 to 16, and the codes of refusals.

pub const GET_PROFILE: u64 = 1;

pub const OPEN_SESSION: u64 = 2;

pub const IMPORT_SESSION: u64 = 6;

pub const INITIALIZE_CONTEXT: u64 = 7;

pub const DERIVE_CONTEXT: u64 = 8;

pub const CERTIFY_KEY: u64 = 9;

pub const SIGN: u64 = 10;

pub const SEAL: u64 = 11;

pub const UNSEAL: u64 = 12;

pub const DERIVE_SEALING_PUBLIC_KEY: u64 = 13;

pub const ROTATE_CONTEXT_HANDLE: u64 = 14;

pub const DESTROY_CONTEXT: u64 = 15;

pub const GET_CERTIFICATE_CHAIN: u64 = 16;

/// The code of a reply that is no refusal.
pub const OK: u64 = 0;

pub const INVALID_COMMAND: u64 = 2;

pub const INVALID_ARGUMENT: u64 = 3;

pub const SEED_LOCKED: u64 = 5;

/// The first of the codes that stand side by side, up to `DEFAULT_TAKEN`.
pub const UNSUPPORTED: u64 = 16;

pub const DEFAULT_TAKEN: u64 = 29;
