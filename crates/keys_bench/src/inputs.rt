//! The fixed inputs of both sides.

pub const KEY: [u8; 32] = [0x11; 32];

pub const MESSAGE: [u8; 32] = [0x22; 32];

/// The bytes of a long box.
pub const LONG: [u8; 2048] = [0x99; 2048];

pub const CODE: [u8; 64] = [0x33; 64];

pub const CONFIG: [u8; 64] = [0x44; 64];

pub const AUTHORITY: [u8; 64] = [0x55; 64];

pub const HIDDEN: [u8; 64] = [0x66; 64];

pub const MODE: u8 = 1;

pub const SALT: [u8; 16] = [0x77; 16];
