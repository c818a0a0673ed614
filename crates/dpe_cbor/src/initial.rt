//! The initial byte of an item: the major type in its top 3 bits, the additional information in the low 5
//! (RFC 8949, 3).

// The major types (3.1).
pub const UINT: u8 = 0;

pub const BYTES: u8 = 2;

pub const TEXT: u8 = 3;

pub const ARRAY: u8 = 4;

pub const MAP: u8 = 5;

pub const SIMPLE: u8 = 7;

// The additional information of an argument that follows in 1, 2, 4 or 8 bytes.
pub const ONE_BYTE: u8 = 24;

pub const TWO_BYTES: u8 = 25;

pub const FOUR_BYTES: u8 = 26;

pub const EIGHT_BYTES: u8 = 27;

// The simple values (3.3).
pub const FALSE: u64 = 20;

pub const TRUE: u64 = 21;
