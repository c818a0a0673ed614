//! What the table has of each live context.

/// A live context: its handle, the locality that it is bound to, whether it may be derived from, its place in the arena
/// of secrets, and whether it is the default of its locality. The serial is the handle's first 8 bytes, the most
/// significant first.
#[derive(Clone, Copy, Debug, PartialEq, Eq)]
pub struct Row {
    pub handle: [u8; 16],
    pub locality: u8,
    pub may_derive: bool,
    pub place: u32,
    pub default: bool,
}
