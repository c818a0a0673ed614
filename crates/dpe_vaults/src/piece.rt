//! Short lists of bytes in arrays.
ghost use Rattle.std.specs.Prelude.{◌≡◌, ◌≤◌, [], length};

use std::marker::Model;

/// A list of at most `N` bytes in an array.
#[derive(Drop)]
pub(crate) struct Piece<const N: usize> {
    room: [u8; N],
    len: usize,
}

impl<const N: usize> Model for Piece<N> {
    ghost use Rattle.std.specs.Prelude.{ℕ, List, ◌≤◌, take};

    ghost Value = { List ℕ };

    ghost view = { λ p. take p.len p.room };

    ghost invariant = { λ p. p.len ≤ N };
}

impl<const N: usize> Piece<N> {
    /// No bytes.
    pub(crate) fn new() -> Piece<N>
        ensures { result ≡ [] }
    {
        Piece {
            room: [0; N],
            len: 0,
        }
    }

    /// The bytes.
    pub(crate) fn bytes(&self) -> &[u8]
        ensures bytes { result.now ≡ self.now }
        ensures few { length self.now ≤ N }
    {
        &self.room[..self.len]
    }

    /// Makes it these bytes.
    pub(crate) fn set(&mut self, from: &[u8])
        requires { length from.now ≤ N }
        ensures { self.new ≡ from.now }
    {
        self.room[..from.len()].copy_from_slice(from);
        self.len = from.len();
    }
}
