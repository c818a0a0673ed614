//! A line that is to be printed, put together in a fixed room.
ghost use Rattle.std.specs.Prelude.{◌≡◌, ◌+◌, ◌*◌, ◌<◌, ◌≤◌, ◌^◌, ◌++◌, [], length};
ghost use Rattle.std.specs.Fmt.{decimal};
ghost use Rattle.hex.specs.Hex.{encode_lower};

use std::marker::Model;

/// The most bytes of a line: the payload of a longest reply in hexadecimal digits, and what stands before it.
pub const MAX_TEXT: usize = 8_256;

/// A text of at most 8,256 bytes.
#[derive(Drop)]
pub struct Text {
    room: [u8; MAX_TEXT],
    len: usize,
}

impl Model for Text {
    ghost use Rattle.std.specs.Prelude.{ℕ, List, ◌≤◌, take};

    ghost Value = { List ℕ };

    ghost view = { λ t. take t.len t.room };

    ghost invariant = { λ t. t.len ≤ 8256 };
}

impl Text {
    /// No bytes.
    pub fn new() -> Text
        ensures { result ≡ [] }
    {
        Text {
            room: [0; MAX_TEXT],
            len: 0,
        }
    }

    /// The bytes.
    pub fn bytes(&self) -> &[u8]
        ensures bytes { result.now ≡ self.now }
        ensures few { length self.now ≤ MAX_TEXT }
    {
        &self.room[..self.len]
    }

    /// Appends a piece.
    pub fn push(&mut self, piece: &[u8])
        requires { length self.old + length piece.now ≤ MAX_TEXT }
        ensures piece { self.new ≡ self.old ++ piece.now }
        ensures long { length self.new ≡ length self.old + length piece.now }
    {
        self.room[self.len..self.len + piece.len()].copy_from_slice(piece);
        self.len += piece.len();
    }

    /// Appends a number in decimal digits, of which there are at most 20.
    pub fn push_number(&mut self, number: u64)
        requires { length self.old + 20 ≤ MAX_TEXT }
        ensures digits { self.new ≡ self.old ++ decimal number }
        ensures few { length self.new ≤ length self.old + 20 }
    {
        self.push_digits(number);
    }

    // Appends the digits of a number.
    fn push_digits(&mut self, number: u64)
        requires { length self.old + length (decimal number) ≤ MAX_TEXT }
        ensures { self.new ≡ self.old ++ decimal number }
    {
        let last = [b'0' + (number % 10) as u8];
        if number < 10 {
            self.push(&last);
            return;
        }
        self.push_digits(number / 10);
        self.push(&last);
    }

    /// Appends bytes in hexadecimal digits.
    pub fn push_hex(&mut self, bytes: &[u8])
        requires { length self.old + 2 * length bytes.now ≤ MAX_TEXT }
        ensures digits { self.new ≡ self.old ++ encode_lower bytes.now }
        ensures long { length self.new ≡ length self.old + 2 * length bytes.now }
    {
        let end = self.len + 2 * bytes.len();
        match hex::encode_to_slice(bytes, &mut self.room[self.len..end]) {
            Ok(()) => self.len = end,
            Err(_) => unreachable!(),
        }
    }
}
