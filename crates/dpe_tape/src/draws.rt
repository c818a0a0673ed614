//! Numbers that are drawn one after another, each made of the one before.
ghost use Rattle.std.specs.Prelude.{◌≡◌, ◌+◌, ◌*◌, ◌/◌, ◌%◌, ◌^◌, ◌≤◌, ◌++◌, take};
ghost use Rattle.std.specs.Int.{w32, to_be_bytes};
ghost use Rattle.dpe_tape.specs.Draws.{next_number, number_after, draw, random_of, choice_of, argument_of, repeated};

/// The factor and the summand of the next number.
const FACTOR: u64 = 6_364_136_223_846_793_005;

const SUMMAND: u64 = 1_442_695_040_888_963_407;

/// The number that the draws begin with, or that the last one left.
#[derive(Drop)]
pub struct Draws {
    pub number: u64,
}

impl Draws {
    /// The upper half of the next number.
    pub fn draw(&mut self) -> u32
        ensures number { self.new.number ≡ next_number self.old.number }
        ensures drawn { result ≡ next_number self.old.number / 2 ^ 32 }
    {
        self.number = self.number.wrapping_mul(FACTOR).wrapping_add(SUMMAND);
        (self.number >> 32) as u32
    }

    /// Eight draws as bytes.
    pub fn random(&mut self) -> [u8; 32]
        ensures number { self.new.number ≡ number_after 8 self.old.number }
        ensures bytes { result ≡ random_of self.old.number }
    {
        let mut bytes = [0; 32];
        for place in 0..8usize {
            let word = self.draw();
            put_word(&mut bytes, 4 * place, word);
        }
        bytes
    }
}

// Puts a number as four bytes at a place.
fn put_word(bytes: &mut [u8; 32], at: usize, word: u32)
    requires { at + 4 ≤ 32 }
    ensures { take (at + 4) bytes.new ≡ take at bytes.old ++ to_be_bytes w32 word }
{
    bytes[at..at + 4].copy_from_slice(&word.to_be_bytes());
}

/// A number as four bytes, eight times.
pub fn eight_times(word: u32) -> [u8; 32]
    ensures { result ≡ repeated 8 word }
{
    let mut bytes = [0; 32];
    for place in 0..8usize {
        put_word(&mut bytes, 4 * place, word);
    }
    bytes
}
