ghost use Rattle.std.specs.Prelude.{◌≡◌, ◌<◌, ◌≤◌, ◌+◌, length, [], ◌++◌, take, drop, replicate, IsOk, OnErr};
ghost use Rattle.std.specs.List.{All};
ghost use Rattle.std.specs.Io.KnownBytes.{Keeps, prepend_known};
ghost use Rattle.dpe_unix.specs.Ahead.{GivesWord, DrawsWord};

use std::io::{self, ErrorKind, Read};
use std::marker::Model;

/// How many bytes are read at once.
const BLOCK: usize = 4_096;

/// How many bytes a word has.
const WORD: usize = 32;

/// A reader of words of 32 bytes, which asks the one beneath for a block of them at once and hands each out once. A word that
/// was handed out is cleared from the block. It takes no memory.
#[derive(Drop)]
pub struct WordsAhead<R: Read> {
    reader: R,
    block: [u8; BLOCK],
    taken: usize,
    end: usize,
}

impl<R: Read> Model for WordsAhead<R> {
    ghost use Rattle.std.specs.Prelude.{◌≡◌, ◌≤◌, ◌*◌, take, slice_range};
    ghost use Rattle.std.specs.List.{All};
    ghost use Rattle.dpe_unix.specs.Ahead.{Block};

    ghost Value = { Block R };

    ghost view = { λ w. record {
      inner = w.reader;
      spent = take (32 * w.taken) w.block;
      held = slice_range w.block (32 * w.taken) w.end;
    } };

    ghost invariant = { λ w. (32 * w.taken ≤ w.end) × (w.end ≤ 4096) × All (λ byte. byte ≡ 0) (take (32 * w.taken) w.block) };
}

// Moves the word at this place out of the block, and leaves zeros there.
fn move_word(block: &mut [u8], place: usize, word: &mut [u8; 32])
    requires { place + 32 ≤ length block.old }
    ensures word { word.new ≡ take 32 (drop place block.old) }
    ensures block { block.new ≡ (take place block.old ++ replicate 32 0) ++ drop (place + 32) block.old }
{
    let (_front, back) = block.split_at_mut(place);
    let (front, _rest) = back.split_at_mut(WORD);
    word.copy_from_slice(front);
    front.copy_from_slice(&[0; WORD]);
}

impl<R: Read> WordsAhead<R> {
    /// Holds nothing yet.
    pub fn new(reader: R) -> WordsAhead<R>
        ensures { result ≡ record { inner = reader; spent = []; held = [] } }
    {
        WordsAhead {
            reader,
            block: [0; BLOCK],
            taken: 0,
            end: 0,
        }
    }

    // How many bytes are held.
    fn held(&self) -> usize
        ensures count { result ≡ length self.now.held }
        ensures cleared { All (λ byte. byte ≡ 0) self.now.spent }
    {
        let whole = &self.block[..];
        whole[WORD * self.taken..self.end].len()
    }

    // Where nothing is held, asks the reader beneath once for a block.
    fn fill(&mut self) -> io::Result<()>
        requires { length self.old.held ≡ 0 }
        ensures bytes { Keeps (prepend_known self.old.held (R.remaining self.old.inner))
            (prepend_known self.new.held (R.remaining self.new.inner)) }
        ensures spent { self.new.spent ≡ [] }
    {
        self.taken = 0;
        self.end = 0;
        self.end = self.reader.read(&mut self.block)?;
        Ok(())
    }

    // Hands out the first word that is held.
    fn give(&mut self, word: &mut [u8; 32])
        requires { 32 ≤ length self.old.held }
        ensures word { GivesWord self.old self.new word.new }
        ensures cleared { All (λ byte. byte ≡ 0) self.new.spent }
    {
        move_word(&mut self.block, WORD * self.taken, word);
        self.taken += 1;
    }

    /// Hands out the next word. Only where nothing is held it asks the reader beneath, once. It fails where that fails, and where
    /// less than a word is held then: no byte of that is lost, it is never made up to a word, and the word stays as it was.
    pub fn draw(&mut self, word: &mut [u8; 32]) -> io::Result<()>
        ensures held { 32 ≤ length self.old.held → IsOk result × GivesWord self.old self.new word.new }
        ensures bytes { DrawsWord (prepend_known self.old.held (R.remaining self.old.inner))
            (prepend_known self.new.held (R.remaining self.new.inner)) result word.new }
        ensures cleared { All (λ byte. byte ≡ 0) self.new.spent }
        ensures untouched { OnErr result (word.new ≡ word.old) }
    {
        if self.held() == 0 {
            self.fill()?;
        }
        if self.held() < WORD {
            return Err(io::Error::from(ErrorKind::UnexpectedEof));
        }
        self.give(word);
        Ok(())
    }
}
