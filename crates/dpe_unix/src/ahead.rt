ghost use Rattle.std.specs.Prelude.{◌≡◌, ◌<◌, min, length, [], ◌++◌, take, IsOk, IsOkAnd, OnOk};
ghost use Rattle.std.specs.Io.{ReadsAtMost, WritesAtMost};
ghost use Rattle.std.specs.Io.KnownBytes.{Keeps, ReadConsumes, WriteAppends, IsAtEnd, prepend_known};
ghost use Rattle.dpe_unix.specs.Ahead.{GivesHeld};

use std::io::{self, Read, Write};
use std::marker::Model;

/// How many bytes of a file are read at once.
pub const FILE_AHEAD: usize = 32_768;

/// How many bytes of a connection are read at once, at most.
pub const LINK_AHEAD: usize = 8_192;

/// A reader that asks the one beneath for up to `N` bytes at once, and holds them in a room of its own until they are asked for.
/// It fails only where none is held, and takes no memory. What is written to it goes straight on.
#[derive(Drop)]
pub struct ReadAhead<R: Read, const N: usize> {
    reader: R,
    room: [u8; N],
    start: usize,
    end: usize,
}

impl<R: Read, const N: usize> Model for ReadAhead<R, N> {
    ghost use Rattle.std.specs.Prelude.{◌≤◌, ◌<◌, slice_range};
    ghost use Rattle.dpe_unix.specs.Ahead.{Ahead};

    ghost Value = { Ahead R };

    ghost view = { λ a. record { inner = a.reader; held = slice_range a.room a.start a.end } };

    ghost invariant = { λ a. (0 < N) × (a.start ≤ a.end) × (a.end ≤ N) };
}

// Copies as many bytes as both have, and says how many.
fn copy_front(from: &[u8], to: &mut [u8]) -> usize
    ensures count { result ≡ min (length from.now) (length to.old) }
    ensures copied { take result to.new ≡ take result from.now }
{
    let count = from.len().min(to.len());
    to[..count].copy_from_slice(&from[..count]);
    count
}

impl<R: Read, const N: usize> ReadAhead<R, N> {
    /// Holds nothing yet.
    pub fn new(reader: R) -> ReadAhead<R, N>
        requires { 0 < N }
        ensures { result ≡ record { inner = reader; held = [] } }
    {
        ReadAhead {
            reader,
            room: [0; N],
            start: 0,
            end: 0,
        }
    }

    // Where nothing is held, asks the reader beneath once.
    fn fill(&mut self) -> io::Result<()>
        ensures bytes { Keeps (prepend_known self.old.held (R.remaining self.old.inner))
            (prepend_known self.new.held (R.remaining self.new.inner)) }
        ensures end { OnOk result (self.new.held ≡ [] → IsAtEnd (R.remaining self.new.inner)) }
        ensures held { 0 < length self.old.held → IsOk result }
        ensures same { 0 < length self.old.held → self.new ≡ self.old }
    {
        if self.start < self.end {
            return Ok(());
        }
        self.start = 0;
        self.end = 0;
        self.end = self.reader.read(&mut self.room)?;
        Ok(())
    }

    // Moves as many bytes as are held and have room.
    fn give(&mut self, room: &mut [u8]) -> usize
        ensures count { result ≡ min (length self.old.held) (length room.old) }
        ensures bytes { self.old.held ≡ take result room.new ++ self.new.held }
        ensures inner { self.new.inner ≡ self.old.inner }
    {
        let whole = &self.room[..];
        let count = copy_front(&whole[self.start..self.end], room);
        self.start += count;
        count
    }
}

impl<R: Read, const N: usize> Read for ReadAhead<R, N> {
    ghost remaining = { λ a. prepend_known a.held (R.remaining a.inner) };

    /// Gives what is held, and only where nothing is asks the reader beneath, once.
    fn read(&mut self, room: &mut [u8]) -> io::Result<usize>
        ensures bound { ReadsAtMost result room.new }
        ensures bytes { ReadConsumes (prepend_known self.old.held (R.remaining self.old.inner))
            (prepend_known self.new.held (R.remaining self.new.inner)) result room.new }
        ensures held { 0 < length self.old.held → IsOkAnd result (λ count. GivesHeld self.old self.new count room.new) }
    {
        self.fill()?;
        Ok(self.give(room))
    }
}

impl<R: Read + Write, const N: usize> Write for ReadAhead<R, N> {
    ghost contents = { λ a. R.contents a.inner };

    /// Hands the bytes to the one beneath. What is held stays.
    fn write(&mut self, piece: &[u8]) -> io::Result<usize>
        ensures bound { WritesAtMost result piece.now }
        ensures bytes { WriteAppends (R.contents self.old.inner) (R.contents self.new.inner) result piece.now }
        ensures held { self.new.held ≡ self.old.held }
    {
        self.reader.write(piece)
    }

    fn flush(&mut self) -> io::Result<()>
        ensures bytes { Keeps (R.contents self.old.inner) (R.contents self.new.inner) }
        ensures held { self.new.held ≡ self.old.held }
    {
        self.reader.flush()
    }
}
