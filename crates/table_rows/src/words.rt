//! The words of a row.
ghost use Rattle.std.specs.Prelude.{◌≤◌, IfOk, length};

use crate::fault::RowFault;
use crate::names::Names;
use crate::pieces::{bytes_of, number};
use std::alloc::Global;
use std::str::FromStr;

/// A word of a row. Its bytes are written as parts with `+` between them, each hexadecimal digits, a text between
/// quotation marks, a name that the table gave, or `-` for none; `*N` behind a part stands for N times, and `03..32` for
/// 32 bytes that rise from 03.
#[derive(Drop)]
pub struct Word<'a> {
    /// The word as it stands.
    pub whole: &'a str,
    /// What stands before `=`, where there is one.
    pub name: &'a str,
    /// What stands behind it, or the whole word.
    pub text: &'a str,
    bytes: Result<Vec<u8>, RowFault>,
}

impl<'a> Word<'a> {
    /// Reads a word with the names that the table has given.
    // no clause: the rows show it, whose stored runs are compared.
    pub fn read(alloc: Global, names: &Names, word: &'a str) -> Word<'a> {
        let (name, text) = word.split_once('=').unwrap_or(("", word));
        let bytes = bytes_of(alloc, names, text);
        Word {
            whole: word,
            name,
            text,
            bytes,
        }
    }
}

impl Word<'_> {
    /// The bytes that it stands for.
    // no clause: the rows show it, whose stored runs are compared.
    pub fn bytes(&self) -> Result<&[u8], RowFault> {
        match &self.bytes {
            Ok(bytes) => Ok(bytes),
            Err(fault) => Err(*fault),
        }
    }

    /// The bytes, where they are so many at most.
    pub fn at_most(&self, most: usize) -> Result<&[u8], RowFault>
        ensures { IfOk result (λ bytes. length bytes.now ≤ most) }
    {
        match self.bytes() {
            Ok(bytes) if bytes.len() <= most => Ok(bytes),
            _ => Err(RowFault::Unreadable),
        }
    }

    /// The bytes, where they are just so many.
    // no clause: the rows show it, whose stored runs are compared.
    pub fn array<const N: usize>(&self) -> Result<[u8; N], RowFault> {
        let bytes = self.bytes()?;
        if bytes.len() != N {
            return Err(RowFault::Unreadable);
        }
        let mut array = [0; N];
        array.copy_from_slice(bytes);
        Ok(array)
    }

    /// The bytes, where they are just so many, or nothing for `none`.
    // no clause: the rows show it, whose stored runs are compared.
    pub fn array_or_none<const N: usize>(&self) -> Result<Option<[u8; N]>, RowFault> {
        if self.text == "none" {
            return Ok(None);
        }
        Ok(Some(self.array()?))
    }

    /// The number that it spells in decimal digits.
    // no clause: the rows show it, whose stored runs are compared.
    pub fn number<T: FromStr>(&self) -> Result<T, RowFault>
    where
        T::Err: Drop,
    {
        number(self.text)
    }

    /// The number, where it is this at most.
    pub fn number_to(&self, most: u8) -> Result<u8, RowFault>
        ensures { IfOk result (λ number. number ≤ most) }
    {
        match self.text.parse::<u8>() {
            Ok(number) if number <= most => Ok(number),
            _ => Err(RowFault::Unreadable),
        }
    }

    /// The length, where it is this at most.
    pub fn length_to(&self, most: usize) -> Result<usize, RowFault>
        ensures { IfOk result (λ length. length ≤ most) }
    {
        match self.text.parse::<usize>() {
            Ok(length) if length <= most => Ok(length),
            _ => Err(RowFault::Unreadable),
        }
    }

    /// The number, where it is at least 1.
    pub fn size(&self) -> Result<usize, RowFault>
        ensures { IfOk result (λ size. 1 ≤ size) }
    {
        match self.text.parse::<usize>() {
            Ok(size) if size >= 1 => Ok(size),
            _ => Err(RowFault::Unreadable),
        }
    }

    /// `true` or `false`.
    // no clause: the rows show it, whose stored runs are compared.
    pub fn truth(&self) -> Result<bool, RowFault> {
        match self.text {
            "true" => Ok(true),
            "false" => Ok(false),
            _ => Err(RowFault::Unreadable),
        }
    }

    /// Numbers with commas between, as those of the calls that are to fail. None for `-`.
    // no clause: the rows show it, whose stored runs are compared.
    pub fn numbers(&self, alloc: Global) -> Result<Vec<u32>, RowFault> {
        let mut numbers = Vec::new(alloc);
        if self.text != "-" {
            for digits in self.text.split(',') {
                numbers.push(number(digits)?)?;
            }
        }
        Ok(numbers)
    }
}

/// The words of a row, which have blanks between them.
// no clause: the rows show it, whose stored runs are compared.
pub fn words_of<'a>(alloc: Global, names: &Names, row: &'a str) -> Result<Vec<Word<'a>>, RowFault> {
    let mut words = Vec::new(alloc);
    for word in row.split_whitespace() {
        words.push(Word::read(alloc, names, word))?;
    }
    Ok(words)
}
