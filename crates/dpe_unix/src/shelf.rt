ghost use Rattle.std.specs.Prelude.{◌≡◌, ◌≤◌, IfOk};
ghost use Rattle.dpe_io.specs.Causes.{CountsOne};
ghost use Rattle.dpe_io.specs.Memory.{CountsBack};
ghost use Rattle.dpe_io.specs.Told.{IsOpening, Returns};
ghost use Rattle.dpe_unix.specs.Counts.{untold, no_counts};

use crate::ahead::{FILE_AHEAD, ReadAhead};
use crate::openings::Openings;
use dpe_io::{Failed, ReadSource, Shelf};
use std::fs::{File, Files};
use std::io;
use std::marker::Model;

/// A shelf of files, each of which is read ahead.
#[derive(Drop)]
pub struct FileShelf<R: Files<File = File> + Drop> {
    rt: R,
    files: Openings,
}

impl<R: Files<File = File> + Drop> Model for FileShelf<R> {
    ghost use Rattle.dpe_unix.specs.Counts.{Counts};

    ghost Value = { Counts };

    ghost view = { λ s. s.files };
}

impl<R: Files<File = File> + Drop> FileShelf<R> {
    /// A shelf of which nothing was opened yet.
    pub fn new(rt: R) -> FileShelf<R>
        ensures { result ≡ no_counts }
    {
        FileShelf {
            rt,
            files: Openings::new(),
        }
    }
}

// A source over the file at this path, with no fault yet.
fn open_ahead<R: Files<File = File>>(
    rt: &R,
    path: &str,
) -> io::Result<ReadSource<ReadAhead<File, FILE_AHEAD>>>
    ensures { IfOk result (λ source. source.faults ≡ 0) }
{
    Ok(ReadSource::new(ReadAhead::new(File::open(rt, path)?)))
}

impl<R: Files<File = File> + Drop> Shelf for FileShelf<R> {
    type File = ReadSource<ReadAhead<File, FILE_AHEAD>>;

    ghost files = { λ s. untold s };

    /// Opens the file at this path.
    fn file(&mut self, path: &str) -> Result<ReadSource<ReadAhead<File, FILE_AHEAD>>, Failed>
        ensures opens { IsOpening (untold self.old) (untold self.new) result }
        ensures faultless { IfOk result (λ file. file.faults ≡ 0) }
        ensures counts { CountsOne self.old.failed self.new.failed result }
    {
        self.files.count(open_ahead(&self.rt, path))
    }

    /// Closes a file.
    fn take_file(&mut self, _place: u32, file: ReadSource<ReadAhead<File, FILE_AHEAD>>)
        requires { 1 ≤ self.old.out }
        ensures back { Returns (untold self.old) file.faults file (untold self.new) }
        ensures counts { CountsBack file.faults self.old.faults self.new.faults }
    {
        self.files.take_back(file)
    }
}
