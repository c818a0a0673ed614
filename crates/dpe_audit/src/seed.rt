//! The seed in its file.
ghost use Rattle.std.specs.Prelude.{◌≡◌, take};
ghost use Rattle.dpe_audit.specs.Shelves.{ReadsSeed, GivesSeed, HasSeedCause, TakesFew};

use dpe_io::{Failed, Shelf, Source};
use dpe_link::fill;

/// The bytes of a seed.
const SEED_SIZE: usize = 32;

/// One byte more, so that a longer file is told from a seed.
const ROOM_SIZE: usize = 33;

/// What a seed's file has.
#[derive(Clone, Copy)]
pub enum SeedFile {
    /// A seed.
    Holds([u8; SEED_SIZE]),
    /// More or fewer bytes than a seed.
    WrongSize,
    /// It couldn't be opened or read.
    Unread,
}

// The first 32 bytes of the room.
fn front_of(room: &[u8; ROOM_SIZE]) -> [u8; SEED_SIZE]
    ensures { result ≡ take 32 room.now }
{
    let mut seed = [0; SEED_SIZE];
    seed.copy_from_slice(&room[..SEED_SIZE]);
    seed
}

// Reads at most 33 bytes.
fn take_seed<S: Source>(source: &mut S) -> SeedFile
    ensures gives { GivesSeed (S.left source.old) result }
    ensures few { TakesFew (S.left source.old) (S.left source.new) }
    ensures cause { HasSeedCause (S.faults source.old) (S.faults source.new) result }
{
    let mut room = [0; ROOM_SIZE];
    let Ok(count) = fill(source, &mut room) else {
        return SeedFile::Unread;
    };
    if count != SEED_SIZE {
        return SeedFile::WrongSize;
    }
    SeedFile::Holds(front_of(&room))
}

/// Opens the seed's file, the first one, reads it and hands it back.
pub fn read_seed<F: Shelf>(shelf: &mut F, path: &str) -> SeedFile
    ensures { ReadsSeed F.File.left F.File.faults (F.files shelf.old) (F.files shelf.new) result }
{
    let mut file = match shelf.file(path) {
        Ok(file) => file,
        Err(Failed) => return SeedFile::Unread,
    };
    let seed = take_seed(&mut file);
    shelf.take_file(0, file);
    seed
}
