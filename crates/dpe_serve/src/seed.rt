//! The seed of a house.
ghost use Rattle.std.specs.Prelude.{◌≡◌, take};
ghost use Rattle.dpe_serve.specs.Seeds.{ReadsSeed, GivesSeed, TakesFew, HasSeedCause};

use dpe_io::{Failed, House, Source};
use dpe_link::fill;

/// The bytes of a seed.
const SEED_SIZE: usize = 32;

/// One byte more, so that a longer source is told from a seed.
const ROOM_SIZE: usize = 33;

/// What a seed has.
#[derive(Clone, Copy)]
pub(crate) enum SeedRead {
    /// 32 bytes.
    Holds([u8; SEED_SIZE]),
    /// More or fewer bytes.
    WrongSize,
    /// It couldn't be opened or read.
    Unread,
}

// The first 32 bytes of the room.
fn front_of(room: &[u8; ROOM_SIZE]) -> [u8; SEED_SIZE]
    ensures { result ≡ take 32 room.now }
{
    let mut seed = [0; SEED_SIZE];
    seed.copy_from_slice(&room[..SEED_SIZE]);
    seed
}

// Reads at most 33 bytes.
fn take_seed<S: Source>(source: &mut S) -> SeedRead
    ensures gives { GivesSeed (S.left source.old) result }
    ensures few { TakesFew (S.left source.old) (S.left source.new) }
    ensures cause { HasSeedCause (S.faults source.old) (S.faults source.new) result }
{
    let mut room = [0; ROOM_SIZE];
    let Ok(count) = fill(source, &mut room) else {
        return SeedRead::Unread;
    };
    if count != SEED_SIZE {
        return SeedRead::WrongSize;
    }
    SeedRead::Holds(front_of(&room))
}

/// Opens the seed of the house, reads it and hands it back.
pub(crate) fn read_seed<H: House>(house: &mut H, path: &str) -> SeedRead
    ensures reads { ReadsSeed H.Seed.left H.Seed.faults (H.seeds house.old) (H.seeds house.new) result }
    ensures doors { H.doors house.new ≡ H.doors house.old }
    ensures journals { H.journals house.new ≡ H.journals house.old }
    ensures entropies { H.entropies house.new ≡ H.entropies house.old }
    ensures handed_back { (H.seeds house.new).out ≡ (H.seeds house.old).out }
{
    let mut source = match house.seed(path) {
        Ok(source) => source,
        Err(Failed) => return SeedRead::Unread,
    };
    let seed = take_seed(&mut source);
    house.take_seed(source);
    seed
}
