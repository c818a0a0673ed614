//! The items of a tape, read one by one.
ghost use Rattle.std.specs.Prelude.{◌≡◌, ◌≤◌, length};
ghost use Rattle.dpe_tape.specs.Reading.{ReadsItem, ReadsFront, HasFault, item_of};

use dpe_io::Source;
use dpe_link::{FrameFault, fill, read_frame};

/// The bytes of an item before its frame: the locality and the random bytes.
const FRONT_SIZE: usize = 33;

/// Room for an item of a tape: a locality of 0 to 7, 32 random bytes, and a payload of `len` bytes, at most 4,096, at the
/// front of its room.
#[derive(Drop)]
pub struct ItemBuffer {
    pub locality: u8,
    pub random: [u8; 32],
    pub payload: [u8; 4096],
    pub len: usize,
}

impl ItemBuffer {
    /// An item of zeros with the empty payload.
    pub fn new() -> ItemBuffer
        ensures { result.len ≡ 0 }
    {
        ItemBuffer {
            locality: 0,
            random: [0; 32],
            payload: [0; 4096],
            len: 0,
        }
    }
}

/// What was read in an item's place: 33 bytes, the locality and the random bytes, and a frame.
#[derive(Clone, Copy, Debug, PartialEq, Eq)]
pub enum Taken {
    /// A whole item, and just its bytes were taken.
    Whole,
    /// Nothing: the source is at its end.
    End,
    /// Bytes that begin no item: they end within one, their locality is above 7, or their frame's head tells more than 4,096
    /// bytes. Nothing is taken behind that locality's 33 bytes or that head.
    NoItem,
    /// The source failed, and less than an item was taken.
    Fault,
}

// Reads the 33 bytes before an item's frame.
fn read_front<S: Source>(source: &mut S, front: &mut [u8; FRONT_SIZE]) -> Taken
    ensures front { ReadsFront (S.left source.old) (S.left source.new) result front.new }
    ensures cause { HasFault (S.faults source.old) (S.faults source.new) result }
{
    let Ok(count) = fill(source, front) else {
        return Taken::Fault;
    };
    if count == 0 {
        return Taken::End;
    }
    if count < FRONT_SIZE {
        return Taken::NoItem;
    }
    if front[0] > 7 {
        return Taken::NoItem;
    }
    Taken::Whole
}

/// Reads one item into the buffer, which may hold anything after another answer than a whole one. It takes no memory.
pub fn read_item<S: Source>(source: &mut S, item: &mut ItemBuffer) -> Taken
    ensures item { ReadsItem (S.left source.old) (S.left source.new) result (item_of item.new) }
    ensures len { result ≡ Taken.Whole → item.new.len ≤ 4096 }
    ensures near { result ≡ Taken.Whole → item.new.locality ≤ 7 }
    ensures cause { HasFault (S.faults source.old) (S.faults source.new) result }
{
    let mut front = [0; FRONT_SIZE];
    match read_front(source, &mut front) {
        Taken::Whole => {}
        other => return other,
    }
    match read_frame(source, &mut item.payload) {
        Ok(Some(len)) => {
            item.locality = front[0];
            item.random.copy_from_slice(&front[1..]);
            item.len = len;
            Taken::Whole
        }
        Ok(None) => Taken::NoItem,
        Err(FrameFault::Cut { .. }) => Taken::NoItem,
        Err(FrameFault::TooLong { .. }) => Taken::NoItem,
        Err(FrameFault::ReadFault) => Taken::Fault,
    }
}
