ghost use Rattle.std.specs.Prelude.{◌≡◌, ◌<◌, ◌≤◌, ℕ, length, take, IfOk, OnOk, OnErr, IfErr, slice_index};
ghost use Rattle.std.specs.Int.{w32, from_be_bytes};
ghost use Rattle.std.specs.Io.KnownBytes.{Consumes, IsAtEnd};
ghost use Rattle.dpe_io.specs.Causes.{HasCause};
ghost use Rattle.dpe_link.specs.Reading.{ReadsFrame, ReadsHead, TakesNoBody, TakesPart, HasReadCause};

use dpe_io::{Failed, Source};
use thiserror::Error;

/// The most bytes of a payload.
const MAX_PAYLOAD: u32 = 4_096;

/// Why no frame was read.
#[derive(Clone, Copy, Debug, PartialEq, Eq, Error)]
pub enum FrameFault {
    /// The source ended after so many bytes of an unfinished frame, head counted.
    #[error("cut after {have} bytes")]
    Cut { have: u32 },
    /// The head tells more than 4,096 bytes.
    #[error("too long, {length} bytes")]
    TooLong { length: u32 },
    /// The source failed.
    #[error("read fault")]
    ReadFault,
}

/// Reads until the room is full or the source at its end, and says how many bytes it got. A failed read may leave the
/// front of the room filled.
pub fn fill<S: Source>(source: &mut S, room: &mut [u8]) -> Result<usize, Failed>
    ensures bound { IfOk result (λ count. count ≤ length room.new) }
    ensures bytes { IfOk result (λ count. Consumes (S.left source.old) (S.left source.new) (take count room.new)) }
    ensures end { IfOk result (λ count. count < length room.new → IsAtEnd (S.left source.new)) }
    ensures part { OnErr result (TakesPart (S.left source.old) (S.left source.new) (length room.new)) }
    ensures cause { HasCause (S.faults source.old) (S.faults source.new) result }
    ensures beside { S.beside source.new ≡ S.beside source.old }
{
    let mut filled = 0;
    while filled < room.len() {
        let count = source.read(&mut room[filled..])?;
        if count == 0 {
            return Ok(filled);
        }
        filled += count;
    }
    Ok(filled)
}

// The number that four bytes spell, big-endian.
fn told(head: &[u8; 4]) -> u32
    ensures told { result ≡ from_be_bytes w32 head.now }
    ensures range { (i : ℕ) → slice_index head.now i < 256 }
{
    u32::from_be_bytes([head[0], head[1], head[2], head[3]])
}

// Reads the four bytes before a payload, and says how long it is.
fn read_head<S: Source>(source: &mut S) -> Result<Option<u32>, FrameFault>
    ensures reads { ReadsHead (S.left source.old) (S.left source.new) result }
    ensures cause { HasReadCause (S.faults source.old) (S.faults source.new) result }
    ensures beside { S.beside source.new ≡ S.beside source.old }
{
    let mut head = [0; 4];
    let Ok(count) = fill(source, &mut head) else {
        return Err(FrameFault::ReadFault);
    };
    if count == 0 {
        return Ok(None);
    }
    if count < 4 {
        return Err(FrameFault::Cut { have: count as u32 });
    }
    let length = told(&head);
    if length > MAX_PAYLOAD {
        return Err(FrameFault::TooLong { length });
    }
    Ok(Some(length))
}

// Reads a payload that fills the room, behind its head.
fn read_body<S: Source>(source: &mut S, room: &mut [u8]) -> Result<(), FrameFault>
    requires { length room.old ≤ 4096 }
    ensures body { OnOk result (Consumes (S.left source.old) (S.left source.new) room.new) }
    ensures fault { IfErr result (TakesNoBody (S.left source.old) (S.left source.new) (length room.old)) }
    ensures cause { HasReadCause (S.faults source.old) (S.faults source.new) result }
    ensures beside { S.beside source.new ≡ S.beside source.old }
{
    let Ok(count) = fill(source, room) else {
        return Err(FrameFault::ReadFault);
    };
    if count < room.len() {
        return Err(FrameFault::Cut {
            have: 4 + count as u32,
        });
    }
    Ok(())
}

/// Reads one frame, and says how many bytes of the room its payload has. `None` comes exactly where the source is at its
/// end before a frame, `Cut` exactly where it ended within one, `TooLong` exactly where the head tells more than 4,096.
pub fn read_frame<S: Source>(
    source: &mut S,
    room: &mut [u8; 4096],
) -> Result<Option<usize>, FrameFault>
    ensures reads { ReadsFrame (S.left source.old) (S.left source.new) room.new result }
    ensures cause { HasReadCause (S.faults source.old) (S.faults source.new) result }
    ensures beside { S.beside source.new ≡ S.beside source.old }
{
    let length = match read_head(source) {
        Ok(Some(length)) => length as usize,
        Ok(None) => return Ok(None),
        Err(fault) => return Err(fault),
    };
    match read_body(source, &mut room[..length]) {
        Ok(()) => Ok(Some(length)),
        Err(fault) => Err(fault),
    }
}
