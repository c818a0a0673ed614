ghost use Rattle.std.specs.Prelude.{◌≡◌, ◌+◌, ◌≤◌, length, take, OnOk};
ghost use Rattle.std.specs.Io.KnownBytes.{Appends};
ghost use Rattle.dpe_io.specs.Causes.{HasCause};
ghost use Rattle.dpe_link.specs.Frames.{frame};
ghost use Rattle.dpe_link.specs.Reading.{WritesFront};

use dpe_io::Sink;

/// The sink failed after it took so many bytes of a frame.
#[derive(Clone, Copy, Debug, PartialEq, Eq)]
pub struct WriteFault {
    pub written: u32,
}

// Writes the whole piece.
fn write_all<K: Sink>(sink: &mut K, piece: &[u8]) -> Result<(), WriteFault>
    requires { length piece.now ≤ 4100 }
    ensures ok { OnOk result (Appends (K.bytes sink.old) (K.bytes sink.new) piece.now) }
    ensures fault { WritesFront (K.bytes sink.old) (K.bytes sink.new) piece.now result }
    ensures cause { HasCause (K.faults sink.old) (K.faults sink.new) result }
    ensures beside { K.beside sink.new ≡ K.beside sink.old }
{
    let mut written = 0;
    while written < piece.len() {
        match sink.write(&piece[written..]) {
            Ok(count) => written += count,
            Err(_) => {
                return Err(WriteFault {
                    written: written as u32,
                });
            }
        }
    }
    Ok(())
}

// Puts the frame of a payload at the front of the room, and says how long it is.
fn put_frame(room: &mut [u8; 4100], payload: &[u8]) -> usize
    requires { length payload.now ≤ 4096 }
    ensures len { result ≡ 4 + length payload.now }
    ensures frame { take result room.new ≡ frame payload.now }
{
    let len = payload.len();
    let (head, rest) = room.split_at_mut(4);
    head.copy_from_slice(&(len as u32).to_be_bytes());
    rest[..len].copy_from_slice(payload);
    4 + len
}

/// Writes the frame of a payload, which is given to the sink in one piece, and leaves the flush to the caller.
pub fn append_frame<K: Sink>(sink: &mut K, payload: &[u8]) -> Result<(), WriteFault>
    requires { length payload.now ≤ 4096 }
    ensures ok { OnOk result (Appends (K.bytes sink.old) (K.bytes sink.new) (frame payload.now)) }
    ensures fault { WritesFront (K.bytes sink.old) (K.bytes sink.new) (frame payload.now) result }
    ensures cause { HasCause (K.faults sink.old) (K.faults sink.new) result }
    ensures beside { K.beside sink.new ≡ K.beside sink.old }
{
    let mut room = [0; 4100];
    let len = put_frame(&mut room, payload);
    write_all(sink, &room[..len])
}

/// Writes the frame of a payload and flushes. A failed flush tells the whole frame as written.
pub fn write_frame<K: Sink>(sink: &mut K, payload: &[u8]) -> Result<(), WriteFault>
    requires { length payload.now ≤ 4096 }
    ensures ok { OnOk result (Appends (K.bytes sink.old) (K.bytes sink.new) (frame payload.now)) }
    ensures fault { WritesFront (K.bytes sink.old) (K.bytes sink.new) (frame payload.now) result }
    ensures cause { HasCause (K.faults sink.old) (K.faults sink.new) result }
    ensures beside { K.beside sink.new ≡ K.beside sink.old }
{
    match append_frame(sink, payload) {
        Ok(()) => {}
        Err(fault) => return Err(fault),
    }
    match sink.flush() {
        Ok(()) => Ok(()),
        Err(_) => Err(WriteFault {
            written: 4 + payload.len() as u32,
        }),
    }
}
