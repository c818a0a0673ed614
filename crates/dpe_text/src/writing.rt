ghost use Rattle.std.specs.Prelude.{OnOk, OnErr};
ghost use Rattle.std.specs.Io.KnownBytes.{Appends};
ghost use Rattle.dpe_io.specs.Causes.{HasCause};
ghost use Rattle.dpe_text.specs.Writing.{AppendsFront};

use dpe_io::{Failed, Sink};

/// Writes a whole text. Where the sink fails, a front of the text was written.
pub fn print<O: Sink>(out: &mut O, text: &[u8]) -> Result<(), Failed>
    ensures ok { OnOk result (Appends (O.bytes out.old) (O.bytes out.new) text.now) }
    ensures front { OnErr result (AppendsFront (O.bytes out.old) (O.bytes out.new) text.now) }
    ensures cause { HasCause (O.faults out.old) (O.faults out.new) result }
{
    let mut written = 0;
    while written < text.len() {
        match out.write(&text[written..]) {
            Ok(count) => written += count,
            Err(_) => return Err(Failed),
        }
    }
    Ok(())
}

/// Writes a whole text and flushes. Where the sink fails, a front of the text was written: all of it, where only the flush
/// failed.
pub fn send<O: Sink>(out: &mut O, text: &[u8]) -> Result<(), Failed>
    ensures ok { OnOk result (Appends (O.bytes out.old) (O.bytes out.new) text.now) }
    ensures front { OnErr result (AppendsFront (O.bytes out.old) (O.bytes out.new) text.now) }
    ensures cause { HasCause (O.faults out.old) (O.faults out.new) result }
{
    match print(out, text) {
        Ok(()) => out.flush(),
        Err(Failed) => Err(Failed),
    }
}
