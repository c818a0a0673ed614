//! Sends the commands of a script, and prints what comes back.
ghost use Rattle.std.specs.Prelude.{◌≡◌, ◌≢◌, ◌+◌, ◌<◌, ◌≤◌, ℕ, All, length, take, slice_index_or, IfOk, IfErr, OnOk, OnErr};
ghost use Rattle.std.specs.Io.KnownBytes.{Appends, Consumes};
ghost use Rattle.dpe_io.specs.Causes.{HasCause};
ghost use Rattle.dpe_link.specs.Frames.{frame};
ghost use Rattle.dpe_grammar.specs.Acts.{Act};
ghost use Rattle.dpe_script.specs.Meaning.{no_values};
ghost use Rattle.dpe_script.specs.CodeNames.{names_of};
ghost use Rattle.dpe_script.specs.CodeScript.{line_of, lines_are, IsLineKnown, IsLineInRange};
ghost use Rattle.dpe_script.specs.CodeValues.{values_of, IsReady};
ghost use Rattle.dpe_script.specs.Run.{AppendsFront, told_at, cause_at, HasNoFrame, NotExchanged, Concludes, NotConcluded, HasOutputCause, Exchanges, Fails, HasLineCause, RunsWhole, Stops, HasRunCause};

use crate::answer::take_answer;
use crate::command::write_act;
use crate::script::Line;
use crate::values::Values;
use dpe_io::{Duplex, Failed, Sink};
use dpe_link::{FrameFault, read_frame, write_frame};
use dpe_text::print;

/// Why a script ended before its last line.
#[derive(Clone, Copy)]
pub enum Cause {
    /// A link failed.
    Link,
    /// What came back is no reply.
    Reply,
    /// The output failed.
    Output,
}

/// The line at which a script ended, and why.
#[derive(Clone, Copy)]
pub struct LineFault {
    pub line: usize,
    pub cause: Cause,
}

// Sends the frame of a payload.
fn send<L: Duplex>(link: &mut L, payload: &[u8]) -> Result<(), Failed>
    requires { length payload.now ≤ 4096 }
    ensures ok { OnOk result (Appends (L.told link.old).written (L.told link.new).written (frame payload.now)) }
    ensures front { OnErr result (AppendsFront (L.told link.old).written (L.told link.new).written (frame payload.now)) }
    ensures cause { HasCause (L.told link.old).write_faults (L.told link.new).write_faults result }
    ensures left { (L.told link.new).left ≡ (L.told link.old).left }
    ensures reads { (L.told link.new).read_faults ≡ (L.told link.old).read_faults }
{
    match write_frame(link, payload) {
        Ok(()) => Ok(()),
        Err(_) => Err(Failed),
    }
}

// Why no frame came.
fn cause_of(fault: FrameFault) -> Cause
    ensures { result ≡ cause_at fault }
{
    match fault {
        FrameFault::Cut { .. } => Cause::Reply,
        FrameFault::TooLong { .. } => Cause::Reply,
        FrameFault::ReadFault => Cause::Link,
    }
}

// Reads the frame that comes back, and says how many bytes its payload has.
fn receive<L: Duplex>(link: &mut L, room: &mut [u8; 4096]) -> Result<usize, Cause>
    ensures few { IfOk result (λ count. count ≤ 4096) }
    ensures taken { IfOk result (λ count. Consumes (L.told link.old).left (L.told link.new).left (frame (take count room.new))) }
    ensures fault { IfErr result (λ cause. (act : Act) → HasNoFrame act cause (L.told link.old) (L.told link.new)) }
    ensures cause { HasLineCause result (L.told link.old) (L.told link.new) 0 0 }
    ensures bytes { (L.told link.new).written ≡ (L.told link.old).written }
{
    match read_frame(link, room) {
        Ok(Some(len)) => Ok(len),
        Ok(None) => Err(Cause::Reply),
        Err(fault) => Err(cause_of(fault)),
    }
}

// Sends a payload, and reads what comes back into the same room.
fn exchange<L: Duplex>(link: &mut L, room: &mut [u8; 4096], len: usize) -> Result<usize, Cause>
    requires { len ≤ 4096 }
    ensures few { IfOk result (λ count. count ≤ 4096) }
    ensures sent { OnOk result (Appends (L.told link.old).written (L.told link.new).written (frame (take len room.old))) }
    ensures taken { IfOk result (λ count. Consumes (L.told link.old).left (L.told link.new).left (frame (take count room.new))) }
    ensures fault { IfErr result (λ cause. (act : Act) → NotExchanged act (take len room.old) cause (L.told link.old)
        (L.told link.new)) }
    ensures cause { HasLineCause result (L.told link.old) (L.told link.new) 0 0 }
{
    match send(link, &room[..len]) {
        Ok(()) => receive(link, room),
        Err(Failed) => Err(Cause::Link),
    }
}

// Takes what came back for a line, and prints the line of text.
fn conclude<O: Sink>(
    line: &Line<'_>,
    payload: &[u8],
    values: &mut Values<'_>,
    out: &mut O,
) -> Result<(), Cause>
    requires few { length payload.now ≤ 4096 }
    requires ready { IsReady values.old }
    requires known { IsLineKnown (names_of values.old.names) line.now }
    ensures ok { OnOk result (Concludes (line_of line.now) payload.now Appends
        (values_of values.old) (values_of values.new) (O.bytes out.old) (O.bytes out.new)) }
    ensures fault { IfErr result (λ cause. NotConcluded cause (line_of line.now) payload.now
        (values_of values.old) (values_of values.new) (O.bytes out.old) (O.bytes out.new)) }
    ensures cause { HasOutputCause result (O.faults out.old) (O.faults out.new) }
    ensures ready { IsReady values.new }
    ensures names { values.new.names ≡ values.old.names }
{
    match take_answer(line, payload, values) {
        None => Err(Cause::Reply),
        Some(text) => match print(out, text.bytes()) {
            Ok(()) => Ok(()),
            Err(Failed) => Err(Cause::Output),
        },
    }
}

// Sends a line's command on its link, waits for the reply, and prints the line of text.
fn ask<L: Duplex, O: Sink>(
    line: &Line<'_>,
    link: &mut L,
    values: &mut Values<'_>,
    out: &mut O,
) -> Result<(), Cause>
    requires ready { IsReady values.old }
    requires known { IsLineKnown (names_of values.old.names) line.now }
    requires range { IsLineInRange line.now }
    ensures ok { OnOk result (Exchanges (line_of line.now) Appends (values_of values.old) (values_of values.new)
        (L.told link.old) (L.told link.new) (O.bytes out.old) (O.bytes out.new)) }
    ensures fault { IfErr result (λ cause. Fails cause (line_of line.now) (values_of values.old) (values_of values.new)
        (L.told link.old) (L.told link.new) (O.bytes out.old) (O.bytes out.new)) }
    ensures cause { HasLineCause result (L.told link.old) (L.told link.new) (O.faults out.old) (O.faults out.new) }
    ensures ready { IsReady values.new }
    ensures names { values.new.names ≡ values.old.names }
{
    let mut room = [0; 4096];
    let len = write_act(&line.act, values, &mut room);
    match exchange(link, &mut room, len) {
        Ok(len) => conclude(line, &room[..len], values, out),
        Err(cause) => Err(cause),
    }
}

// The same on one of the links, that of the line. The others stay as they were.
fn ask_on<L: Duplex, O: Sink>(
    line: &Line<'_>,
    links: &mut [L],
    values: &mut Values<'_>,
    out: &mut O,
) -> Result<(), Cause>
    requires link { line.now.link < length links.old }
    requires ready { IsReady values.old }
    requires known { IsLineKnown (names_of values.old.names) line.now }
    requires range { IsLineInRange line.now }
    ensures ok { OnOk result ((d : L) → Exchanges (line_of line.now) Appends (values_of values.old)
        (values_of values.new) (told_at L.told links.old line.now.link d) (told_at L.told links.new line.now.link d)
        (O.bytes out.old) (O.bytes out.new)) }
    ensures fault { IfErr result (λ cause. (d : L) → Fails cause (line_of line.now) (values_of values.old)
        (values_of values.new) (told_at L.told links.old line.now.link d) (told_at L.told links.new line.now.link d)
        (O.bytes out.old) (O.bytes out.new)) }
    ensures cause { (d : L) → HasLineCause result (told_at L.told links.old line.now.link d)
        (told_at L.told links.new line.now.link d) (O.faults out.old) (O.faults out.new) }
    ensures others { (k : ℕ) (d : L) → (line.now.link ≡ k → ⊥) → slice_index_or links.new k d ≡ slice_index_or links.old k d }
    ensures ready { IsReady values.new }
    ensures names { values.new.names ≡ values.old.names }
{
    ask(line, &mut links[usize::from(line.link)], values, out)
}

/// Sends each line's command on its link, and prints what comes back.
pub fn run<L: Duplex, O: Sink>(
    lines: &[Line<'_>],
    links: &mut [L],
    values: &mut Values<'_>,
    out: &mut O,
) -> Result<(), LineFault>
    requires ready { IsReady values.old }
    requires known { All (IsLineKnown (names_of values.old.names)) lines.now }
    requires range { All IsLineInRange lines.now }
    requires link { All (λ l. l.link < length links.old) lines.now }
    requires fresh { values_of values.old ≡ no_values }
    ensures whole { OnOk result (RunsWhole L.told (lines_are lines.now) links.old links.new (O.bytes out.old)
        (O.bytes out.new)) }
    ensures stops { IfErr result (λ fault. Stops L.told (lines_are lines.now) links.old links.new (O.bytes out.old)
        (O.bytes out.new) fault.cause fault.line) }
    ensures cause { HasRunCause L.told result links.old links.new (O.faults out.old) (O.faults out.new) }
{
    for line in lines {
        match ask_on(line, links, values, out) {
            Ok(()) => {}
            Err(cause) => {
                return Err(LineFault {
                    line: line.number,
                    cause,
                });
            }
        }
    }
    Ok(())
}
