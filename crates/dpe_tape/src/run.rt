ghost use Rattle.std.specs.Prelude.{◌≡◌, ◌≢◌, ◌≤◌, IfOk, OnOk, OnErr};
ghost use Rattle.std.specs.Io.KnownBytes.{Appends};
ghost use Rattle.dpe_io.specs.Causes.{HasCause, Rose};
ghost use Rattle.dpe_link.specs.Frames.{frame};
ghost use Rattle.dpe_tape.specs.Answers.{answers, batch, step_of};
ghost use Rattle.dpe_tape.specs.Reading.{AppendsFront, ReadsEnd, HasFault, item_of};
ghost use Rattle.dpe_tape.specs.Run.{Ended};

use crate::tape::{ItemBuffer, Taken, read_item};
use crate::words::Run;
use dpe_core::Core;
use dpe_inputs::Count;
use dpe_io::{Failed, Sink, Source};
use dpe_link::{append_frame, fill};
use std::alloc::{AllocError, Global};

/// The most items of a tape.
const MAX_ITEMS: u32 = 65_536;

/// How a run ended.
#[derive(Clone, Copy, Debug, PartialEq, Eq)]
pub enum End {
    Done,
    SourceFault,
    SinkFault,
    /// Bytes that are no item, in the place of an item.
    Malformed,
    /// Bytes behind the last item that a tape may have.
    Overlong,
}

// Executes an item, whose reply is put into the room, and writes the reply's frame.
fn answer<K: Sink>(
    core: &mut Core,
    item: &ItemBuffer,
    out: &mut [u8; 4096],
    sink: &mut K,
) -> Result<(), Failed>
    requires len { item.now.len ≤ 4096 }
    requires near { item.now.locality ≤ 7 }
    ensures state { core.new ≡ (step_of core.old (item_of item.now)).machine }
    ensures ok { OnOk result (Appends (K.bytes sink.old) (K.bytes sink.new) (frame (step_of core.old (item_of item.now)).reply)) }
    ensures front { OnErr result (AppendsFront (K.bytes sink.old) (K.bytes sink.new) (frame (step_of core.old (item_of item.now)).reply)) }
    ensures cause { HasCause (K.faults sink.old) (K.faults sink.new) result }
{
    let mut folds = Count::new();
    let len = core.execute(
        item.locality,
        &item.random,
        &item.payload[..item.len],
        out,
        &mut folds,
    );
    match append_frame(sink, &out[..len]) {
        Ok(()) => Ok(()),
        Err(_) => Err(Failed),
    }
}

// Tells whether the source is at its end, behind the last item.
fn read_end<S: Source>(source: &mut S) -> Taken
    ensures end { ReadsEnd (S.left source.old) (S.left source.new) result }
    ensures cause { HasFault (S.faults source.old) (S.faults source.new) result }
{
    let mut byte = [0; 1];
    let Ok(count) = fill(source, &mut byte) else {
        return Taken::Fault;
    };
    if count == 0 {
        return Taken::End;
    }
    Taken::NoItem
}

// Executes the commands of a tape, one by one, and writes the replies.
fn answer_all<S: Source, K: Sink>(core: &mut Core, source: &mut S, sink: &mut K) -> End
    ensures ended { Ended result (answers core.old) (S.left source.old) (S.left source.new) (K.bytes sink.old) (K.bytes sink.new) }
    ensures source_fault { result ≡ End.SourceFault → Rose (S.faults source.old) (S.faults source.new) }
    ensures sink_fault { result ≡ End.SinkFault → Rose (K.faults sink.old) (K.faults sink.new) }
    ensures sink_kept { result ≢ End.SinkFault → K.faults sink.new ≡ K.faults sink.old }
    ensures source_kept { result ≢ End.SourceFault → S.faults source.new ≡ S.faults source.old }
{
    let mut item = ItemBuffer::new();
    let mut out = [0; 4096];
    for _turn in 0..MAX_ITEMS {
        match read_item(source, &mut item) {
            Taken::Whole => {}
            Taken::End => return End::Done,
            Taken::NoItem => return End::Malformed,
            Taken::Fault => return End::SourceFault,
        }
        let Ok(()) = answer(core, &item, &mut out, sink) else {
            return End::SinkFault;
        };
    }
    match read_end(source) {
        Taken::Fault => End::SourceFault,
        Taken::NoItem => End::Overlong,
        _ => End::Done,
    }
}

// Executes the commands of a tape, and hands on the replies once all are written.
fn answer_and_flush<S: Source, K: Sink>(core: &mut Core, source: &mut S, sink: &mut K) -> End
    ensures ended { Ended result (answers core.old) (S.left source.old) (S.left source.new) (K.bytes sink.old) (K.bytes sink.new) }
    ensures source_fault { result ≡ End.SourceFault → Rose (S.faults source.old) (S.faults source.new) }
    ensures sink_fault { result ≡ End.SinkFault → Rose (K.faults sink.old) (K.faults sink.new) }
    ensures sink_kept { result ≢ End.SinkFault → K.faults sink.new ≡ K.faults sink.old }
    ensures source_kept { result ≢ End.SourceFault → result ≢ End.SinkFault → S.faults source.new ≡ S.faults source.old }
{
    let end = answer_all(core, source, sink);
    if end == End::SinkFault {
        return End::SinkFault;
    }
    match sink.flush() {
        Ok(()) => end,
        Err(Failed) => End::SinkFault,
    }
}

/// Executes the commands of a tape, and hands on the replies once all are written. A failed flush is a fault
/// of the sink, whatever the end was. All memory is taken before the source is read.
pub fn run<S: Source, K: Sink>(
    alloc: Global,
    run: &Run,
    source: &mut S,
    sink: &mut K,
) -> Result<End, AllocError>
    ensures ended { IfOk result (λ end. Ended end (batch run.now.seed run.now.first)
        (S.left source.old) (S.left source.new) (K.bytes sink.old) (K.bytes sink.new)) }
    ensures source_fault { IfOk result (λ end. end ≡ End.SourceFault → Rose (S.faults source.old) (S.faults source.new)) }
    ensures sink_fault { IfOk result (λ end. end ≡ End.SinkFault → Rose (K.faults sink.old) (K.faults sink.new)) }
    ensures sink_kept { IfOk result (λ end. end ≢ End.SinkFault → K.faults sink.new ≡ K.faults sink.old) }
    ensures source_kept { IfOk result (λ end.
        end ≢ End.SourceFault → end ≢ End.SinkFault → S.faults source.new ≡ S.faults source.old) }
    ensures untouched { OnErr result ((source.new ≡ source.old) × (sink.new ≡ sink.old)) }
{
    let mut core = Core::make(alloc, &run.seed, run.first)?;
    Ok(answer_and_flush(&mut core, source, sink))
}
