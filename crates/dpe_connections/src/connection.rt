//! One connection, from its first frame to its end.
ghost use Rattle.std.specs.Prelude.{◌≡◌, ◌≢◌, ◌≤◌, [], length, take, None, Some, IfOk, IfErr, IfNone, IfSome, MatchResult};
ghost use Rattle.dpe_io.specs.Told.{Draws as DrawsWord};
ghost use Rattle.dpe_link.specs.Frames.{frame};
ghost use Rattle.dpe_desk.specs.Passes.{Belongs, Grows, own_name};
ghost use Rattle.dpe_desk.specs.Views.{Sound};
ghost use Rattle.dpe_journal.specs.Shared.{IsLegalFor};
ghost use Rattle.dpe_connections.specs.Drawn.{Draws};
ghost use Rattle.dpe_connections.specs.Endings.{ending_of, words_more, KeepsTicket, HasEntropyCause};
ghost use Rattle.dpe_connections.specs.Passes.{MadeJust, made_on, entries_on};
ghost use Rattle.dpe_connections.specs.Served.{Served};
ghost use Rattle.dpe_connections.specs.Steps.{Receives, ReadsNone, ReceivesNone, Sends, SendsFront, Refuses};
ghost use Rattle.dpe_connections.specs.Turns.{Answers, AnswersNone, CountsMore};
ghost use Rattle.dpe_connections.specs.ServedBy.{ServedBy};

use crate::room::{Buffers, Room};
use dpe_desk::{Desk, Pass};
use dpe_io::{Duplex, Entropy, Failed};
use dpe_journal::{Book, Call};
use dpe_link::{FrameFault, read_frame, write_frame};
use dpe_messages::{Reply, write_reply};
use std::sync::Wait;

/// The code of the reply to a command that finds the journal full.
const JOURNAL_FULL: u8 = 26;

/// How a connection ended.
#[derive(Clone, Copy, Debug, PartialEq, Eq)]
pub enum End {
    /// The source ended behind a whole frame, and each command was answered.
    Closed,
    /// The journal was full: a command was answered with code 26. The ticket is at least the desk's capacity.
    Full { ticket: u64 },
    /// The source ended after so many bytes of an unfinished frame, head counted.
    Cut { have: u32 },
    /// A head told more than 4,096 bytes.
    TooLong { length: u32 },
    /// A read failed.
    ReadFault,
    /// A write failed. The command that was being answered has its entry, unless the answer was code 26.
    WriteFault,
    /// No random bytes could be drawn. The frame just read is unanswered, and has no entry.
    EntropyFault,
}

// Reads a frame, and says how many bytes of the room its payload has.
fn read_command<C: Duplex>(conn: &mut C, room: &mut [u8; 4096]) -> Result<usize, End>
    ensures few { IfOk result (λ len. len ≤ 4096) }
    ensures command { IfOk result (λ len. Receives (C.told conn.old) (C.told conn.new) (take len room.new)) }
    ensures end { IfErr result (λ end. ReadsNone (ending_of end None) (C.told conn.old) (C.told conn.new)) }
{
    match read_frame(conn, room) {
        Ok(Some(len)) => Ok(len),
        Ok(None) => Err(End::Closed),
        Err(FrameFault::Cut { have }) => Err(End::Cut { have }),
        Err(FrameFault::TooLong { length }) => Err(End::TooLong { length }),
        Err(FrameFault::ReadFault) => Err(End::ReadFault),
    }
}

// Reads a frame, and draws the random bytes of its command.
fn receive<C: Duplex, E: Entropy>(
    conn: &mut C,
    entropy: &mut E,
    room: &mut [u8; 4096],
    random: &mut [u8; 32],
) -> Result<usize, End>
    ensures few { IfOk result (λ len. len ≤ 4096) }
    ensures command { IfOk result (λ len. Receives (C.told conn.old) (C.told conn.new) (take len room.new)) }
    ensures end { IfErr result (λ end. ReceivesNone (ending_of end None) (C.told conn.old) (C.told conn.new)) }
    ensures words { MatchResult result (λ _. DrawsWord (E.words entropy.old) (E.words entropy.new) random.new)
        (λ _. E.words entropy.new ≡ E.words entropy.old) }
    ensures cause { MatchResult result (λ _. E.faults entropy.new ≡ E.faults entropy.old)
        (λ end. HasEntropyCause (ending_of end None) (E.faults entropy.old) (E.faults entropy.new)) }
{
    match read_command(conn, room) {
        Ok(len) => match entropy.draw(random) {
            Ok(()) => Ok(len),
            Err(Failed) => Err(End::EntropyFault),
        },
        Err(end) => Err(end),
    }
}

// Writes the frame of a payload.
fn send<C: Duplex>(conn: &mut C, payload: &[u8]) -> Result<(), Failed>
    requires { length payload.now ≤ 4096 }
    ensures { MatchResult result (λ _. Sends (C.told conn.old) (C.told conn.new) (frame payload.now))
        (λ _. SendsFront (C.told conn.old) (C.told conn.new) (frame payload.now)) }
{
    match write_frame(conn, payload) {
        Ok(()) => Ok(()),
        Err(_) => Err(Failed),
    }
}

// Answers a command that found the journal full.
fn refuse<C: Duplex>(conn: &mut C, room: &mut [u8; 4096], ticket: u64) -> End
    ensures { Refuses (ending_of result (Some ticket)) ticket (C.told conn.old) (C.told conn.new) }
{
    let len = write_reply(&Reply::Refused(JOURNAL_FULL), room);
    match send(conn, &room[..len]) {
        Ok(()) => End::Full { ticket },
        Err(Failed) => End::WriteFault,
    }
}

// Makes a call, and writes the frame of its reply, or of the refusal where the journal is full.
fn answer<R: Wait, C: Duplex>(
    rt: &R,
    desk: &Desk<Book>,
    pass: &mut Pass<Book>,
    call: &Call,
    conn: &mut C,
    buffers: &mut Buffers,
) -> Option<End>
    requires { Belongs desk.now pass.old }
    ensures pass { Grows pass.old pass.new }
    ensures same { (pass.new.view.names ≡ pass.old.view.names) × (pass.new.view.stake ≡ pass.old.view.stake) }
    ensures answered { IfNone result (Answers pass.old.view pass.new.view call.now (C.told conn.old) (C.told conn.new)) }
    ensures end { IfSome result (λ end. AnswersNone (ending_of end pass.new.view.full) desk.now.terms.capacity
        pass.old.view pass.new.view call.now (C.told conn.old) (C.told conn.new)) }
    ensures counted { IfNone result (CountsMore desk.now.terms.capacity pass.old.view pass.new.view) }
    ensures sound { Sound IsLegalFor pass.new.view }
{
    match desk.act(rt, pass, call, &mut buffers.reply) {
        Ok(_) => match send(conn, buffers.reply.bytes()) {
            Ok(()) => None,
            Err(Failed) => Some(End::WriteFault),
        },
        Err(full) => Some(refuse(conn, &mut buffers.payload, full.ticket)),
    }
}

// Serves one command after another, from the first on.
fn serve_commands<R: Wait, C: Duplex, E: Entropy>(
    rt: &R,
    desk: &Desk<Book>,
    pass: &mut Pass<Book>,
    connection: u32,
    locality: u8,
    conn: &mut C,
    entropy: &mut E,
    buffers: &mut Buffers,
) -> End
    requires belongs { Belongs desk.now pass.old }
    requires near { locality ≤ 7 }
    requires most { desk.now.terms.capacity ≤ 65536 }
    requires sound { Sound IsLegalFor pass.old.view }
    ensures pass { Grows pass.old pass.new }
    ensures same { (pass.new.view.names ≡ pass.old.view.names) × (pass.new.view.stake ≡ pass.old.view.stake) }
    ensures served { ServedBy (own_name pass.old.view) connection desk.now.terms.capacity locality
        (ending_of result pass.new.view.full) pass.old.view pass.new.view (C.told conn.old) (C.told conn.new)
        (E.words entropy.old) (E.words entropy.new) }
    ensures ticket { KeepsTicket (ending_of result pass.new.view.full) pass.old.view.full pass.new.view.full }
    ensures cause { HasEntropyCause (ending_of result pass.new.view.full) (E.faults entropy.old) (E.faults entropy.new) }
    ensures sound { Sound IsLegalFor pass.new.view }
{
    let mut random = [0; 32];
    let mut index = 0;
    loop {
        let len = match receive(conn, entropy, &mut buffers.payload, &mut random) {
            Ok(len) => len,
            Err(end) => return end,
        };
        let call = Call::new(
            connection,
            index,
            locality,
            &random,
            &buffers.payload[..len],
        );
        match answer(rt, desk, pass, &call, conn, buffers) {
            None => index += 1,
            Some(end) => return end,
        }
    }
}

/// Serves a connection of the pass, from its first frame to its end: reads a frame, draws 32 random bytes, makes the call,
/// writes the reply as a frame, and begins again. The connection's commands are numbered from 0.
pub fn serve_connection<R: Wait, C: Duplex, E: Entropy>(
    rt: &R,
    desk: &Desk<Book>,
    pass: &mut Pass<Book>,
    connection: u32,
    locality: u8,
    conn: &mut C,
    entropy: &mut E,
    room: &mut Room,
) -> End
    requires belongs { Belongs desk.now pass.old }
    requires near { locality ≤ 7 }
    requires unused { made_on pass.old.view connection ≡ [] }

    ensures pass { Grows pass.old pass.new }
    ensures same { (pass.new.view.names ≡ pass.old.view.names) × (pass.new.view.stake ≡ pass.old.view.stake) }
    ensures sound { Sound IsLegalFor pass.new.view }

    // Just the entries of this connection are made, and the connection is served by them.
    ensures made { MadeJust pass.old.view (entries_on pass.new.view connection) pass.new.view }
    ensures served { Served desk.now.terms.capacity locality (entries_on pass.new.view connection) (C.told conn.old)
        (C.told conn.new) (ending_of result pass.new.view.full) }

    // A connection that is told of a full journal leaves the pass full, and a full pass makes no entry.
    ensures ticket { KeepsTicket (ending_of result pass.new.view.full) pass.old.view.full pass.new.view.full }
    ensures quiet { pass.old.view.full ≢ None → entries_on pass.new.view connection ≡ [] }

    // The random bytes are the words drawn, in order.
    ensures words { Draws (entries_on pass.new.view connection)
        (words_more (ending_of result pass.new.view.full)) (E.words entropy.old) (E.words entropy.new) }
    ensures cause { HasEntropyCause (ending_of result pass.new.view.full) (E.faults entropy.old) (E.faults entropy.new) }
{
    // These tell that the pass has seen just what it made under its name, and that the index has room.
    let _name = pass.name();
    let _most = desk.capacity();
    serve_commands(
        rt,
        desk,
        pass,
        connection,
        locality,
        conn,
        entropy,
        &mut room.buffers,
    )
}
