//! A worker serves the connections of its door, one after another.
ghost use Rattle.std.specs.Prelude.{◌≡◌, ◌+◌, ◌-◌, ◌^◌, ◌<◌, ◌≤◌, ◌⊎◌, [], None, IsTrue, false, if◌then◌else◌};
ghost use Rattle.std.specs.Bool.{OnTrue, OnFalse};
ghost use Rattle.std.specs.List.{AllByRecursion};
ghost use Rattle.dpe_io.specs.Causes.{Rose};
ghost use Rattle.dpe_io.specs.Told.{NoneWaits};
ghost use Rattle.dpe_desk.specs.Passes.{Belongs, Grows, own_name};
ghost use Rattle.dpe_desk.specs.Views.{Sound};
ghost use Rattle.dpe_journal.specs.Shared.{IsLegalFor};
ghost use Rattle.dpe_io.specs.Tells.{random};
ghost use Rattle.dpe_connections.specs.Endings.{ending_of, is_full, is_cut};
ghost use Rattle.dpe_connections.specs.Passes.{history_of};
ghost use Rattle.dpe_connections.specs.Workers.{IsFrom, ServesDoor};

use crate::connection::{End, serve_connection};
use crate::room::Room;
use dpe_desk::{Desk, Pass};
use dpe_io::{Door, Entropy, Failed};
use dpe_journal::Book;
use std::sync::Wait;

/// What a worker did: how many connections ended, how many of them with `Full`, and how many neither so nor with `Closed`;
/// and whether the door failed.
#[derive(Clone, Copy, Debug, PartialEq, Eq)]
pub struct Tally {
    pub connections: u32,
    pub full: u32,
    pub cut: u32,
    pub door_failed: bool,
}

impl Tally {
    /// Nothing yet.
    pub fn new() -> Tally
        ensures { result ≡ record { connections = 0; full = 0; cut = 0; door_failed = false } }
    {
        Tally {
            connections: 0,
            full: 0,
            cut: 0,
            door_failed: false,
        }
    }

    // One ended connection more.
    fn add(&mut self, end: End)
        requires room { self.old.connections < 2 ^ 32 - 1 }
        requires parts { (self.old.full ≤ self.old.connections) × (self.old.cut ≤ self.old.connections) }
        ensures connections { self.new.connections ≡ self.old.connections + 1 }
        ensures full { self.new.full ≡ self.old.full + (if is_full (ending_of end None) then 1 else 0) }
        ensures cut { self.new.cut ≡ self.old.cut + (if is_cut (ending_of end None) then 1 else 0) }
        ensures door { self.new.door_failed ≡ self.old.door_failed }
    {
        self.connections += 1;
        match end {
            End::Closed => {}
            End::Full { .. } => self.full += 1,
            End::Cut { .. }
            | End::TooLong { .. }
            | End::ReadFault
            | End::WriteFault
            | End::EntropyFault => self.cut += 1,
        }
    }
}

/// A door, all that its connections are served with, and how many of them are at most.
pub struct Worker<D: Door, E: Entropy> {
    pub door: D,
    pub entropy: E,
    pub pass: Pass<Book>,
    pub locality: u8,
    pub each: u32,
    pub tally: Tally,
    pub room: Room,
}

// Serves the connections of a door, from the first on.
fn serve_door<R: Wait, D: Door, E: Entropy>(
    rt: &R,
    desk: &Desk<Book>,
    door: &mut D,
    entropy: &mut E,
    pass: &mut Pass<Book>,
    locality: u8,
    each: u32,
    room: &mut Room,
) -> Tally
    requires belongs { Belongs desk.now pass.old }
    requires near { locality ≤ 7 }
    requires first { pass.old.view.made ≡ [] }
    ensures pass { Grows pass.old pass.new }
    ensures same { (pass.new.view.names ≡ pass.old.view.names) × (pass.new.view.stake ≡ pass.old.view.stake) }
    ensures sound { Sound IsLegalFor pass.new.view }
    ensures made { AllByRecursion (IsFrom (own_name pass.new.view) locality result.connections) (history_of pass.new.view.made) }
    ensures served { ServesDoor D.Conn.told desk.now.terms.capacity locality result pass.new.view (D.lists door.old)
        (D.lists door.new) (random E.Entropy entropy.old) (random E.Entropy entropy.new) }
    ensures at_most { result.connections ≤ each }
    ensures all { result.connections < each → IsTrue result.door_failed ⊎ NoneWaits (D.lists door.new) }
    ensures door_failed { OnTrue result.door_failed (Rose (D.faults door.old) (D.faults door.new)) }
    ensures door_kept { OnFalse result.door_failed (D.faults door.new ≡ D.faults door.old) }
    ensures out { D.out door.new ≡ D.out door.old }
{
    // What its contract says, that the pass is sound and has this name, the proof needs.
    let _name = pass.name();
    let mut tally = Tally::new();
    while tally.connections < each {
        match door.next() {
            Ok(Some(conn)) => {
                let mut conn = conn;
                let end = serve_connection(
                    rt,
                    desk,
                    pass,
                    tally.connections,
                    locality,
                    &mut conn,
                    entropy,
                    room,
                );
                door.done(conn);
                tally.add(end);
            }
            Ok(None) => return tally,
            Err(Failed) => {
                tally.door_failed = true;
                return tally;
            }
        }
    }
    tally
}

impl<D: Door, E: Entropy> Worker<D, E> {
    /// A worker that has served nothing yet.
    pub fn new(
        door: D,
        entropy: E,
        pass: Pass<Book>,
        locality: u8,
        each: u32,
        room: Room,
    ) -> Worker<D, E>
        ensures { result ≡ record {
          door = door;
          entropy = entropy;
          pass = pass;
          locality = locality;
          each = each;
          tally = record { connections = 0; full = 0; cut = 0; door_failed = false };
          room = room;
        } }
    {
        Worker {
            door,
            entropy,
            pass,
            locality,
            each,
            tally: Tally::new(),
            room,
        }
    }
}

/// Serves the worker's connections 0, 1, .. one after another, and hands each back to the door, until `each` of them have
/// ended, or none waits for good, or the door failed. The worker must be new, and its pass must have made no call.
pub fn serve_worker<R: Wait, D: Door, E: Entropy>(
    rt: &R,
    desk: &Desk<Book>,
    worker: &mut Worker<D, E>,
)
    requires belongs { Belongs desk.now worker.old.pass }
    requires near { worker.old.locality ≤ 7 }
    requires first { worker.old.pass.view.made ≡ [] }
    requires untold { worker.old.tally ≡ record { connections = 0; full = 0; cut = 0; door_failed = false } }

    ensures pass { Grows worker.old.pass worker.new.pass }
    ensures names { worker.new.pass.view.names ≡ worker.old.pass.view.names }
    ensures stake { worker.new.pass.view.stake ≡ worker.old.pass.view.stake }
    ensures stays { (worker.new.locality ≡ worker.old.locality) × (worker.new.each ≡ worker.old.each) }
    ensures sound { Sound IsLegalFor worker.new.pass.view }

    // Just the entries of these connections are made, and each connection is served by its own.
    ensures made { AllByRecursion
        (IsFrom (own_name worker.new.pass.view) worker.old.locality worker.new.tally.connections)
        (history_of worker.new.pass.view.made) }
    ensures served { ServesDoor D.Conn.told desk.now.terms.capacity worker.old.locality worker.new.tally
        worker.new.pass.view (D.lists worker.old.door) (D.lists worker.new.door) (random E.Entropy worker.old.entropy)
        (random E.Entropy worker.new.entropy) }

    // It serves as many as it may, unless none waits or the door failed.
    ensures at_most { worker.new.tally.connections ≤ worker.old.each }
    ensures all { worker.new.tally.connections < worker.old.each →
        IsTrue worker.new.tally.door_failed ⊎ NoneWaits (D.lists worker.new.door) }
    ensures door_failed { OnTrue worker.new.tally.door_failed (Rose (D.faults worker.old.door) (D.faults worker.new.door)) }
    ensures door_kept { OnFalse worker.new.tally.door_failed (D.faults worker.new.door ≡ D.faults worker.old.door) }
    ensures out { D.out worker.new.door ≡ D.out worker.old.door }
{
    let Worker {
        door,
        entropy,
        pass,
        locality,
        each,
        tally,
        room,
    } = worker;
    *tally = serve_door(rt, desk, door, entropy, pass, *locality, *each, room);
}
