//! The desk, and each call on it.
ghost use Rattle.std.specs.Prelude.{◌≡◌, ◌≢◌, ℕ, ◌+◌, ◌-◌, ◌^◌, false, ◌<◌, ◌≤◌, List, [], ◌∷◌, ◌++◌, length, slice_get, Some, None, IfOk, IfErr, IsErrAnd, MatchResult, ◌==◌};
ghost use mathlib.Core.List.{IsPrefix};
ghost use Rattle.atomic_table.specs.Table.{rest};
ghost use Rattle.dpe_desk.specs.Entries.{entry, made_by, times};
ghost use Rattle.dpe_desk.specs.Views.{held, Sound};
ghost use Rattle.dpe_desk.specs.Plays.{given, part, longer, either_of, waiting, filled, IsIdle, Taken, Stepped, Served, Settles};
ghost use Rattle.dpe_desk.specs.Passes.{Belongs, Sits, IsFresh, SameSight, Grows, Keeps, Appends, LaterCallers, Ends, own_name};

use crate::pass::Pass;
use crate::plays::{Compare, Cut, Draw, Finish, Glue, Name, Stake, Take, Watch};
use crate::rule::{About, Turns};
use crate::sequential::Sequential;
use crate::view::View;
use atomic_table::{Refused, Seat, Table};
use std::alloc::{AllocFailed, Global};
use std::marker::{Brand, Model};
use std::snapshot::Snapshot;
use std::sync::Wait;
use std::thread;

/// The stakes of all passes of one desk, added up. So a desk has at most as many passes.
pub const ALL_STAKE: u32 = 65_536;

// Words of the table.
const SERVING: usize = 0;

const TICKET: usize = 1;

const NAMES: usize = 2;

// How many loads a caller that waits makes before it gives the processor away.
const LOADS: u32 = 64;

type Place<O> = Seat<Option<O>, View<O, <O as Sequential>::Call, <O as Sequential>::Reply>>;

/// The ticket that was drawn is at least the capacity.
#[derive(Clone, Copy, Debug, PartialEq, Eq)]
pub struct Full {
    pub ticket: u64,
}

/// There was no memory. The object comes back.
#[derive(Drop)]
pub struct NoMemory<O> {
    pub object: O,
}

/// The object, and the words by which its callers take turns.
#[derive(Drop)]
pub struct Desk<O: Sequential> {
    table: Table<Option<O>, View<O, O::Call, O::Reply>, About<O>, Turns<O>, Global>,
    capacity: u64,
}

impl<O: Sequential> Model for Desk<O> {
    ghost use Rattle.std.specs.Prelude.{◌≡◌, ◌≤◌};
    ghost use Rattle.dpe_desk.specs.Passes.{DeskView};
    ghost use Rattle.dpe_desk.specs.Rule.{terms_of};

    ghost Value = { DeskView O O.Call O.Reply };

    ghost view = { λ d. record { desk = d.table.shared.table_id; terms = terms_of O.kind O.entries d.table.shared.key } };

    ghost invariant = { λ d. (d.table.shared.table_id.words ≡ 3) × (d.table.shared.table_id.slots ≡ 1)
        × (d.capacity ≡ d.table.shared.key.capacity) × (d.capacity ≤ 65536) };
}

impl<O: Sequential> Desk<O> {
    /// A desk, and the pass with all its stake. The object comes back for want of memory.
    pub fn make(alloc: Global, object: O, capacity: u64) -> Result<(Desk<O>, Pass<O>), NoMemory<O>>
        requires room { (length (O.entries object) ≤ capacity) × (capacity ≤ length (O.entries object) + O.left object) }
        requires small { capacity ≤ 65536 }
        requires quiet { (n : ℕ) → n < 65536 → made_by n (O.entries object) ≡ [] }
        ensures kind { IfOk result (λ r. r.0.terms.kind ≡ O.kind object) }
        ensures opening { IfOk result (λ r. r.0.terms.opening ≡ O.entries object) }
        ensures capacity { IfOk result (λ r. r.0.terms.capacity ≡ capacity) }
        ensures pass { IfOk result (λ r. Belongs r.0 r.1 × IsFresh r.1.view) }
        ensures name { IfOk result (λ r. (r.1.view.names ≡ 0 ∷ []) × (r.1.view.stake ≡ 65536)) }
        ensures seen { IfOk result (λ r. r.1.view.seen ≡ O.entries object) }
        ensures known { IfOk result (λ r. r.1.view.known ≡ length (O.entries object)) }
        ensures sound { IfOk result (λ r. Sound O.legal r.1.view) }
        ensures no_memory { IfErr result (λ e. e.object ≡ object) }
    {
        let length = object.length();
        let about = About {
            start: Snapshot::of(&object),
            capacity,
        };
        let mut slots = Vec::new(alloc);
        if let Err(AllocFailed { value }) = slots.push(Some(object)) {
            slots.destroy_empty();
            let Some(object) = value else { unreachable!() };
            return Err(NoMemory { object });
        }
        match Table::new(alloc, &[length, length, 1], slots, &about) {
            Ok((table, seat)) => Ok((
                Desk { table, capacity },
                Pass {
                    seat,
                    name: 0,
                    stake: ALL_STAKE,
                    held: 1,
                    full: None,
                },
            )),
            Err(Refused { mut slots }) => {
                let Some(Some(object)) = slots.pop() else {
                    unreachable!()
                };
                slots.destroy_empty();
                Err(NoMemory { object })
            }
        }
    }

    /// The most entries that the history can have.
    pub fn capacity(&self) -> u64
        ensures capacity { result ≡ self.now.terms.capacity }
        ensures most { result ≤ 65536 }
    {
        self.capacity
    }

    fn cut<M: Stake>(&self, seat: &mut Place<O>, stake: u32) -> Place<O>
        requires given { stake ≡ M.stake }
        requires fits { Sits self.now seat.old.table_id seat.old.me.0 }
        requires stake { (stake + held seat.old.me.0 ≤ seat.old.me.0.stake) × (0 < held seat.old.me.0) }
        ensures seat { (seat.new.table_id ≡ seat.old.table_id) × (seat.new.id ≡ seat.old.id) }
        ensures old { seat.new.me ≡ (given stake seat.old.me.0, seat.old.me.1) }
        ensures new { (result.table_id ≡ seat.old.table_id) × (result.me ≡ (part stake seat.old.me.0, [])) }
    {
        self.table.shared.split_seat::<Cut<M>>(seat)
    }

    /// A pass of its own for another thread, with a part of the stake. It has seen what the old one has.
    pub fn split(&self, pass: &mut Pass<O>, stake: u32) -> Pass<O>
        requires belongs { Belongs self.now pass.old }
        requires stake { (1 ≤ stake) × (stake + held pass.old.view ≤ pass.old.view.stake) }
        ensures old { (pass.new.desk ≡ pass.old.desk) × (pass.new.view ≡ given stake pass.old.view) }
        ensures new { Belongs self.now result × IsFresh result.view }
        ensures given { result.view.stake ≡ stake }
        ensures seen { SameSight pass.old.view result.view }
        ensures name { (own_name result.view < 65536) × (result.view.names ≡ own_name result.view ∷ []) }
        ensures sound { Sound O.legal pass.new.view × Sound O.legal result.view }
    {
        let mut seat = self.cut::<Brand>(&mut pass.seat, stake);
        pass.stake -= stake;
        let name = self.table.shared.fetch_add::<Name<O>>(&mut seat, NAMES, 1);
        Pass {
            seat,
            name: name as u32,
            stake,
            held: 1,
            full: None,
        }
    }

    /// The number of stored entries, at one load. The pass was then told of so many.
    pub fn length(&self, pass: &mut Pass<O>) -> u64
        requires { Belongs self.now pass.old }
        ensures pass { Grows pass.old pass.new × Keeps pass.old pass.new }
        ensures same { (pass.new.view.seen ≡ pass.old.view.seen) × (pass.new.view.full ≡ pass.old.view.full) }
        ensures told { (pass.new.view.known ≡ result) × (pass.old.view.known ≤ result) }
        ensures sound { Sound O.legal pass.new.view }
    {
        self.table.shared.load::<Watch<O>>(&mut pass.seat, SERVING)
    }

    // Waits until the ticket is served, and takes the object's slot. After some loads it gives the processor away
    // before each further one.
    fn wait<R: Wait>(&self, rt: &R, seat: &mut Place<O>, ticket: u64)
        requires fits { Sits self.now seat.old.table_id seat.old.me.0 × (seat.old.me.1 ≡ []) }
        requires ticket { seat.old.me.0.ticket ≡ Some ticket }
        requires free { seat.old.me.0.holds ≡ false }
        ensures seat { (seat.new.table_id ≡ seat.old.table_id) × (seat.new.id ≡ seat.old.id) }
        ensures taken { Taken O.kind O.entries O.left seat.old.me ticket seat.new.me }
    {
        let mut loads = 1;
        for _ in rt.forever() {
            if self.table.shared.load::<Take<O>>(seat, SERVING) == ticket {
                return;
            }
            if loads < LOADS {
                loads += 1;
            } else {
                thread::yield_now();
            }
        }
        unreachable!()
    }

    // Steps the object in the slot that the seat has.
    fn work(&self, seat: &mut Place<O>, name: u32, call: &O::Call, reply: &mut O::Reply)
        requires fits { seat.old.table_id ≡ self.now.desk }
        requires room { (x : O) × (seat.old.me.1 ≡ (0, Some x) ∷ []) × (1 ≤ O.left x) }
        ensures seat { (seat.new.table_id ≡ seat.old.table_id) × (seat.new.id ≡ seat.old.id) × (seat.new.me.0 ≡ seat.old.me.0) }
        ensures stepped { Stepped O.kind O.entries O.left O.legal seat.old.me.1 (entry name call.now reply.new) seat.new.me.1 }
    {
        let Some(mut object) = self.table.shared.exchange(seat, 0, None) else {
            unreachable!()
        };
        object.step(name, call, reply);
        let before = self.table.shared.exchange(seat, 0, Some(object));
        let None = before else { unreachable!() };
    }

    // Draws the next ticket.
    fn draw(&self, seat: &mut Place<O>) -> Result<u64, Full>
        requires fits { Sits self.now seat.old.table_id seat.old.me.0 }
        requires idle { (0 < held seat.old.me.0) × (seat.old.me.0.ticket ≡ None) × (seat.old.me.0.full ≡ None) }
        ensures seat { (seat.new.table_id ≡ seat.old.table_id) × (seat.new.id ≡ seat.old.id) × (seat.new.me.1 ≡ seat.old.me.1) }
        ensures ticket { IfOk result (λ t. (t < self.now.terms.capacity) × (seat.new.me.0 ≡ waiting seat.old.me.0 t)) }
        ensures full { IfErr result (λ f. (self.now.terms.capacity ≤ f.ticket) × (seat.new.me.0 ≡ filled seat.old.me.0 f.ticket)) }
    {
        let ticket = self.table.shared.fetch_add::<Draw<O>>(seat, TICKET, 1);
        if ticket < self.capacity {
            Ok(ticket)
        } else {
            Err(Full { ticket })
        }
    }

    // From the draw of the ticket on.
    fn turn<R: Wait>(
        &self,
        rt: &R,
        seat: &mut Place<O>,
        name: u32,
        ticket: u64,
        call: &O::Call,
        reply: &mut O::Reply,
    )
        requires fits { Sits self.now seat.old.table_id seat.old.me.0 × (seat.old.me.1 ≡ []) }
        requires ticket { (seat.old.me.0.ticket ≡ Some ticket) × (ticket < self.now.terms.capacity) }
        requires free { seat.old.me.0.holds ≡ false }
        requires own { 0 < times name seat.old.me.0.names }
        ensures seat { (seat.new.table_id ≡ seat.old.table_id) × (seat.new.id ≡ seat.old.id) × (seat.new.me.1 ≡ []) }
        ensures entry { Served seat.old.me.0 ticket (entry name call.now reply.new) seat.new.me.0 }
        ensures known { seat.old.me.0.known ≤ ticket }
        ensures sound { Sound O.legal seat.new.me.0 }
    {
        self.wait(rt, seat, ticket);
        self.work(seat, name, call, reply);
        self.table.shared.fetch_add::<Finish<O>>(seat, SERVING, 1);
    }

    /// Waits for its turn and makes the call. The answer is the entry's place in the history, or `Full` exactly where
    /// the ticket that the pass, or a pass joined into it, drew now or earlier is at least the
    /// capacity.
    pub fn act<R: Wait>(
        &self,
        rt: &R,
        pass: &mut Pass<O>,
        call: &O::Call,
        reply: &mut O::Reply,
    ) -> Result<u64, Full>
        requires { Belongs self.now pass.old }
        ensures pass { Grows pass.old pass.new }
        ensures same { (pass.new.view.names ≡ pass.old.view.names) × (pass.new.view.stake ≡ pass.old.view.stake) }
        ensures place { IfOk result (λ place. (place < self.now.terms.capacity) × (pass.old.view.known ≤ place)) }
        ensures known { IfOk result (λ place. pass.new.view.known ≡ place + 1) }
        ensures open { IfOk result (λ place. pass.new.view.full ≡ pass.old.view.full) }
        ensures entry { IfOk result (λ place. Appends pass.old.view pass.new.view place (entry (own_name pass.old.view) call.now reply.new)) }
        ensures full { IfErr result (λ f. (self.now.terms.capacity ≤ f.ticket) × (pass.new.view.full ≡ Some f.ticket)) }
        ensures nothing { IfErr result (λ f. SameSight pass.old.view pass.new.view × (pass.new.view.made ≡ pass.old.view.made)) }
        ensures silent { IfErr result (λ f. reply.new ≡ reply.old) }
        ensures again { (t : ℕ) → pass.old.view.full ≡ Some t → IsErrAnd result (λ f. f.ticket ≡ t) }
        ensures sound { Sound O.legal pass.new.view }
    {
        if let Some(ticket) = pass.full {
            return Err(Full { ticket });
        }
        let ticket = match self.draw(&mut pass.seat) {
            Ok(ticket) => ticket,
            Err(full) => {
                pass.full = Some(full.ticket);
                return Err(full);
            }
        };
        self.turn(rt, &mut pass.seat, pass.name, ticket, call, reply);
        Ok(ticket)
    }

    // Takes in another seat, and compares what the two had seen.
    fn take_in(&self, seat: &mut Place<O>, other: Place<O>)
        requires fits { Sits self.now seat.old.table_id seat.old.me.0 × Sits self.now other.table_id other.me.0 }
        requires idle { IsIdle seat.old.me.0 × (0 < held seat.old.me.0) }
        requires other { IsIdle other.me.0 × (other.me.1 ≡ []) }
        ensures seat { (seat.new.table_id ≡ seat.old.table_id) × (seat.new.id ≡ seat.old.id) × (seat.new.me.1 ≡ seat.old.me.1) }
        ensures known { Settles seat.old.me.0 other.me.0 seat.new.me.0 }
        ensures ours { IsPrefix seat.old.me.0.seen (longer seat.old.me.0.seen other.me.0.seen) }
        ensures theirs { IsPrefix other.me.0.seen (longer seat.old.me.0.seen other.me.0.seen) }
        ensures most { seat.new.me.0.stake ≤ 65536 }
        ensures sound { Sound O.legal seat.new.me.0 }
    {
        self.table.shared.join_seat::<Glue>(seat, other);
        self.table.shared.load::<Compare<O>>(seat, SERVING);
    }

    // A seat with no name and no stake that has seen as much.
    fn twin(&self, seat: &mut Place<O>) -> Place<O>
        requires fits { Sits self.now seat.old.table_id seat.old.me.0 }
        requires held { (0 < held seat.old.me.0) × (held seat.old.me.0 ≤ seat.old.me.0.stake) }
        ensures old { (seat.new.table_id ≡ seat.old.table_id) × (seat.new.id ≡ seat.old.id) × (seat.new.me ≡ seat.old.me) }
        ensures new { (result.table_id ≡ seat.old.table_id) × (result.me ≡ (part 0 seat.old.me.0, [])) }
    {
        self.cut::<Brand>(seat, 0)
    }

    /// Takes a pass in: stakes, names and calls are put together, and the longer of what the two have seen is kept.
    pub fn join(&self, pass: &mut Pass<O>, other: Pass<O>)
        requires { Belongs self.now pass.old × Belongs self.now other }
        ensures pass { Grows pass.old pass.new }
        ensures theirs { IsPrefix other.view.seen pass.new.view.seen × (other.view.known ≤ pass.new.view.known) }
        ensures names { pass.new.view.names ≡ pass.old.view.names ++ other.view.names }
        ensures stake { pass.new.view.stake ≡ pass.old.view.stake + other.view.stake }
        ensures made { pass.new.view.made ≡ pass.old.view.made ++ other.view.made }
        ensures full { pass.new.view.full ≡ either_of pass.old.view.full other.view.full }
        ensures longer { pass.new.view.seen ≡ longer pass.old.view.seen other.view.seen }
        ensures apart { (n : ℕ) → 0 < times n pass.old.view.names → times n other.view.names ≡ 0 }
        ensures sound { Sound O.legal pass.new.view }
    {
        let Pass {
            seat,
            name: _,
            stake,
            held,
            full,
        } = other;
        self.take_in(&mut pass.seat, seat);
        pass.stake += stake;
        pass.held += held;
        if pass.full.is_none() {
            pass.full = full;
        }
    }

    /// Shows each of two passes what the other has seen, and that one of the two lists begins the other.
    pub fn meet(&self, a: &mut Pass<O>, b: &mut Pass<O>)
        requires { Belongs self.now a.old × Belongs self.now b.old }
        ensures a { Grows a.old a.new × Keeps a.old a.new }
        ensures b { Grows b.old b.new × Keeps b.old b.new }
        ensures full { (a.new.view.full ≡ a.old.view.full) × (b.new.view.full ≡ b.old.view.full) }
        ensures same { a.new.view.seen ≡ b.new.view.seen }
        ensures longer { a.new.view.seen ≡ longer a.old.view.seen b.old.view.seen }
        ensures told { (b.old.view.known ≤ a.new.view.known) × (a.old.view.known ≤ b.new.view.known) }
        ensures sound { Sound O.legal a.new.view × Sound O.legal b.new.view }
    {
        let from_b = self.twin(&mut b.seat);
        self.take_in(&mut a.seat, from_b);
        let from_a = self.twin(&mut a.seat);
        self.take_in(&mut b.seat, from_a);
    }

    /// Gives the object back to the pass that has all the stake. Its list is the opening list, and then one entry for
    /// each call that was made.
    pub fn close(self, pass: Pass<O>) -> O
        requires belongs { Belongs self pass }
        requires all { pass.view.stake ≡ 65536 }
        ensures kind { O.kind result ≡ self.terms.kind }
        ensures legal { O.legal (O.kind result) (O.entries result) }
        ensures opening { IsPrefix self.terms.opening (O.entries result) }
        ensures seen { IsPrefix pass.view.seen (O.entries result) }
        ensures known { pass.view.known ≤ length (O.entries result) }
        ensures own { (n : ℕ) → 0 < times n pass.view.names → made_by n (O.entries result) ≡ made_by n pass.view.made }
        ensures callers { LaterCallers self.terms.opening pass.view.names (O.entries result) }
        ensures counted { length (O.entries result) ≡ length self.terms.opening + length pass.view.made }
        ensures most { length (O.entries result) ≤ self.terms.capacity }
        ensures full { pass.view.full ≢ None → length (O.entries result) ≡ self.terms.capacity }
    {
        let Pass {
            seat,
            name: _,
            stake: _,
            held: _,
            full: _,
        } = pass;
        self.recover(seat)
    }

    // The object, where the seat has all the stake.
    fn recover(self, seat: Place<O>) -> O
        requires { (seat.table_id ≡ self.desk) × (seat.me.0.stake ≡ 65536) × (seat.me.0.ticket ≡ None) }
        ensures { Ends O.kind O.entries O.legal self.terms seat.me.0 result }
    {
        let Desk { table, capacity: _ } = self;
        let mut closed = table.close_with(seat);
        let Some(object) = closed.take(0) else {
            unreachable!()
        };
        closed.free();
        object
    }
}
