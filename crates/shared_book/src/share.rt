//! A desk over a book, and two threads that act on it.
ghost use Rattle.std.specs.Prelude.{◌≡◌, ◌+◌, ◌≤◌, [], ◌∷◌, ◌++◌, IfOk};
ghost use Rattle.std.specs.Thread.{IsSync};
ghost use Rattle.dpe_desk.specs.Passes.{Belongs, IsFresh};
ghost use Rattle.shared_book.specs.Acting.{Acted, ActedBoth};

use dpe_desk::{Desk, NoMemory, Pass};
use dpe_io::Packet;
use dpe_journal::{Book, Call, MAX_RECORDS};
use std::alloc::{AllocError, Global};
use std::sync::Wait;
use std::thread;
use std::thread::Threads;

/// A desk over an empty book, both with room for so many entries, and the pass with all the stake.
pub fn open(
    alloc: Global,
    seed: &[u8; 32],
    first_serial: u64,
    capacity: u32,
) -> Result<(Desk<Book>, Pass<Book>), AllocError>
    requires some { 1 ≤ capacity }
    requires most { capacity ≤ MAX_RECORDS }
    ensures kind { IfOk result (λ r. r.0.terms.kind ≡ record { seed = seed.now; first = first_serial; capacity = capacity; history = [] }) }
    ensures capacity { IfOk result (λ r. r.0.terms.capacity ≡ capacity) }
    ensures opening { IfOk result (λ r. r.0.terms.opening ≡ []) }
    ensures pass { IfOk result (λ r. Belongs r.0 r.1 × IsFresh r.1.view) }
    ensures name { IfOk result (λ r. (r.1.view.names ≡ 0 ∷ []) × (r.1.view.stake ≡ 65536)) }
{
    let book = Book::make(alloc, seed, first_serial, capacity)?;
    match Desk::make(alloc, book, u64::from(capacity)) {
        Ok(opened) => Ok(opened),
        Err(NoMemory { object: _ }) => Err(AllocError),
    }
}

/// Makes a call so many times by one pass, or as often as the desk has room for: then the pass is full.
pub fn act_often<R: Wait>(rt: &R, desk: &Desk<Book>, pass: &mut Pass<Book>, call: &Call, times: u32)
    requires { Belongs desk.now pass.old }
    ensures { Acted desk.now pass.old pass.new call.now times }
{
    let mut reply = Packet::new();
    for _time in 0..times {
        if desk.act(rt, pass, call, &mut reply).is_err() {
            return;
        }
    }
}

/// The same by two threads, each by a pass of its own. The pass that comes back stands for both.
pub fn act_both<R: Threads + Wait + Sync>(
    rt: &R,
    desk: &Desk<Book>,
    mut one: Pass<Book>,
    mut other: Pass<Book>,
    call: &Call,
    times: u32,
) -> Pass<Book>
    requires { Belongs desk.now one × Belongs desk.now other }
    ensures belongs { Belongs desk.now result }
    ensures names { result.view.names ≡ one.view.names ++ other.view.names }
    ensures stake { result.view.stake ≡ one.view.stake + other.view.stake }
    ensures acted { ActedBoth one.view other.view result.view call.now times }
{
    let (mut one, other) = thread::join(
        rt,
        move || -> Pass<Book>
            requires { IsSync R.row × Belongs desk.now one }
            ensures { Acted desk.entry.now one result call.entry.now times }
        {
            act_often(rt, desk, &mut one, call, times);
            one
        },
        move || -> Pass<Book>
            requires { IsSync R.row × Belongs desk.now other }
            ensures { Acted desk.entry.now other result call.entry.now times }
        {
            act_often(rt, desk, &mut other, call, times);
            other
        },
    );
    desk.join(&mut one, other);
    one
}
