//! Commands made of a number, executed one after another, and the text that is told of their replies.
ghost use Rattle.std.specs.Prelude.{◌≡◌, ◌<◌, ◌≤◌, ◌+◌, ℕ, List, [], ◌∷◌, ◌++◌, length, take, IfOk, string_bytes};
ghost use Rattle.dpe_messages.specs.Replies.{Response, IsReplyTo, IsWritable, response_of};
ghost use Rattle.dpe_tape.specs.Draws.{number_behind, random_of, argument_of};
ghost use Rattle.dpe_tape.specs.Load.{act_for, asked_by, load_seed, load_at, outcome_at, next};
ghost use Rattle.dpe_tape.specs.LoadText.{load_text};
ghost use Rattle.dpe_tape.specs.Progress.{AreNear, load_of, outcome_of};
ghost use Rattle.dpe_tape.specs.Tally.{IsTally};
ghost use Rattle.dpe_tape.specs.Words.{command_limit};

use crate::act::{Act, chosen, write_act};
use crate::draws::Draws;
use crate::pool::pick;
use crate::stock::Stock;
use crate::tally::Tally;
use crate::words::Load;
use dpe_core::Core;
use dpe_inputs::Count;
use dpe_messages::{Reply, read_reply};
use std::alloc::{AllocError, Global};

/// The first serial of a load's handles.
const FIRST_SERIAL: u64 = 1;

/// A load under way.
#[derive(Drop)]
struct Progress {
    /// Whether the first command was executed.
    begun: bool,
    draws: Draws,
    stock: Stock,
    core: Core,
}

// What is drawn for a command.
#[derive(Clone, Copy)]
struct Drawn {
    random: [u8; 32],
    act: Act,
    argument: u32,
}

// The seed of a load.
fn seed_of(number: u64) -> [u8; 32]
    ensures { result ≡ load_seed number }
{
    let eight = number.to_be_bytes();
    let mut seed = [0; 32];
    put_eight(&mut seed, 0, &eight);
    put_eight(&mut seed, 8, &eight);
    put_eight(&mut seed, 16, &eight);
    put_eight(&mut seed, 24, &eight);
    seed
}

// Draws for a command, of which the first is InitializeContext.
fn draw(draws: &mut Draws, begun: bool) -> Drawn
    ensures number { draws.new.number ≡ number_behind draws.old.number }
    ensures random { result.random ≡ random_of draws.old.number }
    ensures act { result.act ≡ act_for begun draws.old.number }
    ensures argument { result.argument ≡ argument_of draws.old.number }
{
    let random = draws.random();
    let choice = draws.draw() % 16;
    let argument = draws.draw();
    let act = if begun {
        chosen(choice)
    } else {
        Act::Initialize
    };
    Drawn {
        random,
        act,
        argument,
    }
}

// Puts a number's bytes at a place of a seed.
fn put_eight(seed: &mut [u8; 32], at: usize, eight: &[u8; 8])
    requires { at + 8 ≤ 32 }
    ensures { take (at + 8) seed.new ≡ take at seed.old ++ eight.now }
{
    seed[at..at + 8].copy_from_slice(eight);
}

// Writes and executes a command. The reply's payload stands in the first bytes of `out`.
fn execute(core: &mut Core, stock: &Stock, drawn: &Drawn, out: &mut [u8; 4096]) -> usize
    requires near { AreNear stock.now.pool.items }
    ensures within { result ≤ 4096 }
    ensures reply { IsReplyTo (asked_by drawn.now.act) (outcome_of core.old stock.now drawn.now).reply (take result out.new) }
    ensures state { core.new ≡ record core.old { state = (outcome_of core.old stock.now drawn.now).state } }
{
    let pair = pick(&stock.pool, drawn.argument);
    let mut payload = [0; 4096];
    let len = write_act(
        drawn.act,
        &pair.handle,
        drawn.argument,
        stock.last_box.as_slice(),
        &stock.spent,
        &mut payload,
    );
    let mut folds = Count::new();
    core.execute(
        drawn.act.locality(pair.locality),
        &drawn.random,
        &payload[..len],
        out,
        &mut folds,
    )
}

// The reply that a payload is.
fn reply_in<'a>(act: Act, payload: &'a [u8]) -> Reply<'a>
    requires { (r : Response) × IsReplyTo (asked_by act) r payload.now }
    ensures reply { (r : Response) → IsReplyTo (asked_by act) r payload.now → response_of result ≡ r }
    ensures writable { IsWritable result }
{
    match read_reply(&act.asked(), payload) {
        Ok(reply) => reply,
        Err(_) => unreachable!(),
    }
}

impl Progress {
    // Before the first command.
    fn begin(alloc: Global, number: u64) -> Result<Progress, AllocError>
        ensures { IfOk result (λ progress. load_of progress ≡ load_at number) }
    {
        let core = Core::make(alloc, &seed_of(number), FIRST_SERIAL)?;
        Ok(Progress {
            begun: false,
            draws: Draws { number },
            stock: Stock::new(),
            core,
        })
    }

    // Executes the next command, and takes what its reply gives.
    fn turn(&mut self, tally: &mut Tally)
        requires { AreNear self.old.stock.pool.items }
        ensures next { load_of self.new ≡ next (load_of self.old) }
        ensures told { (rs : List Response) → length rs < command_limit
            → IsTally tally.old rs → IsTally tally.new (rs ++ (outcome_at (load_of self.old)).reply ∷ []) }
    {
        let drawn = draw(&mut self.draws, self.begun);
        let mut out = [0; 4096];
        let len = execute(&mut self.core, &self.stock, &drawn, &mut out);
        let payload = &out[..len];
        let reply = reply_in(drawn.act, payload);
        tally.add(&reply, payload);
        self.stock.take(drawn.act, &reply, drawn.argument);
        self.begun = true;
    }
}

/// The text of a load. The memory of its executor is taken before the first command, and that of the text after the
/// last.
pub fn text_of_load(alloc: Global, load: &Load) -> Result<String, AllocError>
    requires { load.now.commands ≤ command_limit }
    ensures { IfOk result (λ text. string_bytes text ≡ load_text load.now.number load.now.commands) }
{
    let mut progress = Progress::begin(alloc, load.number)?;
    let mut tally = Tally::new();
    for _place in 0..load.commands {
        progress.turn(&mut tally);
    }
    tally.told(alloc, load.commands)
}
