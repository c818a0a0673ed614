// A desk one of whose callers is within its turn for long. The others go on with all that is no call of the object.
ghost use Rattle.std.specs.Prelude.{◌≡◌, ◌+◌, ◌≤◌, false};
ghost use Rattle.dpe_desk.specs.Passes.{Belongs};
ghost use Rattle.dpe_desk.specs.Views.{held};

use crate::programs::tell;
use dpe_desk::{Desk, Entry, Pass, Sequential};
use std::hint;
use std::sync::Wait;
use std::sync::atomic::{AtomicU32, Ordering};
use std::thread::{self, Threads};

// How often a thread looks whether the other has come so far: a second or so.
const MOST_TURNS: u32 = 100_000_000;

// Waits until a flag is raised, but not for good, and tells whether it was.
fn comes(flag: &AtomicU32) -> bool {
    for _turn in 0..MOST_TURNS {
        if flag.load(Ordering::SeqCst) != 0 {
            return true;
        }
        hint::spin_loop();
    }
    false
}

// An object of one step, which says that it has begun, and ends once it is let go. It answers 1 where it was.
#[derive(Drop)]
struct Held<'a> {
    begun: &'a AtomicU32,
    let_go: &'a AtomicU32,
    stepped: bool,
    last: Entry<u32, u32>,
}

impl<'a> Sequential for Held<'a> {
    ghost use Rattle.std.specs.Prelude.{if◌then◌else◌, [], ◌∷◌, false, ⊤};

    type Call = u32;

    type Reply = u32;

    ghost kind = { λ h. record h { stepped = false; last = record { caller = 0; call = 0; reply = 0 } } };

    ghost entries = { λ h. if h.stepped then h.last ∷ [] else [] };

    ghost left = { λ h. if h.stepped then 0 else 1 };

    ghost legal = { λ _ _. ⊤ };

    fn length(&self) -> u64 {
        if self.stepped { 1 } else { 0 }
    }

    fn room(&self) -> u64 {
        if self.stepped { 0 } else { 1 }
    }

    fn step(&mut self, caller: u32, call: &u32, reply: &mut u32) {
        self.begun.store(1, Ordering::SeqCst);
        *reply = u32::from(comes(self.let_go));
        self.last = Entry {
            caller,
            call: *call,
            reply: *reply,
        };
        self.stepped = true;
    }

    ghost legal_prefix = { λ _ _ _ _. tt };
}

// An object that waits for the second flag once it has raised the first one.
fn held_by<'a>(begun: &'a AtomicU32, let_go: &'a AtomicU32) -> Held<'a>
    ensures { result.stepped ≡ false }
{
    Held {
        begun,
        let_go,
        stepped: false,
        last: Entry {
            caller: 0,
            call: 0,
            reply: 0,
        },
    }
}

// Makes the call, and tells its reply.
fn act<'a, R: Wait>(rt: &R, desk: &Desk<Held<'a>>, pass: &mut Pass<Held<'a>>) -> u32
    requires { Belongs desk.now pass.old }
{
    let mut reply = 0;
    match desk.act(rt, pass, &0, &mut reply) {
        Ok(_place) => reply,
        Err(_full) => 0,
    }
}

// Once the turn has begun: the length, a split, a meeting and a join. Then the turn is let go.
fn go_on<'a>(
    desk: &Desk<Held<'a>>,
    pass: &mut Pass<Held<'a>>,
    begun: &AtomicU32,
    let_go: &AtomicU32,
) -> Option<u64>
    requires belongs { Belongs desk.now pass.old }
    requires stake { 1 + held pass.old.view ≤ pass.old.view.stake }
{
    if !comes(begun) {
        return None;
    }
    let length = desk.length(pass);
    let mut other = desk.split(pass, 1);
    desk.meet(pass, &mut other);
    desk.join(pass, other);
    let_go.store(1, Ordering::SeqCst);
    Some(length)
}

/// The turn, and the calls that don't wait for its end.
pub(crate) fn try_turn<R: Threads + Wait + Sync>(rt: &R, host: HostRuntime) {
    let begun = AtomicU32::new(0);
    let let_go = AtomicU32::new(0);
    let Ok((desk, mut first)) = Desk::make(host.alloc(), held_by(&begun, &let_go), 1) else {
        return;
    };
    let mut second = desk.split(&mut first, 2);
    let (reply, length) = thread::join(
        rt,
        || act(rt, &desk, &mut first),
        || go_on(&desk, &mut second, &begun, &let_go),
    );
    tell(
        host,
        "a length, a split, a meeting and a join are made within another caller's turn",
        reply == 1 && length == Some(0),
    );
}
