//! What the replies to a load's commands give to the commands after them.
ghost use Rattle.std.specs.Prelude.{◌≡◌, ◌≤◌, length};
ghost use Rattle.dpe_messages.specs.Replies.{IsWritable, response_of};
ghost use Rattle.dpe_tape.specs.Load.{first_stock, target, after_spending, without_spent, with_handles, box_in, stock_after};
ghost use Rattle.dpe_tape.specs.Pool.{pair, with_pair, with_if};
ghost use Rattle.dpe_tape.specs.StockView.{stock_of};

use crate::act::Act;
use crate::pool::{Pair, Pool, append, pick, take_out};
use crate::tally::code;
use arrayvec::ArrayVec;
use dpe_messages::Reply;

/// The most bytes of a box.
const MAX_BOX: usize = 2_133;

/// The handles that may be named, the box of the last Seal and the handle that was spent last.
#[derive(Drop)]
pub struct Stock {
    pub pool: Pool,
    pub last_box: ArrayVec<u8, MAX_BOX>,
    pub spent: [u8; 16],
}

// Appends a handle, where there is one.
fn append_if(pool: &mut Pool, handle: &Option<[u8; 16]>, locality: u8)
    ensures { pool.new.items ≡ with_if pool.old.items handle.now locality }
{
    match handle {
        None => {}
        Some(handle) => append(
            pool,
            Pair {
                handle: *handle,
                locality,
            },
        ),
    }
}

// Appends the handle of a child with its target locality, and that of its parent, where it was retained.
fn append_family(
    pool: &mut Pool,
    child: &[u8; 16],
    parent: &Option<[u8; 16]>,
    near: u8,
    argument: u32,
)
    ensures { pool.new.items ≡ with_if (with_pair pool.old.items (pair child.now (target argument))) parent.now near }
{
    append(
        pool,
        Pair {
            handle: *child,
            locality: (argument / 8 % 8) as u8,
        },
    );
    append_if(pool, parent, near);
}

// Appends the handles of a reply.
fn append_handles(pool: &mut Pool, act: Act, reply: &Reply<'_>, near: u8, argument: u32)
    ensures { pool.new.items ≡ with_handles act (response_of reply.now) near argument pool.old.items }
{
    match reply {
        Reply::Refused(_) => {}
        Reply::Profile => {}
        Reply::Handle(handle) => append(
            pool,
            Pair {
                handle: *handle,
                locality: act.locality_of_new(near),
            },
        ),
        Reply::Derived { child, parent } => append_family(pool, child, parent, near, argument),
        Reply::Made { handle, .. } => append_if(pool, handle, near),
        Reply::Done => {}
    }
}

impl Stock {
    /// No handle, the empty box, and 16 zeros.
    pub fn new() -> Stock
        ensures { stock_of result ≡ first_stock }
    {
        Stock {
            pool: Pool::new(),
            last_box: ArrayVec::new(),
            spent: [0; 16],
        }
    }

    // Takes the picked pair out, whose handle was spent.
    fn spend(&mut self, argument: u32)
        ensures { stock_of self.new ≡ without_spent (stock_of self.old) argument }
    {
        let picked = pick(&self.pool, argument);
        let spent = picked.handle;
        self.spent = spent;
        take_out(&mut self.pool, argument);
    }

    // Takes it out where the command named it and was accepted.
    fn spend_if(&mut self, act: Act, reply: &Reply<'_>, argument: u32)
        ensures { stock_of self.new ≡ after_spending act (response_of reply.now) (stock_of self.old) argument }
    {
        if code(reply) == 0 && act.names_picked() {
            self.spend(argument);
        }
    }

    /// Takes what the reply to a command gives.
    pub fn take(&mut self, act: Act, reply: &Reply<'_>, argument: u32)
        requires { IsWritable reply.now }
        ensures { stock_of self.new ≡ stock_after act (response_of reply.now) (stock_of self.old) argument }
    {
        let near = pick(&self.pool, argument).locality;
        self.spend_if(act, reply, argument);
        append_handles(&mut self.pool, act, reply, near, argument);
        if act.makes_box() {
            keep_box(&mut self.last_box, reply);
        }
    }
}

// Keeps what a reply made in the place of the last box.
fn keep_box(last_box: &mut ArrayVec<u8, MAX_BOX>, reply: &Reply<'_>)
    requires { IsWritable reply.now }
    ensures { last_box.new.items ≡ box_in (response_of reply.now) last_box.old.items }
{
    match reply {
        Reply::Made { bytes, .. } => put_box(last_box, bytes),
        Reply::Refused(_) => {}
        Reply::Profile => {}
        Reply::Handle(_) => {}
        Reply::Derived { .. } => {}
        Reply::Done => {}
    }
}

// Puts bytes in the place of the last box.
fn put_box(last_box: &mut ArrayVec<u8, MAX_BOX>, bytes: &[u8])
    requires { length bytes.now ≤ MAX_BOX }
    ensures { last_box.new.items ≡ bytes.now }
{
    last_box.clear();
    let _ = last_box.try_extend_from_slice(bytes);
}
