//! The book as an object that threads share in turns.
ghost use Rattle.std.specs.Prelude.{◌-◌, [], length, map};
ghost use Rattle.dpe_desk.specs.Passes.{Belongs};
ghost use Rattle.dpe_journal.specs.Shared.{shared_from, IsLegalFor, HandleLawsFor, legal_prefix};

use crate::book::Book;
use crate::entry::Call;
use dpe_desk::{Desk, Pass, Sequential};
use dpe_io::Packet;
use dpe_model::handle_laws;

// The kind is the seed, the first serial and the capacity: the book with the empty history.
impl Sequential for Book {
    type Call = Call;

    type Reply = Packet;

    ghost kind = { λ book. record book { history = [] } };

    ghost entries = { λ book. map shared_from book.history };

    ghost left = { λ book. book.capacity - length book.history };

    ghost legal = { λ kind es. IsLegalFor kind es };

    fn length(&self) -> u64 {
        u64::from(self.length())
    }

    fn room(&self) -> u64 {
        u64::from(self.capacity() - self.length())
    }

    fn step(&mut self, caller: u32, call: &Call, reply: &mut Packet) {
        self.step(caller, call, reply);
    }

    ghost legal_prefix = { λ kind xs ys. legal_prefix kind xs ys };
}

/// Does nothing. Its contract tells what holds of every pass over a book, after each call: what it has seen is a legal
/// history from the book's seed and first serial on, and the laws of handles hold of it.
pub fn seen_is_legal(desk: &Desk<Book>, pass: &Pass<Book>)
    requires { Belongs desk.now pass.now }
    ensures legal { IsLegalFor desk.now.terms.kind pass.now.view.seen }
    ensures handles { HandleLawsFor desk.now.terms.kind pass.now.view.seen }
{
    let _name = pass.name();
    handle_laws();
}
