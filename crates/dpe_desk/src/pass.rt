//! A caller's token.
ghost use Rattle.std.specs.Prelude.{◌≡◌, ◌<◌, ◌≤◌};
ghost use Rattle.dpe_desk.specs.Entries.{times};
ghost use Rattle.dpe_desk.specs.Views.{held, Sound};
ghost use Rattle.dpe_desk.specs.Passes.{own_name};

use crate::sequential::Sequential;
use crate::view::View;
use atomic_table::Seat;
use std::marker::Model;

/// What one caller knows of a desk, and its right to call. It stands for the passes that were joined into it.
#[derive(Drop)]
pub struct Pass<O: Sequential> {
    pub(crate) seat: Seat<Option<O>, View<O, O::Call, O::Reply>>,
    pub(crate) name: u32,
    pub(crate) stake: u32,
    pub(crate) held: u32,
    pub(crate) full: Option<u64>,
}

impl<O: Sequential> Model for Pass<O> {
    ghost use Rattle.std.specs.Prelude.{◌≡◌, []};
    ghost use Rattle.dpe_desk.specs.Passes.{PassView, AtRest};

    ghost Value = { PassView O O.Call O.Reply };

    ghost view = { λ p. record { desk = p.seat.table_id; view = p.seat.me.0 } };

    ghost invariant = { λ p. (p.seat.me.1 ≡ []) × AtRest O.legal p.name p.stake p.held p.full p.seat.me.0 };
}

impl<O: Sequential> Pass<O> {
    /// The name of its own.
    pub fn name(&self) -> u32
        ensures name { result ≡ own_name self.now.view }
        ensures own { 0 < times result self.now.view.names }
        ensures sound { Sound O.legal self.now.view }
    {
        self.name
    }

    /// How much stake it has.
    pub fn stake(&self) -> u32
        ensures stake { result ≡ self.now.view.stake }
        ensures most { (held self.now.view ≤ result) × (result ≤ 65536) }
        ensures sound { Sound O.legal self.now.view }
    {
        self.stake
    }

    /// How many passes it stands for.
    pub fn held(&self) -> u32
        ensures held { result ≡ held self.now.view }
        ensures some { (1 ≤ result) × (result ≤ self.now.view.stake) }
        ensures sound { Sound O.legal self.now.view }
    {
        self.held
    }
}
