//! What is asked of a vault.
ghost use Rattle.std.specs.Prelude.{◌≡◌, ◌≤◌, length};
ghost use Rattle.dpe_vaults.specs.Calls.{IsCall, least_name, most_name, most_sealed};

use crate::piece::Piece;
use std::marker::Model;

/// The most bytes of a name.
pub(crate) const MAX_NAME: usize = 32;

/// The most bytes of a box.
pub(crate) const MAX_SEALED: usize = 2_133;

/// What is to be done.
#[derive(Clone, Copy, Debug, PartialEq, Eq)]
pub enum Op {
    /// Puts a box under a name.
    Put,
    /// Gives the box of a name.
    Get,
    /// Takes a name and its box out.
    Remove,
    /// Gives all names.
    Names,
}

impl Op {
    // The least bytes of a name.
    pub(crate) fn least_name(self) -> usize
        ensures { result ≡ least_name self }
    {
        match self {
            Op::Put => 1,
            Op::Get => 1,
            Op::Remove => 1,
            Op::Names => 0,
        }
    }

    // The most bytes of a name.
    pub(crate) fn most_name(self) -> usize
        ensures { result ≡ most_name self }
    {
        match self {
            Op::Put => MAX_NAME,
            Op::Get => MAX_NAME,
            Op::Remove => MAX_NAME,
            Op::Names => 0,
        }
    }

    // The most bytes that are handed in.
    pub(crate) fn most_sealed(self) -> usize
        ensures { result ≡ most_sealed self }
    {
        match self {
            Op::Put => MAX_SEALED,
            Op::Get => 0,
            Op::Remove => 0,
            Op::Names => 0,
        }
    }
}

/// What is asked of a vault: by which locality from 0 to 7, what is to be done, at which name, and with which box.
#[derive(Drop)]
pub struct VaultCall {
    locality: u8,
    op: Op,
    name: Piece<MAX_NAME>,
    sealed: Piece<MAX_SEALED>,
}

impl Model for VaultCall {
    ghost use Rattle.std.specs.Prelude.{◌≤◌};
    ghost use Rattle.dpe_vaults.specs.Calls.{Call};

    ghost Value = { Call };

    ghost view = { λ c. record { locality = c.locality; op = c.op; name = c.name; sealed = c.sealed } };

    ghost invariant = { λ c. c.locality ≤ 7 };
}

impl VaultCall {
    /// A call of these four parts. A name has 1 to 32 bytes, and none where all names are asked for; at most 2,133 bytes are
    /// put, and none are handed in at the other operations.
    pub fn new(locality: u8, op: Op, name: &[u8], sealed: &[u8]) -> VaultCall
        requires { IsCall (record { locality = locality; op = op; name = name.now; sealed = sealed.now }) }
        ensures { result ≡ record { locality = locality; op = op; name = name.now; sealed = sealed.now } }
    {
        let mut call = VaultCall::blank();
        call.store(locality, op, name, sealed);
        call
    }

    // The names of locality 0.
    pub(crate) fn blank() -> VaultCall {
        VaultCall {
            locality: 0,
            op: Op::Names,
            name: Piece::new(),
            sealed: Piece::new(),
        }
    }

    /// The locality.
    pub fn locality(&self) -> u8
        ensures locality { result ≡ self.now.locality }
        ensures near { self.now.locality ≤ 7 }
    {
        self.locality
    }

    /// What is to be done.
    pub fn op(&self) -> Op
        ensures { result ≡ self.now.op }
    {
        self.op
    }

    /// The name.
    pub fn name(&self) -> &[u8]
        ensures name { result.now ≡ self.now.name }
        ensures short { length self.now.name ≤ MAX_NAME }
    {
        self.name.bytes()
    }

    /// What is put.
    pub fn sealed(&self) -> &[u8]
        ensures sealed { result.now ≡ self.now.sealed }
        ensures fits { length self.now.sealed ≤ MAX_SEALED }
    {
        self.sealed.bytes()
    }

    // Stores these four parts.
    pub(crate) fn store(&mut self, locality: u8, op: Op, name: &[u8], sealed: &[u8])
        requires near { locality ≤ 7 }
        requires short { length name.now ≤ MAX_NAME }
        requires fits { length sealed.now ≤ MAX_SEALED }
        ensures { self.new ≡ record { locality = locality; op = op; name = name.now; sealed = sealed.now } }
    {
        self.locality = locality;
        self.op = op;
        self.name.set(name);
        self.sealed.set(sealed);
    }
}
