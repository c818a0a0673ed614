//! A stage of the ratchet, and what it seals and opens.
ghost use Rattle.std.specs.Prelude.{◌≡◌, ◌↔◌, ◌+◌, ◌-◌, ◌≤◌, ℕ, List, length, take, drop, false, IfOk, OnErr, IsErrOf};
ghost use Rattle.dpe_ratchets.specs.Keys.{IsOf, key_below as key_below_of, ratchet_key};
ghost use Rattle.dpe_ratchets.specs.Boxes.{versioned_box, is_versioned, IsTooNew, answer, data_of, result_of};

use crate::parts::{Parts, TOP, parts_of, put_versioned};
use dpe_box::{Policy, Unopened, seal as seal_box, unseal};
use dpe_hkdf::{Unsalted, expand};
use std::marker::Model;

/// Why `open_box` gave no data.
#[derive(Clone, Copy, Debug, PartialEq, Eq)]
pub enum RatchetFault {
    /// It isn't 2, a version of at most 1,024, and bytes with the form of a box.
    Malformed,
    /// Its version is above the stage's.
    TooNew { version: u16 },
    /// The box's tag is another.
    Refused,
    /// The box's masks lack the locality or the mode.
    PolicyRefused,
}

/// A version, and the key of that version alone, from which the keys of the lower versions follow.
#[derive(Drop)]
pub struct Stage {
    version: u16,
    key: [u8; 32],
}

impl Model for Stage {
    ghost use Rattle.std.specs.Prelude.{◌≤◌};
    ghost use Rattle.dpe_ratchets.specs.Keys.{Staged};

    ghost Value = { Staged };

    ghost view = { λ s. record { version = s.version; key = s.key } };

    ghost invariant = { λ s. s.version ≤ 1024 };
}

/// The stage of the top version, 1,024, of a CDI.
#[tactic(auto, unfolding(crate::specs::Keys::top_key, crate::specs::Keys::key_down))]
pub fn top(cdi: &[u8; 32]) -> Stage
    ensures version { result.version ≡ TOP }
    ensures key { result.key ≡ ratchet_key cdi.now TOP }
{
    let prk = Unsalted::new().extract(cdi);
    let mut key = [0; 32];
    expand(&prk, b"DPE-RATCHET", &mut key);
    Stage { version: TOP, key }
}

// The key of a version, from the key of the version above it.
#[tactic(auto, unfolding(crate::specs::Keys::key_below))]
fn key_below(unsalted: &Unsalted, above: &[u8; 32], version: u16) -> [u8; 32]
    ensures { result ≡ key_below_of above.now version }
{
    let number = version.to_be_bytes();
    let info = [
        b'D', b'P', b'E', b'-', b'S', b'T', b'E', b'P', number[0], number[1],
    ];
    let prk = unsalted.extract(above);
    let mut key = [0; 32];
    expand(&prk, &info, &mut key);
    key
}

// The key of a lower version. The keyed state of the absent salt is made once for all steps.
fn lower_key(key: &[u8; 32], from: u16, to: u16) -> [u8; 32]
    requires order { to ≤ from }
    requires most { from ≤ TOP }
    ensures { (cdi : List ℕ) → key.now ≡ ratchet_key cdi from → result ≡ ratchet_key cdi to }
{
    let unsalted = Unsalted::new();
    let mut key = *key;
    for step in 0..from - to {
        key = key_below(&unsalted, &key, from - 1 - step);
    }
    key
}

impl Stage {
    /// Its version, 0 to 1,024.
    pub fn version(&self) -> u16
        ensures version { result ≡ self.now.version }
        ensures most { self.now.version ≤ TOP }
    {
        self.version
    }

    // The key of this version or a lower one.
    fn key_of(&self, version: u16) -> [u8; 32]
        requires { version ≤ self.now.version }
        ensures key { (cdi : List ℕ) → IsOf self.now cdi → result ≡ ratchet_key cdi version }
        ensures most { self.now.version ≤ TOP }
    {
        if version == self.version {
            return self.key;
        }
        lower_key(&self.key, self.version, version)
    }

    /// The stage of this version or a lower one, of each CDI that this one is of. It keeps the key of that version alone.
    pub fn down(&self, version: u16) -> Stage
        requires { version ≤ self.now.version }
        ensures version { result.version ≡ version }
        ensures key { (cdi : List ℕ) → IsOf self.now cdi → result.key ≡ ratchet_key cdi version }
    {
        Stage {
            version,
            key: self.key_of(version),
        }
    }

    /// Seals data of at most 2,048 bytes under a label of at most 64, at this stage's version or a lower one, and answers
    /// the length of what was written, which is 88 bytes more than the data has. Bits 0 to 3 of the modes may be set.
    pub fn seal(
        &self,
        version: u16,
        label: &[u8],
        policy: &Policy,
        salt: &[u8; 16],
        plain: &[u8],
        out: &mut [u8; 4096],
    ) -> usize
        requires version { version ≤ self.now.version }
        requires label { length label.now ≤ 64 }
        requires modes { policy.now.modes ≤ 15 }
        requires plain { length plain.now ≤ 2048 }
        ensures len { result ≡ 88 + length plain.now }
        ensures written { (cdi : List ℕ) → IsOf self.now cdi
            → take result out.new ≡ versioned_box cdi version label.now policy.now salt.now plain.now }
        ensures rest { drop result out.new ≡ drop result out.old }
    {
        let key = self.key_of(version);
        let mut room = [0; 4096];
        let len = seal_box(&key, label, policy, salt, plain, &mut room);
        put_versioned(version, &room[..len], out);
        3 + len
    }

    /// Opens what was sealed under a label of at most 64 bytes, for a locality and a mode: the data at the front of `out`,
    /// and its length. The form is tested first, then the version, then the box's tag, then its masks.
    pub fn open_box(
        &self,
        label: &[u8],
        sealed: &[u8],
        locality: u8,
        mode: u8,
        out: &mut [u8; 2048],
    ) -> Result<usize, RatchetFault>
        requires { length label.now ≤ 64 }
        ensures answer { (cdi : List ℕ) → IsOf self.now cdi
            → result ≡ result_of (answer cdi self.now.version label.now locality mode sealed.now) }
        ensures data { (cdi : List ℕ) → IsOf self.now cdi → IfOk result (λ len.
            take len out.new ≡ data_of (answer cdi self.now.version label.now locality mode sealed.now)) }
        ensures malformed { IsErrOf result RatchetFault.Malformed ↔ (is_versioned sealed.now ≡ false) }
        ensures too_new { (v : ℕ) → IsErrOf result (RatchetFault.TooNew v) ↔ IsTooNew self.now.version sealed.now v }
        ensures bound { IfOk result (λ len. len ≤ 2048) }
        ensures unchanged { OnErr result (out.new ≡ out.old) }
        ensures rest { IfOk result (λ len. drop len out.new ≡ drop len out.old) }
    {
        let Some(parts) = parts_of(sealed) else {
            return Err(RatchetFault::Malformed);
        };
        let Parts { version, sealed } = parts;
        if version > self.version {
            return Err(RatchetFault::TooNew { version });
        }
        let key = self.key_of(version);
        match unseal(&key, label, sealed, locality, mode, out) {
            Ok(len) => Ok(len),
            Err(Unopened::Malformed) => Err(RatchetFault::Malformed),
            Err(Unopened::Refused) => Err(RatchetFault::Refused),
            Err(Unopened::PolicyRefused) => Err(RatchetFault::PolicyRefused),
        }
    }
}
