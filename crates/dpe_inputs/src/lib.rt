//! The inputs of layers, the CDIs that a path of them folds into, and signatures under a CDI. Nothing here
//! takes memory.
#![tactic(auto)]

ghost use Rattle.std.specs.Prelude.{◌≡◌};
ghost use Rattle.dpe_inputs.specs.Cdi.{configuration as configuration_of};

use sha2::{Digest, Sha512};

mod derive;
mod meter;

pub use derive::{first, next, signature, signature_with};
pub use dpe_hkdf::Unsalted;
pub use meter::{Count, Meter};

/// The inputs of one layer, after the Open Profile for DICE. The configuration is 64 inline bytes or
/// `configuration` of a descriptor; the modes are 0 not configured, 1 normal, 2 debug, 3 recovery.
#[derive(Clone, Copy, Debug, PartialEq, Eq)]
pub struct Input {
    pub code: [u8; 64],
    pub config: [u8; 64],
    pub authority: [u8; 64],
    pub mode: u8,
    pub hidden: [u8; 64],
}

/// The CDIs of a path: the one that signs, and the one that seals. Both are secrets.
#[derive(Clone, Copy)]
pub struct Cdis {
    pub attest: [u8; 32],
    pub seal: [u8; 32],
}

/// The configuration input of a descriptor, its SHA-512.
pub fn configuration(descriptor: &[u8]) -> [u8; 64]
    ensures { result ≡ configuration_of descriptor.now }
{
    Sha512::digest(descriptor)
}
