ghost use Rattle.std.specs.Prelude.{◌≡◌, ◌≤◌, length, codes, None, []};
ghost use Rattle.sha2.specs.Sha512.{sha512};
ghost use Rattle.dpe_hkdf.specs.Hkdf.{hkdf, labelled};
ghost use Rattle.dpe_inputs.specs.Cdi.{measured, lasting, attest_step, seal_step, attest_cdi, seal_cdi, signature as signature_of};
ghost use Rattle.dpe_inputs.specs.Meters.{counted};

use crate::meter::Meter;
use crate::{Cdis, Input};
use dpe_hkdf::{Unsalted, expand, expand_labelled, extract};
use dpe_hmac::hmac_of;
use sha2::{Digest, Sha512};

/// The CDIs of the empty path, which are the seed twice.
pub fn first(seed: &[u8; 32]) -> Cdis
    ensures attest { result.attest ≡ attest_cdi seed.now [] }
    ensures seal { result.seal ≡ seal_cdi seed.now [] }
{
    Cdis {
        attest: *seed,
        seal: *seed,
    }
}

// The digest of all inputs of a layer.
fn measured_digest(input: &Input) -> [u8; 64]
    ensures { result ≡ sha512 (measured input.now) }
{
    let mut measured = Sha512::new();
    measured.update(&input.code);
    measured.update(&input.config);
    measured.update(&input.authority);
    measured.update(&[input.mode]);
    measured.update(&input.hidden);
    measured.finalize()
}

// The digest of the inputs that the sealing CDI takes: code and configuration may change.
fn lasting_digest(input: &Input) -> [u8; 64]
    ensures { result ≡ sha512 (lasting input.now) }
{
    let mut lasting = Sha512::new();
    lasting.update(&input.authority);
    lasting.update(&[input.mode]);
    lasting.update(&input.hidden);
    lasting.finalize()
}

fn attest_next(now: &[u8; 32], input: &Input) -> [u8; 32]
    ensures { result ≡ attest_step now.now input.now }
{
    let prk = extract(Some(&measured_digest(input)), now);
    let mut cdi = [0; 32];
    expand(&prk, b"CDI_Attest", &mut cdi);
    cdi
}

fn seal_next(now: &[u8; 32], input: &Input) -> [u8; 32]
    ensures { result ≡ seal_step now.now input.now }
{
    let prk = extract(Some(&lasting_digest(input)), now);
    let mut cdi = [0; 32];
    expand(&prk, b"CDI_Seal", &mut cdi);
    cdi
}

/// The CDIs of the path with one layer more. The meter counts one fold.
pub fn next<M: Meter>(now: &Cdis, input: &Input, meter: &mut M) -> Cdis
    ensures attest { result.attest ≡ attest_step now.now.attest input.now }
    ensures seal { result.seal ≡ seal_step now.now.seal input.now }
    ensures counted { M.count meter.new ≡ counted (M.count meter.old) }
{
    meter.fold();
    Cdis {
        attest: attest_next(&now.attest, input),
        seal: seal_next(&now.seal, input),
    }
}

// The key that signs under a label.
fn signing_key(unsalted: &Unsalted, cdi: &[u8; 32], label: &[u8]) -> [u8; 64]
    requires { length label.now ≤ 64 }
    ensures { result ≡ hkdf None cdi.now (labelled (codes "DPE-SIGN") label.now) 64 }
{
    let prk = unsalted.extract(cdi);
    let mut key = [0; 64];
    expand_labelled(&prk, b"DPE-SIGN", label, &mut key);
    key
}

/// The signature of a message under a label of at most 64 bytes, by the attestation CDI.
pub fn signature(now: &Cdis, label: &[u8], message: &[u8]) -> [u8; 64]
    requires { length label.now ≤ 64 }
    ensures { result ≡ signature_of now.now.attest label.now message.now }
{
    signature_with(&Unsalted::new(), now, label, message)
}

/// The same signature, for a caller who keeps the state of the absent salt for several signatures.
#[tactic(auto, unfolding(crate::specs::Cdi::signature))]
pub fn signature_with(unsalted: &Unsalted, now: &Cdis, label: &[u8], message: &[u8]) -> [u8; 64]
    requires { length label.now ≤ 64 }
    ensures { result ≡ signature_of now.now.attest label.now message.now }
{
    hmac_of(&signing_key(unsalted, &now.attest, label), message)
}
