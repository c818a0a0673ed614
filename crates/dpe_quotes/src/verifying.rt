//! Verifying a quote. The path is folded while it is read.
ghost use Rattle.std.specs.Prelude.{◌≡◌, ◌≢◌, ◌≤◌, ◌↔◌, ℕ, Ok, Err, length, codes, IfErr};
ghost use Rattle.std.specs.Str.{bytes_eq};
ghost use Rattle.sha2.specs.Sha512.{sha512};
ghost use Rattle.dpe_inputs.specs.Cdi.{attest_step, measured, signature as signature_of};
ghost use Rattle.dpe_quotes.specs.Claimed.{claimed};
ghost use Rattle.dpe_quotes.specs.Quotes.{Quote};
ghost use Rattle.dpe_quotes.specs.Reading.{Within};
ghost use Rattle.dpe_quotes.specs.Spelled.{IsMalformed, ProvesDepth, ProvesNone, QuoteWith, Spells};
ghost use Rattle.dpe_quotes.specs.Verdicts.{claims_verdict, Folded, ReadsClaims, verdict};

use crate::parts::{ClaimedInput, DIGEST_SIZE, PARTS, read_array, read_input, read_string};
use dpe_cbor::{NotDeterministic, Reader};
use dpe_hkdf::{expand, extract};
use dpe_inputs::{Cdis, signature};
use sha2::{Digest, Sha512};

/// The fewest and the most bytes of a nonce.
const MIN_NONCE: u64 = 8;

const MAX_NONCE: u64 = 64;

/// The most inputs of a quote's path: a limit of its own, the deepest path that a context will have.
const MAX_DEPTH: u64 = 32;

/// The label under which a Sign gives the tag.
const LABEL: &[u8; 9] = b"DPE-QUOTE";

/// Why a quote isn't accepted.
#[derive(Clone, Copy, Debug, PartialEq, Eq)]
pub enum QuoteFault {
    /// The bytes aren't a quote. The place is that of the first array head, number or byte string that isn't whole and as a
    /// quote has it, or of the first byte behind the quote.
    Malformed { at: u32 },
    /// Its nonce is another.
    Nonce,
    /// Its tag isn't the one that its path gives.
    Tag,
}

/// What is kept of a quote once it is read: its path is folded.
#[derive(Clone, Copy)]
struct Claims<'a> {
    nonce: &'a [u8],
    depth: u8,
    cdi: [u8; 32],
    tag: &'a [u8],
}

// The digest of all inputs of a layer.
fn measured_digest(input: &ClaimedInput<'_>) -> [u8; 64]
    ensures { result ≡ sha512 (measured (claimed input.now)) }
{
    let mut measured = Sha512::new();
    measured.update(input.code);
    measured.update(input.config);
    measured.update(input.authority);
    measured.update(&[input.mode]);
    measured.update(input.hidden);
    measured.finalize()
}

// The attestation CDI of the path with one layer more. No sealing CDI is derived: a verifier has no use for it.
fn attest_next(cdi: &[u8; 32], input: &ClaimedInput<'_>) -> [u8; 32]
    ensures { result ≡ attest_step cdi.now (claimed input.now) }
{
    let prk = extract(Some(&measured_digest(input)), cdi);
    let mut next = [0; 32];
    expand(&prk, b"CDI_Attest", &mut next);
    next
}

// Reads so many inputs, and folds each as it is read.
fn fold_path(
    seed: &[u8; 32],
    depth: u64,
    reader: &mut Reader<'_>,
) -> Result<[u8; 32], NotDeterministic>
    requires { depth ≤ 32 }
    ensures folded { Folded seed.now depth reader.old reader.new result }
    ensures place { Within reader.old result reader.new }
{
    let mut cdi = *seed;
    for _layer in 0..depth {
        let input = read_input(reader)?;
        cdi = attest_next(&cdi, &input);
    }
    Ok(cdi)
}

// Reads a quote to its end.
#[tactic(auto, unfolding(crate::specs::Reading::quote_in))]
fn read_claims<'a>(seed: &[u8; 32], quote: &'a [u8]) -> Result<Claims<'a>, NotDeterministic>
    ensures read { ReadsClaims seed.now quote.now result }
    ensures place { IfErr result (λ e. e.at ≤ length quote.now) }
{
    let mut reader = Reader::new(quote);
    read_array(&mut reader, PARTS, PARTS)?;
    let nonce = read_string(&mut reader, MIN_NONCE, MAX_NONCE)?;
    let depth = read_array(&mut reader, 0, MAX_DEPTH)?;
    let cdi = fold_path(seed, depth, &mut reader)?;
    let tag = read_string(&mut reader, DIGEST_SIZE, DIGEST_SIZE)?;
    reader.end()?;
    let depth = depth as u8;
    Ok(Claims {
        nonce,
        depth,
        cdi,
        tag,
    })
}

// Whether the tag is the one that the folded path gives for the nonce.
fn has_tag(claims: &Claims<'_>) -> bool
    ensures { result ≡ bytes_eq claims.now.tag.now (signature_of claims.now.cdi (codes "DPE-QUOTE") claims.now.nonce.now) }
{
    // only the attestation CDI signs
    let cdis = Cdis {
        attest: claims.cdi,
        seal: [0; 32],
    };
    let expected = signature(&cdis, LABEL, claims.nonce);
    claims.tag == expected.as_slice()
}

// What is to be said of the claims: the depth, or which of nonce and tag is another.
fn judge(claims: &Claims<'_>, nonce: &[u8]) -> Result<u8, QuoteFault>
    ensures { result ≡ claims_verdict claims.now nonce.now }
{
    if claims.nonce != nonce {
        return Err(QuoteFault::Nonce);
    }
    if !has_tag(claims) {
        return Err(QuoteFault::Tag);
    }
    Ok(claims.depth)
}

// Reads a quote, and says what is to be said of it.
fn check(seed: &[u8; 32], nonce: &[u8], quote: &[u8]) -> Result<u8, QuoteFault>
    requires { length quote.now ≤ 8648 }
    ensures { result ≡ verdict seed.now nonce.now quote.now }
{
    match read_claims(seed, quote) {
        Ok(claims) => judge(&claims, nonce),
        Err(fault) => Err(QuoteFault::Malformed {
            at: fault.at as u32,
        }),
    }
}

/// Checks a quote of at most 8,648 bytes, and answers the depth of the path that it proves: its number of inputs, 0 to 32.
///
/// # Errors
///
/// In this order: `Malformed` where the bytes aren't a quote, `Nonce` where its nonce isn't this one, `Tag` where it doesn't
/// prove its path.
pub fn verify(seed: &[u8; 32], nonce: &[u8], quote: &[u8]) -> Result<u8, QuoteFault>
    requires { length quote.now ≤ 8648 }

    // The answer, and the place of a fault.
    ensures verdict { result ≡ verdict seed.now nonce.now quote.now }

    // Ok: exactly where the bytes are a quote with this nonce that proves its path, which is as deep.
    ensures accepted { (n : ℕ) → (result ≡ Ok n) ↔ QuoteWith quote.now (ProvesDepth seed.now nonce.now n) }

    // Each fault: exactly where the bytes are no quote, have another nonce, or don't prove their path.
    ensures malformed { IsMalformed result ↔ ((q : Quote) → Spells q quote.now → ⊥) }
    ensures other_nonce { (result ≡ Err QuoteFault.Nonce) ↔ QuoteWith quote.now (λ q. q.nonce ≢ nonce.now) }
    ensures other_tag { (result ≡ Err QuoteFault.Tag) ↔ QuoteWith quote.now (ProvesNone seed.now nonce.now) }
{
    check(seed, nonce, quote)
}
