//! Rows of keyed functions, key streams, CDIs and signatures.
ghost use Rattle.std.specs.Prelude.{◌≤◌, length};

use crate::fields::{Value, tell_fields};
use dpe_chacha::apply;
use dpe_hkdf::{expand, expand_labelled, extract};
use dpe_hmac::{Hmac, hmac_of};
use dpe_inputs::{
    Cdis, Count, Input, Unsalted, configuration, first, next, signature, signature_with,
};
use std::alloc::Global;
use table_rows::{RowFault, Told, Word, show};

/// The most bytes that HKDF gives of one key.
const MAX_OUTPUT: usize = 16_320;

/// The most bytes of a text that goes through a key stream.
const MAX_TEXT: usize = 256;

/// How many blocks a key stream has.
const BLOCKS: u64 = 4_294_967_296;

/// Tells a row about keys.
pub(crate) fn tell(alloc: Global, call: &str, words: &[Word<'_>], told: &mut String) -> Told {
    match call {
        "hmac" => hmac_row(words, told),
        "hmac-pieces" => pieces_row(words, told),
        "hkdf" => hkdf_row(alloc, words, told),
        "hkdf-labelled" => labelled_row(alloc, words, told),
        "chacha20" => chacha_row(words, told),
        "configuration" => configuration_row(words, told),
        "cdis" => cdis_row(words, told),
        "sign" => sign_row(words, false, told),
        "sign-with" => sign_row(words, true, told),
        _ => Err(RowFault::Unreadable),
    }
}

fn hmac_row(words: &[Word<'_>], told: &mut String) -> Told {
    let [key, message] = words else {
        return Err(RowFault::Unreadable);
    };
    show(told, &hmac_of(key.bytes()?, message.bytes()?))
}

fn configuration_row(words: &[Word<'_>], told: &mut String) -> Told {
    let [descriptor] = words else {
        return Err(RowFault::Unreadable);
    };
    show(told, &configuration(descriptor.bytes()?))
}

// The code of a message that comes in pieces to a clone.
fn pieces_row(words: &[Word<'_>], told: &mut String) -> Told {
    let Some((key, pieces)) = words.split_first() else {
        return Err(RowFault::Unreadable);
    };
    let keyed = Hmac::new(key.bytes()?);
    let mut mac = keyed.clone()?;
    for piece in pieces {
        mac.update(piece.bytes()?);
    }
    show(told, &mac.finish())
}

fn hkdf_row(alloc: Global, words: &[Word<'_>], told: &mut String) -> Told {
    let [salt, material, info, len] = words else {
        return Err(RowFault::Unreadable);
    };
    let prk = extracted(salt, material.bytes()?)?;
    let info = info.bytes()?;
    let len = len.length_to(MAX_OUTPUT)?;
    tell_expanded(alloc, &prk, info, len, told)
}

fn extracted(salt: &Word<'_>, material: &[u8]) -> Result<[u8; 64], RowFault> {
    if salt.text == "none" {
        return Ok(extract(None, material));
    }
    Ok(extract(Some(salt.bytes()?), material))
}

fn tell_expanded(alloc: Global, prk: &[u8; 64], info: &[u8], len: usize, told: &mut String) -> Told
    requires { len ≤ MAX_OUTPUT }
{
    let mut output = vec![in alloc; 0; len]?;
    expand(prk, info, &mut output);
    show(told, &output)
}

fn labelled_row(alloc: Global, words: &[Word<'_>], told: &mut String) -> Told {
    let [material, purpose, label, len] = words else {
        return Err(RowFault::Unreadable);
    };
    let prk = Unsalted::new().extract(material.bytes()?);
    let purpose = purpose.bytes()?;
    let label = label.at_most(255)?;
    let len = len.length_to(MAX_OUTPUT)?;
    tell_labelled(alloc, &prk, purpose, label, len, told)
}

fn tell_labelled(
    alloc: Global,
    prk: &[u8; 64],
    purpose: &[u8],
    label: &[u8],
    len: usize,
    told: &mut String,
) -> Told
    requires label { length label.now ≤ 255 }
    requires len { len ≤ MAX_OUTPUT }
{
    let mut output = vec![in alloc; 0; len]?;
    expand_labelled(prk, purpose, label, &mut output);
    show(told, &output)
}

fn chacha_row(words: &[Word<'_>], told: &mut String) -> Told {
    let [key, nonce, counter, text] = words else {
        return Err(RowFault::Unreadable);
    };
    let key = key.array()?;
    let nonce = nonce.array()?;
    ciphered(
        &key,
        &nonce,
        counter.number()?,
        text.at_most(MAX_TEXT)?,
        told,
    )
}

fn ciphered(
    key: &[u8; 32],
    nonce: &[u8; 12],
    counter: u32,
    text: &[u8],
    told: &mut String,
) -> Told {
    let mut room = [0; MAX_TEXT];
    let Some(room) = room.get_mut(..text.len()) else {
        return Err(RowFault::Unreadable);
    };
    room.copy_from_slice(text);
    let blocks = text.len().div_ceil(64) as u64;
    if blocks > BLOCKS - u64::from(counter) {
        return Err(RowFault::Unreadable);
    }
    apply(key, nonce, counter, room);
    show(told, room)
}

// The CDIs of a path of layers, each `TIMES CODE CONFIG AUTHORITY MODE HIDDEN`.
fn cdis_row(words: &[Word<'_>], told: &mut String) -> Told {
    let Some((seed, layers)) = words.split_first() else {
        return Err(RowFault::Unreadable);
    };
    let mut meter = Count::new();
    let mut cdis = first(&seed.array()?);
    for layer in layers.chunks(6) {
        cdis = behind(&cdis, layer, &mut meter)?;
    }
    tell_cdis(&cdis, &meter, told)
}

fn tell_cdis(cdis: &Cdis, meter: &Count, told: &mut String) -> Told {
    let fields = [
        ("attest ", Value::Bytes(&cdis.attest)),
        (" seal ", Value::Bytes(&cdis.seal)),
        (" folds ", Value::Number(meter.folds())),
    ];
    tell_fields(&fields, told)
}

// The CDIs behind a layer that comes so many times.
fn behind(cdis: &Cdis, layer: &[Word<'_>], meter: &mut Count) -> Result<Cdis, RowFault> {
    let [times, fields @ ..] = layer else {
        return Err(RowFault::Unreadable);
    };
    let input = input(fields)?;
    let mut cdis = *cdis;
    for _ in 0..times.number::<u32>()? {
        cdis = next(&cdis, &input, meter);
    }
    Ok(cdis)
}

fn input(fields: &[Word<'_>]) -> Result<Input, RowFault> {
    let [code, config, authority, mode, hidden] = fields else {
        return Err(RowFault::Unreadable);
    };
    Ok(Input {
        code: code.array()?,
        config: config.array()?,
        authority: authority.array()?,
        mode: mode.number()?,
        hidden: hidden.array()?,
    })
}

// A signature, by the call that keeps the state of the absent salt or by the other.
fn sign_row(words: &[Word<'_>], with: bool, told: &mut String) -> Told {
    let [attest, label, message] = words else {
        return Err(RowFault::Unreadable);
    };
    let cdis = Cdis {
        attest: attest.array()?,
        seal: [0xff; 32],
    };
    let label = label.at_most(64)?;
    let message = message.bytes()?;
    let signature = if with {
        signature_with(&Unsalted::new(), &cdis, label, message)
    } else {
        signature(&cdis, label, message)
    };
    show(told, &signature)
}
