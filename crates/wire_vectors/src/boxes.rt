//! Rows that seal and open boxes.
ghost use Rattle.std.specs.Prelude.{◌≤◌, length};

use crate::fields::{Value, tell_fields};
use dpe_box::{NotOpened, Opened, Policy, Unopened, admits, has_form, open_box, seal, unseal};
use table_rows::{RowFault, Told, Word, put, show};

/// Tells a row about boxes.
pub(crate) fn tell(call: &str, words: &[Word<'_>], told: &mut String) -> Told {
    match call {
        "seal" => seal_row(words, told),
        "open" => open_row(words, told),
        "unseal" => unseal_row(words, told),
        "form" => form_row(words, told),
        "admits" => admits_row(words, told),
        _ => Err(RowFault::Unreadable),
    }
}

fn yes_or_no(holds: bool, told: &mut String) -> Told {
    put(told, if holds { "yes" } else { "no" })
}

fn form_row(words: &[Word<'_>], told: &mut String) -> Told {
    let [sealed] = words else {
        return Err(RowFault::Unreadable);
    };
    yes_or_no(has_form(sealed.bytes()?), told)
}

fn admits_row(words: &[Word<'_>], told: &mut String) -> Told {
    let [localities, modes, locality, mode] = words else {
        return Err(RowFault::Unreadable);
    };
    let localities = localities.number_to(255)?;
    let modes = modes.number_to(15)?;
    let locality = locality.number_to(255)?;
    let mode = mode.number_to(255)?;
    yes_or_no(admits(&Policy { localities, modes }, locality, mode), told)
}

fn seal_row(words: &[Word<'_>], told: &mut String) -> Told {
    let [cdi, label, localities, modes, salt, plain] = words else {
        return Err(RowFault::Unreadable);
    };
    let localities = localities.number_to(255)?;
    let modes = modes.number_to(15)?;
    let policy = Policy { localities, modes };
    let cdi = cdi.array()?;
    let label = label.at_most(64)?;
    let salt = salt.array()?;
    let plain = plain.at_most(2048)?;
    tell_sealed(&cdi, label, &policy, &salt, plain, told)
}

fn tell_sealed(
    cdi: &[u8; 32],
    label: &[u8],
    policy: &Policy,
    salt: &[u8; 16],
    plain: &[u8],
    told: &mut String,
) -> Told
    requires label { length label.now ≤ 64 }
    requires modes { policy.now.modes ≤ 15 }
    requires plain { length plain.now ≤ 2048 }
{
    let mut room = [0; 4096];
    let len = seal(cdi, label, policy, salt, plain, &mut room);
    show(told, &room[..len])
}

fn open_row(words: &[Word<'_>], told: &mut String) -> Told {
    let [cdi, label, sealed] = words else {
        return Err(RowFault::Unreadable);
    };
    let cdi = cdi.array()?;
    let label = label.at_most(64)?;
    let sealed = sealed.bytes()?;
    tell_open(&cdi, label, sealed, told)
}

fn tell_open(cdi: &[u8; 32], label: &[u8], sealed: &[u8], told: &mut String) -> Told
    requires { length label.now ≤ 64 }
{
    let mut room = [0; 2048];
    match open_box(cdi, label, sealed, &mut room) {
        Ok(Opened { len, policy }) => tell_opened(&room[..len], &policy, told),
        Err(NotOpened::Malformed) => put(told, "malformed"),
        Err(NotOpened::Refused) => put(told, "refused"),
    }
}

fn tell_opened(plain: &[u8], policy: &Policy, told: &mut String) -> Told {
    let localities = Value::Number(u64::from(policy.localities));
    let fields = [
        ("", Value::Bytes(plain)),
        (" for localities ", localities),
        (" and modes ", Value::Number(u64::from(policy.modes))),
    ];
    tell_fields(&fields, told)
}

fn unseal_row(words: &[Word<'_>], told: &mut String) -> Told {
    let [cdi, label, sealed, locality, mode] = words else {
        return Err(RowFault::Unreadable);
    };
    let cdi = cdi.array()?;
    let label = label.at_most(64)?;
    let sealed = sealed.bytes()?;
    let locality = locality.number_to(255)?;
    let mode = mode.number_to(255)?;
    tell_unsealed(&cdi, label, sealed, (locality, mode), told)
}

fn tell_unsealed(
    cdi: &[u8; 32],
    label: &[u8],
    sealed: &[u8],
    caller: (u8, u8),
    told: &mut String,
) -> Told
    requires { length label.now ≤ 64 }
{
    let mut room = [0; 2048];
    match unseal(cdi, label, sealed, caller.0, caller.1, &mut room) {
        Ok(len) => show(told, &room[..len]),
        Err(Unopened::Malformed) => put(told, "malformed"),
        Err(Unopened::Refused) => put(told, "refused"),
        Err(Unopened::PolicyRefused) => put(told, "not for this caller"),
    }
}
