//! The rows of a vault that is stepped call by call.
ghost use Rattle.std.specs.Prelude.{◌≤◌};

use dpe_vaults::{Op, Vault, VaultCall, VaultEntry, VaultReply};
use std::alloc::Global;
use table_rows::{Names, RowFault, Told, Word, number, put, show_alike};

// The operation of a number.
fn op_of(word: &str) -> Result<Op, RowFault> {
    match word {
        "0" => Ok(Op::Put),
        "1" => Ok(Op::Get),
        "2" => Ok(Op::Remove),
        "3" => Ok(Op::Names),
        _ => Err(RowFault::Unreadable),
    }
}

// A call of these parts, where a vault takes such calls.
fn call_of(locality: u8, op: Op, name: &[u8], sealed: &[u8]) -> Result<VaultCall, RowFault>
    requires { locality ≤ 7 }
{
    if op == Op::Names {
        if !name.is_empty() || !sealed.is_empty() {
            return Err(RowFault::Unreadable);
        }
        return Ok(VaultCall::new(locality, Op::Names, name, sealed));
    }
    if name.is_empty() || name.len() > 32 || sealed.len() > 2133 {
        return Err(RowFault::Unreadable);
    }
    if op == Op::Put {
        return Ok(VaultCall::new(locality, Op::Put, name, sealed));
    }
    if !sealed.is_empty() {
        return Err(RowFault::Unreadable);
    }
    if op == Op::Get {
        return Ok(VaultCall::new(locality, Op::Get, name, sealed));
    }
    Ok(VaultCall::new(locality, Op::Remove, name, sealed))
}

// The parts of a call, `CALLER:LOCALITY:OP:NAME:BOX`.
fn parts_of<'a>(alloc: Global, names: &Names, word: &Word<'a>) -> Result<Vec<Word<'a>>, RowFault> {
    let mut parts = Vec::new(alloc);
    for part in word.whole.split(':') {
        parts.push(Word::read(alloc, names, part))?;
    }
    Ok(parts)
}

// Steps a vault that isn't full by the call of these parts.
fn take(vault: &mut Vault, parts: &[Word<'_>]) -> Result<(), RowFault> {
    let [caller, locality, op, name, sealed] = parts else {
        return Err(RowFault::Unreadable);
    };
    let caller = caller.number::<u32>()?;
    let locality = locality.number_to(7)?;
    let op = op_of(op.text)?;
    let call = call_of(locality, op, name.bytes()?, sealed.bytes()?)?;
    if vault.length() == vault.capacity() {
        return Err(RowFault::Unreadable);
    }
    let mut reply = VaultReply::new();
    vault.step(caller, &call, &mut reply);
    Ok(())
}

// Tells a part of an entry, behind a `:`.
fn tell_part(told: &mut String, bytes: &[u8]) -> Told {
    put(told, ":")?;
    show_alike(told, bytes)
}

fn number_of(op: Op) -> u64 {
    match op {
        Op::Put => 0,
        Op::Get => 1,
        Op::Remove => 2,
        Op::Names => 3,
    }
}

// Tells an entry as rows have it.
fn tell(entry: &VaultEntry, told: &mut String) -> Told {
    number(told, " ", u64::from(entry.caller))?;
    number(told, ":", u64::from(entry.call.locality()))?;
    number(told, ":", number_of(entry.call.op()))?;
    tell_part(told, entry.call.name())?;
    tell_part(told, entry.call.sealed())?;
    number(told, ":", u64::from(entry.reply.code))?;
    tell_part(told, entry.reply.bytes.bytes())
}

// A vault that can take so many entries.
fn vault_of(alloc: Global, capacity: u32) -> Result<Vault, RowFault> {
    if capacity == 0 || capacity > 4096 {
        return Err(RowFault::Unreadable);
    }
    Ok(Vault::make(alloc, capacity)?)
}

/// `CAPACITY CALL ..`: the number of entries of a vault after the calls, and each entry.
pub(crate) fn step(alloc: Global, names: &Names, words: &[Word<'_>], told: &mut String) -> Told {
    let Some((capacity, calls)) = words.split_first() else {
        return Err(RowFault::Unreadable);
    };
    let mut vault = vault_of(alloc, capacity.number()?)?;
    for word in calls {
        take(&mut vault, &parts_of(alloc, names, word)?)?;
    }
    tell_all(&vault, told)
}

fn tell_all(vault: &Vault, told: &mut String) -> Told {
    number(told, "", u64::from(vault.length()))?;
    for at in 0..vault.length() {
        tell(vault.entry(at), told)?;
    }
    Ok(())
}
