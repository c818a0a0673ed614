//! Rows that read and write commands.
ghost use Rattle.std.specs.Prelude.{◌≤◌, length, IfOk, IfSome};
ghost use Rattle.dpe_messages.specs.CommandRows.{IsCommandWritable, IsShort};

use crate::fields::{Value, tell_fields};
use dpe_box::Policy;
use dpe_messages::{
    Command, Config, Derive, Refusal, Seal, Sign, Unseal, read_payload, write_command,
};
use table_rows::{RowFault, Told, Word, field, flag, put, show};

/// Tells the command that a payload asks for, with its arguments, or why it is none.
pub(crate) fn read(payload: &Word<'_>, told: &mut String) -> Told {
    match read_payload(payload.bytes()?) {
        Ok(command) => describe(&command, told),
        Err(Refusal::NotACommand) => put(told, "2 not a command"),
        Err(Refusal::BadArguments) => put(told, "3 bad arguments"),
        Err(Refusal::Unsupported) => put(told, "16 unsupported"),
    }
}

fn describe(command: &Command<'_>, told: &mut String) -> Told {
    match command {
        Command::GetProfile => put(told, "GetProfile"),
        Command::Initialize { default } => flag(told, "InitializeContext default ", *default),
        Command::Derive(derive) => describe_derive(derive, told),
        Command::Sign(sign) => describe_sign(sign, told),
        Command::Seal(seal) => describe_seal(seal, told),
        Command::Unseal(unseal) => describe_unseal(unseal, told),
        Command::Rotate { handle, default } => {
            describe_use("RotateContextHandle ", *handle, " default ", *default, told)
        }
        Command::Destroy { handle, recursive } => {
            describe_use("DestroyContext ", *handle, " recursive ", *recursive, told)
        }
    }
}

// The handle that a command names, or `none`.
fn handle_value(handle: Option<&[u8; 16]>) -> Value<'_> {
    match handle {
        Some(handle) => Value::Bytes(handle),
        None => Value::Missing,
    }
}

// A command of a handle and a flag.
fn describe_use(
    name: &str,
    handle: Option<&[u8; 16]>,
    choice: &str,
    holds: bool,
    told: &mut String,
) -> Told {
    let fields = [(name, handle_value(handle)), (choice, Value::Flag(holds))];
    tell_fields(&fields, told)
}

fn describe_derive(derive: &Derive<'_>, told: &mut String) -> Told {
    let Derive {
        handle,
        code,
        config,
        authority,
        mode,
        hidden,
        retain,
        may_derive,
        locality,
        child_default,
    } = *derive;
    let fields = [
        ("DeriveContext ", handle_value(handle)),
        (" code ", Value::Bytes(code)),
        config_field(&config),
        (" authority ", Value::Bytes(authority)),
        (" mode ", Value::Number(u64::from(mode))),
        (" hidden ", hidden_value(hidden)),
        (" retain ", Value::Flag(retain)),
        (" may-derive ", Value::Flag(may_derive)),
        (" locality ", locality_value(locality)),
        (" child-default ", Value::Flag(child_default)),
    ];
    tell_fields(&fields, told)
}

fn config_field<'a>(config: &Config<'a>) -> (&'static str, Value<'a>) {
    match config {
        Config::Inline(config) => (" config ", Value::Bytes(*config)),
        Config::Descriptor(bytes) => (" descriptor ", Value::Bytes(*bytes)),
    }
}

fn hidden_value(hidden: Option<&[u8; 64]>) -> Value<'_> {
    match hidden {
        Some(hidden) => Value::Bytes(hidden),
        None => Value::Missing,
    }
}

fn locality_value(locality: Option<u8>) -> Value<'static> {
    match locality {
        Some(locality) => Value::Number(u64::from(locality)),
        None => Value::Missing,
    }
}

fn describe_sign(sign: &Sign<'_>, told: &mut String) -> Told {
    let Sign {
        handle,
        label,
        retain,
        message,
    } = *sign;
    let fields = [
        ("Sign ", handle_value(handle)),
        (" label ", Value::Bytes(label)),
        (" retain ", Value::Flag(retain)),
        (" message ", Value::Bytes(message)),
    ];
    tell_fields(&fields, told)
}

fn describe_seal(seal: &Seal<'_>, told: &mut String) -> Told {
    let Seal {
        handle,
        label,
        retain,
        localities,
        modes,
        plain,
    } = *seal;
    let fields = [
        ("Seal ", handle_value(handle)),
        (" label ", Value::Bytes(label)),
        (" retain ", Value::Flag(retain)),
        (" localities ", Value::Number(u64::from(localities))),
        (" modes ", Value::Number(u64::from(modes))),
        (" plain ", Value::Bytes(plain)),
    ];
    tell_fields(&fields, told)
}

fn describe_unseal(unseal: &Unseal<'_>, told: &mut String) -> Told {
    let Unseal {
        handle,
        label,
        retain,
        sealed,
    } = *unseal;
    let fields = [
        ("Unseal ", handle_value(handle)),
        (" label ", Value::Bytes(label)),
        (" retain ", Value::Flag(retain)),
        (" box ", Value::Bytes(sealed)),
    ];
    tell_fields(&fields, told)
}

/// Tells the payload that asks for a command.
pub(crate) fn write(name: &str, words: &[Word<'_>], told: &mut String) -> Told {
    match name {
        "GetProfile" => written(&Command::GetProfile, told),
        "InitializeContext" => write_initialize(words, told),
        "RotateContextHandle" => write_rotate(words, told),
        "DestroyContext" => write_destroy(words, told),
        "DeriveContext" => write_derive(words, told),
        "Sign" => write_sign(words, told),
        "Seal" => write_seal(words, told),
        "Unseal" => write_unseal(words, told),
        _ => Err(RowFault::Unreadable),
    }
}

fn write_initialize(words: &[Word<'_>], told: &mut String) -> Told {
    let [default] = words else {
        return Err(RowFault::Unreadable);
    };
    let default = default.truth()?;
    written(&Command::Initialize { default }, told)
}

fn write_rotate(words: &[Word<'_>], told: &mut String) -> Told {
    let [handle, default] = words else {
        return Err(RowFault::Unreadable);
    };
    let handle = handle.array_or_none()?;
    let default = default.truth()?;
    let handle = handle.as_ref();
    written(&Command::Rotate { handle, default }, told)
}

fn write_destroy(words: &[Word<'_>], told: &mut String) -> Told {
    let [handle, recursive] = words else {
        return Err(RowFault::Unreadable);
    };
    let handle = handle.array_or_none()?;
    let recursive = recursive.truth()?;
    let handle = handle.as_ref();
    written(&Command::Destroy { handle, recursive }, told)
}

fn write_sign(words: &[Word<'_>], told: &mut String) -> Told {
    let [handle, label, retain, message] = words else {
        return Err(RowFault::Unreadable);
    };
    let handle = handle.array_or_none()?;
    let label = label.at_most(64)?;
    let retain = retain.truth()?;
    let message = message.at_most(2048)?;
    written_sign(handle.as_ref(), label, retain, message, told)
}

fn written_sign<'a>(
    handle: Option<&'a [u8; 16]>,
    label: &'a [u8],
    retain: bool,
    message: &'a [u8],
    told: &mut String,
) -> Told
    requires label { length label.now ≤ 64 }
    requires message { length message.now ≤ 2048 }
{
    let sign = Sign {
        handle,
        label,
        retain,
        message,
    };
    written(&Command::Sign(sign), told)
}

fn write_seal(words: &[Word<'_>], told: &mut String) -> Told {
    let [handle, label, retain, localities, modes, plain] = words else {
        return Err(RowFault::Unreadable);
    };
    let handle = handle.array_or_none()?;
    let label = label.at_most(64)?;
    let retain = retain.truth()?;
    let masks = Policy {
        localities: localities.number_to(255)?,
        modes: modes.number_to(15)?,
    };
    let plain = plain.at_most(2048)?;
    written_seal(handle.as_ref(), label, retain, &masks, plain, told)
}

fn written_seal<'a>(
    handle: Option<&'a [u8; 16]>,
    label: &'a [u8],
    retain: bool,
    masks: &Policy,
    plain: &'a [u8],
    told: &mut String,
) -> Told
    requires label { length label.now ≤ 64 }
    requires modes { masks.now.modes ≤ 15 }
    requires plain { length plain.now ≤ 2048 }
{
    let seal = Seal {
        handle,
        label,
        retain,
        localities: masks.localities,
        modes: masks.modes,
        plain,
    };
    written(&Command::Seal(seal), told)
}

fn write_unseal(words: &[Word<'_>], told: &mut String) -> Told {
    let [handle, label, retain, sealed] = words else {
        return Err(RowFault::Unreadable);
    };
    let handle = handle.array_or_none()?;
    let label = label.at_most(64)?;
    let retain = retain.truth()?;
    let sealed = sealed.at_most(3900)?;
    written_unseal(handle.as_ref(), label, retain, sealed, told)
}

fn written_unseal<'a>(
    handle: Option<&'a [u8; 16]>,
    label: &'a [u8],
    retain: bool,
    sealed: &'a [u8],
    told: &mut String,
) -> Told
    requires label { length label.now ≤ 64 }
    requires sealed { length sealed.now ≤ 3900 }
{
    let unseal = Unseal {
        handle,
        label,
        retain,
        sealed,
    };
    written(&Command::Unseal(unseal), told)
}

// What a layer has of just so many bytes.
#[derive(Clone, Copy)]
struct Layer {
    handle: Option<[u8; 16]>,
    code: [u8; 64],
    inline: [u8; 64],
    authority: [u8; 64],
    hidden: Option<[u8; 64]>,
}

fn layer_of(words: &[Word<'_>]) -> Result<Layer, RowFault> {
    let [handle, code, kind, config, authority, _mode, hidden, ..] = words else {
        return Err(RowFault::Unreadable);
    };
    let handle = handle.array_or_none()?;
    let code = code.array()?;
    let inline = inline_of(kind.text, config)?;
    let authority = authority.array()?;
    let hidden = hidden.array_or_none()?;
    Ok(Layer {
        handle,
        code,
        inline,
        authority,
        hidden,
    })
}

// `HANDLE CODE KIND CONFIG AUTHORITY MODE HIDDEN RETAIN MAY-DERIVE LOCALITY CHILD-DEFAULT`.
fn write_derive(words: &[Word<'_>], told: &mut String) -> Told {
    let layer = layer_of(words)?;
    let [
        _,
        _,
        kind,
        config,
        _,
        mode,
        _,
        retain,
        may_derive,
        locality,
        child_default,
    ] = words
    else {
        return Err(RowFault::Unreadable);
    };
    let descriptor = config.at_most(1024)?;
    let mode = mode.number_to(3)?;
    let retain = retain.truth()?;
    let may_derive = may_derive.truth()?;
    let locality = locality_or_none(locality)?;
    let child_default = child_default.truth()?;
    let derive = Derive {
        handle: layer.handle.as_ref(),
        code: &layer.code,
        config: config_of(kind.text, &layer.inline, descriptor),
        authority: &layer.authority,
        mode,
        hidden: layer.hidden.as_ref(),
        retain,
        may_derive,
        locality,
        child_default,
    };
    written(&Command::Derive(derive), told)
}

// The configuration itself, or zeros where it is a descriptor.
fn inline_of(kind: &str, config: &Word<'_>) -> Result<[u8; 64], RowFault> {
    match kind {
        "config" => config.array(),
        "descriptor" => Ok([0; 64]),
        _ => Err(RowFault::Unreadable),
    }
}

// The configuration itself, or a descriptor of it.
fn config_of<'a>(kind: &str, inline: &'a [u8; 64], descriptor: &'a [u8]) -> Config<'a>
    requires { length descriptor.now ≤ 1024 }
    ensures { IsShort result }
{
    match kind {
        "config" => Config::Inline(inline),
        _ => Config::Descriptor(descriptor),
    }
}

fn locality_or_none(word: &Word<'_>) -> Result<Option<u8>, RowFault>
    ensures { IfOk result (λ locality. IfSome locality (λ number. number ≤ 7)) }
{
    match word.text {
        "none" => Ok(None),
        _ => Ok(Some(word.number_to(7)?)),
    }
}

fn written(command: &Command<'_>, told: &mut String) -> Told
    requires { IsCommandWritable command.now }
{
    let mut room = [0; 4096];
    let len = write_command(command, &mut room);
    show(told, &room[..len])
}
