//! Rows that read and write replies.
ghost use Rattle.dpe_messages.specs.Replies.{IsWritable};

use dpe_messages::{Asked, Reply, read_reply, write_reply};
use table_rows::{RowFault, Told, Word, field, field_or_none, number, put, show};

/// The commands by the names that the rows have for them.
static COMMANDS: [(&str, Asked); 8] = [
    ("GetProfile", Asked::GetProfile),
    ("InitializeContext", Asked::Initialize),
    ("DeriveContext", Asked::Derive),
    ("Sign", Asked::Sign),
    ("Seal", Asked::Seal),
    ("Unseal", Asked::Unseal),
    ("RotateContextHandle", Asked::Rotate),
    ("DestroyContext", Asked::Destroy),
];

/// Tells the reply that a payload is to the command of this name.
pub(crate) fn read(name: &str, words: &[Word<'_>], told: &mut String) -> Told {
    let [payload] = words else {
        return Err(RowFault::Unreadable);
    };
    for (known, asked) in &COMMANDS {
        if *known == name {
            return read_as(asked, payload.bytes()?, told);
        }
    }
    Err(RowFault::Unreadable)
}

fn read_as(asked: &Asked, payload: &[u8], told: &mut String) -> Told {
    match read_reply(asked, payload) {
        Ok(reply) => describe(&reply, told),
        Err(_) => put(told, "no reply"),
    }
}

/// Tells the commands to which a payload is a reply.
pub(crate) fn asked(payload: &Word<'_>, told: &mut String) -> Told {
    let payload = payload.bytes()?;
    for (name, asked) in &COMMANDS {
        if read_reply(asked, payload).is_ok() {
            put_name(name, told)?;
        }
    }
    if told.is_empty() {
        return put(told, "no command");
    }
    Ok(())
}

fn put_name(name: &str, told: &mut String) -> Told {
    if !told.is_empty() {
        put(told, " ")?;
    }
    put(told, name)
}

fn describe(reply: &Reply<'_>, told: &mut String) -> Told {
    match reply {
        Reply::Refused(code) => number(told, "refused ", u64::from(*code)),
        Reply::Profile => put(told, "profile"),
        Reply::Handle(handle) => field(told, "handle ", handle),
        Reply::Derived { child, parent } => {
            field(told, "derived ", child)?;
            handle_or_none(" ", parent, told)
        }
        Reply::Made { handle, bytes } => {
            handle_or_none("made ", handle, told)?;
            field(told, " ", *bytes)
        }
        Reply::Done => put(told, "done"),
    }
}

fn handle_or_none(name: &str, handle: &Option<[u8; 16]>, told: &mut String) -> Told {
    match handle {
        Some(handle) => field_or_none(told, name, Some(handle)),
        None => field_or_none(told, name, None),
    }
}

/// Tells the payload of a reply.
pub(crate) fn write(name: &str, words: &[Word<'_>], told: &mut String) -> Told {
    match name {
        "refused" => write_refused(words, told),
        "profile" => written(&Reply::Profile, told),
        "handle" => write_handle(words, told),
        "derived" => write_derived(words, told),
        "made" => write_made(words, told),
        "done" => written(&Reply::Done, told),
        _ => Err(RowFault::Unreadable),
    }
}

fn write_refused(words: &[Word<'_>], told: &mut String) -> Told {
    let [code] = words else {
        return Err(RowFault::Unreadable);
    };
    let code = code.number::<u8>()?;
    if !matches!(code, 2 | 3 | 5 | 16..=29) {
        return Err(RowFault::Unreadable);
    }
    written(&Reply::Refused(code), told)
}

fn write_handle(words: &[Word<'_>], told: &mut String) -> Told {
    let [handle] = words else {
        return Err(RowFault::Unreadable);
    };
    written(&Reply::Handle(handle.array()?), told)
}

fn write_derived(words: &[Word<'_>], told: &mut String) -> Told {
    let [child, parent] = words else {
        return Err(RowFault::Unreadable);
    };
    let child = child.array()?;
    let parent = parent.array_or_none()?;
    written(&Reply::Derived { child, parent }, told)
}

fn write_made(words: &[Word<'_>], told: &mut String) -> Told {
    let [handle, bytes] = words else {
        return Err(RowFault::Unreadable);
    };
    let handle = handle.array_or_none()?;
    let bytes = bytes.at_most(2133)?;
    written(&Reply::Made { handle, bytes }, told)
}

fn written(reply: &Reply<'_>, told: &mut String) -> Told
    requires { IsWritable reply.now }
{
    let mut room = [0; 4096];
    let len = write_reply(reply, &mut room);
    show(told, &room[..len])
}
