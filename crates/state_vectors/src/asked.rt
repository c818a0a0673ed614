//! The commands of rows.
ghost use Rattle.std.specs.Prelude.{◌≤◌, IfOk, IfSome, length};
ghost use Rattle.dpe_messages.specs.CommandRows.{IsShort};

use crate::both::{Both, Caller};
use crate::boxes::name_box;
use crate::fault::Fault;
use crate::numbers::{number, small};
use dpe_messages::{Command, Config, Derive, Seal, Sign, Unseal, write_command};
use std::alloc::Global;
use table_rows::{Names, RowFault, Word};

/// The longest label, descriptor, text or message, and box of a command.
const MOST_LABEL: usize = 64;

const MOST_DESCRIPTOR: usize = 1024;

const MOST_TEXT: usize = 2048;

const MOST_BOX: usize = 3900;

/// How many bytes were written, or why none.
type Written = Result<usize, RowFault>;

// The handle of a context that both tell, zeros where there is none.
fn told_handle(both: &Both, at: u32) -> [u8; 16] {
    match both.row(at) {
        Some(row) => row.handle,
        None => [0; 16],
    }
}

// A handle: none for `-`, `oldest`, `middle` and `newest` by the order of serials, or a serial, and behind `+` its last 8
// bytes, which else are zeros.
fn handle(alloc: Global, both: &Both, text: &str) -> Result<Option<[u8; 16]>, RowFault> {
    let (live, _) = both.counts();
    match text {
        "-" => Ok(None),
        "oldest" => Ok(Some(told_handle(both, 0))),
        "middle" => Ok(Some(told_handle(both, live / 2))),
        "newest" => Ok(Some(told_handle(both, live.saturating_sub(1)))),
        _ => Ok(Some(written_handle(alloc, both.names(), text)?)),
    }
}

fn written_handle(alloc: Global, names: &Names, text: &str) -> Result<[u8; 16], RowFault> {
    let (serial, last) = match text.split_once('+') {
        Some((serial, last)) => (serial, Word::read(alloc, names, last).array::<8>()?),
        None => (text, [0; 8]),
    };
    let serial = number(serial)?;
    let mut handle = [0; 16];
    handle[..8].copy_from_slice(&serial.to_be_bytes());
    handle[8..].copy_from_slice(&last);
    Ok(handle)
}

// The word `key=..`, if there is one.
fn find<'b, 'a>(words: &'b [Word<'a>], key: &str) -> Option<&'b Word<'a>> {
    for word in words {
        if word.name == key {
            return Some(word);
        }
    }
    None
}

// Whether a flag is there.
fn flag(words: &[Word<'_>], name: &str) -> bool {
    for word in words {
        if word.whole == name {
            return true;
        }
    }
    false
}

// Whether a word is one of these flags, or begins with one of the keys.
fn is_known(word: &Word<'_>, known: &[&str]) -> bool {
    for name in known {
        if word.name == *name || word.whole == *name {
            return true;
        }
    }
    false
}

// Sees that each word is known.
fn expect(words: &[Word<'_>], known: &[&str]) -> Result<(), RowFault> {
    for word in words {
        if !is_known(word, known) {
            return Err(RowFault::Unreadable);
        }
    }
    Ok(())
}

// The bytes of a key, or none where it isn't there.
fn bytes_of<'b>(words: &'b [Word<'_>], key: &str, most: usize) -> Result<&'b [u8], RowFault>
    ensures { IfOk result (λ b. length b.now ≤ most) }
{
    match find(words, key) {
        None => Ok(&[]),
        Some(word) => word.at_most(most),
    }
}

// An input of 64 bytes, or else 64 times the same byte.
fn input_of(words: &[Word<'_>], key: &str, other: u8) -> Result<[u8; 64], RowFault> {
    match find(words, key) {
        None => Ok([other; 64]),
        Some(word) => word.array::<64>(),
    }
}

// A number of a key up to `most`, or `other` where the key isn't there.
fn number_of(words: &[Word<'_>], key: &str, most: u8, other: u8) -> Result<u8, RowFault>
    requires { other ≤ most }
    ensures { IfOk result (λ n. n ≤ most) }
{
    match find(words, key) {
        None => Ok(other),
        Some(word) => word.number_to(most),
    }
}

fn target_of(words: &[Word<'_>]) -> Result<Option<u8>, RowFault>
    ensures { IfOk result (λ t. IfSome t (λ l. l ≤ 7)) }
{
    match find(words, "to") {
        None => Ok(None),
        Some(word) => Ok(Some(word.number_to(7)?)),
    }
}

// A descriptor where the words have one, and else the inline configuration.
fn config_of<'a>(words: &[Word<'_>], inline: &'a [u8; 64], descriptor: &'a [u8]) -> Config<'a>
    requires { length descriptor.now ≤ 1024 }
    ensures { IsShort result }
{
    match find(words, "descriptor") {
        None => Config::Inline(inline),
        Some(_) => Config::Descriptor(descriptor),
    }
}

// The hidden input where the words have one.
fn hidden_of<'a>(words: &[Word<'_>], hidden: &'a [u8; 64]) -> Option<&'a [u8; 64]> {
    match find(words, "hidden") {
        None => None,
        Some(_) => Some(hidden),
    }
}

// What a layer has of just so many bytes.
#[derive(Clone, Copy)]
struct Inputs {
    handle: Option<[u8; 16]>,
    code: [u8; 64],
    config: [u8; 64],
    authority: [u8; 64],
    hidden: [u8; 64],
}

// Where nothing else is said: the code 11, the configuration 21 and the authority 31, each 64 times.
fn inputs_of(handle: Option<[u8; 16]>, words: &[Word<'_>]) -> Result<Inputs, RowFault> {
    let code = input_of(words, "code", 0x11)?;
    let config = input_of(words, "config", 0x21)?;
    let authority = input_of(words, "authority", 0x31)?;
    let hidden = input_of(words, "hidden", 0)?;
    Ok(Inputs {
        handle,
        code,
        config,
        authority,
        hidden,
    })
}

const DERIVE_KEYS: [&str; 10] = [
    "code",
    "config",
    "descriptor",
    "authority",
    "mode",
    "hidden",
    "retain",
    "final",
    "to",
    "default",
];

// The mode is 1 where nothing else is said.
fn derive(handle: Option<[u8; 16]>, words: &[Word<'_>], room: &mut [u8; 4096]) -> Written {
    expect(words, &DERIVE_KEYS)?;
    let inputs = inputs_of(handle, words)?;
    let descriptor = bytes_of(words, "descriptor", MOST_DESCRIPTOR)?;
    let mode = number_of(words, "mode", 3, 1)?;
    let locality = target_of(words)?;
    let derive = Derive {
        handle: inputs.handle.as_ref(),
        code: &inputs.code,
        config: config_of(words, &inputs.config, descriptor),
        authority: &inputs.authority,
        mode,
        hidden: hidden_of(words, &inputs.hidden),
        retain: flag(words, "retain"),
        may_derive: !flag(words, "final"),
        locality,
        child_default: flag(words, "default"),
    };
    Ok(write_command(&Command::Derive(derive), room))
}

fn sign<'a>(handle: Option<&'a [u8; 16]>, words: &'a [Word<'_>], room: &mut [u8; 4096]) -> Written {
    expect(words, &["label", "message", "retain"])?;
    let label = bytes_of(words, "label", MOST_LABEL)?;
    let message = bytes_of(words, "message", MOST_TEXT)?;
    let sign = Sign {
        handle,
        label,
        retain: flag(words, "retain"),
        message,
    };
    Ok(write_command(&Command::Sign(sign), room))
}

fn seal<'a>(handle: Option<&'a [u8; 16]>, words: &'a [Word<'_>], room: &mut [u8; 4096]) -> Written {
    expect(words, &["label", "text", "localities", "modes", "retain"])?;
    let label = bytes_of(words, "label", MOST_LABEL)?;
    let plain = bytes_of(words, "text", MOST_TEXT)?;
    let localities = number_of(words, "localities", 255, 255)?;
    let modes = number_of(words, "modes", 15, 15)?;
    let seal = Seal {
        handle,
        label,
        retain: flag(words, "retain"),
        localities,
        modes,
        plain,
    };
    Ok(write_command(&Command::Seal(seal), room))
}

fn unseal<'a>(
    handle: Option<&'a [u8; 16]>,
    words: &'a [Word<'_>],
    room: &mut [u8; 4096],
) -> Written {
    expect(words, &["label", "box", "retain"])?;
    let label = bytes_of(words, "label", MOST_LABEL)?;
    let sealed = bytes_of(words, "box", MOST_BOX)?;
    let unseal = Unseal {
        handle,
        label,
        retain: flag(words, "retain"),
        sealed,
    };
    Ok(write_command(&Command::Unseal(unseal), room))
}

fn rotate(handle: Option<&[u8; 16]>, words: &[Word<'_>], room: &mut [u8; 4096]) -> Written {
    expect(words, &["default"])?;
    let default = flag(words, "default");
    Ok(write_command(&Command::Rotate { handle, default }, room))
}

fn destroy(handle: Option<&[u8; 16]>, words: &[Word<'_>], room: &mut [u8; 4096]) -> Written {
    expect(words, &["family"])?;
    let recursive = flag(words, "family");
    Ok(write_command(&Command::Destroy { handle, recursive }, room))
}

// The payload of a command that uses a context.
fn with_context(
    name: &str,
    handle: Option<[u8; 16]>,
    words: &[Word<'_>],
    room: &mut [u8; 4096],
) -> Written {
    match name {
        "derive" => derive(handle, words, room),
        "sign" => sign(handle.as_ref(), words, room),
        "seal" => seal(handle.as_ref(), words, room),
        "unseal" => unseal(handle.as_ref(), words, room),
        "rotate" => rotate(handle.as_ref(), words, room),
        "destroy" => destroy(handle.as_ref(), words, room),
        _ => Err(RowFault::Unreadable),
    }
}

fn use_context(
    alloc: Global,
    both: &Both,
    name: &str,
    words: &[Word<'_>],
    room: &mut [u8; 4096],
) -> Written {
    let Some((context, words)) = words.split_first() else {
        return Err(RowFault::Unreadable);
    };
    let context = handle(alloc, both, context.whole)?;
    with_context(name, context, words, room)
}

fn initialize(words: &[Word<'_>], room: &mut [u8; 4096]) -> Written {
    expect(words, &["default"])?;
    let default = flag(words, "default");
    Ok(write_command(&Command::Initialize { default }, room))
}

// A payload as it is.
fn payload(words: &[Word<'_>], room: &mut [u8; 4096]) -> Written {
    let [word] = words else {
        return Err(RowFault::Unreadable);
    };
    let bytes = word.at_most(4096)?;
    room[..bytes.len()].copy_from_slice(bytes);
    Ok(bytes.len())
}

// The payload of a command: its name, the handle of the context that it uses, and its arguments.
fn payload_of(alloc: Global, both: &Both, words: &[Word<'_>], room: &mut [u8; 4096]) -> Written {
    let Some((name, words)) = words.split_first() else {
        return Err(RowFault::Unreadable);
    };
    match name.whole {
        "profile" => Ok(write_command(&Command::GetProfile, room)),
        "initialize" => initialize(words, room),
        "payload" => payload(words, room),
        name => use_context(alloc, both, name, words, room),
    }
}

// The caller's locality, and behind `/` its random bytes, which else are zeros.
fn caller_of(alloc: Global, names: &Names, who: &str) -> Result<Caller, RowFault> {
    let (locality, random) = match who.split_once('/') {
        Some((locality, random)) => (locality, Word::read(alloc, names, random).array::<32>()?),
        None => (who, [0; 32]),
    };
    let locality = small(locality)?;
    Ok(Caller { locality, random })
}

// The words with the bytes that they stand for now.
fn words_for<'a>(
    alloc: Global,
    names: &mut Names,
    words: &[&'a str],
) -> Result<Vec<Word<'a>>, RowFault> {
    let mut read = Vec::new(alloc);
    for word in words {
        name_box(alloc, names, word)?;
        read.push(Word::read(alloc, names, word))?;
    }
    Ok(read)
}

// Writes the payload of these words.
fn write(alloc: Global, both: &mut Both, words: &[&str], room: &mut [u8; 4096]) -> Written {
    let words = words_for(alloc, both.names_mut(), words)?;
    payload_of(alloc, both, &words, room)
}

/// Has both reply to the command of a row: the caller, the command's name, the handle of the context that it uses, and its
/// arguments.
pub(crate) fn ask(alloc: Global, both: &mut Both, words: &[&str]) -> Result<(), Fault> {
    let Some((who, words)) = words.split_first() else {
        return Err(Fault::Unreadable);
    };
    let caller = caller_of(alloc, both.names(), who)?;
    let mut room = [0; 4096];
    let len = write(alloc, both, words, &mut room)?;
    let Some(payload) = room.get(..len) else {
        return Err(Fault::Unreadable);
    };
    both.execute(alloc, &caller, payload)?;
    if words.first() == Some(&"seal") {
        both.keep_box(alloc)?;
    }
    Ok(())
}
