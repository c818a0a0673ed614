//! Writes the payload of a command line, its names taken for their values.
ghost use Rattle.std.specs.Prelude.{◌≡◌, ◌≤◌, length, take, []};
ghost use Rattle.dpe_messages.specs.Commands.{configuration_of};
ghost use Rattle.dpe_messages.specs.CommandRows.{command_payload, IsShort as IsConfigShort};
ghost use Rattle.dpe_grammar.specs.Acts.{act_of, name_if, derive_line, sign_line, seal_line, unseal_line, IsInRange, IsDeriveInRange, IsShort, config_of, derive as a_derive, sign as a_sign, seal as a_seal, unseal as an_unseal, rotate, destroy};
ghost use Rattle.dpe_script.specs.Meaning.{derive_command, sent_payload};
ghost use Rattle.dpe_script.specs.CodeValues.{values_of, HasShortBoxes};

use crate::values::Values;
use dpe_grammar::{Act, Config, Derive, Seal, Sign, Unseal, decode};
use dpe_messages::{Command, write_command};

// The configuration, a descriptor being decoded into the room.
fn config_in<'c>(config: &'c Config<'_>, room: &'c mut [u8; 1_024]) -> dpe_messages::Config<'c>
    requires { IsShort (config_of config.now) }
    ensures value { configuration_of result ≡ config_of config.now }
    ensures short { IsConfigShort result }
{
    match config {
        Config::Inline(input) => dpe_messages::Config::Inline(input),
        Config::Descriptor(value) => {
            let len = decode(value, room);
            dpe_messages::Config::Descriptor(&room[..len])
        }
    }
}

// Writes what a `derive` line asks for, its handle and its configuration being found already.
fn write_found<'c>(
    derive: &'c Derive<'_>,
    handle: Option<&'c [u8; 16]>,
    config: dpe_messages::Config<'c>,
    room: &mut [u8; 4096],
) -> usize
    requires range { IsDeriveInRange (derive_line derive.now) }
    requires config { configuration_of config ≡ config_of derive.now.config }
    requires short { IsConfigShort config }
    ensures within { result ≤ 4096 }
    ensures written { take result room.new ≡ command_payload (derive_command (name_if handle.entry) (derive_line derive.now)) }
{
    write_command(
        &Command::Derive(dpe_messages::Derive {
            handle,
            code: &derive.code,
            config,
            authority: &derive.authority,
            mode: derive.mode,
            hidden: derive.hidden.as_ref(),
            retain: derive.keep.is_some(),
            may_derive: !derive.is_final,
            locality: derive.locality,
            child_default: derive.is_default,
        }),
        room,
    )
}

fn write_derive(derive: &Derive<'_>, values: &Values<'_>, room: &mut [u8; 4096]) -> usize
    requires { IsDeriveInRange (derive_line derive.now) }
    ensures within { result ≤ 4096 }
    ensures written { take result room.new ≡ sent_payload (values_of values.now) (a_derive (derive_line derive.now)) }
{
    let handle = values.handle_if(derive.old);
    let mut descriptor = [0; 1_024];
    let config = config_in(&derive.config, &mut descriptor);
    write_found(derive, handle.as_ref(), config, room)
}

fn write_sign(sign: &Sign<'_>, values: &Values<'_>, room: &mut [u8; 4096]) -> usize
    requires { IsInRange (a_sign (sign_line sign.now)) }
    ensures within { result ≤ 4096 }
    ensures written { take result room.new ≡ sent_payload (values_of values.now) (a_sign (sign_line sign.now)) }
{
    let mut label = [0; 64];
    let label_len = decode(&sign.label, &mut label);
    let mut message = [0; 2_048];
    let message_len = decode(&sign.message, &mut message);
    write_command(
        &Command::Sign(dpe_messages::Sign {
            handle: values.handle_if(sign.old).as_ref(),
            label: &label[..label_len],
            retain: sign.keep.is_some(),
            message: &message[..message_len],
        }),
        room,
    )
}

fn write_seal(seal: &Seal<'_>, values: &Values<'_>, room: &mut [u8; 4096]) -> usize
    requires { IsInRange (a_seal (seal_line seal.now)) }
    ensures within { result ≤ 4096 }
    ensures written { take result room.new ≡ sent_payload (values_of values.now) (a_seal (seal_line seal.now)) }
{
    let mut label = [0; 64];
    let label_len = decode(&seal.label, &mut label);
    let mut plain = [0; 2_048];
    let plain_len = decode(&seal.plain, &mut plain);
    write_command(
        &Command::Seal(dpe_messages::Seal {
            handle: values.handle_if(seal.old).as_ref(),
            label: &label[..label_len],
            retain: seal.keep.is_some(),
            localities: seal.localities,
            modes: seal.modes,
            plain: &plain[..plain_len],
        }),
        room,
    )
}

fn write_unseal(unseal: &Unseal<'_>, values: &Values<'_>, room: &mut [u8; 4096]) -> usize
    requires label { IsInRange (an_unseal (unseal_line unseal.now)) }
    requires boxes { HasShortBoxes values.now }
    ensures within { result ≤ 4096 }
    ensures written { take result room.new ≡ sent_payload (values_of values.now) (an_unseal (unseal_line unseal.now)) }
{
    let mut label = [0; 64];
    let label_len = decode(&unseal.label, &mut label);
    write_command(
        &Command::Unseal(dpe_messages::Unseal {
            handle: values.handle_if(unseal.old).as_ref(),
            label: &label[..label_len],
            retain: unseal.keep.is_some(),
            sealed: values.sealed(unseal.sealed),
        }),
        room,
    )
}

fn write_rotate(
    old: Option<&[u8]>,
    is_default: bool,
    values: &Values<'_>,
    room: &mut [u8; 4096],
) -> usize
    ensures within { result ≤ 4096 }
    ensures written { take result room.new ≡ sent_payload (values_of values.now) (rotate (name_if old.entry) [] is_default) }
{
    write_command(
        &Command::Rotate {
            handle: values.handle_if(old).as_ref(),
            default: is_default,
        },
        room,
    )
}

fn write_destroy(
    old: Option<&[u8]>,
    recursive: bool,
    values: &Values<'_>,
    room: &mut [u8; 4096],
) -> usize
    ensures within { result ≤ 4096 }
    ensures written { take result room.new ≡ sent_payload (values_of values.now) (destroy (name_if old.entry) recursive) }
{
    write_command(
        &Command::Destroy {
            handle: values.handle_if(old).as_ref(),
            recursive,
        },
        room,
    )
}

/// Writes the payload of a command, and says how long it is.
pub fn write_act(act: &Act<'_>, values: &Values<'_>, room: &mut [u8; 4096]) -> usize
    requires range { IsInRange (act_of act.now) }
    requires boxes { HasShortBoxes values.now }
    ensures within { result ≤ 4096 }
    ensures written { take result room.new ≡ sent_payload (values_of values.now) (act_of act.now) }
{
    match act {
        Act::Profile => write_command(&Command::GetProfile, room),
        Act::Initialize { is_default, .. } => write_command(
            &Command::Initialize {
                default: *is_default,
            },
            room,
        ),
        Act::Derive(derive) => write_derive(derive, values, room),
        Act::Sign(sign) => write_sign(sign, values, room),
        Act::Seal(seal) => write_seal(seal, values, room),
        Act::Unseal(unseal) => write_unseal(unseal, values, room),
        Act::Rotate {
            old,
            is_default,
            ..
        } => write_rotate(*old, *is_default, values, room),
        Act::Destroy { old, recursive } => write_destroy(*old, *recursive, values, room),
        Act::Raw(value) => decode(value, room),
    }
}
