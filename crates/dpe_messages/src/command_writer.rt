//! The payload of a command, written by those who ask.
ghost use Rattle.std.specs.Prelude.{◌≡◌, ◌≤◌, IfSome, length, take, drop};
ghost use Rattle.std.specs.Option.{option_map};
ghost use Rattle.dpe_messages.specs.FlatMap.{byte_string, number as number_value};
ghost use Rattle.dpe_messages.specs.Found.{view};
ghost use Rattle.dpe_messages.specs.Commands.{name_of, configuration_of, derive_request, sign_request, seal_request, unseal_request, request_of};
ghost use Rattle.dpe_messages.specs.Request.{derive as a_derive, sign as a_sign, seal as a_seal, unseal as an_unseal};
ghost use Rattle.dpe_messages.specs.Ranges.{IsHandle};
ghost use Rattle.dpe_messages.specs.CommandRows.{command_payload, unless_empty, unless_number, if_true, unless_true, inline_value, descriptor_value, IsInlineRight, IsDeriveWritable, IsCommandWritable};

use crate::codes;
use crate::command::{Command, Config, Derive, Seal, Sign, Unseal};
use crate::layers::Found;
use crate::message::write_message;

fn bytes_unless_empty(bytes: &[u8]) -> Option<Found<'_>>
    ensures { option_map view result ≡ unless_empty bytes.now }
{
    if bytes.is_empty() {
        None
    } else {
        Some(Found::Bytes(bytes))
    }
}

fn number_unless(default: u8, number: u8) -> Option<Found<'static>>
    ensures value { option_map view result ≡ unless_number default number }
    ensures range { number ≤ 255 }
{
    if number == default {
        None
    } else {
        Some(Found::Number(u64::from(number)))
    }
}

fn truth_if_true(truth: bool) -> Option<Found<'static>>
    ensures { option_map view result ≡ if_true truth }
{
    if truth {
        Some(Found::Truth(true))
    } else {
        None
    }
}

fn truth_unless_true(truth: bool) -> Option<Found<'static>>
    ensures { option_map view result ≡ unless_true truth }
{
    if truth {
        None
    } else {
        Some(Found::Truth(false))
    }
}

fn handle_value(handle: Option<&[u8; 16]>) -> Option<Found<'_>>
    ensures value { option_map view result ≡ option_map byte_string (name_of handle.entry) }
    ensures length { IfSome (name_of handle.entry) IsHandle }
{
    match handle {
        None => None,
        Some(handle) => Some(Found::Bytes(handle)),
    }
}

fn input_value(input: &[u8; 64]) -> Option<Found<'_>>
    ensures value { option_map view result ≡ Some (byte_string input.now) }
    ensures length { length input.now ≡ 64 }
{
    Some(Found::Bytes(input))
}

fn inline<'a>(config: &Config<'a>) -> Option<Found<'a>>
    ensures value { option_map view result ≡ inline_value (configuration_of config.now) }
    ensures length { IsInlineRight (configuration_of config.now) }
{
    match config {
        Config::Inline(input) => input_value(input),
        Config::Descriptor(_) => None,
    }
}

fn descriptor<'a>(config: &Config<'a>) -> Option<Found<'a>>
    ensures { option_map view result ≡ descriptor_value (configuration_of config.now) }
{
    match config {
        Config::Inline(_) => None,
        Config::Descriptor(descriptor) => Some(Found::Bytes(descriptor)),
    }
}

fn hidden_input<'a>(hidden: &Option<&'a [u8; 64]>) -> Option<Found<'a>>
    ensures value { option_map view result ≡ option_map byte_string (option_map (λ h. h.now) hidden.now) }
    ensures length { IfSome hidden.now (λ h. length h.now ≡ 64) }
{
    match hidden {
        None => None,
        Some(input) => input_value(input),
    }
}

fn locality_number(locality: &Option<u8>) -> Option<Found<'static>>
    ensures { option_map view result ≡ option_map number_value locality.now }
{
    match locality {
        None => None,
        Some(locality) => Some(Found::Number(u64::from(*locality))),
    }
}

fn write_derive(derive: &Derive<'_>, room: &mut [u8; 4096]) -> usize
    requires { IsDeriveWritable derive.now }
    ensures within { result ≤ 4096 }
    ensures written { take result room.new ≡ command_payload (a_derive (derive_request derive.now)) }
    ensures behind { drop result room.new ≡ drop result room.old }
{
    let handle = handle_value(derive.handle);
    let code = input_value(derive.code);
    let inline = inline(&derive.config);
    let descriptor = descriptor(&derive.config);
    let authority = input_value(derive.authority);
    let mode = Some(Found::Number(u64::from(derive.mode)));
    let hidden = hidden_input(&derive.hidden);
    let retain = truth_if_true(derive.retain);
    let may_derive = truth_unless_true(derive.may_derive);
    let locality = locality_number(&derive.locality);
    let child_default = truth_if_true(derive.child_default);
    write_message(
        codes::DERIVE_CONTEXT,
        &[
            (1, handle),
            (2, code),
            (3, inline),
            (4, descriptor),
            (5, authority),
            (6, mode),
            (7, hidden),
            (8, retain),
            (9, may_derive),
            (10, locality),
            (12, child_default),
        ],
        room,
    )
}

fn write_sign(sign: &Sign<'_>, room: &mut [u8; 4096]) -> usize
    requires label { length sign.now.label.now ≤ 64 }
    requires message { length sign.now.message.now ≤ 2048 }
    ensures within { result ≤ 4096 }
    ensures written { take result room.new ≡ command_payload (a_sign (sign_request sign.now)) }
    ensures behind { drop result room.new ≡ drop result room.old }
{
    let handle = handle_value(sign.handle);
    let label = bytes_unless_empty(sign.label);
    let retain = truth_if_true(sign.retain);
    write_message(
        codes::SIGN,
        &[
            (1, handle),
            (2, label),
            (3, retain),
            (4, Some(Found::Truth(true))),
            (5, Some(Found::Bytes(sign.message))),
        ],
        room,
    )
}

fn write_seal(seal: &Seal<'_>, room: &mut [u8; 4096]) -> usize
    requires label { length seal.now.label.now ≤ 64 }
    requires modes { seal.now.modes ≤ 15 }
    requires plain { length seal.now.plain.now ≤ 2048 }
    ensures within { result ≤ 4096 }
    ensures written { take result room.new ≡ command_payload (a_seal (seal_request seal.now)) }
    ensures behind { drop result room.new ≡ drop result room.old }
{
    let handle = handle_value(seal.handle);
    let label = bytes_unless_empty(seal.label);
    let retain = truth_if_true(seal.retain);
    let localities = number_unless(255, seal.localities);
    let modes = number_unless(15, seal.modes);
    write_message(
        codes::SEAL,
        &[
            (1, handle),
            (2, label),
            (3, retain),
            (4, localities),
            (5, modes),
            (6, Some(Found::Bytes(seal.plain))),
        ],
        room,
    )
}

fn write_unseal(unseal: &Unseal<'_>, room: &mut [u8; 4096]) -> usize
    requires label { length unseal.now.label.now ≤ 64 }
    requires sealed { length unseal.now.sealed.now ≤ 3900 }
    ensures within { result ≤ 4096 }
    ensures written { take result room.new ≡ command_payload (an_unseal (unseal_request unseal.now)) }
    ensures behind { drop result room.new ≡ drop result room.old }
{
    let handle = handle_value(unseal.handle);
    let label = bytes_unless_empty(unseal.label);
    let retain = truth_if_true(unseal.retain);
    write_message(
        codes::UNSEAL,
        &[
            (1, handle),
            (2, label),
            (3, retain),
            (5, Some(Found::Bytes(unseal.sealed))),
        ],
        room,
    )
}

/// Writes the one payload of a command that leaves out what equals its default, and answers its length.
///
/// A label has at most 64 bytes, a descriptor 1,024, a message and a plaintext 2,048 and a box 3,900. A mode is
/// at most 3, a mask of modes at most 15, a locality at most 7.
pub fn write_command(command: &Command<'_>, room: &mut [u8; 4096]) -> usize
    requires { IsCommandWritable command.now }
    ensures within { result ≤ 4096 }
    ensures written { take result room.new ≡ command_payload (request_of command.now) }
    ensures behind { drop result room.new ≡ drop result room.old }
{
    match command {
        Command::GetProfile => write_message(codes::GET_PROFILE, &[], room),
        Command::Initialize { default } => write_message(
            codes::INITIALIZE_CONTEXT,
            &[(2, truth_if_true(*default))],
            room,
        ),
        Command::Derive(derive) => write_derive(derive, room),
        Command::Sign(sign) => write_sign(sign, room),
        Command::Seal(seal) => write_seal(seal, room),
        Command::Unseal(unseal) => write_unseal(unseal, room),
        Command::Rotate { handle, default } => write_rotate(*handle, *default, room),
        Command::Destroy { handle, recursive } => write_destroy(*handle, *recursive, room),
    }
}

ghost use Rattle.dpe_messages.specs.Request.{rotate, destroy};

fn write_rotate(handle: Option<&[u8; 16]>, default: bool, room: &mut [u8; 4096]) -> usize
    ensures within { result ≤ 4096 }
    ensures written { take result room.new ≡ command_payload (rotate (name_of handle.entry) default) }
    ensures behind { drop result room.new ≡ drop result room.old }
{
    write_message(
        codes::ROTATE_CONTEXT_HANDLE,
        &[(1, handle_value(handle)), (2, truth_if_true(default))],
        room,
    )
}

fn write_destroy(handle: Option<&[u8; 16]>, recursive: bool, room: &mut [u8; 4096]) -> usize
    ensures within { result ≤ 4096 }
    ensures written { take result room.new ≡ command_payload (destroy (name_of handle.entry) recursive) }
    ensures behind { drop result room.new ≡ drop result room.old }
{
    write_message(
        codes::DESTROY_CONTEXT,
        &[(1, handle_value(handle)), (2, truth_if_true(recursive))],
        room,
    )
}
