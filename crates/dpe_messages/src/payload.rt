//! The class of a payload: a command, or why it is none.
ghost use Rattle.std.specs.Prelude.{◌≡◌, ◌≤◌, ◌<◌, ◌^◌, ℕ, [], length, IfSome};
ghost use Rattle.std.specs.Option.{option_map};
ghost use Rattle.dpe_messages.specs.FlatMap.{FlatMap};
ghost use Rattle.dpe_messages.specs.Found.{view};
ghost use Rattle.dpe_messages.specs.Arguments.{arguments};
ghost use Rattle.dpe_messages.specs.Slots.{value_in, Holds, AreRead};
ghost use Rattle.dpe_messages.specs.Ranges.{InRanges, IsConfiguration, IsDerive, IsSign, IsSeal, IsUnseal, IsHandle, IsInput};
ghost use Rattle.dpe_messages.specs.Request.{request_from, bytes_or, number_or, truth_or, bytes_if, number_if, config_of};
ghost use Rattle.dpe_messages.specs.Request.{derive_from, sign_from, seal_from, unseal_from};
ghost use Rattle.dpe_messages.specs.Commands.{name_of, request_of, derive_request, sign_request, seal_request, unseal_request, configuration_of, class_of_answer};
ghost use Rattle.dpe_messages.specs.Class.{class, class_of, IsClass, is_command_number as may_be_command, is_unsupported as is_left_out};

use crate::arguments::arguments_of;
use crate::codes;
use crate::command::{Command, Config, Derive, Refusal, Seal, Sign, Unseal};
use crate::layers::{Found, outer};
use crate::slots::{Slots, inner};

fn bytes(value: Option<Found<'_>>) -> &[u8]
    ensures { result.now ≡ bytes_or [] (option_map view value.entry) }
{
    match value {
        Some(Found::Bytes(b)) => b,
        _ => &[],
    }
}

fn flag(value: Option<Found<'_>>, default: bool) -> bool
    ensures { result ≡ truth_or default (option_map view value.entry) }
{
    match value {
        Some(Found::Truth(b)) => b,
        _ => default,
    }
}

fn number(value: Option<Found<'_>>, default: u8) -> u8
    requires { number_or default (option_map view value) < 2 ^ 8 }
    ensures { result ≡ number_or default (option_map view value.entry) }
{
    match value {
        Some(Found::Number(n)) => n as u8,
        _ => default,
    }
}

fn number_if_there(value: Option<Found<'_>>) -> Option<u8>
    requires { IfSome (number_if (option_map view value)) (λ n. n < 2 ^ 8) }
    ensures { result ≡ number_if (option_map view value.entry) }
{
    match value {
        Some(Found::Number(n)) => Some(n as u8),
        _ => None,
    }
}

fn array16(bytes: &[u8]) -> &[u8; 16]
    requires { IsHandle bytes.now }
    ensures { result.now ≡ bytes.now }
{
    match bytes.split_first_chunk() {
        Some((array, _)) => array,
        None => unreachable!(),
    }
}

fn array64(bytes: &[u8]) -> &[u8; 64]
    requires { IsInput bytes.now }
    ensures { result.now ≡ bytes.now }
{
    match bytes.split_first_chunk() {
        Some((array, _)) => array,
        None => unreachable!(),
    }
}

fn handle_if_there(value: Option<Found<'_>>) -> Option<&[u8; 16]>
    requires { IfSome (bytes_if (option_map view value)) IsHandle }
    ensures { name_of result ≡ bytes_if (option_map view value.entry) }
{
    match value {
        Some(Found::Bytes(b)) => Some(array16(b)),
        _ => None,
    }
}

fn input(value: Option<Found<'_>>) -> &[u8; 64]
    requires { IsInput (bytes_or [] (option_map view value)) }
    ensures { result.now ≡ bytes_or [] (option_map view value.entry) }
{
    array64(bytes(value))
}

fn input_if_there(value: Option<Found<'_>>) -> Option<&[u8; 64]>
    requires { IfSome (bytes_if (option_map view value)) IsInput }
    ensures { option_map (λ x. x.now) result ≡ bytes_if (option_map view value.entry) }
{
    match value {
        Some(Found::Bytes(b)) => Some(array64(b)),
        _ => None,
    }
}

fn config<'a>(inline: Option<Found<'a>>, descriptor: Option<Found<'a>>) -> Config<'a>
    requires { IsConfiguration (config_of (option_map view inline) (option_map view descriptor)) }
    ensures { configuration_of result ≡ config_of (option_map view inline.entry) (option_map view descriptor.entry) }
{
    match inline {
        Some(Found::Bytes(b)) => Config::Inline(array64(b)),
        _ => Config::Descriptor(bytes(descriptor)),
    }
}

fn derive<'a>(slots: &Slots<'a>) -> Derive<'a>
    requires { IsDerive (derive_from (value_in slots.now)) }
    ensures { derive_request result ≡ derive_from (value_in slots.now) }
{
    Derive {
        handle: handle_if_there(slots.value(1)),
        code: input(slots.value(2)),
        config: config(slots.value(3), slots.value(4)),
        authority: input(slots.value(5)),
        mode: number(slots.value(6), 0),
        hidden: input_if_there(slots.value(7)),
        retain: flag(slots.value(8), false),
        may_derive: flag(slots.value(9), true),
        locality: number_if_there(slots.value(10)),
        child_default: flag(slots.value(12), false),
    }
}

fn sign<'a>(slots: &Slots<'a>) -> Sign<'a>
    requires { IsSign (sign_from (value_in slots.now)) }
    ensures { sign_request result ≡ sign_from (value_in slots.now) }
{
    Sign {
        handle: handle_if_there(slots.value(1)),
        label: bytes(slots.value(2)),
        retain: flag(slots.value(3), false),
        message: bytes(slots.value(5)),
    }
}

fn seal<'a>(slots: &Slots<'a>) -> Seal<'a>
    requires { IsSeal (seal_from (value_in slots.now)) }
    ensures { seal_request result ≡ seal_from (value_in slots.now) }
{
    Seal {
        handle: handle_if_there(slots.value(1)),
        label: bytes(slots.value(2)),
        retain: flag(slots.value(3), false),
        localities: number(slots.value(4), 255),
        modes: number(slots.value(5), 15),
        plain: bytes(slots.value(6)),
    }
}

fn unseal<'a>(slots: &Slots<'a>) -> Unseal<'a>
    requires { IsUnseal (unseal_from (value_in slots.now)) }
    ensures { unseal_request result ≡ unseal_from (value_in slots.now) }
{
    Unseal {
        handle: handle_if_there(slots.value(1)),
        label: bytes(slots.value(2)),
        retain: flag(slots.value(3), false),
        sealed: bytes(slots.value(5)),
    }
}

fn command_from<'a>(number: u64, slots: &Slots<'a>) -> Command<'a>
    requires { InRanges (request_from number (value_in slots.now)) }
    ensures { request_of result ≡ request_from number (value_in slots.now) }
{
    match number {
        codes::INITIALIZE_CONTEXT => Command::Initialize {
            default: flag(slots.value(2), false),
        },
        codes::DERIVE_CONTEXT => Command::Derive(derive(slots)),
        codes::SIGN => Command::Sign(sign(slots)),
        codes::SEAL => Command::Seal(seal(slots)),
        codes::UNSEAL => Command::Unseal(unseal(slots)),
        codes::ROTATE_CONTEXT_HANDLE => Command::Rotate {
            handle: handle_if_there(slots.value(1)),
            default: flag(slots.value(2), false),
        },
        codes::DESTROY_CONTEXT => Command::Destroy {
            handle: handle_if_there(slots.value(1)),
            recursive: flag(slots.value(2), false),
        },
        _ => Command::GetProfile,
    }
}

fn is_command_number(number: u64) -> bool
    ensures { result ≡ may_be_command number }
{
    matches!(number, codes::GET_PROFILE..=codes::GET_CERTIFICATE_CHAIN)
}

fn is_unsupported(number: u64) -> bool
    ensures { result ≡ is_left_out number }
{
    matches!(
        number,
        codes::OPEN_SESSION..=codes::IMPORT_SESSION
            | codes::CERTIFY_KEY
            | codes::DERIVE_SEALING_PUBLIC_KEY
            | codes::GET_CERTIFICATE_CHAIN
    )
}

// The lines on the inner number and the map.
fn command<'a>(number: u64, slots: &Slots<'a>) -> Result<Command<'a>, Refusal>
    requires { AreRead number slots.now }
    ensures { (m : FlatMap) → Holds (arguments number) slots.now m → class_of_answer result ≡ class_of number m }
{
    let table = arguments_of(number);
    if !is_command_number(number) {
        return Err(Refusal::NotACommand);
    }
    if is_unsupported(number) {
        return Err(Refusal::Unsupported);
    }
    if slots.asks_outside(table) {
        return Err(Refusal::Unsupported);
    }
    if !slots.is_right(table) {
        return Err(Refusal::BadArguments);
    }
    Ok(command_from(number, slots))
}

fn class_of_payload(payload: &[u8]) -> Result<Command<'_>, Refusal>
    ensures { class_of_answer result ≡ class payload.now }
{
    let Some((session, bytes)) = outer(payload) else {
        return Err(Refusal::NotACommand);
    };
    if session != 0 {
        return Err(Refusal::Unsupported);
    }
    let Some((number, slots)) = inner(bytes) else {
        return Err(Refusal::NotACommand);
    };
    command(number, &slots)
}

/// The command that a payload asks for, with its slices lent from the payload, or why it is none.
///
/// Defaults are filled in; the handle, the hidden input and the target locality stay `None` where they are absent.
pub fn read_payload(payload: &[u8]) -> Result<Command<'_>, Refusal>
    ensures class { class_of_answer result ≡ class payload.now }
    ensures is_class { IsClass payload.now (class_of_answer result) }
{
    class_of_payload(payload)
}
