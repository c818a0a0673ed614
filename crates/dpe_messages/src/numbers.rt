//! The number in a payload's inner layer: of a command, or the code of a reply.
ghost use Rattle.std.specs.Prelude.{◌≡◌, ◌≤◌, ℕ, IfSome, IfNone};
ghost use Rattle.dpe_messages.specs.Layers.{HasNumber, HasCommandNumber};
ghost use Rattle.dpe_messages.specs.Reading.{number_of, command_of};

use crate::codes;
use crate::layers::outer;
use crate::slots::inner;

fn number_in(payload: &[u8]) -> Option<u64>
    ensures { result ≡ number_of payload.now }
{
    let (session, bytes) = outer(payload)?;
    if session != 0 {
        return None;
    }
    let (number, _) = inner(bytes)?;
    Some(number)
}

fn command_number_in(payload: &[u8]) -> Option<u64>
    ensures { result ≡ command_of payload.now }
{
    let number = number_in(payload)?;
    if !(codes::GET_PROFILE..=codes::GET_CERTIFICATE_CHAIN).contains(&number) {
        return None;
    }
    Some(number)
}

/// The code in a reply's payload: the first number of the inner array.
///
/// It is `None` exactly where the payload isn't the encoding of `[0, bytes]`, the bytes being the encoding of
/// `[unsigned, flat map]`.
pub fn reply_code(payload: &[u8]) -> Option<u64>
    ensures some { IfSome result (HasNumber payload.now) }
    ensures none { IfNone result ((n : ℕ) → ¬ HasNumber payload.now n) }
    ensures exact { result ≡ number_of payload.now }
{
    number_in(payload)
}

/// The number of the command in a payload, which is 1 to 16.
///
/// It is `None` exactly where the payload isn't the encoding of `[0, bytes]`, the bytes being the encoding of
/// `[number, flat map]` with such a number.
pub fn command_number(payload: &[u8]) -> Option<u64>
    ensures some { IfSome result (HasCommandNumber payload.now) }
    ensures none { IfNone result ((n : ℕ) → ¬ HasCommandNumber payload.now n) }
    ensures exact { result ≡ command_of payload.now }
{
    command_number_in(payload)
}
