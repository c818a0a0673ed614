//! What a command asks of the state.
ghost use Rattle.std.specs.Prelude.{◌≡◌, Option};
ghost use Rattle.std.specs.Option.{option_map};
ghost use Rattle.dpe_messages.specs.Commands.{request_of, derive_request};
ghost use Rattle.dpe_messages.specs.Request.{locality_or};
ghost use Rattle.dpe_model.specs.Verdict.{named as named_by, uses_row as uses_context, makes as made_by, initializes as is_initialize, derives as is_derive, retains_parent as keeps_parent};

use dpe_messages::{Command, Derive};

/// The handle that a command names, if it names one.
pub fn named<'a>(command: &Command<'a>) -> Option<&'a [u8; 16]>
    ensures { option_map (λ h. h.now) result ≡ named_by (request_of command.now) }
{
    match command {
        Command::GetProfile => None,
        Command::Initialize { .. } => None,
        Command::Derive(derive) => derive.handle,
        Command::Sign(sign) => sign.handle,
        Command::Seal(seal) => seal.handle,
        Command::Unseal(unseal) => unseal.handle,
        Command::Rotate { handle, .. } => *handle,
        Command::Destroy { handle, .. } => *handle,
    }
}

/// Whether a command uses a context: all do but GetProfile and InitializeContext.
pub fn uses_row(command: &Command<'_>) -> bool
    ensures { result ≡ uses_context (request_of command.now) }
{
    !matches!(command, Command::GetProfile | Command::Initialize { .. })
}

/// How many handles a command makes.
pub fn makes(command: &Command<'_>) -> u64
    ensures { result ≡ made_by (request_of command.now) }
{
    match command {
        Command::GetProfile => 0,
        Command::Initialize { .. } => 1,
        Command::Derive(derive) => { if derive.retain { 2 } else { 1 } }
        Command::Sign(sign) => u64::from(sign.retain),
        Command::Seal(seal) => u64::from(seal.retain),
        Command::Unseal(unseal) => u64::from(unseal.retain),
        Command::Rotate { .. } => 1,
        Command::Destroy { .. } => 0,
    }
}

pub fn initializes(command: &Command<'_>) -> bool
    ensures { result ≡ is_initialize (request_of command.now) }
{
    matches!(command, Command::Initialize { .. })
}

pub fn derives(command: &Command<'_>) -> bool
    ensures { result ≡ is_derive (request_of command.now) }
{
    matches!(command, Command::Derive(_))
}

/// Whether it is a derivation that retains the parent.
pub fn retains_parent(command: &Command<'_>) -> bool
    ensures { result ≡ keeps_parent (request_of command.now) }
{
    match command {
        Command::Derive(derive) => derive.retain,
        _ => false,
    }
}

/// The locality of the child of a derivation.
pub fn target(locality: u8, derive: &Derive<'_>) -> u8
    ensures { result ≡ locality_or locality (derive_request derive.now) }
{
    match derive.locality {
        None => locality,
        Some(target) => target,
    }
}
