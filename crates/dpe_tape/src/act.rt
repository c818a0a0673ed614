//! What a command of a load does.
ghost use Rattle.std.specs.Prelude.{◌≡◌, ◌≤◌, false, Some, length, take};
ghost use Rattle.dpe_messages.specs.CommandRows.{command_payload};
ghost use Rattle.dpe_messages.specs.Request.{derive, sign, seal, unseal, rotate, destroy};
ghost use Rattle.dpe_tape.specs.Load.{act_of, request_for, asked_by, locality_for, locality_of_new, names_picked, makes_box, derivation, signing, sealing, unsealing, filled};

use crate::draws::eight_times;
use dpe_messages::{Asked, Command, Config, Derive, Seal, Sign, Unseal, write_command};

/// What a command does.
#[derive(Clone, Copy, Debug, PartialEq, Eq)]
pub enum Act {
    Initialize,
    /// Derives a child and retains the parent.
    Derive,
    /// Derives a child in the place of the parent.
    DeriveAway,
    Rotate,
    Sign,
    Seal,
    Unseal,
    Destroy,
    /// Rotates the handle that was spent last.
    RotateSpent,
    Profile,
}

/// What a number of 0 to 15 chooses.
#[tactic(auto, unfolding(crate::specs::Load::act_of))]
pub fn chosen(number: u32) -> Act
    ensures { result ≡ act_of number }
{
    match number {
        0..=4 => Act::Derive,
        5 => Act::DeriveAway,
        6 => Act::Rotate,
        7 | 8 => Act::Sign,
        9 | 10 => Act::Seal,
        11 | 12 => Act::Unseal,
        13 => Act::Destroy,
        14 => Act::RotateSpent,
        _ => Act::Profile,
    }
}

impl Act {
    /// Whether it names the picked handle.
    pub fn names_picked(self) -> bool
        ensures { result ≡ names_picked self }
    {
        match self {
            Act::Initialize => false,
            Act::RotateSpent => false,
            Act::Profile => false,
            Act::Derive => true,
            Act::DeriveAway => true,
            Act::Rotate => true,
            Act::Sign => true,
            Act::Seal => true,
            Act::Unseal => true,
            Act::Destroy => true,
        }
    }

    /// The caller's locality, where the picked handle's is given.
    pub fn locality(self, near: u8) -> u8
        ensures { result ≡ locality_for self near }
    {
        if self.names_picked() { near } else { 0 }
    }

    /// The locality of a new handle that is no child's, where the picked handle's is given.
    pub fn locality_of_new(self, near: u8) -> u8
        ensures { result ≡ locality_of_new self near }
    {
        match self {
            Act::Initialize => 0,
            Act::Derive => near,
            Act::DeriveAway => near,
            Act::Rotate => near,
            Act::Sign => near,
            Act::Seal => near,
            Act::Unseal => near,
            Act::Destroy => near,
            Act::RotateSpent => near,
            Act::Profile => near,
        }
    }

    /// Whether what it makes is a box.
    pub fn makes_box(self) -> bool
        ensures { result ≡ makes_box self }
    {
        match self {
            Act::Initialize => false,
            Act::Derive => false,
            Act::DeriveAway => false,
            Act::Rotate => false,
            Act::Sign => false,
            Act::Seal => true,
            Act::Unseal => false,
            Act::Destroy => false,
            Act::RotateSpent => false,
            Act::Profile => false,
        }
    }

    /// The command that its reply answers.
    pub fn asked(self) -> Asked
        ensures { result ≡ asked_by self }
    {
        match self {
            Act::Initialize => Asked::Initialize,
            Act::Derive => Asked::Derive,
            Act::DeriveAway => Asked::Derive,
            Act::Rotate => Asked::Rotate,
            Act::Sign => Asked::Sign,
            Act::Seal => Asked::Seal,
            Act::Unseal => Asked::Unseal,
            Act::Destroy => Asked::Destroy,
            Act::RotateSpent => Asked::Rotate,
            Act::Profile => Asked::GetProfile,
        }
    }
}

// An input of 64 equal bytes.
fn fill(argument: u32, more: u8) -> [u8; 64]
    ensures { result ≡ filled argument more }
{
    [((u64::from(argument) + u64::from(more)) % 256) as u8; 64]
}

// The inputs that a child is derived with.
#[derive(Drop)]
struct Inputs {
    code: [u8; 64],
    config: [u8; 64],
    authority: [u8; 64],
}

// Writes a derivation with these inputs, whose child may derive and has a locality of its own.
fn write_derive<'a>(
    handle: &'a [u8; 16],
    inputs: &'a Inputs,
    argument: u32,
    retain: bool,
    room: &mut [u8; 4096],
) -> usize
    requires code { inputs.now.code ≡ filled argument 0 }
    requires config { inputs.now.config ≡ filled argument 1 }
    requires authority { inputs.now.authority ≡ filled argument 2 }
    ensures within { result ≤ 4096 }
    ensures written { take result room.new ≡ command_payload (derive (derivation handle.now argument retain)) }
{
    let derive = Derive {
        handle: Some(handle),
        code: &inputs.code,
        config: Config::Inline(&inputs.config),
        authority: &inputs.authority,
        mode: (argument % 4) as u8,
        hidden: None,
        retain,
        may_derive: true,
        locality: Some((argument / 8 % 8) as u8),
        child_default: false,
    };
    write_command(&Command::Derive(derive), room)
}

// Writes a derivation with the inputs that a number gives.
fn write_derivation(handle: &[u8; 16], argument: u32, retain: bool, room: &mut [u8; 4096]) -> usize
    ensures within { result ≤ 4096 }
    ensures written { take result room.new ≡ command_payload (derive (derivation handle.now argument retain)) }
{
    let inputs = Inputs {
        code: fill(argument, 0),
        config: fill(argument, 1),
        authority: fill(argument, 2),
    };
    write_derive(handle, &inputs, argument, retain, room)
}

// Writes a Sign that retains the context.
fn write_sign<'a>(handle: &'a [u8; 16], message: &'a [u8; 32], room: &mut [u8; 4096]) -> usize
    ensures within { result ≤ 4096 }
    ensures written { take result room.new ≡ command_payload (sign (signing handle.now message.now)) }
{
    let sign = Sign {
        handle: Some(handle),
        label: &[],
        retain: true,
        message,
    };
    write_command(&Command::Sign(sign), room)
}

// Writes a Seal that retains the context, for each locality and mode.
fn write_seal<'a>(handle: &'a [u8; 16], plain: &'a [u8; 32], room: &mut [u8; 4096]) -> usize
    ensures within { result ≤ 4096 }
    ensures written { take result room.new ≡ command_payload (seal (sealing handle.now plain.now)) }
{
    let seal = Seal {
        handle: Some(handle),
        label: &[],
        retain: true,
        localities: 255,
        modes: 15,
        plain,
    };
    write_command(&Command::Seal(seal), room)
}

// Writes an Unseal that retains the context.
fn write_unseal<'a>(handle: &'a [u8; 16], sealed: &'a [u8], room: &mut [u8; 4096]) -> usize
    requires { length sealed.now ≤ 3900 }
    ensures within { result ≤ 4096 }
    ensures written { take result room.new ≡ command_payload (unseal (unsealing handle.now sealed.now)) }
{
    let unseal = Unseal {
        handle: Some(handle),
        label: &[],
        retain: true,
        sealed,
    };
    write_command(&Command::Unseal(unseal), room)
}

fn write_rotate(handle: &[u8; 16], room: &mut [u8; 4096]) -> usize
    ensures within { result ≤ 4096 }
    ensures written { take result room.new ≡ command_payload (rotate (Some handle.now) false) }
{
    let rotate = Command::Rotate {
        handle: Some(handle),
        default: false,
    };
    write_command(&rotate, room)
}

fn write_destroy(handle: &[u8; 16], room: &mut [u8; 4096]) -> usize
    ensures within { result ≤ 4096 }
    ensures written { take result room.new ≡ command_payload (destroy (Some handle.now) false) }
{
    let destroy = Command::Destroy {
        handle: Some(handle),
        recursive: false,
    };
    write_command(&destroy, room)
}

/// Writes the payload of a command on a handle, and says how long it is. The last box has at most 3,900 bytes.
pub fn write_act(
    act: Act,
    handle: &[u8; 16],
    argument: u32,
    last_box: &[u8],
    spent: &[u8; 16],
    room: &mut [u8; 4096],
) -> usize
    requires { length last_box.now ≤ 3900 }
    ensures within { result ≤ 4096 }
    ensures written { take result room.new
        ≡ command_payload (request_for act handle.now argument last_box.now spent.now) }
{
    match act {
        Act::Initialize => write_command(&Command::Initialize { default: false }, room),
        Act::Derive => write_derivation(handle, argument, true, room),
        Act::DeriveAway => write_derivation(handle, argument, false, room),
        Act::Rotate => write_rotate(handle, room),
        Act::Sign => write_sign(handle, &eight_times(argument), room),
        Act::Seal => write_seal(handle, &eight_times(argument), room),
        Act::Unseal => write_unseal(handle, last_box, room),
        Act::Destroy => write_destroy(handle, room),
        Act::RotateSpent => write_rotate(spent, room),
        Act::Profile => write_command(&Command::GetProfile, room),
    }
}
