//! A path as the program reads it: inputs of 257 bytes each.
ghost use Rattle.std.specs.Prelude.{◌≡◌, ◌+◌, ◌*◌, ◌≤◌, ◌↔◌, All, length, take, drop, IfSome, IfNone, IsTrue};
ghost use Rattle.dpe_quotes.specs.Stored.{first_inputs, input_at as input_of, IsPath, path_of};

use dpe_inputs::Input;

/// The most inputs of a path.
pub(crate) const MAX_INPUTS: usize = 32;

/// The bytes of an input: its code, configuration, authority, mode and hidden input.
pub(crate) const INPUT_SIZE: usize = 257;

/// An input of zeros, as a room begins with.
pub(crate) const BLANK: Input = Input {
    code: [0; 64],
    config: [0; 64],
    authority: [0; 64],
    mode: 0,
    hidden: [0; 64],
};

// The 64 bytes from a place on.
fn digest_at(bytes: &[u8], at: usize) -> [u8; 64]
    requires { at + 64 ≤ length bytes.now }
    ensures { result ≡ take 64 (drop at bytes.now) }
{
    let mut digest = [0; 64];
    digest.copy_from_slice(&bytes[at..at + 64]);
    digest
}

// The input from a place on.
fn input_at(bytes: &[u8], at: usize) -> Input
    requires { at + 257 ≤ length bytes.now }
    ensures { result ≡ input_of bytes.now at }
{
    Input {
        code: digest_at(bytes, at),
        config: digest_at(bytes, at + 64),
        authority: digest_at(bytes, at + 128),
        mode: bytes[at + 192],
        hidden: digest_at(bytes, at + 193),
    }
}

// Whether all modes are 0 to 3.
fn are_modes(path: &[Input]) -> bool
    ensures { IsTrue result ↔ All (λ x. x.mode ≤ 3) path.now }
{
    path.iter().all(|input| input.mode <= 3)
}

// Puts so many inputs into the front of the room.
fn put_inputs(bytes: &[u8], depth: usize, path: &mut [Input; MAX_INPUTS])
    requires few { depth ≤ MAX_INPUTS }
    requires whole { INPUT_SIZE * depth ≤ length bytes.now }
    ensures { take depth path.new ≡ first_inputs depth bytes.now }
{
    for layer in 0..depth {
        path[layer] = input_at(bytes, INPUT_SIZE * layer);
    }
}

/// Reads a path into the front of the room, and says how many inputs it has, where the bytes are at most 32 whole inputs
/// with modes 0 to 3.
pub(crate) fn read_path(bytes: &[u8], path: &mut [Input; MAX_INPUTS]) -> Option<usize>
    ensures found { IfSome result (λ depth. IsPath bytes.now × (depth ≤ MAX_INPUTS)) }
    ensures path { IfSome result (λ depth. take depth path.new ≡ path_of bytes.now) }
    ensures none { IfNone result (IsPath bytes.now → ⊥) }
{
    let depth = bytes.len() / INPUT_SIZE;
    if depth > MAX_INPUTS {
        return None;
    }
    if bytes.len() % INPUT_SIZE != 0 {
        return None;
    }
    put_inputs(bytes, depth, path);
    if !are_modes(&path[..depth]) {
        return None;
    }
    Some(depth)
}
