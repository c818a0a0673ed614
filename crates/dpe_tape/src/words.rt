ghost use Rattle.std.specs.Prelude.{◌≡◌, ◌^◌, ◌<◌, ◌≤◌, ℕ, List, [], ◌∷◌, IfSome, IfNone};
ghost use Rattle.std.specs.Fmt.{decimal};
ghost use Rattle.dpe_tape.specs.Words.{IsRun, IsLoad, AskFor, AreFaulty, command_limit, texts};

use dpe_text::parse_number;

/// The most commands of a load.
const MAX_COMMANDS: u32 = 65_536;

/// A tape to be executed.
#[derive(Clone, Copy)]
pub struct Run {
    pub seed: [u8; 32],
    pub first: u64,
}

/// A load: the number that it begins with, and how many commands it has.
#[derive(Clone, Copy)]
pub struct Load {
    pub number: u64,
    pub commands: u32,
}

/// What the words ask for.
#[derive(Clone, Copy)]
pub enum Request {
    Run(Run),
    Load(Load),
}

// The seed and the first serial of three words.
fn read_run(name: &str, digits: &str, first: &str) -> Option<Run>
    ensures found { IfSome result (λ run. IsRun (name.now ∷ digits.now ∷ first.now ∷ []) run.seed run.first) }
    ensures none { IfNone result ((seed : List ℕ) (serial : ℕ) → IsRun (name.now ∷ digits.now ∷ first.now ∷ []) seed serial → ⊥) }
{
    if name != "run" {
        return None;
    }
    let mut seed = [0u8; 32];
    let Ok(()) = hex::decode_to_slice(digits, &mut seed) else {
        return None;
    };
    let first = parse_number(first)?;
    Some(Run { seed, first })
}

// A number of commands that a load may have.
fn parse_commands(text: &str) -> Option<u32>
    ensures found { IfSome result (λ n. (text.now ≡ decimal n) × (1 ≤ n) × (n ≤ command_limit)) }
    ensures none { IfNone result ((n : ℕ) → text.now ≡ decimal n → 1 ≤ n → n ≤ command_limit → ⊥) }
{
    let commands = parse_number(text)?;
    if commands == 0 {
        return None;
    }
    if commands > u64::from(MAX_COMMANDS) {
        return None;
    }
    Some(commands as u32)
}

// The load of three words.
fn read_load(name: &str, number: &str, commands: &str) -> Option<Load>
    ensures found { IfSome result (λ load. IsLoad (name.now ∷ number.now ∷ commands.now ∷ []) load.number load.commands) }
    ensures none { IfNone result ((n k : ℕ) → IsLoad (name.now ∷ number.now ∷ commands.now ∷ []) n k → ⊥) }
{
    if name != "load" {
        return None;
    }
    let number = parse_number(number)?;
    let commands = parse_commands(commands)?;
    Some(Load { number, commands })
}

// What three words ask for.
fn read_three(name: &str, second: &str, third: &str) -> Option<Request>
    ensures found { IfSome result (AskFor (name.now ∷ second.now ∷ third.now ∷ [])) }
    ensures none { IfNone result (AreFaulty (name.now ∷ second.now ∷ third.now ∷ [])) }
{
    if let Some(run) = read_run(name, second, third) {
        return Some(Request::Run(run));
    }
    match read_load(name, second, third) {
        Some(load) => Some(Request::Load(load)),
        None => None,
    }
}

/// What the words `run SEED FIRST` or `load N K` ask for.
pub fn read_words(words: &[&str]) -> Option<Request>
    ensures found { IfSome result (AskFor (texts words.now)) }
    ensures none { IfNone result (AreFaulty (texts words.now)) }
{
    if words.len() != 3 {
        return None;
    }
    read_three(words[0], words[1], words[2])
}
