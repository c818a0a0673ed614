//! How many replies had each code, the digest of their frames, and the text that tells both.
ghost use Rattle.std.specs.Prelude.{◌≡◌, ◌<◌, ◌≤◌, ℕ, List, [], ◌∷◌, ◌++◌, length, string_bytes, IfOk, OnOk};
ghost use Rattle.sha2.specs.Hashers.{Holds512};
ghost use Rattle.dpe_link.specs.Frames.{frame};
ghost use Rattle.dpe_messages.specs.Replies.{Response, IsWritable, response_of, reply_payload, code_of};
ghost use Rattle.dpe_tape.specs.LoadText.{code_bound, code_line, code_lines, digest_line, told_text};
ghost use Rattle.dpe_tape.specs.Tally.{HasCounts, IsTally};
ghost use Rattle.dpe_tape.specs.Words.{command_limit};

use dpe_messages::Reply;
use sha2::{Digest, Sha512};
use std::alloc::{AllocError, Global};

/// Every code of a reply is below this number.
const CODE_BOUND: usize = 30;

/// The code of a reply.
pub fn code(reply: &Reply<'_>) -> u8
    ensures { result ≡ code_of (response_of reply.now) }
{
    match reply {
        Reply::Refused(code) => *code,
        Reply::Profile => 0,
        Reply::Handle(_) => 0,
        Reply::Derived { .. } => 0,
        Reply::Made { .. } => 0,
        Reply::Done => 0,
    }
}

/// How many replies had each code, and the digest of their frames.
#[derive(Drop)]
pub struct Tally {
    pub counts: [u32; CODE_BOUND],
    pub frames: Sha512,
}

// Counts one more reply with the code.
fn count(counts: &mut [u32; CODE_BOUND], code: u8)
    requires { code < CODE_BOUND }
    ensures { (rs : List Response) (r : Response) → code ≡ code_of r → length rs < command_limit
        → HasCounts counts.old rs → HasCounts counts.new (rs ++ r ∷ []) }
{
    let at = code as usize;
    counts[at] = counts[at].saturating_add(1);
}

// Hashes the frame of a payload.
fn hash_frame(frames: &mut Sha512, payload: &[u8])
    requires { length payload.now ≤ 4096 }
    ensures { (m : List ℕ) → Holds512 frames.old m → Holds512 frames.new (m ++ frame payload.now) }
{
    let len = payload.len() as u32;
    frames.update(&len.to_be_bytes());
    frames.update(payload);
}

// Appends the line of a code that occurred.
fn push_code(text: &mut String, code: usize, count: u32) -> Result<(), AllocError>
    ensures { OnOk result (string_bytes text.new ≡ string_bytes text.old ++ code_line code count) }
{
    if count == 0 {
        return Ok(());
    }
    writeln!(text, "code {code} {count}")
}

// Appends the lines of the codes that occurred.
fn push_codes(text: &mut String, counts: &[u32; CODE_BOUND]) -> Result<(), AllocError>
    ensures { OnOk result ((rs : List Response) → HasCounts counts.now rs
        → string_bytes text.new ≡ string_bytes text.old ++ code_lines code_bound rs) }
{
    for code in 0..CODE_BOUND {
        push_code(text, code, counts[code])?;
    }
    Ok(())
}

// Appends the line of the digest.
fn push_digest(alloc: Global, text: &mut String, digest: &[u8; 64]) -> Result<(), AllocError>
    ensures { OnOk result (string_bytes text.new ≡ string_bytes text.old ++ digest_line digest.now) }
{
    let digits = hex::encode(alloc, digest)?;
    writeln!(text, "digest {digits}")
}

impl Tally {
    /// Of no reply.
    pub fn new() -> Tally
        ensures { IsTally result [] }
    {
        Tally {
            counts: [0; CODE_BOUND],
            frames: Sha512::new(),
        }
    }

    /// Adds a reply with its payload.
    pub fn add(&mut self, reply: &Reply<'_>, payload: &[u8])
        requires writable { IsWritable reply.now }
        requires payload { payload.now ≡ reply_payload (response_of reply.now) }
        requires len { length payload.now ≤ 4096 }
        ensures { (rs : List Response) → length rs < command_limit
            → IsTally self.old rs → IsTally self.new (rs ++ response_of reply.now ∷ []) }
    {
        count(&mut self.counts, code(reply));
        hash_frame(&mut self.frames, payload);
    }

    /// The text of so many commands, whose replies were added.
    pub fn told(self, alloc: Global, commands: u32) -> Result<String, AllocError>
        ensures { IfOk result (λ text. (rs : List Response) → IsTally self rs → string_bytes text ≡ told_text commands rs) }
    {
        let mut text = String::new(alloc);
        writeln!(text, "commands {commands}")?;
        push_codes(&mut text, &self.counts)?;
        push_digest(alloc, &mut text, &self.frames.finalize())?;
        Ok(text)
    }
}
