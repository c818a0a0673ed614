//! Replies, written.
ghost use Rattle.std.specs.Prelude.{◌≡◌, ◌≤◌, drop, length};
ghost use Rattle.dpe_messages.specs.Commands.{refusal_code};
ghost use Rattle.dpe_messages.specs.Replies.{IsRefusalCode, longest_box, refused, profile, handle, derived, made, done};
ghost use Rattle.dpe_model.specs.Step.{IsPayload};

use crate::codes::{BAD_ARGUMENTS, NOT_A_COMMAND, UNSUPPORTED};
use dpe_messages::{Refusal, Reply, write_reply};

/// The code of a payload that is no command.
pub fn code(refusal: Refusal) -> u8
    ensures code { result ≡ refusal_code refusal }
    ensures coded { IsRefusalCode result }
{
    match refusal {
        Refusal::NotACommand => NOT_A_COMMAND,
        Refusal::Unsupported => UNSUPPORTED,
        Refusal::BadArguments => BAD_ARGUMENTS,
    }
}

/// Writes a refusal.
pub fn refuse(code: u8, out: &mut [u8; 4096]) -> usize
    requires { IsRefusalCode code }
    ensures payload { IsPayload out.new result (refused code) }
    ensures behind { drop result out.new ≡ drop result out.old }
{
    write_reply(&Reply::Refused(code), out)
}

/// Writes bytes that were asked for, with the new handle where the context is retained.
pub fn write_made(new: Option<[u8; 16]>, bytes: &[u8], out: &mut [u8; 4096]) -> usize
    requires { length bytes.now ≤ longest_box }
    ensures payload { IsPayload out.new result (made new bytes.now) }
    ensures behind { drop result out.new ≡ drop result out.old }
{
    write_reply(&Reply::Made { handle: new, bytes }, out)
}

/// Writes what GetProfile answers.
pub fn write_profile(out: &mut [u8; 4096]) -> usize
    ensures payload { IsPayload out.new result profile }
    ensures behind { drop result out.new ≡ drop result out.old }
{
    write_reply(&Reply::Profile, out)
}

/// Writes a new handle.
pub fn write_handle(new: [u8; 16], out: &mut [u8; 4096]) -> usize
    ensures payload { IsPayload out.new result (handle new) }
    ensures behind { drop result out.new ≡ drop result out.old }
{
    write_reply(&Reply::Handle(new), out)
}

/// Writes the handle of a child, and that of its parent where it is retained.
pub fn write_derived(child: [u8; 16], parent: Option<[u8; 16]>, out: &mut [u8; 4096]) -> usize
    ensures payload { IsPayload out.new result (derived child parent) }
    ensures behind { drop result out.new ≡ drop result out.old }
{
    write_reply(&Reply::Derived { child, parent }, out)
}

/// Writes what DestroyContext answers.
pub fn write_done(out: &mut [u8; 4096]) -> usize
    ensures payload { IsPayload out.new result done }
    ensures behind { drop result out.new ≡ drop result out.old }
{
    write_reply(&Reply::Done, out)
}
