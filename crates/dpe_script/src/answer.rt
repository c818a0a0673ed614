//! Takes what came back for a line: its text, and the values that its names get.
ghost use Rattle.std.specs.Prelude.{◌≡◌, ◌+◌, ◌*◌, ◌≤◌, ◌++◌, codes, length, IfSome, IfNone, Some};
ghost use Rattle.std.specs.Option.{option_map};
ghost use Rattle.std.specs.Fmt.{decimal};
ghost use Rattle.dpe_messages.specs.Replies.{response_of, code_of as response_code};
ghost use Rattle.dpe_grammar.specs.Acts.{act_of};
ghost use Rattle.dpe_script.specs.Meaning.{asked_of as command_of, answer_text, made_bytes, shown, response, payload as raw_payload};
ghost use Rattle.dpe_script.specs.CodeNames.{names_of};
ghost use Rattle.dpe_script.specs.CodeScript.{line_of, IsLineKnown};
ghost use Rattle.dpe_script.specs.CodeValues.{IsReady};
ghost use Rattle.dpe_script.specs.Answered.{answer_line, Takes, IsNoAnswer};

use crate::script::Line;
use crate::values::{Values, made_bytes_of};
use dpe_grammar::Act;
use dpe_messages::{Asked, Reply, read_reply};
use dpe_text::Text;

// The command that a reply has to answer; none for `raw`.
fn asked_of(act: &Act<'_>) -> Option<Asked>
    ensures { result ≡ command_of (act_of act.now) }
{
    match act {
        Act::Profile => Some(Asked::GetProfile),
        Act::Initialize { .. } => Some(Asked::Initialize),
        Act::Derive(_) => Some(Asked::Derive),
        Act::Sign(_) => Some(Asked::Sign),
        Act::Seal(_) => Some(Asked::Seal),
        Act::Unseal(_) => Some(Asked::Unseal),
        Act::Rotate { .. } => Some(Asked::Rotate),
        Act::Destroy { .. } => Some(Asked::Destroy),
        Act::Raw(_) => None,
    }
}

// The code of a reply.
fn code_of(reply: &Reply<'_>) -> u8
    ensures { result ≡ response_code (response_of reply.now) }
{
    match reply {
        Reply::Refused(code) => *code,
        Reply::Profile => 0,
        Reply::Handle(_) => 0,
        Reply::Derived { .. } => 0,
        Reply::Made { .. } => 0,
        Reply::Done => 0,
    }
}

// Appends a byte string behind a space, where there is one.
fn push_shown(text: &mut Text, bytes: Option<&[u8]>)
    requires { IfSome bytes (λ b. length text.old + 1 + 2 * length b.now ≤ 8256) }
    ensures { text.new ≡ text.old ++ shown (option_map (λ b. b.now) bytes.entry) }
{
    match bytes {
        None => {}
        Some(bytes) => {
            text.push(b" ");
            text.push_hex(bytes);
        }
    }
}

// The number of a line and a space.
fn begin(number: usize) -> Text
    ensures text { result ≡ decimal number ++ codes " " }
    ensures few { length result ≤ 21 }
{
    let mut text = Text::new();
    text.push_number(number as u64);
    text.push(b" ");
    text
}

// The line that is printed for a reply.
fn reply_text(number: usize, reply: &Reply<'_>) -> Text
    requires { IfSome (made_bytes (response_of reply.now)) (λ b. length b ≤ 2133) }
    ensures { result ≡ answer_line number (response (response_of reply.now)) }
{
    let mut text = begin(number);
    text.push_number(u64::from(code_of(reply)));
    push_shown(&mut text, made_bytes_of(reply));
    text.push(b"\n");
    text
}

// The line that is printed for what came back to `raw`.
fn raw_text(number: usize, payload: &[u8]) -> Text
    requires { length payload.now ≤ 4096 }
    ensures { result ≡ answer_line number (raw_payload payload.now) }
{
    let mut text = begin(number);
    text.push(b"-");
    push_shown(&mut text, Some(payload));
    text.push(b"\n");
    text
}

// Takes the reply to a command: the names of the line take their values.
fn take_reply(
    line: &Line<'_>,
    asked: &Asked,
    payload: &[u8],
    values: &mut Values<'_>,
) -> Option<Text>
    requires asked { command_of (act_of line.now.act) ≡ Some asked.now }
    requires ready { IsReady values.old }
    requires known { IsLineKnown (names_of values.old.names) line.now }
    ensures some { IfSome result (Takes (line_of line.now) payload.now values.old values.new) }
    ensures none { IfNone result (IsNoAnswer (act_of line.now.act) payload.now) }
    ensures ready { IsReady values.new }
    ensures names { values.new.names ≡ values.old.names }
{
    match read_reply(asked, payload) {
        Ok(reply) => {
            values.take(&line.act, &reply);
            Some(reply_text(line.number, &reply))
        }
        Err(_) => None,
    }
}

/// The text of a line's answer, after the names of the line took their values. `None` where the payload is no reply
/// to the command.
pub fn take_answer(line: &Line<'_>, payload: &[u8], values: &mut Values<'_>) -> Option<Text>
    requires few { length payload.now ≤ 4096 }
    requires ready { IsReady values.old }
    requires known { IsLineKnown (names_of values.old.names) line.now }
    ensures some { IfSome result (Takes (line_of line.now) payload.now values.old values.new) }
    ensures none { IfNone result (IsNoAnswer (act_of line.now.act) payload.now) }
    ensures ready { IsReady values.new }
    ensures names { values.new.names ≡ values.old.names }
{
    match asked_of(&line.act) {
        Some(asked) => take_reply(line, &asked, payload, values),
        None => Some(raw_text(line.number, payload)),
    }
}
