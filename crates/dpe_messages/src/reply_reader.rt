//! Replies, read by those who asked.
ghost use Rattle.std.specs.Prelude.{◌≡◌, ◌↔◌, IsTrue, IfOk, IfErr, IfSome, length};
ghost use Rattle.std.specs.Option.{option_map};
ghost use Rattle.std.specs.Result.{result_ok};
ghost use Rattle.dpe_messages.specs.Found.{Answers};
ghost use Rattle.dpe_messages.specs.Replies.{Response, IsReplyTo, response_of};
ghost use Rattle.dpe_messages.specs.ReplyFields.{Strings, strings_of, field_of, one_field_of, two_fields_of, fields_of, strings_map_of, inner_strings_of, reply_strings_of, told, handle_in, retained_in, refused_in, new_handle_in, derived_in, made_in, done_in, answer_in, response_in, told_by};

use crate::codes;
use crate::layers::outer;
use crate::reply::Reply;
use dpe_cbor::Reader;

/// The bytes of a signature.
const SIGNATURE_LENGTH: usize = 64;

/// The bytes of the box of no byte.
const SHORTEST_BOX: usize = 85;

/// The bytes of the box of the longest plaintext.
const LONGEST_BOX: usize = 2133;

const LONGEST_PLAINTEXT: usize = 2048;

/// The command that a reply answers.
#[derive(Clone, Copy, Debug, PartialEq, Eq)]
pub enum Asked {
    GetProfile,
    Initialize,
    Derive,
    Sign,
    Seal,
    Unseal,
    Rotate,
    Destroy,
}

/// The payload is no reply to the command.
#[derive(Clone, Copy, Debug, PartialEq, Eq)]
pub struct NotAReply;

/// The byte strings under keys 1 and 2 of a reply's map.
#[derive(Clone, Copy)]
pub struct Fields<'a> {
    first: Option<&'a [u8]>,
    second: Option<&'a [u8]>,
}

fn field<'a>(reader: &mut Reader<'a>) -> Option<(u64, &'a [u8])>
    ensures { Answers (λ f. (f.0, f.1.now)) result reader.new.rest (field_of reader.old.rest) }
{
    match reader.uint() {
        Err(_) => None,
        Ok(key) => match reader.bytes() {
            Err(_) => None,
            Ok(bytes) => Some((key, bytes)),
        },
    }
}

fn one_field<'a>(reader: &mut Reader<'a>) -> Option<Fields<'a>>
    ensures { Answers strings_of result reader.new.rest (one_field_of reader.old.rest) }
{
    match field(reader) {
        None => None,
        Some((key, bytes)) => {
            if key == 1 {
                return Some(Fields {
                    first: Some(bytes),
                    second: None,
                });
            }
            if key == 2 {
                return Some(Fields {
                    first: None,
                    second: Some(bytes),
                });
            }
            None
        }
    }
}

fn two_fields<'a>(reader: &mut Reader<'a>) -> Option<Fields<'a>>
    ensures { Answers strings_of result reader.new.rest (two_fields_of reader.old.rest) }
{
    match field(reader) {
        None => None,
        Some((first_key, first)) => match field(reader) {
            None => None,
            Some((second_key, second)) => {
                if first_key != 1 || second_key != 2 {
                    return None;
                }
                Some(Fields {
                    first: Some(first),
                    second: Some(second),
                })
            }
        },
    }
}

fn read_fields<'a>(reader: &mut Reader<'a>, count: u64) -> Option<Fields<'a>>
    ensures { Answers strings_of result reader.new.rest (fields_of count reader.old.rest) }
{
    match count {
        0 => Some(Fields {
            first: None,
            second: None,
        }),
        1 => one_field(reader),
        2 => two_fields(reader),
        _ => None,
    }
}

#[tactic(auto, unfolding(crate::specs::ReplyFields::inner_strings_of, crate::specs::ReplyFields::strings_map_of))]
fn inner_fields(inner: &[u8]) -> Option<(u64, Fields<'_>)>
    ensures { option_map (λ f. (f.0, strings_of f.1)) result ≡ inner_strings_of inner.now }
{
    let mut reader = Reader::new(inner);
    let Ok(items) = reader.array() else {
        return None;
    };
    if items != 2 {
        return None;
    }
    let Ok(code) = reader.uint() else {
        return None;
    };
    let Ok(count) = reader.map() else {
        return None;
    };
    match read_fields(&mut reader, count) {
        None => None,
        Some(fields) => {
            if reader.end().is_err() {
                return None;
            }
            Some((code, fields))
        }
    }
}

fn reply_fields(payload: &[u8]) -> Option<(u64, Fields<'_>)>
    ensures { option_map (λ f. (f.0, strings_of f.1)) result ≡ reply_strings_of payload.now }
{
    match outer(payload) {
        None => None,
        Some((session, inner)) => {
            if session != 0 {
                return None;
            }
            inner_fields(inner)
        }
    }
}

fn handle(bytes: &[u8]) -> Option<[u8; 16]>
    ensures { result ≡ handle_in bytes.now }
{
    if bytes.len() != 16 {
        return None;
    }
    let mut handle = [0; 16];
    handle.copy_from_slice(bytes);
    Some(handle)
}

fn retained(bytes: Option<&[u8]>) -> Result<Option<[u8; 16]>, NotAReply>
    ensures { result_ok result ≡ retained_in (option_map (λ s. s.now) bytes.entry) }
{
    match bytes {
        None => Ok(None),
        Some(bytes) => match handle(bytes) {
            None => Err(NotAReply),
            Some(handle) => Ok(Some(handle)),
        },
    }
}

fn refused<'a>(code: u64, fields: &Fields<'a>) -> Result<Reply<'a>, NotAReply>
    ensures { told result ≡ refused_in code (strings_of fields.now) }
{
    match (fields.first, fields.second) {
        (None, None) => {
            if matches!(
                code,
                codes::INVALID_COMMAND
                    | codes::INVALID_ARGUMENT
                    | codes::SEED_LOCKED
                    | codes::UNSUPPORTED..=codes::DEFAULT_TAKEN
            ) {
                return Ok(Reply::Refused(code as u8));
            }
            Err(NotAReply)
        }
        _ => Err(NotAReply),
    }
}

fn new_handle<'a>(fields: &Fields<'a>) -> Result<Reply<'a>, NotAReply>
    ensures { told result ≡ new_handle_in (strings_of fields.now) }
{
    match (fields.first, fields.second) {
        (Some(bytes), None) => match handle(bytes) {
            None => Err(NotAReply),
            Some(handle) => Ok(Reply::Handle(handle)),
        },
        _ => Err(NotAReply),
    }
}

fn derived<'a>(fields: &Fields<'a>) -> Result<Reply<'a>, NotAReply>
    ensures { told result ≡ derived_in (strings_of fields.now) }
{
    match fields.first {
        None => Err(NotAReply),
        Some(bytes) => match handle(bytes) {
            None => Err(NotAReply),
            Some(child) => match retained(fields.second) {
                Err(fault) => Err(fault),
                Ok(parent) => Ok(Reply::Derived { child, parent }),
            },
        },
    }
}

fn made<'a>(fields: &Fields<'a>, least: usize, most: usize) -> Result<Reply<'a>, NotAReply>
    ensures { told result ≡ made_in least most (strings_of fields.now) }
{
    match fields.second {
        None => Err(NotAReply),
        Some(bytes) => match retained(fields.first) {
            Err(fault) => Err(fault),
            Ok(handle) => {
                if bytes.len() < least || bytes.len() > most {
                    return Err(NotAReply);
                }
                Ok(Reply::Made { handle, bytes })
            }
        },
    }
}

fn done<'a>(fields: &Fields<'a>) -> Result<Reply<'a>, NotAReply>
    ensures { told result ≡ done_in (strings_of fields.now) }
{
    match (fields.first, fields.second) {
        (None, None) => Ok(Reply::Done),
        _ => Err(NotAReply),
    }
}

fn answer<'a>(asked: &Asked, fields: &Fields<'a>) -> Result<Reply<'a>, NotAReply>
    ensures { told result ≡ answer_in asked.now (strings_of fields.now) }
{
    match asked {
        Asked::GetProfile => Err(NotAReply),
        Asked::Initialize => new_handle(fields),
        Asked::Derive => derived(fields),
        Asked::Sign => made(fields, SIGNATURE_LENGTH, SIGNATURE_LENGTH),
        Asked::Seal => made(fields, SHORTEST_BOX, LONGEST_BOX),
        Asked::Unseal => made(fields, 0, LONGEST_PLAINTEXT),
        Asked::Rotate => new_handle(fields),
        Asked::Destroy => done(fields),
    }
}

ghost use Rattle.dpe_messages.specs.Replies.{profile, reply_payload};

/// The reply to GetProfile: the profile's name, the bytes of the longest payload, the contexts and the depth.
const PROFILE_REPLY: [u8; 35] =
    *b"\x82\x00\x58\x1f\x82\x00\xa4\x01\x6fdpe-symmetric-2\x02\x19\x10\x00\x03\x19\x04\x00\x04\x18\x20";

fn is_profile(payload: &[u8]) -> bool
    ensures { IsTrue result ↔ (payload.now ≡ reply_payload profile) }
{
    payload == PROFILE_REPLY.as_slice()
}

// The response of code 0 or the refusal that a payload is, by its code and byte strings.
fn by_code<'a>(asked: &Asked, code: u64, fields: &Fields<'a>) -> Result<Reply<'a>, NotAReply>
    ensures { told result ≡ response_in asked.now code (strings_of fields.now) }
{
    if code == codes::OK {
        answer(asked, fields)
    } else {
        refused(code, fields)
    }
}

fn by_fields<'a>(asked: &Asked, payload: &'a [u8]) -> Result<Reply<'a>, NotAReply>
    ensures { told result ≡ told_by asked.now (reply_strings_of payload.now) }
{
    match reply_fields(payload) {
        None => Err(NotAReply),
        Some((code, fields)) => by_code(asked, code, &fields),
    }
}

fn asks_profile(asked: &Asked) -> bool
    ensures { IsTrue result ↔ (asked.now ≡ Asked.GetProfile) }
{
    matches!(asked, Asked::GetProfile)
}

// Whether the payload is the reply to GetProfile, and that was asked.
fn is_profile_reply(asked: &Asked, payload: &[u8]) -> bool
    ensures { IsTrue result ↔ IsReplyTo asked.now profile payload.now }
{
    if !asks_profile(asked) {
        return false;
    }
    is_profile(payload)
}

/// The reply that a payload is to the command that was asked. `NotAReply` exactly where it is none.
pub fn read_reply<'a>(asked: &Asked, payload: &'a [u8]) -> Result<Reply<'a>, NotAReply>
    ensures reply { IfOk result (λ r. IsReplyTo asked.now (response_of r) payload.now) }
    ensures none { IfErr result (λ _. (r : Response) → ¬ IsReplyTo asked.now r payload.now) }
{
    if is_profile_reply(asked, payload) {
        return Ok(Reply::Profile);
    }
    by_fields(asked, payload)
}
