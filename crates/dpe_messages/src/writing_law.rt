//! Laws of what is written, for those who reason about both ends of the wire.
ghost use Rattle.dpe_messages.specs.WritingLaws.{WrittenIsRead, OneReply, NumberIsCode};

/// The payload that is written of a command in its ranges is read as that command.
pub fn written_is_read()
    ensures { WrittenIsRead }
{}

/// A payload is one reply to a command, and its number is the reply's code.
pub fn one_reply()
    ensures one { OneReply }
    ensures code { NumberIsCode }
{}
