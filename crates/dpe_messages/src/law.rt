//! Laws of the class, for those who reason about what a payload asks for.
ghost use Rattle.dpe_messages.specs.Class.{OneClass};
ghost use Rattle.dpe_messages.specs.Ranges.{AcceptedInRanges, AcceptedAreBytes};

/// A payload has one class: the function of `specs/` gives it, and no other is.
pub fn one_class()
    ensures { OneClass }
{}

/// The arguments of a command that a payload asks for are in their ranges, and its byte strings are of bytes.
pub fn accepted_in_ranges()
    ensures ranges { AcceptedInRanges }
    ensures bytes { AcceptedAreBytes }
{}
