//! What holds whatever the tape: the state stays valid, and bytes are of one kind.
ghost use Rattle.std.specs.Prelude.{◌^◌, ◌<◌, ℕ, List};
ghost use Rattle.dpe_model.specs.State.{Valid};
ghost use Rattle.dpe_tape.specs.Answers.{after, machine_at};
ghost use Rattle.dpe_tape.specs.Tape.{Item, IsTape, IsOfOneKind};

/// The state after the items of a tape is valid, and so it is after each front of them, which is a tape too.
pub fn state_stays_valid()
    ensures { (seed : List ℕ) (first : ℕ) (items : List Item) → first < 2 ^ 64 → IsTape items
        → Valid (after (machine_at seed first) items).state }
{}

/// Bytes are one of these and not two: a tape, a malformed tape, an overlong one. So the status of a run without a fault
/// is known.
pub fn one_kind()
    ensures { (bytes : List ℕ) → IsOfOneKind bytes }
{}
