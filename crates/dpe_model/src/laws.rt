ghost use Rattle.std.specs.Prelude.{ℕ, List};
ghost use Rattle.dpe_model.specs.History.{Entry, Legal};
ghost use Rattle.dpe_model.specs.Laws.{StepKeepsValid, FrontIsLegal, StepIsLegal, StateIsValid, SpentIsSpent, HandlesDiffer, IssuedBefore, Unseals, HandleLaws, FoldedInputs, AcceptsUsed, PartsOfHistories};

/// Each step leads from a valid state to a valid state.
pub fn step_keeps_valid()
    ensures { StepKeepsValid }
{}

/// A front of a legal history is legal.
pub fn front_is_legal()
    ensures { FrontIsLegal }
{}

/// A legal history and one step more, with the reply that is given there, are a legal history.
pub fn step_is_legal()
    ensures { StepIsLegal }
{}

/// The state after a legal history is valid.
pub fn state_is_valid()
    ensures { StateIsValid }
{}

/// A handle that an entry accepts is accepted by no later entry.
pub fn spent_is_spent()
    ensures { (seed : List ℕ) (first : ℕ) (H : List Entry) → Legal seed first H → SpentIsSpent seed first H }
{}

/// No two handles that a legal history issues are equal.
pub fn handles_differ()
    ensures { (seed : List ℕ) (first : ℕ) (H : List Entry) → Legal seed first H → HandlesDiffer H }
{}

/// A handle that an entry accepts was issued by exactly one earlier entry, to the entry's locality.
pub fn issued_before()
    ensures { (seed : List ℕ) (first : ℕ) (H : List Entry) → Legal seed first H → IssuedBefore seed first H }
{}

/// What was sealed comes back.
pub fn unseals()
    ensures { (seed : List ℕ) (first : ℕ) (H : List Entry) → Legal seed first H → Unseals seed first H }
{}

/// The four laws above, of every legal history.
pub fn handle_laws()
    ensures { (seed : List ℕ) (first : ℕ) (H : List Entry) → Legal seed first H → HandleLaws seed first H }
{}

/// Each accepted Sign, Seal and Unseal is computed from the inputs of its context's path.
pub fn folded_inputs()
    ensures { (seed : List ℕ) (first : ℕ) (H : List Entry) → Legal seed first H → FoldedInputs seed first H }
{}

/// The handle that an entry accepts is that of the row that it uses: the one that its command names, or the default of
/// its locality.
pub fn accepted_is_used()
    ensures { (seed : List ℕ) (first : ℕ) (H : List Entry) → Legal seed first H → AcceptsUsed seed first H }
{}

/// The entries of a caller, and of one of its connections, are parts of the history in its order.
pub fn parts_of_histories()
    ensures { PartsOfHistories }
{}
