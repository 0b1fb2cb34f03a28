//! Laws of the outcomes of units. Each function does nothing; its contract is the law.

ghost use Rattle.pb_run.specs.Outcome.{Unfolds};

/// The outcome of a unit follows from the outcomes of the units before it. If the unit needs a unit
/// that is not good, the outcome is `Waiting`. Otherwise the unit's child replies to the unit's
/// command, given what the child sees. The outcome is the judgement of this reply.
pub fn outcomes_unfold()
    ensures { Unfolds }
{}
