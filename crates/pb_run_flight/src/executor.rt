//! The trait of the code that begins units and takes their answers.

ghost use Rattle.std.specs.Prelude.{◌≡◌, ◌<◌, ◌++◌, ◌∷◌, [], ℕ, Bool, List, length, Option, IfOk, OnOk, MatchResult, Some, None, Contains, slice_get};
ghost use Rattle.std.specs.List.{remove};
ghost use Rattle.pb_run_flight.specs.Table.{due_after, count_due};
ghost use Rattle.pb_run_flight.specs.Events.{Event, Began, Gave, MayBegin, IsLawful, states_after, flying_after};
ghost use Rattle.pb_run_flight.specs.declared.flight.State.TheVariants.{Begun};

use crate::flight::Answer;
use std::alloc::{AllocError, Global};

/// The code that begins units and takes their answers. The outside world of this code has two
/// parts: a place that units change, and a receiver of the units' lines. The contracts use a
/// `story`: it says what the events of the flight have done since some moment.
pub trait Executor<P, O, F, E> {
    /// What each unit needs, by its index in plan order.
    ghost needs: { Self → List (List ℕ) };

    /// The units in flight, in order of beginning.
    ghost flying: { Self → List ℕ };

    /// What is true at each moment, whatever has happened.
    ghost holds: { Self → P → O → Type 0 };

    /// What is true at each moment before the first failing call. Each call requires this.
    ghost able: { Self → P → O → Type 0 };

    /// What these events have done between two moments, if the lines of the first n units have been
    /// handed out. The newest event comes first.
    ghost story: { Self → P → O → Self → P → O → List (Event F) → ℕ → Type 0 };

    /// What these events have done between two moments, if a fault then ended the flight. The
    /// number is the index of the unit whose answer was taken at the fault, or `None` if no answer
    /// was taken.
    ghost stops: { E → Option ℕ → Self → P → O → Self → P → O → List (Event F) → Type 0 };

    /// Returns the units in flight, in order of beginning.
    ///
    /// Errors: out of memory.
    fn in_flight(&self, alloc: Global) -> Result<Vec<usize>, AllocError>
        ensures { IfOk result (λ units. units.items ≡ flying self.now) };

    /// Begins a unit, and returns whether a child was started for the unit. After a fault the unit
    /// is not in flight.
    fn begin(&mut self, alloc: Global, place: &mut P, out: &mut O, unit: usize) -> Result<bool, E>
        requires holds { holds self.old place.old out.old }
        requires able { able self.old place.old out.old }
        requires unit { unit < length (needs self.old) }
        requires grounded { Contains (flying self.old) unit → ⊥ }
        ensures holds { holds self.new place.new out.new }
        ensures able { OnOk result (able self.new place.new out.new) }
        ensures needs { needs self.new ≡ needs self.old }
        ensures flying { OnOk result (flying self.new ≡ flying self.old ++ unit ∷ []) }
        ensures story { (first : Self) (first_place : P) (first_out : O) (es : List (Event F))
            (given : ℕ)
            → story first first_place first_out self.old place.old out.old es given
            → flying self.old ≡ flying_after es → IsLawful (needs self.old) es
            → given ≡ count_due (states_after (needs self.old) es)
            → MayBegin (needs self.old) (states_after (needs self.old) es) unit
            → MatchResult result
            (λ spawned.
            story first first_place first_out self.new place.new out.new
            (Began unit spawned ∷ es) given)
            (λ e.
            (spawned : Bool)
            × stops e None first first_place first_out self.new place.new out.new
            (Began unit spawned ∷ es)) };

    /// Takes the answer of a unit in flight. The unit is given by its index among the units in
    /// flight. Afterwards this unit is no longer in flight, even after a fault.
    fn answer(
        &mut self,
        alloc: Global,
        place: &mut P,
        out: &mut O,
        index: usize,
    ) -> Result<Answer<F>, E>
        requires holds { holds self.old place.old out.old }
        requires able { able self.old place.old out.old }
        requires within { index < length (flying self.old) }
        ensures holds { holds self.new place.new out.new }
        ensures able { OnOk result (able self.new place.new out.new) }
        ensures needs { needs self.new ≡ needs self.old }
        ensures flying { flying self.new ≡ remove (flying self.old) index }
        ensures story { (first : Self) (first_place : P) (first_out : O) (es : List (Event F))
            (given : ℕ)
            (unit : ℕ)
            → story first first_place first_out self.old place.old out.old es given
            → flying self.old ≡ flying_after es → IsLawful (needs self.old) es
            → given ≡ count_due (states_after (needs self.old) es)
            → slice_get (flying self.old) index ≡ Some unit
            → slice_get (states_after (needs self.old) es) unit ≡ Some Begun
            → MatchResult result
            (λ answer.
            story first first_place first_out self.new place.new out.new
            (Gave unit answer ∷ es) given)
            (λ e.
            stops e (Some unit) first first_place first_out self.new place.new
            out.new es) };

    /// Hands out the lines that the last answer made due.
    fn tell(&mut self, place: &mut P, out: &mut O, lines: &[u8]) -> Result<(), E>
        requires holds { holds self.old place.old out.old }
        requires able { able self.old place.old out.old }
        ensures holds { holds self.new place.new out.new }
        ensures able { OnOk result (able self.new place.new out.new) }
        ensures needs { needs self.new ≡ needs self.old }
        ensures flying { flying self.new ≡ flying self.old }
        ensures story { (first : Self) (first_place : P) (first_out : O) (es : List (Event F))
            (given unit : ℕ)
            (answer : Answer F)
            → story first first_place first_out self.old place.old out.old (Gave unit answer ∷ es)
            given → IsLawful (needs self.old) (Gave unit answer ∷ es)
            → given ≡ count_due (states_after (needs self.old) es)
            → lines.now ≡ due_after given (states_after (needs self.old) (Gave unit answer ∷ es))
            → MatchResult result
            (λ _.
            story first first_place first_out self.new place.new out.new
            (Gave unit answer ∷ es)
            (count_due (states_after (needs self.old) (Gave unit answer ∷ es))))
            (λ e.
            stops e None first first_place first_out self.new place.new out.new
            (Gave unit answer ∷ es)) };

    /// Returns the fault for out of memory.
    fn out_of_memory(&self) -> E
        ensures { (first : Self) (first_place last_place : P) (first_out last_out : O)
            (es : List (Event F)) (given : ℕ)
            → story first first_place first_out self.now last_place last_out es given
            → stops result None first first_place first_out self.now last_place last_out es };
}
