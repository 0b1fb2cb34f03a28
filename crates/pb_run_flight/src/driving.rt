//! Runs a flight, step by step, as a turn chooses.

ghost use Rattle.std.specs.Prelude.{◌≡◌, ◌⊎◌, ◌<◌, ◌++◌, ◌∷◌, [], ℕ, Bool, true, false, List, length, Option, IfOk, OnOk, OnErr, MatchResult, Some, None, Contains, slice_get};
ghost use Rattle.std.specs.List.{remove};
ghost use Rattle.pb_run_flight.specs.Driving.{IsFlown};
ghost use Rattle.pb_run_flight.specs.Events.{Event, Began, Gave, MayBegin, IsLawful, Anything, states_after, flying_after};
ghost use Rattle.pb_run_flight.specs.Laws.{IsInPlanOrder};
ghost use Rattle.pb_run_flight.specs.Steps.{Flies, Anyhow, HandsBack};
ghost use Rattle.pb_run_flight.specs.Table.{Table, is_finished, ready_of, begun, answered, fresh, count_due};
ghost use Rattle.pb_run_flight.specs.Working.{weight_of};

use crate::executor::Executor;
use crate::flight::{Answer, Flight};
use crate::turn::{Step, Turn};
use std::alloc::Global;

/// Begins a unit that may begin.
fn begin_one<P, O, F: Drop, E, C: Executor<P, O, F, E>>(
    alloc: Global,
    crew: &mut C,
    place: &mut P,
    out: &mut O,
    flight: &mut Flight<F>,
    unit: usize,
) -> Result<(), E>
    requires holds { C.holds crew.old place.old out.old }
    requires able { C.able crew.old place.old out.old }
    requires needs { flight.old.needs ≡ C.needs crew.old }
    requires ready { Contains (ready_of flight.old.needs flight.old.states) unit }
    requires flown { (es : List (Event F)) × IsLawful (C.needs crew.old) es
        × (flight.old.states ≡ states_after (C.needs crew.old) es)
        × (C.flying crew.old ≡ flying_after es) }
    ensures holds { C.holds crew.new place.new out.new }
    ensures able { OnOk result (C.able crew.new place.new out.new) }
    ensures needs { C.needs crew.new ≡ C.needs crew.old }
    ensures table { flight.new ≡ begun unit flight.old }
    ensures flying { OnOk result (C.flying crew.new ≡ C.flying crew.old ++ unit ∷ []) }
    ensures story { (first : C) (first_place : P) (first_out : O) (es : List (Event F)) (given : ℕ)
        → C.story first first_place first_out crew.old place.old out.old es given
        → C.flying crew.old ≡ flying_after es → IsLawful (C.needs crew.old) es
        → given ≡ count_due (states_after (C.needs crew.old) es)
        → flight.old.states ≡ states_after (C.needs crew.old) es
        → MatchResult result
        (λ _.
        (spawned : Bool)
        × C.story first first_place first_out crew.new place.new out.new
        (Began unit spawned ∷ es) given)
        (λ e.
        (spawned : Bool)
        × C.stops e None first first_place first_out crew.new place.new out.new
        (Began unit spawned ∷ es)) }
{
    flight.begin(unit);
    match crew.begin(alloc, place, out, unit) {
        Ok(_) => Ok(()),
        Err(fault) => Err(fault),
    }
}

/// Hands out the lines that the last answer made due.
fn tell<P, O, F: Drop, E, C: Executor<P, O, F, E>>(
    alloc: Global,
    crew: &mut C,
    place: &mut P,
    out: &mut O,
    flight: &mut Flight<F>,
) -> Result<(), E>
    requires holds { C.holds crew.old place.old out.old }
    requires able { C.able crew.old place.old out.old }
    ensures holds { C.holds crew.new place.new out.new }
    ensures able { OnOk result (C.able crew.new place.new out.new) }
    ensures needs { C.needs crew.new ≡ C.needs crew.old }
    ensures table { (flight.new.needs ≡ flight.old.needs)
        × (flight.new.states ≡ flight.old.states) }
    ensures given { OnOk result (flight.new.given ≡ count_due flight.new.states) }
    ensures flying { C.flying crew.new ≡ C.flying crew.old }
    ensures story { (first : C) (first_place : P) (first_out : O) (es : List (Event F)) (unit : ℕ)
        (answer : Answer F)
        → C.story first first_place first_out crew.old place.old out.old (Gave unit answer ∷ es)
        flight.old.given → IsLawful (C.needs crew.old) (Gave unit answer ∷ es)
        → flight.old.given ≡ count_due (states_after (C.needs crew.old) es)
        → flight.old.states ≡ states_after (C.needs crew.old) (Gave unit answer ∷ es)
        → MatchResult result
        (λ _.
        C.story first first_place first_out crew.new place.new out.new
        (Gave unit answer ∷ es) flight.new.given)
        (λ e.
        C.stops e None first first_place first_out crew.new place.new out.new
        (Gave unit answer ∷ es)) }
{
    let lines = match flight.emit(alloc) {
        Ok(lines) => lines,
        Err(_) => return Err(crew.out_of_memory()),
    };
    match crew.tell(place, out, lines.as_slice()) {
        Ok(()) => Ok(()),
        Err(fault) => Err(fault),
    }
}

/// Takes the answer of a unit in flight, and hands out the lines that are then due. The unit is
/// given by its index among the units in flight.
fn answer_one<P, O, F: Drop, E, C: Executor<P, O, F, E>>(
    alloc: Global,
    crew: &mut C,
    place: &mut P,
    out: &mut O,
    flight: &mut Flight<F>,
    flying: &[usize],
    index: usize,
) -> Result<(), E>
    requires holds { C.holds crew.old place.old out.old }
    requires able { C.able crew.old place.old out.old }
    requires lists { (flight.old.needs ≡ C.needs crew.old) × (flying.now ≡ C.flying crew.old) }
    requires within { index < length flying.now }
    requires flown { (es : List (Event F)) × IsLawful (C.needs crew.old) es
        × (flight.old.states ≡ states_after (C.needs crew.old) es)
        × (C.flying crew.old ≡ flying_after es) }
    ensures holds { C.holds crew.new place.new out.new }
    ensures able { OnOk result (C.able crew.new place.new out.new) }
    ensures needs { C.needs crew.new ≡ C.needs crew.old }
    ensures flying { C.flying crew.new ≡ remove (C.flying crew.old) index }
    ensures table { (unit : ℕ) → slice_get flying.now index ≡ Some unit
        → OnOk result
        ((answer : Answer F) × (flight.new.needs ≡ flight.old.needs)
        × (flight.new.states ≡ (answered unit answer flight.old).states)) }
    ensures given { OnOk result (flight.new.given ≡ count_due flight.new.states) }
    ensures story { (first : C) (first_place : P) (first_out : O) (es : List (Event F)) (unit : ℕ)
        → C.story first first_place first_out crew.old place.old out.old es flight.old.given
        → C.flying crew.old ≡ flying_after es → IsLawful (C.needs crew.old) es
        → flight.old.given ≡ count_due (states_after (C.needs crew.old) es)
        → flight.old.states ≡ states_after (C.needs crew.old) es
        → slice_get flying.now index ≡ Some unit
        → MatchResult result
        (λ _.
        (answer : Answer F)
        × (flight.new.states
        ≡ states_after (C.needs crew.old) (Gave unit answer ∷ es))
        × C.story first first_place first_out crew.new place.new out.new
        (Gave unit answer ∷ es) flight.new.given)
        (λ e.
        C.stops e (Some unit) first first_place first_out crew.new place.new out.new
        es
        ⊎ ((answer : Answer F)
        × C.stops e None first first_place first_out crew.new place.new out.new
        (Gave unit answer ∷ es))) }
{
    let unit = flying[index];
    let answer = match crew.answer(alloc, place, out, index) {
        Ok(answer) => answer,
        Err(fault) => return Err(fault),
    };
    // The answer is recorded before lines are handed out, because the lines of this unit may be
    // due.
    flight.answer(unit, answer);
    match tell(alloc, crew, place, out, flight) {
        Ok(()) => Ok(()),
        Err(fault) => Err(fault),
    }
}

/// Takes the step that the turn chooses.
fn step<P, O, F: Drop, E, C: Executor<P, O, F, E>, T: Turn>(
    alloc: Global,
    crew: &mut C,
    place: &mut P,
    out: &mut O,
    flight: &mut Flight<F>,
    turn: &mut T,
) -> Result<(), E>
    requires holds { C.holds crew.old place.old out.old }
    requires able { C.able crew.old place.old out.old }
    requires order { IsInPlanOrder (C.needs crew.old) }
    requires left { is_finished flight.old.states ≡ false }
    requires flown { (from : T) × (es : List (Event F))
        × IsFlown T.turns (C.needs crew.old) from es turn.old flight.old (C.flying crew.old) }
    ensures holds { C.holds crew.new place.new out.new }
    ensures able { OnOk result (C.able crew.new place.new out.new) }
    ensures needs { C.needs crew.new ≡ C.needs crew.old }
    ensures less { OnOk result (weight_of flight.new.states < weight_of flight.old.states) }
    ensures goes { (from : T) (first : C) (first_place : P) (first_out : O) (es : List (Event F))
        → IsFlown T.turns (C.needs crew.old) from es turn.old flight.old (C.flying crew.old)
        → C.story first first_place first_out crew.old place.old out.old es flight.old.given
        → MatchResult result
        (λ _.
        (more : List (Event F))
        × IsFlown T.turns (C.needs crew.old) from more turn.new flight.new
        (C.flying crew.new)
        × C.story first first_place first_out crew.new place.new out.new more
        flight.new.given)
        (λ e.
        (last : T) × (more : List (Event F)) × (asked : Option ℕ)
        × Flies T.turns (C.needs crew.old) Anyhow Anything from more last
        × HandsBack T.turns (C.needs crew.old) more last asked turn.new
        × C.stops e asked first first_place first_out crew.new place.new out.new
        more) }
    ensures flown { (from : T) (es : List (Event F))
        → IsFlown T.turns (C.needs crew.old) from es turn.old flight.old (C.flying crew.old)
        → OnOk result
        ((more : List (Event F))
        × IsFlown T.turns (C.needs crew.old) from more turn.new flight.new
        (C.flying crew.new)) }
{
    let ready = match flight.ready(alloc) {
        Ok(ready) => ready,
        Err(_) => return Err(crew.out_of_memory()),
    };
    let flying = match crew.in_flight(alloc) {
        Ok(flying) => flying,
        Err(_) => return Err(crew.out_of_memory()),
    };
    match turn.turn(ready.as_slice(), flying.as_slice()) {
        Step::Begin(index) => {
            let unit = ready[index];
            match begin_one(alloc, crew, place, out, flight, unit) {
                Ok(()) => Ok(()),
                Err(fault) => Err(fault),
            }
        }
        Step::Answer(index) => {
            match answer_one(alloc, crew, place, out, flight, flying.as_slice(), index) {
                Ok(()) => Ok(()),
                Err(fault) => Err(fault),
            }
        }
    }
}

/// Drives a flight in which no unit has begun, by the steps that the turn chooses. The flight ends
/// when all units have answered, or when all units up to and including the first bad unit have
/// answered. Then no further answer is taken, so units later than the first bad unit may still be
/// in flight. After a fault, any units may be in flight, and the turn decides no further step.
pub fn drive<P, O, F: Drop, E, C: Executor<P, O, F, E>, T: Turn>(
    alloc: Global,
    crew: &mut C,
    place: &mut P,
    out: &mut O,
    flight: &mut Flight<F>,
    turn: &mut T,
) -> Result<(), E>
    requires holds { C.holds crew.old place.old out.old }
    requires able { C.able crew.old place.old out.old }
    requires order { IsInPlanOrder (C.needs crew.old) }
    requires fresh { flight.old ≡ fresh (C.needs crew.old) }
    requires none { C.flying crew.old ≡ [] }
    ensures holds { C.holds crew.new place.new out.new }
    ensures able { OnOk result (C.able crew.new place.new out.new) }
    ensures needs { C.needs crew.new ≡ C.needs crew.old }
    ensures finished { OnOk result (is_finished flight.new.states ≡ true) }
    ensures flown { OnOk result
        ((es : List (Event F))
        × IsFlown T.turns (C.needs crew.old) turn.old es turn.new flight.new
        (C.flying crew.new)) }
    ensures goes { (first : C) (first_place : P) (first_out : O)
        → C.story first first_place first_out crew.old place.old out.old [] 0
        → MatchResult result
        (λ _.
        (es : List (Event F))
        × IsFlown T.turns (C.needs crew.old) turn.old es turn.new flight.new
        (C.flying crew.new)
        × C.story first first_place first_out crew.new place.new out.new es
        flight.new.given)
        (λ e.
        (last : T) × (es : List (Event F)) × (asked : Option ℕ)
        × Flies T.turns (C.needs crew.old) Anyhow Anything turn.old es last
        × HandsBack T.turns (C.needs crew.old) es last asked turn.new
        × C.stops e asked first first_place first_out crew.new place.new out.new es) }
{
    while !flight.is_finished() {
        match step(alloc, crew, place, out, flight, turn) {
            Ok(()) => {}
            Err(fault) => return Err(fault),
        }
    }
    Ok(())
}
