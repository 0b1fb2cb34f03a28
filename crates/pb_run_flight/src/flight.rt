//! The flight table: the state of each unit, and which lines are due.

ghost use Rattle.std.specs.Prelude.{◌≡◌, ◌<◌, ◌≤◌, ℕ, List, IfOk, OnOk, OnErr, Some, Contains, slice_get, length, map, drop, IsTrue, ◌↔◌};
ghost use Rattle.pb_run_flight.specs.declared.flight.State.TheVariants.{Begun, Untouched};
ghost use Rattle.pb_run_flight.specs.Table.{is_bad, is_untouched, is_good_at, is_open, ready_of, due, due_after, count_due, first_bad, is_finished, begun, answered, fresh, emitted};
ghost use Rattle.pb_run_flight.specs.Working.{IsFar, count_met, ends_badly, opening};

use crate::needs::{move_on, needed_by, none_met, reach_of};
use pb_data::{Bytes, Items};
use std::alloc::{AllocError, Global};
use std::marker::Model;

/// The answer of a unit.
#[derive(Drop)]
pub struct Answer<F> {
    /// Why the answer is bad, if it is bad.
    pub fault: Option<F>,
    /// The lines of the unit, in the form in which they are handed out.
    pub lines: Bytes,
}

/// The state of a unit.
#[derive(Drop)]
pub enum State<F> {
    /// The unit has not begun.
    Untouched,
    /// The unit has begun and not answered: the unit is in flight.
    Begun,
    /// The unit has answered.
    Answered(Answer<F>),
}

/// Which units of a plan have begun, what these units answered, and whose lines have been handed
/// out. A unit is known by its index in plan order. Contracts see what each unit needs, the state
/// of each unit, and for how many units the lines have been handed out.
#[derive(Drop)]
pub struct Flight<F> {
    needs: Items<Items<usize>>,
    needed_by: Vec<Items<usize>>,
    met: Vec<usize>,
    reach: usize,
    states: Vec<State<F>>,
    given: usize,
}

impl<F> Model for Flight<F> {
    ghost use Rattle.pb_run_flight.specs.Table.{Table};
    ghost use Rattle.pb_run_flight.specs.Working.{IsStored};

    ghost Value = { Table F };

    ghost view = { λ a. record { needs = a.needs; states = a.states.items; given = a.given } };

    ghost invariant = { λ a. IsStored a.needs a.needed_by.items a.met.items a.reach a.states.items a.given };
}

/// Returns whether a unit has answered and is bad.
fn is_bad<F>(state: &State<F>) -> bool
    ensures { result ≡ is_bad state.now }
{
    match state {
        State::Untouched => false,
        State::Begun => false,
        State::Answered(answer) => answer.fault.is_some(),
    }
}

/// Returns whether a unit has not begun.
fn is_untouched<F>(state: &State<F>) -> bool
    ensures { result ≡ is_untouched state.now }
{
    match state {
        State::Untouched => true,
        State::Begun => false,
        State::Answered(_) => false,
    }
}

/// Returns whether the unit at an index has answered and is good.
pub(crate) fn is_good_at<F>(states: &[State<F>], place: usize) -> bool
    ensures { result ≡ is_good_at (slice_get states.now place) }
{
    match states.get(place) {
        None => false,
        Some(State::Untouched) => false,
        Some(State::Begun) => false,
        Some(State::Answered(answer)) => answer.fault.is_none(),
    }
}

/// Returns whether a unit has not begun and all its needs are met.
fn is_open<F>(
    states: &[State<F>],
    met: &[usize],
    unit: usize,
    state: &State<F>,
    wanted: &[usize],
) -> bool
    requires { slice_get met.now unit ≡ Some (count_met states.now wanted.now) }
    ensures { result ≡ is_open states.now state.now wanted.now }
{
    is_untouched(state) && met[unit] == wanted.len()
}

/// Returns whether the last of the first `count` units has answered and is bad.
fn ends_badly<F>(states: &[State<F>], count: usize) -> bool
    ensures { result ≡ ends_badly count states.now }
{
    if count == 0 {
        return false;
    }
    match states.get(count - 1) {
        None => false,
        Some(state) => is_bad(state),
    }
}

/// Returns whether the unit at an index may begin. The function assumes that no earlier unit has
/// answered and is bad. The result is `None` if the unit itself has answered and is bad, or does
/// not exist.
fn may_begin<F>(
    needs: &[Items<usize>],
    met: &[usize],
    states: &[State<F>],
    unit: usize,
) -> Option<bool>
    requires { met.now ≡ map (count_met states.now) needs.now }
    ensures { result ≡ opening needs.now states.now unit }
{
    let (wanted, state) = match (needs.get(unit), states.get(unit)) {
        (Some(wanted), Some(state)) => (wanted, state),
        _ => return None,
    };
    if is_bad(state) {
        return None;
    }
    Some(is_open(states, met, unit, state, wanted.as_slice()))
}

/// Returns the units that may begin. The lines of the first `given` units are known to be due. At
/// index `reach` and after it, no unit has all its needs met.
fn ready_of<F>(
    alloc: Global,
    needs: &[Items<usize>],
    met: &[usize],
    states: &[State<F>],
    given: usize,
    reach: usize,
) -> Result<Vec<usize>, AllocError>
    requires met { met.now ≡ map (count_met states.now) needs.now }
    requires given { given ≤ count_due states.now }
    requires far { IsFar needs.now met.now reach }
    ensures { IfOk result (λ ready. ready.items ≡ ready_of needs.now states.now) }
{
    let mut ready = Vec::new(alloc);
    if ends_badly(states, given) {
        return Ok(ready);
    }
    for i in given..reach {
        let begins = match may_begin(needs, met, states, i) {
            None => return Ok(ready),
            Some(begins) => begins,
        };
        if begins {
            ready.push(i)?;
        }
    }
    Ok(ready)
}

/// Returns the states of the units after the first `count` units.
fn after<F>(states: &[State<F>], count: usize) -> &[State<F>]
    requires { count ≤ length states.now }
    ensures { result.now ≡ drop count states.now }
{
    &states[count..]
}

/// Lines that are due, and the number of units to which the lines belong.
#[derive(Drop)]
struct Due {
    lines: Vec<u8>,
    count: usize,
}

/// Returns the lines that are due, and the number of units to which the lines belong.
fn due_of<F>(alloc: Global, states: &[State<F>]) -> Result<Due, AllocError>
    ensures lines { IfOk result (λ made. made.lines.items ≡ due states.now) }
    ensures count { IfOk result (λ made. made.count ≡ count_due states.now) }
{
    let mut lines = Vec::new(alloc);
    for (i, state) in states.iter().enumerate() {
        match state {
            State::Untouched => return Ok(Due { lines, count: i }),
            State::Begun => return Ok(Due { lines, count: i }),
            State::Answered(answer) => {
                lines.extend_from_slice(answer.lines.as_slice())?;
                if answer.fault.is_some() {
                    let count = i + 1;
                    return Ok(Due { lines, count });
                }
            }
        }
    }
    let count = states.len();
    Ok(Due { lines, count })
}

/// Returns the lines that are due after the first `given` units, and the number of all units whose
/// lines are due. The lines of the first `given` units must be due.
fn due_after<F>(alloc: Global, states: &[State<F>], given: usize) -> Result<Due, AllocError>
    requires { given ≤ count_due states.now }
    ensures lines { IfOk result (λ made. made.lines.items ≡ due_after given states.now) }
    ensures count { IfOk result (λ made. made.count ≡ count_due states.now) }
{
    if ends_badly(states, given) {
        let lines = Vec::new(alloc);
        return Ok(Due {
            lines,
            count: given,
        });
    }
    let more = due_of(alloc, after(states, given))?;
    Ok(Due {
        lines: more.lines,
        count: given + more.count,
    })
}

/// Returns whether a flight is finished: all units have answered, or all units up to and including
/// the first bad unit have answered.
fn are_finished<F>(states: &[State<F>]) -> bool
    ensures { result ≡ is_finished states.now }
{
    for state in states {
        match state {
            State::Untouched => return false,
            State::Begun => return false,
            State::Answered(answer) => {
                if answer.fault.is_some() {
                    return true;
                }
            }
        }
    }
    true
}

/// Returns the same as `are_finished`. The lines of the first `given` units are known to be due.
fn are_finished_after<F>(states: &[State<F>], given: usize) -> bool
    requires { given ≤ count_due states.now }
    ensures { result ≡ is_finished states.now }
{
    ends_badly(states, given) || are_finished(after(states, given))
}

/// Returns the first bad unit in plan order, if all units before it have answered.
fn first_bad<F>(states: &[State<F>]) -> Option<usize>
    ensures { result ≡ first_bad states.now }
{
    for (i, state) in states.iter().enumerate() {
        match state {
            State::Untouched => return None,
            State::Begun => return None,
            State::Answered(answer) => {
                if answer.fault.is_some() {
                    return Some(i);
                }
            }
        }
    }
    None
}

/// Returns the states of units that have not begun.
fn initial_states<F: Drop>(
    alloc: Global,
    needs: &[Items<usize>],
) -> Result<Vec<State<F>>, AllocError>
    ensures { IfOk result (λ states. states.items ≡ map (λ _. Untouched) needs.now) }
{
    let mut states = Vec::new(alloc);
    for _ in needs {
        states.push(State::Untouched)?;
    }
    Ok(states)
}

impl<F: Drop> Flight<F> {
    /// Returns a table for units with these needs. No unit has begun. The needs of a unit are
    /// indices in plan order. The memory for everything that `begin` and `answer` write is
    /// allocated here.
    ///
    /// Errors: out of memory.
    pub fn new(alloc: Global, needs: Items<Items<usize>>) -> Result<Flight<F>, AllocError>
        ensures { IfOk result (λ flight. flight ≡ fresh needs) }
    {
        let needed_by = needed_by(alloc, needs.as_slice())?;
        let met = none_met(alloc, needs.as_slice())?;
        let states = initial_states(alloc, needs.as_slice())?;
        let reach = reach_of(needs.as_slice());
        Ok(Flight {
            needs,
            needed_by,
            met,
            reach,
            states,
            given: 0,
        })
    }

    /// Returns the state of each unit.
    pub fn states(&self) -> &[State<F>]
        ensures { result.now ≡ self.now.states }
    {
        self.states.as_slice()
    }

    /// Returns the state of each unit at the end, without using memory.
    pub fn into_states(self) -> Vec<State<F>>
        ensures { result.items ≡ self.states }
    {
        self.states
    }

    /// Returns whether a unit is in flight: whether the unit has begun and not answered.
    pub fn is_flying(&self, unit: usize) -> bool
        ensures { IsTrue result ↔ slice_get self.now.states unit ≡ Some Begun }
    {
        match self.states.as_slice().get(unit) {
            None => false,
            Some(State::Untouched) => false,
            Some(State::Begun) => true,
            Some(State::Answered(_)) => false,
        }
    }

    /// Returns whether the flight is finished: all units have answered, or all units up to and
    /// including the first bad unit have answered.
    pub fn is_finished(&self) -> bool
        ensures { result ≡ is_finished self.now.states }
    {
        are_finished_after(self.states.as_slice(), self.given)
    }

    /// Returns the bad unit that is reported for the build: the first bad unit in plan order, if
    /// all units before this unit have answered. Which unit answered first in time does not matter.
    pub fn first_bad(&self) -> Option<usize>
        ensures { result ≡ first_bad self.now.states }
    {
        first_bad(self.states.as_slice())
    }

    /// Returns the units that may begin, in plan order. A unit may begin if it has not begun, and
    /// all units that it needs have answered and are good. No earlier unit in plan order may have
    /// answered and be bad.
    ///
    /// Errors: out of memory.
    pub fn ready(&self, alloc: Global) -> Result<Vec<usize>, AllocError>
        ensures { IfOk result (λ ready. ready.items ≡ ready_of self.now.needs self.now.states) }
    {
        ready_of(
            alloc,
            self.needs.as_slice(),
            self.met.as_slice(),
            self.states.as_slice(),
            self.given,
            self.reach,
        )
    }

    /// Records that a unit has begun. The unit must be one of the units that may begin. No memory
    /// is used.
    pub fn begin(&mut self, unit: usize)
        requires ready { Contains (ready_of self.old.needs self.old.states) unit }
        ensures { self.new ≡ begun unit self.old }
    {
        self.states[unit] = State::Begun;
    }

    /// Records the answer of a unit in flight. No memory is used.
    pub fn answer(&mut self, unit: usize, answer: Answer<F>)
        requires flying { slice_get self.old.states unit ≡ Some Begun }
        ensures { self.new ≡ answered unit answer self.old }
    {
        self.states[unit] = State::Answered(answer);
        let reach = move_on(
            self.needs.as_slice(),
            self.states.as_slice(),
            self.needed_by[unit].as_slice(),
            &mut self.met,
            self.reach,
        );
        self.reach = reach;
    }

    /// Returns the lines that are due now and have not been handed out. The lines of a unit are due
    /// if the unit and all earlier units in plan order have answered, and no earlier unit is bad.
    ///
    /// Errors: out of memory. After this error nothing has been handed out, and the next call
    /// returns these lines, too.
    pub fn emit(&mut self, alloc: Global) -> Result<Vec<u8>, AllocError>
        ensures lines { IfOk result
            (λ lines. lines.items ≡ due_after self.old.given self.old.states) }
        ensures given { OnOk result (self.new ≡ emitted self.old) }
        ensures same { OnErr result (self.new ≡ self.old) }
    {
        // The lines are made before the count changes: if memory runs out, no line is lost.
        let due = due_after(alloc, self.states.as_slice(), self.given)?;
        self.given = due.count;
        Ok(due.lines)
    }
}
