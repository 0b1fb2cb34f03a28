//! The executor of a build's units: it begins the units, takes their answers, and writes their
//! lines.

ghost use Rattle.std.specs.Prelude.{◌≡◌, ◌<◌, ◌++◌, ◌∷◌, [], ℕ, Bool, is_some, vec_len, vec_capacity, List, Option, length, IfOk, OnOk, MatchResult, Some, Contains, slice_get, slice_set, take};
ghost use Rattle.std.specs.Io.KnownBytes.{Appends};
ghost use Rattle.std.specs.List.{remove};
ghost use Rattle.pb_run_flight.specs.Events.{Event, Began, Gave, MayBegin, IsLawful, flying_after};
ghost use Rattle.pb_run_flight.specs.Table.{due_after, count_due, if_so};
ghost use Rattle.pb_run_flight.specs.declared.flight.State.TheVariants as state;
ghost use Rattle.pb_place_types.specs.Counts.{up};
ghost use Rattle.pb_build_result.specs.declared.bad_unit.BadUnit.{BadUnit};
ghost use Rattle.pb_run.specs.UnitSteps.{child_of};
ghost use Rattle.pb_build_turns.specs.Executor.{needs_of, noted, indices_of, IsAble, IsConsistent, BuildState, moment};
ghost use Rattle.pb_place_types.specs.Sinks.{SinkState};
ghost use Rattle.pb_build_turns.specs.History.{History, StoryEnds, states_in};

use pb_build_result::{BadUnit, BuildFault};
use pb_command_types::Setup;
use pb_data::{Bytes, Text};
use pb_directive::Directives;
use pb_place_types::{Out, Place, write_all};
use pb_run::{Begun, OrderedProject, Outcome, answer_unit, begin_unit};
use pb_run_flight::{Answer, Executor};
use pb_store::{Difference, Store};
use std::alloc::{AllocError, Global};

/// A unit in flight.
#[derive(Drop)]
pub struct RunningUnit {
    /// Its index in plan order.
    pub unit: usize,
    /// How the unit has begun. No difference is noted here, because the executor's reasons contain
    /// the difference.
    pub begun: Begun,
}

/// Begins the units of a build and takes their answers.
#[derive(Drop)]
pub struct UnitExecutor {
    /// The setup: how the units are compiled.
    pub setup: Setup,
    /// What is built.
    pub project: OrderedProject,
    /// The records of the profile's folder.
    pub store: Store,
    /// For each unit, the directives that it printed as a run. A unit that has not answered, is
    /// bad, or is not a run has no directives.
    pub done: Vec<Option<Directives>>,
    /// The units in flight, in the order in which they began.
    pub running: Vec<RunningUnit>,
    /// The units for which a child was started, in the order of these starts.
    pub started: Vec<usize>,
    /// For each unit, the note of its first difference. A unit that has not begun has no note. The
    /// note of a unit that has begun contains the difference, or says that nothing differed.
    pub reasons: Vec<Option<Option<Difference>>>,
}

/// Adds an item to a list that has space for one more item.
fn put<T: Drop>(items: &mut Vec<T>, item: T)
    requires { vec_len items.old < vec_capacity items.old }
    ensures { items.new.items ≡ items.old.items ++ item ∷ [] }
{
    match items.push(item) {
        Ok(()) => {}
        Err(_) => {}
    }
}

/// Makes space for one more unit in flight, and for one more started unit.
fn make_room(running: &mut Vec<RunningUnit>, started: &mut Vec<usize>) -> Result<(), AllocError>
    ensures running { running.new.items ≡ running.old.items }
    ensures started { started.new.items ≡ started.old.items }
    ensures room { OnOk result (vec_len running.new < vec_capacity running.new) }
    ensures more { OnOk result (vec_len started.new < vec_capacity started.new) }
{
    running.reserve(1)?;
    started.reserve(1)?;
    Ok(())
}

/// Notes a unit that has begun.
fn note_begun(
    running: &mut Vec<RunningUnit>,
    started: &mut Vec<usize>,
    reasons: &mut Vec<Option<Option<Difference>>>,
    unit: usize,
    mut begun: Begun,
)
    requires room { vec_len running.old < vec_capacity running.old }
    requires more { vec_len started.old < vec_capacity started.old }
    requires within { unit < length reasons.old.items }
    ensures running { running.new.items
        ≡ running.old.items ++ record { unit = unit; begun = noted begun } ∷ [] }
    ensures started { started.new.items
        ≡ started.old.items ++ if_so (is_some (child_of begun)) unit }
    ensures reasons { reasons.new.items ≡ slice_set reasons.old.items unit (Some begun.difference) }
{
    let spawned = begun.has_child();
    let difference = begun.difference.take();
    put(running, RunningUnit { unit, begun });
    if spawned {
        put(started, unit);
    }
    reasons[unit] = Some(difference);
}

/// Begins a unit of the executor's project. The unit must not be in flight. After a fault the unit
/// is not in flight.
fn begin_at<P: Place>(
    alloc: Global,
    crew: &mut UnitExecutor,
    place: &mut P,
    unit: usize,
) -> Result<bool, BuildFault>
    requires consistent { IsConsistent crew.old (P.at place.old).counts }
    requires able { IsAble P.is_modelled crew.old (P.at place.old) }
    requires unit { unit < length (needs_of crew.old.project) }
    requires grounded { Contains (indices_of crew.old.running.items) unit → ⊥ }
    ensures consistent { IsConsistent crew.new (P.at place.new).counts }
    ensures able { OnOk result (IsAble P.is_modelled crew.new (P.at place.new)) }
    ensures project { crew.new.project ≡ crew.old.project }
    ensures flying { OnOk result
        (indices_of crew.new.running.items ≡ indices_of crew.old.running.items ++ unit ∷ []) }
    ensures story { (first : UnitExecutor) (at : BuildState) (heard : SinkState)
        (es : List (Event BadUnit))
        (given : ℕ)
        → History P.is_modelled P.child first at crew.old (moment (P.at place.old) heard)
        (P.at place.old).still es given → indices_of crew.old.running.items ≡ flying_after es
        → IsLawful (needs_of crew.old.project) es
        → given ≡ count_due (states_in crew.old.project es)
        → MayBegin (needs_of crew.old.project) (states_in crew.old.project es) unit
        → MatchResult result
        (λ spawned.
        History P.is_modelled P.child first at crew.new (moment (P.at place.new) heard)
        (P.at place.new).still (Began unit spawned ∷ es) given)
        (λ e.
        (spawned : Bool)
        × StoryEnds P.is_modelled P.child e None first at crew.new
        (moment (P.at place.new) heard) (P.at place.new).still
        (Began unit spawned ∷ es)) }
{
    // Space is made before the spawn, so that a child in flight is always noted.
    match make_room(&mut crew.running, &mut crew.started) {
        Ok(()) => {}
        Err(_) => return Err(BuildFault::OutOfMemory),
    }
    let project = &crew.project;
    let planned = &project.units()[unit];
    let begun = match begin_unit(
        alloc,
        place,
        &mut crew.store,
        &crew.setup,
        project,
        crew.done.as_slice(),
        unit,
        planned,
    ) {
        Ok(begun) => begun,
        Err(fault) => return Err(fault),
    };
    let spawned = begun.has_child();
    note_begun(
        &mut crew.running,
        &mut crew.started,
        &mut crew.reasons,
        unit,
        begun,
    );
    Ok(spawned)
}

/// Returns the bytes of a text.
fn bytes_of(text: Text) -> Bytes
    ensures { result ≡ text }
{
    Bytes::new(text.into_string().into_bytes())
}

/// Notes the result of a unit, and returns its answer.
fn note_answer(done: &mut Vec<Option<Directives>>, unit: usize, outcome: Outcome) -> Answer<BadUnit>
    requires within { unit < length done.old.items }
    ensures done { done.new.items ≡ slice_set done.old.items unit outcome.directives }
    ensures answer { result ≡ record { fault = outcome.fault; lines = outcome.lines } }
{
    let fault = outcome.fault;
    done[unit] = outcome.directives;
    let lines = bytes_of(outcome.lines);
    Answer { fault, lines }
}

/// Takes the answer of a unit in flight. `index` is the position of the unit among the units in
/// flight. Afterwards the unit is no longer in flight, even after a fault.
fn answer_at<P: Place>(
    alloc: Global,
    crew: &mut UnitExecutor,
    place: &mut P,
    index: usize,
) -> Result<Answer<BadUnit>, BuildFault>
    requires consistent { IsConsistent crew.old (P.at place.old).counts }
    requires able { IsAble P.is_modelled crew.old (P.at place.old) }
    requires within { index < length (indices_of crew.old.running.items) }
    ensures consistent { IsConsistent crew.new (P.at place.new).counts }
    ensures able { OnOk result (IsAble P.is_modelled crew.new (P.at place.new)) }
    ensures project { crew.new.project ≡ crew.old.project }
    ensures flying { indices_of crew.new.running.items
        ≡ remove (indices_of crew.old.running.items) index }
    ensures story { (first : UnitExecutor) (at : BuildState) (heard : SinkState)
        (es : List (Event BadUnit))
        (given unit : ℕ)
        → History P.is_modelled P.child first at crew.old (moment (P.at place.old) heard)
        (P.at place.old).still es given → indices_of crew.old.running.items ≡ flying_after es
        → IsLawful (needs_of crew.old.project) es
        → given ≡ count_due (states_in crew.old.project es)
        → slice_get (indices_of crew.old.running.items) index ≡ Some unit
        → slice_get (states_in crew.old.project es) unit ≡ Some state.Begun
        → MatchResult result
        (λ answer.
        History P.is_modelled P.child first at crew.new (moment (P.at place.new) heard)
        (P.at place.new).still (Gave unit answer ∷ es) given)
        (λ e.
        StoryEnds P.is_modelled P.child e (Some unit) first at crew.new
        (moment (P.at place.new) heard) (P.at place.new).still es) }
{
    // The unit leaves the list first, so that it is no longer in flight even after a fault.
    let RunningUnit { unit, begun } = crew.running.remove(index);
    let project = &crew.project;
    let planned = &project.units()[unit];
    let outcome = match answer_unit(alloc, place, &mut crew.store, project, unit, planned, begun) {
        Ok(outcome) => outcome,
        Err(fault) => return Err(fault),
    };
    Ok(note_answer(&mut crew.done, unit, outcome))
}

/// Returns the plan indices of the units in flight.
fn indices_of(alloc: Global, running: &[RunningUnit]) -> Result<Vec<usize>, AllocError>
    ensures { IfOk result (λ indices. indices.items ≡ indices_of running.now) }
{
    let mut indices = Vec::new(alloc);
    for one in running {
        indices.push(one.unit)?;
    }
    Ok(indices)
}

impl<P: Place, O: Out> Executor<P, O, BadUnit, BuildFault> for UnitExecutor {
    ghost needs = { λ crew. needs_of crew.project };

    ghost flying = { λ crew. indices_of crew.running.items };

    ghost holds = { λ crew index out. IsConsistent crew (P.at index).counts };

    ghost able = { λ crew index out. IsAble P.is_modelled crew (P.at index) };

    ghost story = { λ first first_place first_out crew index out es given.
        History P.is_modelled P.child first (moment (P.at first_place) (O.heard first_out)) crew
        (moment (P.at index) (O.heard out)) (P.at index).still es given };

    ghost stops = { λ fault asked first first_place first_out crew index out es.
        StoryEnds P.is_modelled P.child fault asked first
        (moment (P.at first_place) (O.heard first_out)) crew
        (moment (P.at index) (O.heard out)) (P.at index).still es };

    fn in_flight(&self, alloc: Global) -> Result<Vec<usize>, AllocError> {
        indices_of(alloc, self.running.as_slice())
    }

    fn begin(
        &mut self,
        alloc: Global,
        place: &mut P,
        out: &mut O,
        unit: usize,
    ) -> Result<bool, BuildFault> {
        begin_at(alloc, self, place, unit)
    }

    fn answer(
        &mut self,
        alloc: Global,
        place: &mut P,
        out: &mut O,
        index: usize,
    ) -> Result<Answer<BadUnit>, BuildFault> {
        answer_at(alloc, self, place, index)
    }

    fn tell(&mut self, place: &mut P, out: &mut O, lines: &[u8]) -> Result<(), BuildFault> {
        if write_all(out, lines) {
            Ok(())
        } else {
            Err(BuildFault::Sink)
        }
    }

    fn out_of_memory(&self) -> BuildFault {
        BuildFault::OutOfMemory
    }
}
