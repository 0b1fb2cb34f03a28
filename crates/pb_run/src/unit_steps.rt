//! The two steps of a unit: it begins, with or without a child; then it answers, or its answer is
//! dropped. `run_unit` takes both steps.

ghost use Rattle.std.specs.Prelude.{◌≡◌, ◌≢◌, ◌⊎◌, ℕ, true, List, Option, IsTrue, IfErr, IfOk, IfSome, Some, None, slice_get};
ghost use Rattle.pb_command.specs.Command.{command_of};
ghost use Rattle.pb_place_types.specs.Children.{child_at, is_flying};
ghost use Rattle.pb_place_types.specs.Paths.{is_at_or_below};
ghost use Rattle.pb_place_types.specs.World.{World, ChangesOnly};
ghost use Rattle.pb_place_types.specs.declared.child_in_flight.ChildInFlight.{ChildInFlight};
ghost use Rattle.pb_command_types.specs.Targets.{unit_at};
ghost use Rattle.pb_command_types.specs.declared.project.Setup.{Setup};
ghost use Rattle.pb_run.specs.Running.{DropsBuild, IsOf, Begins, BeginsBuild, BeginsUnit, ChangesUnit, Differs, FailsToBegin, KeepsStore, HasTold, RunsUnit, told_of};
ghost use Rattle.pb_run.specs.Steps.{Drops, IsOfUnit, bare, BeginFaults};
ghost use Rattle.pb_run.specs.UnitSteps.{Premise, BuildContext, WritesTo, build_context, child_of};
ghost use Rattle.pb_run.specs.Invariants.{IsInOrder, records_folder};
ghost use Rattle.pb_store_soundness.specs.Records.{records};
ghost use Rattle.pb_store.specs.Folder.{HasNumbers};
ghost use Rattle.pb_unit.specs.declared.plan.Planned.{Planned};

use crate::begun::{Awaited, Begun};
use crate::faults::{StepFault, unit_fault};
use crate::landing::answer_begun;
use crate::launching::launch;
use crate::ordered::OrderedProject;
use crate::ran::Ran;
use pb_build_result::{BadUnit, BuildFault};
use pb_command_types::{Done, Setup};
use pb_data::{Text, TryCopy};
use pb_directive::Directives;
use pb_message_units::lines_of_unit;
use pb_place_types::{Command, Place};
use pb_store::{Compared, Difference, Key, Store};
use pb_unit::Planned;
use std::alloc::{AllocError, Global};

/// The result of a unit.
#[derive(Drop)]
pub struct Outcome {
    /// Why the unit is bad, and what its child printed. None if the unit is good.
    pub fault: Option<BadUnit>,
    /// The directives of a build script's run that ended well.
    pub directives: Option<Directives>,
    /// Its message lines.
    pub lines: Text,
    /// Whether a child was started for the unit.
    pub started: bool,
    /// The first difference from the unit's record. None if nothing differed and the record was
    /// replayed.
    pub difference: Option<Difference>,
}

/// Returns the command of a unit of a project.
fn command(
    alloc: Global,
    setup: &Setup,
    project: &OrderedProject,
    unit: &Planned,
    done: Done<'_>,
) -> Result<Command, AllocError>
    ensures { IfOk result (λ c. c ≡ command_of setup.now project.now unit.now done.now) }
{
    pb_command::command(alloc, setup, project.get(), unit, done)
}

/// Begins the unit at an index of the plan.
///
/// The unit is first compared with its record. If nothing differs, nothing is changed. If something
/// differs and a run number is left, the number is taken and three calls are made. These calls
/// remove the record, empty the output folder, and spawn the unit's child, in this order. The
/// records of needed units are not read, because the store has their numbers. `done` contains an
/// entry for each unit of the plan. The entry of a build script's run contains the run's
/// directives, if the run has answered.
///
/// Errors: each error except `OutOfMemory` contains the unit's key. If a call of the place failed,
/// it was the last call. After any error no new child is in flight, and the store may lack the
/// numbers of its records.
///
/// - `Device` if a file, a folder or a variable cannot be read. If something differs, the error is
///   also `Device` if the record or the folder cannot be removed, or if no run number is left.
/// - `Child` if the child cannot be spawned.
/// - `OutOfMemory`.
///
/// Clauses and fields with the premise `P.is_modelled` are about a place whose files and variables
/// are known to contracts. These clauses and fields say nothing about a real machine. On a real
/// machine, the world that contracts see is constant, so `changes` says nothing about files there.
/// What the contract says about calls, starts, children in flight, errors and run numbers is also
/// true on a real machine.
///
/// The clause `build` is about a build that satisfies `BuildInvariant`, and about a unit of this
/// build that satisfies `CanBegin`. A unit that satisfies `CanBegin` has not begun, and all units
/// that it reaches have answered and are good.
#[tactic(auto, using(crate::proofs::Naming::naming_laws))]
pub fn begin_unit<P: Place>(
    alloc: Global,
    place: &mut P,
    store: &mut Store,
    setup: &Setup,
    project: &OrderedProject,
    done: Done<'_>,
    index: usize,
    unit: &Planned,
) -> Result<Begun, BuildFault>
    requires unit { slice_get project.now.plan.planned index ≡ Some unit.now }
    requires folder { store.old.folder ≡ records_folder project.now }
    requires numbers { IsTrue P.is_modelled →
        HasNumbers (records store.old.folder (P.at place.old).world) store.old.numbers }

    // If `begin_unit` reports a difference, it is the first difference, and the unit has a child.
    // Otherwise the unit has what its record replays.
    ensures begins { IfOk result (BeginsUnit P.is_modelled P.child project.now unit.now
        (command_of setup.now project.now unit.now done.now) store.old store.new
        (P.at place.old) (P.at place.new)) }

    // The error contains this unit's key, or is `OutOfMemory`. The failed call is a call of the
    // comparison or, if something differs, of the launch.
    ensures named { IfErr result (IsOfUnit unit.now.key) }
    ensures fails { IfErr (bare result) (FailsToBegin P.is_modelled project.now unit.now
        (command_of setup.now project.now unit.now done.now) (P.at place.old) (P.at place.new)) }

    // Suppose that the records are sound, or that there are no records. Then after a success the
    // unit has begun, and what was true of the other units that have begun stays true.
    ensures build { (premise : Premise) (sources : World) → IsTrue P.is_modelled →
        BeginsBuild (build_context premise P.child setup.now project.now sources) done.now index
        unit.now
        (bare result) store.old.next store.new.next (P.at place.old) (P.at place.new) }

    // After a success the store has the numbers of its records. Only this unit's folder and record
    // change.
    ensures store { KeepsStore P.is_modelled (bare result) store.old store.new (P.at place.new) }
    ensures changes { ChangesUnit (records_folder project.now) unit.now.key None Begins
        (BeginFaults store.old.next) (bare result) (P.at place.old) (P.at place.new) }
{
    project.is_in_order();
    // All memory is taken before the first call, so that the key of each child in flight is known.
    let key = match unit.key.copy(alloc) {
        Ok(key) => Key::new(key),
        Err(_) => return Err(BuildFault::OutOfMemory),
    };
    let command = match command(alloc, setup, project, unit, done) {
        Ok(command) => command,
        Err(_) => return Err(BuildFault::OutOfMemory),
    };
    // The unit is compared with its record before anything is changed.
    let compared = match store.compare(alloc, place, &key, &command) {
        Ok(compared) => compared,
        Err(fault) => {
            drop(command);
            return Err(unit_fault(key.into_text(), StepFault::Store(fault)));
        }
    };
    let difference = match compared {
        Compared::Differs(difference) => difference,
        Compared::Same(again) => {
            return Ok(Begun {
                unit: key.into_text(),
                command,
                difference: None,
                awaited: Awaited::Record(again),
            });
        }
    };
    match launch(alloc, place, store, &key, &unit.out, &command) {
        Ok(launched) => Ok(Begun {
            unit: key.into_text(),
            command,
            difference: Some(difference),
            awaited: Awaited::Child(launched),
        }),
        Err(fault) => {
            drop(command);
            Err(unit_fault(key.into_text(), fault))
        }
    }
}

/// Returns the outcome of a unit, with its message lines and its difference.
fn outcome_of(
    alloc: Global,
    project: &OrderedProject,
    unit: &Planned,
    difference: Option<Difference>,
    ran: Ran,
) -> Result<Outcome, AllocError>
    ensures { IfOk result (λ outcome.
        outcome ≡ told_of project.now unit.now difference ran) }
{
    let messages = ran.messages.as_slice();
    let lines = lines_of_unit(alloc, project.get(), unit, ran.started, messages)?;
    Ok(Outcome {
        fault: ran.bad,
        directives: ran.directives,
        lines,
        started: ran.started,
        difference,
    })
}

/// Answers a unit that has begun, and makes its message lines. The unit is at this index of the
/// plan.
///
/// If the unit has a child, the child's end is awaited, the unit's dep-info is read, and the answer
/// is judged. The record is kept if the answer is good. Without a child, the answer that the record
/// replays is judged, and a record of format 1 gets a run number. A record names the needed units
/// by the numbers that the store has.
///
/// Whatever the function returns, the unit's child is no longer in flight, and the other children
/// stay in flight. The child's end changes only files inside the unit's folder. Later calls change
/// only the unit's record. A bad unit is not an error, and its record is not changed.
///
/// Errors: each error except `OutOfMemory` contains the unit's key. If a call of the place failed,
/// it was the last call, and the store may lack the numbers of its records.
///
/// - `Child` if the child did not answer.
/// - `Device` if a file, a folder or a variable cannot be read, or if the record cannot be written.
///   Also `Device` if the record has no run number, and no run number is left.
/// - `OutOfMemory`. If memory runs out only for the message lines, the record of a good unit is
///   kept.
#[tactic(auto, using(crate::proofs::Naming::naming_laws))]
pub fn answer_unit<P: Place>(
    alloc: Global,
    place: &mut P,
    store: &mut Store,
    project: &OrderedProject,
    index: usize,
    unit: &Planned,
    begun: Begun,
) -> Result<Outcome, BuildFault>
    requires unit { slice_get project.now.plan.planned index ≡ Some unit.now }
    requires folder { store.old.folder ≡ records_folder project.now }
    requires begun { IsOf project.now unit.now begun }
    requires flies { IfSome (child_of begun)
        (λ launched. is_flying launched.ticket (P.at place.old).counts.starts.flying ≡ true) }
    requires writes { WritesTo unit.now.out (child_of begun)
        (P.at place.old).counts.starts.flying }
    requires numbers { IsTrue P.is_modelled →
        HasNumbers (records store.old.folder (P.at place.old).world) store.old.numbers }

    // The unit has an answer, and the outcome or the error is that of this answer.
    ensures told { HasTold P.is_modelled P.child project.now index unit.now begun (bare result)
        store.old store.new (P.at place.old) (P.at place.new) }
    ensures named { IfErr result (IsOfUnit unit.now.key) }
{
    project.is_in_order();
    let Begun {
        unit: name,
        command,
        difference,
        awaited,
    } = begun;
    let key = Key::new(name);
    let answer = answer_begun(
        alloc, place, store, project, index, unit, &key, &command, &awaited,
    );
    drop(awaited);
    drop(command);
    let ran = match answer {
        Ok(ran) => ran,
        Err(fault) => {
            drop(difference);
            return Err(unit_fault(key.into_text(), fault));
        }
    };
    match outcome_of(alloc, project, unit, difference, ran) {
        Ok(outcome) => Ok(outcome),
        Err(_) => Err(BuildFault::OutOfMemory),
    }
}

/// Drops the answer of a unit that has begun. If the unit has a child, the function waits for the
/// child's end.
///
/// Whatever the place answers, the child is no longer in flight, and the other children stay in
/// flight. Nothing changes except the folder into which the child writes. A call that fails is
/// counted.
pub fn drop_unit<P: Place>(alloc: Global, place: &mut P, begun: &Begun)
    requires flies { IfSome (child_of begun.now)
        (λ launched. is_flying launched.ticket (P.at place.old).counts.starts.flying ≡ true) }

    // What is true of a build stays true, if the build's records are true or if there are no
    // records.
    ensures build { (b : BuildContext) (index : ℕ) (unit : Planned) (next : Option ℕ) →
        IsInOrder b.project → unit_at b.project index ≡ Some unit → IsTrue P.is_modelled →
        DropsBuild b index unit begun.now next (P.at place.old) (P.at place.new) }

    // Only the child's folder changes. This child is no longer in flight; all other children stay
    // in flight.
    ensures only { (out : List ℕ) →
        WritesTo out (child_of begun.now) (P.at place.old).counts.starts.flying →
        ChangesOnly (is_at_or_below out) (P.at place.old).world (P.at place.new).world }
    ensures stay { (ticket : ℕ) (its : ChildInFlight) →
        IfSome (child_of begun.now) (λ launched. ticket ≢ launched.ticket) →
        child_at ticket (P.at place.old).counts.starts.flying ≡ Some its →
        child_at ticket (P.at place.new).counts.starts.flying ≡ Some its }
    ensures most { (P.at place.new).most ≡ (P.at place.old).most }
    ensures counts { Drops (child_of begun.now) (P.at place.old).counts (P.at place.new).counts }
{
    let launched = match &begun.awaited {
        Awaited::Child(launched) => launched,
        Awaited::Record(_) => return,
    };
    let _ = place.finish(alloc, launched.ticket);
}

/// Runs the unit at an index of the plan: begins it, and answers it. Whatever the function returns,
/// the unit's child is no longer in flight.
///
/// Errors: those of `begin_unit` and `answer_unit`.
pub fn run_unit<P: Place>(
    alloc: Global,
    place: &mut P,
    store: &mut Store,
    setup: &Setup,
    project: &OrderedProject,
    done: Done<'_>,
    index: usize,
    unit: &Planned,
) -> Result<Outcome, BuildFault>
    requires unit { slice_get project.now.plan.planned index ≡ Some unit.now }
    requires folder { store.old.folder ≡ records_folder project.now }
    requires numbers { IsTrue P.is_modelled →
        HasNumbers (records store.old.folder (P.at place.old).world) store.old.numbers }

    // Either the unit could not begin, or it began and then answered.
    ensures halves { RunsUnit P.at P.is_modelled P.child setup.now project.now done.now index
        unit.now
        (bare result) store.old store.new place.old place.new }
    ensures named { IfErr result (IsOfUnit unit.now.key) }

    // After an error a start is counted only if something differed from the unit's record.
    ensures tried { IsTrue P.is_modelled → IfErr result (λ e.
        ((P.at place.new).counts.starts ≡ (P.at place.old).counts.starts)
        ⊎ Differs project.now unit.now (command_of setup.now project.now unit.now done.now)
        (P.at place.old).world) }
{
    let begun = match begin_unit(alloc, place, store, setup, project, done, index, unit) {
        Ok(begun) => begun,
        Err(fault) => return Err(fault),
    };
    match answer_unit(alloc, place, store, project, index, unit, begun) {
        Ok(outcome) => Ok(outcome),
        Err(fault) => Err(fault),
    }
}
