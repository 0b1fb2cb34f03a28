//! How a unit answers. The unit's child ends, or the unit's record is replayed. The answer is
//! judged, and the record is kept or renewed.

ghost use Rattle.std.specs.Prelude.{◌≡◌, ◌++◌, ℕ, true, List, Option, IsTrue, IsOk, IfOk, IfSome, MatchResult, OnOk, Ok, Err, Some, None, Result, slice_get};
ghost use Rattle.std.specs.FinMap as finite;
ghost use Rattle.std.specs.List.{flat_map};
ghost use Rattle.pb_command.specs.Judge.{file_at};
ghost use Rattle.pb_command_reply.specs.Answers.{answered_of};
ghost use Rattle.pb_place_types.specs.Children.{is_flying, child_at, LandsAs, StaysStillBut};
ghost use Rattle.pb_place_types.specs.World.{World, ChangesOnlyInSome};
ghost use Rattle.pb_place_types.specs.declared.place.StartFault.{StartFault};
ghost use Rattle.pb_command_types.specs.Targets.{dep_info_of};
ghost use Rattle.pb_command_types.specs.declared.project.Setup.{Setup};
ghost use Rattle.pb_run.specs.Running.{AnswersBuild, AnswersUnit, EndsUnit, ChangesUnit, KeepsStore, HasEnded, dep_info_looked, StepAnswers};
ghost use Rattle.pb_run.specs.Steps.{Lands, started, MayAnswer, MayFollow, StepLooks, StepMakes, StepTakes};
ghost use Rattle.pb_run.specs.UnitSteps.{Premise, WritesTo, build_context, begun_with, child_in, key_at, needed_keys};
ghost use Rattle.pb_run.specs.Outcome.{judgement_by, outcome_by, directives_in, unstarted};
ghost use Rattle.pb_run.specs.Invariants.{IsCommandOf, records_folder};
ghost use Rattle.pb_run.specs.declared.begun.Awaited.TheVariants as awaited;
ghost use Rattle.pb_store_soundness.specs.Records.{records};
ghost use Rattle.pb_store.specs.Folder.{HasNumbers};

use crate::begun::{Awaited, SpawnedChild};
use crate::faults::{StepFault, start_fault};
use crate::ordered::OrderedProject;
use crate::ran::{Ran, Validated, judge_reply};
use crate::running::read_at;
use pb_command_types::{Project, dep_info_path, unit_at};
use pb_data::{Items, Text, TryCopy};
use pb_place_types::{Command, Ended, Place};
use pb_store::{Key, Replayed, Store, StoreFault};
use pb_unit::Planned;
use std::alloc::{AllocError, Global};

/// The fault of a step in which memory ran out.
const OUT_OF_MEMORY: StepFault = StepFault::Store(StoreFault::OutOfMemory);

/// Waits for the end of the child of a unit.
#[tactic(auto, using(crate::proofs::Ending::finish_laws))]
fn finish<P: Place>(
    alloc: Global,
    place: &mut P,
    launched: &SpawnedChild,
) -> Result<Ended, StepFault>
    requires flies { is_flying launched.now.ticket (P.at place.old).counts.starts.flying ≡ true }

    // This clause states how the child ended and what it left.
    ensures ended { IsTrue P.is_modelled → MatchResult result
        (λ ended. HasEnded launched.now.ticket (Ok ended) (IsOk result)
        ((P.at place.old).still launched.now.ticket) (P.at place.old).world (P.at place.new).world
        (P.at place.old).counts (P.at place.new).counts)
        (λ e. (fault : StartFault) × HasEnded launched.now.ticket (Err fault) (IsOk result)
        ((P.at place.old).still launched.now.ticket) (P.at place.old).world (P.at place.new).world
        (P.at place.old).counts (P.at place.new).counts × (e ≡ started fault)) }
    ensures only { IfSome (child_at launched.now.ticket (P.at place.old).counts.starts.flying)
        (λ spawned. ChangesOnlyInSome spawned.command.out (P.at place.old).world
        (P.at place.new).world) }

    // The other children stay in flight and do not change.
    ensures most { (P.at place.new).most ≡ (P.at place.old).most }
    ensures still { StaysStillBut launched.now.ticket (P.at place.old).counts.starts.flying
        (P.at place.old).world (P.at place.new).world (P.at place.old).still
        (P.at place.new).still }
    ensures takes { (next : Option ℕ) → StepTakes (Lands (Some launched.now))
        (MayAnswer next (Some launched.now)) result (P.at place.old).counts
        (P.at place.new).counts }
{
    match place.finish(alloc, launched.ticket) {
        Ok(ended) => Ok(ended),
        Err(fault) => Err(start_fault(fault)),
    }
}

/// Judges the answer of a unit's child by what the unit's output folder contains.
#[tactic(auto, using(crate::proofs::Calling::call_laws))]
fn judged_now<P: Place>(
    alloc: Global,
    place: &mut P,
    project: &OrderedProject,
    unit: &Planned,
    command: &Command,
    ended: &Ended,
) -> Result<Validated, StepFault>
    ensures judged { IsTrue P.is_modelled → IfOk result (λ judgement. judgement ≡ judgement_by
        project.now unit.now ended.now (answered_of project.now unit.now command.now ended.now
        (file_at (dep_info_of project.now unit.now) (P.at place.old).world.files))) }
    ensures started { IfOk result (λ judgement. judgement.ran.started ≡ true) }
    ensures directives { IfOk result (λ judgement.
        directives_in (outcome_by finite.empty judgement.ran) ≡ judgement.ran.directives) }
    ensures quiet { StepLooks MayFollow result (P.at place.old) (P.at place.new) }
    ensures calls { StepMakes result (dep_info_looked (dep_info_of project.now unit.now))
        (P.at place.old).counts (P.at place.new).counts }
{
    let path = match dep_info_path(alloc, project.get(), unit) {
        Ok(path) => path,
        Err(_) => return Err(OUT_OF_MEMORY),
    };
    // Reading a file is a counted call, and `judge_reply` makes no call. So the dep-info is read
    // here.
    let dep_info = read_at(alloc, place, &path)?;
    match judge_reply(alloc, place, project.get(), unit, command, ended, &dep_info) {
        Ok(judgement) => Ok(judgement),
        Err(_) => Err(OUT_OF_MEMORY),
    }
}

/// Adds the key of the unit at an index.
fn push_key(
    alloc: Global,
    keys: &mut Items<Text>,
    project: &Project,
    index: usize,
) -> Result<(), AllocError>
    ensures { OnOk result (keys.new ≡ keys.old ++ key_at project.now index) }
{
    if let Some(need) = unit_at(project, index) {
        keys.push(need.key.copy(alloc)?)?;
    }
    Ok(())
}

/// Adds the keys of the units at some indices.
fn push_keys(
    alloc: Global,
    keys: &mut Items<Text>,
    project: &Project,
    indices: &[usize],
) -> Result<(), AllocError>
    ensures { OnOk result (keys.new ≡ keys.old ++ flat_map (key_at project.now) indices.now) }
{
    for index in indices {
        push_key(alloc, keys, project, *index)?;
    }
    Ok(())
}

/// Returns the keys of the units that a unit needs, in plan order.
fn needed_keys(
    alloc: Global,
    project: &OrderedProject,
    unit: &Planned,
) -> Result<Items<Text>, AllocError>
    ensures { IfOk result (λ keys. keys ≡ needed_keys project.now unit.now) }
{
    let mut keys = Items::new(alloc);
    push_keys(alloc, &mut keys, project.get(), unit.needs.as_slice())?;
    Ok(keys)
}

/// Returns the result of a unit, marked as not started.
fn without_start(ran: Ran) -> Ran
    ensures { result ≡ unstarted ran }
{
    Ran {
        started: false,
        bad: ran.bad,
        directives: ran.directives,
        messages: ran.messages,
    }
}

/// Answers a unit that has a child: waits for the child's end, judges the answer, and keeps the
/// record if the answer is good. After the child's end only the unit's record changes.
fn land<P: Place>(
    alloc: Global,
    place: &mut P,
    store: &mut Store,
    project: &OrderedProject,
    index: usize,
    unit: &Planned,
    key: &Key,
    command: &Command,
    launched: &SpawnedChild,
) -> Result<Ran, StepFault>
    requires unit { slice_get project.now.plan.planned index ≡ Some unit.now }
    requires folder { store.old.folder ≡ records_folder project.now }
    requires key { key.now ≡ unit.now.key }
    requires asks { IsCommandOf project.now unit.now command.now }
    requires flies { is_flying launched.now.ticket (P.at place.old).counts.starts.flying ≡ true }
    requires writes { WritesTo unit.now.out (Some launched.now)
        (P.at place.old).counts.starts.flying }
    requires numbers { IsTrue P.is_modelled →
        HasNumbers (records store.old.folder (P.at place.old).world) store.old.numbers }

    // These clauses are those of `answer_begun`, for a unit with a child.
    ensures answers { IfOk result (AnswersUnit P.is_modelled project.now unit.now
        (begun_with unit.now.key command.now (awaited.Child launched.now))
        store.old store.new (P.at place.old) (P.at place.new)) }
    ensures ends { EndsUnit P.is_modelled project.now unit.now
        (begun_with unit.now.key command.now (awaited.Child launched.now)) result
        store.old store.new (P.at place.old) (P.at place.new) }
    ensures build { (premise : Premise) (setup : Setup) (sources : World) → IsTrue P.is_modelled →
        AnswersBuild (build_context premise P.child setup project.now sources) index unit.now
        (begun_with unit.now.key command.now (awaited.Child launched.now)) result
        store.old.next store.new.next (P.at place.old) (P.at place.new) }
    ensures store { KeepsStore P.is_modelled result store.old store.new (P.at place.new) }
    ensures changes { ChangesUnit (records_folder project.now) unit.now.key (Some launched.now)
        (Lands (Some launched.now)) (MayAnswer store.old.next (Some launched.now)) result
        (P.at place.old) (P.at place.new) }
{
    project.is_in_order();
    let ended = match finish(alloc, place, launched) {
        Ok(ended) => ended,
        Err(fault) => return Err(fault),
    };
    let judgement = match judged_now(alloc, place, project, unit, command, &ended) {
        Ok(judgement) => judgement,
        Err(fault) => return Err(fault),
    };
    // No record of a bad unit is kept.
    if judgement.ran.bad.is_some() {
        return Ok(judgement.ran);
    }
    let needs = match needed_keys(alloc, project, unit) {
        Ok(needs) => needs,
        Err(_) => return Err(OUT_OF_MEMORY),
    };
    match store.keep(
        alloc,
        place,
        key,
        launched.number,
        command,
        needs.as_slice(),
        judgement.names.as_slice(),
        &ended,
    ) {
        Ok(()) => Ok(judgement.ran),
        Err(fault) => Err(StepFault::Store(fault)),
    }
}

/// Answers a unit that has no child, because nothing differs from its record. What the record
/// replays is judged. If the answer is good and nothing moved, a record without a run number gets a
/// run number. A record with a run number is not read again. Only the unit's record changes.
fn reuse<P: Place>(
    alloc: Global,
    place: &mut P,
    store: &mut Store,
    project: &OrderedProject,
    index: usize,
    unit: &Planned,
    key: &Key,
    command: &Command,
    again: &Replayed,
) -> Result<Ran, StepFault>
    requires unit { slice_get project.now.plan.planned index ≡ Some unit.now }
    requires folder { store.old.folder ≡ records_folder project.now }
    requires key { key.now ≡ unit.now.key }
    requires asks { IsCommandOf project.now unit.now command.now }
    requires numbers { IsTrue P.is_modelled →
        HasNumbers (records store.old.folder (P.at place.old).world) store.old.numbers }

    // These clauses are those of `answer_begun`, for a unit without a child.
    ensures answers { IfOk result (AnswersUnit P.is_modelled project.now unit.now
        (begun_with unit.now.key command.now (awaited.Record again.now))
        store.old store.new (P.at place.old) (P.at place.new)) }
    ensures ends { EndsUnit P.is_modelled project.now unit.now
        (begun_with unit.now.key command.now (awaited.Record again.now)) result
        store.old store.new (P.at place.old) (P.at place.new) }
    ensures build { (premise : Premise) (setup : Setup) (sources : World) → IsTrue P.is_modelled →
        AnswersBuild (build_context premise P.child setup project.now sources) index unit.now
        (begun_with unit.now.key command.now (awaited.Record again.now)) result
        store.old.next store.new.next (P.at place.old) (P.at place.new) }
    ensures store { KeepsStore P.is_modelled result store.old store.new (P.at place.new) }
    ensures changes { ChangesUnit (records_folder project.now) unit.now.key None (Lands None)
        (MayAnswer store.old.next None) result (P.at place.old) (P.at place.new) }
{
    project.is_in_order();
    let judgement = match judged_now(alloc, place, project, unit, command, &again.ended) {
        Ok(judgement) => judgement,
        Err(fault) => return Err(fault),
    };
    let ran = without_start(judgement.ran);
    if ran.bad.is_some() {
        return Ok(ran);
    }
    // A record with a number is not changed.
    if again.numbered {
        return Ok(ran);
    }
    // If something moved, the unit will be built again, and no record may name the unit's record.
    if !place.stood_still(command) {
        return Ok(ran);
    }
    let needs = match needed_keys(alloc, project, unit) {
        Ok(needs) => needs,
        Err(_) => return Err(OUT_OF_MEMORY),
    };
    match store.migrate(alloc, place, key, needs.as_slice()) {
        Ok(()) => Ok(ran),
        Err(fault) => Err(StepFault::Store(fault)),
    }
}

/// Answers a unit that has begun: by the end of its child, or by what its record replays.
pub(crate) fn answer_begun<P: Place>(
    alloc: Global,
    place: &mut P,
    store: &mut Store,
    project: &OrderedProject,
    index: usize,
    unit: &Planned,
    key: &Key,
    command: &Command,
    awaited: &Awaited,
) -> Result<Ran, StepFault>
    requires unit { slice_get project.now.plan.planned index ≡ Some unit.now }
    requires folder { store.old.folder ≡ records_folder project.now }
    requires key { key.now ≡ unit.now.key }
    requires asks { IsCommandOf project.now unit.now command.now }
    requires flies { IfSome (child_in awaited.now)
        (λ launched. is_flying launched.ticket (P.at place.old).counts.starts.flying ≡ true) }
    requires writes { WritesTo unit.now.out (child_in awaited.now)
        (P.at place.old).counts.starts.flying }
    requires numbers { IsTrue P.is_modelled →
        HasNumbers (records store.old.folder (P.at place.old).world) store.old.numbers }
    ensures { StepAnswers P.is_modelled P.child project.now index unit.now
        (begun_with unit.now.key command.now awaited.now) result store.old store.new
        (P.at place.old) (P.at place.new) }
{
    match awaited {
        Awaited::Child(launched) => land(
            alloc, place, store, project, index, unit, key, command, launched,
        ),
        Awaited::Record(again) => reuse(
            alloc, place, store, project, index, unit, key, command, again,
        ),
    }
}
