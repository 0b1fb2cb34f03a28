//! Sessions in memory: edits and builds, one after another.

ghost use Rattle.std.specs.Prelude.{◌≡◌, List, [], true, false, Result, IfOk, OnOk, OnErr, IsTrue};
ghost use Rattle.pb_build_session.specs.declared.step.SessionStep.TheVariants.{Build};
ghost use Rattle.pb_build_result.specs.declared.fault.BuildFault.{BuildFault};
ghost use Rattle.pb_build_result.specs.declared.summary.Summary.{Summary};
ghost use Rattle.pb_build.specs.Environment.{environment_of};
ghost use Rattle.pb_build.specs.Headline.{Headline};
ghost use Rattle.pb_build.specs.Kept.{SourcesStay};
ghost use Rattle.pb_build.specs.Session.{Picked, ByPicked, Carries, Course, Loses, Breaks, point};
ghost use Rattle.pb_place.specs.Memory.{at_in, counts_in, may_fail};
ghost use Rattle.pb_place.specs.Tallies.{one_setting};
ghost use Rattle.pb_build_turns.specs.Executor.{moment};

use crate::builder::{build, build_with};
use pb_build_result::{BuildFault, Summary};
use pb_build_session::{PickBy, SessionStep};
use pb_data::Items;
use pb_place::{Memory, Unfailing};
use pb_place_types::{Child, Out, Place};
use pb_run_flight::Last;
use pb_workspace_types::Options;
use std::alloc::{AllocError, Global};

/// Builds, and begins the units that the session picks.
fn build_picked<P: Place, O: Out>(
    alloc: Global,
    place: &mut P,
    out: &mut O,
    options: &Options,
    pick: PickBy,
) -> Result<Summary, BuildFault>
    requires none { (P.at place.old).counts.starts.flying ≡ [] }
    ensures picked { Picked P.is_modelled P.child options.now pick result
        (moment (P.at place.old) (O.heard out.old)) (moment (P.at place.new) (O.heard out.new)) }
    ensures headline { Headline P.is_modelled P.child (ByPicked pick options.now) options.now result
        (moment (P.at place.old) (O.heard out.old)) (moment (P.at place.new) (O.heard out.new)) }
    ensures kept { IsTrue P.is_modelled
        → SourcesStay (environment_of options.now (P.at place.old).world.variables).target
        (P.at place.old).world (P.at place.new).world }
    ensures landed { (P.at place.new).counts.starts.flying ≡ [] }
{
    match pick {
        PickBy::First => build(alloc, place, out, options),
        PickBy::Last => build_with(alloc, place, out, options, &mut Last {}),
    }
}

/// Builds over a place on which no call fails, and begins the units that the session picks. After
/// the build, no call has failed.
fn built_unfailing<C: Child + Copy, O: Out>(
    alloc: Global,
    memory: &mut Memory<C>,
    out: &mut O,
    options: &Options,
    pick: PickBy,
) -> Result<Summary, BuildFault>
    requires none { (counts_in memory.old).starts.flying ≡ [] }
    requires quiet { may_fail memory.old ≡ false }
    requires unfailed { (counts_in memory.old).failures ≡ 0 }
    ensures picked { Picked true C.answers options.now pick result
        (moment (at_in memory.old) (O.heard out.old))
        (moment (at_in memory.new) (O.heard out.new)) }
    ensures headline { Headline true C.answers (ByPicked pick options.now) options.now result
        (moment (at_in memory.old) (O.heard out.old))
        (moment (at_in memory.new) (O.heard out.new)) }
    ensures kept { SourcesStay
        (environment_of options.now memory.old.world.variables).target memory.old.world
        memory.new.world }
    ensures landed { (counts_in memory.new).starts.flying ≡ [] }
    ensures unfailed { (counts_in memory.new).failures ≡ 0 }
{
    let mut unfailing = Unfailing::new(memory.take(alloc));
    let result = build_picked(alloc, &mut unfailing, out, options, pick);
    *memory = unfailing.into_memory();
    result
}

/// Builds, and begins the units that the session picks. If no call is set to fail, and no earlier
/// call has failed, no call of the build fails.
fn build_by<C: Child + Copy, O: Out>(
    alloc: Global,
    memory: &mut Memory<C>,
    out: &mut O,
    options: &Options,
    pick: PickBy,
) -> Result<Summary, BuildFault>
    requires none { (counts_in memory.old).starts.flying ≡ [] }
    ensures picked { Picked true C.answers options.now pick result
        (moment (at_in memory.old) (O.heard out.old))
        (moment (at_in memory.new) (O.heard out.new)) }
    ensures headline { Headline true C.answers (ByPicked pick options.now) options.now result
        (moment (at_in memory.old) (O.heard out.old))
        (moment (at_in memory.new) (O.heard out.new)) }
    ensures kept { SourcesStay
        (environment_of options.now memory.old.world.variables).target memory.old.world
        memory.new.world }
    ensures landed { (counts_in memory.new).starts.flying ≡ [] }
    ensures unfailing { memory.old.fuse ≡ 0 → memory.old.deaths ≡ []
        → (counts_in memory.old).failures ≡ 0
        → (counts_in memory.new).failures ≡ 0 }
{
    if memory.is_unfailing() {
        built_unfailing(alloc, memory, out, options, pick)
    } else {
        build_picked(alloc, memory, out, options, pick)
    }
}

/// Builds, and adds the answer to the answers of earlier builds. If the build did not reach the
/// fuse, the fuse is removed.
fn add_build<C: Child + Copy, O: Out>(
    alloc: Global,
    memory: &mut Memory<C>,
    out: &mut O,
    options: &Options,
    pick: PickBy,
    answers: &mut Items<Result<Summary, BuildFault>>,
) -> Result<(), AllocError>
    requires none { (counts_in memory.old).starts.flying ≡ [] }
    ensures taken { OnOk result
        (Carries C.answers (Build options.now pick)
        (point memory.old (O.heard out.old) answers.old)
        (point memory.new (O.heard out.new) answers.new)) }
    ensures none { OnOk result ((counts_in memory.new).starts.flying ≡ []) }
    ensures lost { OnErr result
        (Loses C.answers (Build options.now pick)
        (point memory.old (O.heard out.old) answers.old)
        (point memory.new (O.heard out.new) answers.new)) }
{
    let result = build_by(alloc, memory, out, options, pick);
    memory.files_have_paths();
    memory.fuse(0);
    answers.push(result)?;
    Ok(())
}

/// Takes a step. A build adds its answer to the answers of earlier builds. Any other step has no
/// answer.
fn take_step<C: Child + Copy, O: Out>(
    alloc: Global,
    memory: &mut Memory<C>,
    out: &mut O,
    step: &SessionStep,
    answers: &mut Items<Result<Summary, BuildFault>>,
) -> Result<(), AllocError>
    requires none { (counts_in memory.old).starts.flying ≡ [] }
    ensures taken { OnOk result
        (Carries C.answers step.now (point memory.old (O.heard out.old) answers.old)
        (point memory.new (O.heard out.new) answers.new)) }
    ensures none { OnOk result ((counts_in memory.new).starts.flying ≡ []) }
    ensures lost { OnErr result
        (Loses C.answers step.now (point memory.old (O.heard out.old) answers.old)
        (point memory.new (O.heard out.new) answers.new)) }
{
    match step {
        SessionStep::Write(path, text) => memory.put(alloc, path, text.as_bytes()),
        SessionStep::Remove(path) => memory.remove(alloc, path),
        SessionStep::Set(name, value) => memory.set(alloc, name.as_str(), value.as_str()),
        SessionStep::Unset(name) => memory.unset(alloc, name.as_str()),
        SessionStep::Build(options, pick) => add_build(alloc, memory, out, options, *pick, answers),
        SessionStep::Die(name, death) => memory.die(alloc, name.as_str(), death.fault()),
        SessionStep::Fuse(number) => light(memory, *number),
    }
}

/// Sets the fuse: in the next build, the call with this number fails. If the number is 0, no call
/// fails.
fn light<C: Child>(memory: &mut Memory<C>, number: u64) -> Result<(), AllocError>
    ensures ok { OnOk result
        (memory.new ≡ record memory.old { tally = one_setting memory.old.tally; fuse = number }) }
    ensures err { OnErr result (memory.new ≡ memory.old) }
{
    memory.fuse(number);
    Ok(())
}

/// Takes steps, one after another, over a place in memory with no child in flight. Returns an
/// answer for each build. All builds write their message lines to one sink.
///
/// Each build ends as `build` promises, in the world that the earlier steps left. The contract
/// states the cause of each build's end. If no call was set to fail, and no earlier call has
/// failed, no call of a build fails, unless memory runs out.
///
/// Errors: only out of memory, and only outside of a build. After this error, all steps before the
/// failing step have been taken. If the failing step is a build, the build has ended. Any other
/// failing step has done nothing. If memory runs out inside a build, `OutOfMemory` is the build's
/// answer, and the session goes on.
pub fn session<C: Child + Copy, O: Out>(
    alloc: Global,
    memory: &mut Memory<C>,
    out: &mut O,
    steps: &[SessionStep],
) -> Result<Items<Result<Summary, BuildFault>>, AllocError>
    requires none { (counts_in memory.old).starts.flying ≡ [] }
    ensures taken { IfOk result
        (λ answers.
        Course C.answers steps.now (point memory.old (O.heard out.old) [])
        (point memory.new (O.heard out.new) answers)) }
    ensures broken { OnErr result
        ((answers : List (Result Summary BuildFault))
        × Breaks C.answers steps.now (point memory.old (O.heard out.old) [])
        (point memory.new (O.heard out.new) answers)) }
{
    let mut answers = Items::new(alloc);
    for step in steps {
        take_step(alloc, memory, out, step, &mut answers)?;
    }
    Ok(answers)
}
