//! A build with a status line.

ghost use Rattle.std.specs.Prelude.{◌≡◌, ◌++◌, [], map, IfOk, IsTrue, MatchResult};
ghost use Rattle.pb_build.specs.AnyPlan.{BuildsOnFirst};
ghost use Rattle.pb_build.specs.Ending.{BuildsFirst, PlansFrom};
ghost use Rattle.pb_build.specs.Kept.{SourcesStay};
ghost use Rattle.pb_build_turns.specs.Executor.{BuildState, moment};

use crate::watched::Watched;
use pb_build::{BuildPlan, build_plan_turns};
use pb_build_result::{BuildFault, Summary};
use pb_data::{Items, Text, TryCopy};
use pb_place_types::{Out, Place};
use pb_run_flight::{First, Jobs};
use pb_tool_screen::{Counted, StatusLine};
use pb_unit::Planned;
use pb_workspace_types::Options;
use std::alloc::{AllocError, Global};

/// Returns copies of the keys of some units.
fn keys_of(alloc: Global, units: &[Planned]) -> Result<Items<Text>, AllocError> {
    let mut keys = Items::new(alloc);
    for unit in units {
        keys.push(unit.key.copy(alloc)?)?;
    }
    Ok(keys)
}

/// Returns the keys of the units of a plan. If there is no plan, or memory runs out for the keys,
/// returns no keys.
fn keys_in(alloc: Global, plan: &Result<BuildPlan, BuildFault>) -> Items<Text> {
    let keys = match plan {
        Ok(plan) => keys_of(alloc, plan.project.units()),
        Err(_) => return Items::new(alloc),
    };
    match keys {
        Ok(keys) => keys,
        Err(_) => Items::new(alloc),
    }
}

/// Notes how many units were built and kept, if a build ended without a fault.
fn note<S: Out>(line: &mut StatusLine<S>, answer: &Result<Summary, BuildFault>) {
    if let Ok(summary) = answer {
        line.note(Counted {
            built: summary.started.len(),
            kept: summary.kept.len(),
        });
    }
}

/// Builds what was planned, as `build_plan` does. Shows each unit that begins, if the unit's key is
/// among these keys.
///
/// Errors: those of `build_plan`.
fn build_shown<P: Place, O: Out, S: Out>(
    alloc: Global,
    place: &mut P,
    out: &mut O,
    line: &mut StatusLine<S>,
    options: &Options,
    plan: Result<BuildPlan, BuildFault>,
    keys: Items<Text>,
) -> Result<Summary, BuildFault>
    requires none { (P.at place.old).counts.starts.flying ≡ [] }
    ensures on { BuildsOnFirst P.is_modelled P.child options.now plan result
        (moment (P.at place.old) (O.heard out.old)) (moment (P.at place.new) (O.heard out.new)) }
    ensures kept { IsTrue P.is_modelled
        → MatchResult plan
        (λ p. SourcesStay p.project.workspace.target (P.at place.old).world
        (P.at place.new).world)
        (λ e. (P.at place.new).world ≡ (P.at place.old).world) }
    ensures landed { (P.at place.new).counts.starts.flying ≡ [] }
    ensures builds { (from : BuildState)
        → PlansFrom P.is_modelled options.now plan from (moment (P.at place.old) (O.heard out.old))
        → BuildsFirst P.is_modelled P.child options.now result from
        (moment (P.at place.new) (O.heard out.new)) }
{
    let mut watched = Watched {
        jobs: Jobs {
            pick: First {},
            jobs: options.jobs,
        },
        keys,
        line,
    };
    build_plan_turns(alloc, place, out, options, plan, &mut watched)
}

/// Builds what was planned, as `build_plan` does. If the status line is on, and there is memory for
/// all keys, the line shows each unit that begins. At the end the line is erased. If the build ends
/// without a fault, the line notes how many units were built and kept.
///
/// This function has the contract of `build_plan`: a status line changes nothing else.
///
/// Errors: those of `build_plan`.
pub fn build_watched<P: Place, O: Out, S: Out>(
    alloc: Global,
    place: &mut P,
    out: &mut O,
    line: &mut StatusLine<S>,
    options: &Options,
    plan: Result<BuildPlan, BuildFault>,
) -> Result<Summary, BuildFault>
    requires none { (P.at place.old).counts.starts.flying ≡ [] }
    ensures on { BuildsOnFirst P.is_modelled P.child options.now plan result
        (moment (P.at place.old) (O.heard out.old)) (moment (P.at place.new) (O.heard out.new)) }
    ensures kept { IsTrue P.is_modelled
        → MatchResult plan
        (λ p. SourcesStay p.project.workspace.target (P.at place.old).world
        (P.at place.new).world)
        (λ e. (P.at place.new).world ≡ (P.at place.old).world) }
    ensures landed { (P.at place.new).counts.starts.flying ≡ [] }
    ensures builds { (from : BuildState)
        → PlansFrom P.is_modelled options.now plan from (moment (P.at place.old) (O.heard out.old))
        → BuildsFirst P.is_modelled P.child options.now result from
        (moment (P.at place.new) (O.heard out.new)) }
{
    let keys = if line.is_on() {
        keys_in(alloc, &plan)
    } else {
        Items::new(alloc)
    };
    let answer = build_shown(alloc, place, out, line, options, plan, keys);
    line.erase();
    note(line, &answer);
    answer
}
