//! The packages that have no library although enabled dependencies lead to them.

ghost use Rattle.std.specs.Prelude.{◌≡◌, IsTrue, IfOk, IfErr};
ghost use Rattle.pb_build.specs.Causes.{MayPlan, PlansInTurn, plan_called, OnlyLooks};
ghost use Rattle.pb_build.specs.Environment.{environment_of};
ghost use Rattle.pb_build.specs.Planning.{IsProject, IsToldRefusal};
ghost use Rattle.pb_command_types.specs.declared.project.Project.{Project};

use crate::builder::{BuildPlan, plan_build};
use pb_build_result::BuildFault;
use pb_data::{Items, Text};
use pb_place_types::Place;
use pb_workspace_types::Options;
use std::alloc::Global;

/// Returns the names of the packages that have no library although enabled dependencies of a plan
/// lead to them.
fn without_library(plan: BuildPlan) -> Items<Text>
    ensures { result ≡ plan.project.plan.without_library }
{
    let project = plan.project.into_project();
    let plan = project.plan;
    plan.without_library
}

/// Returns the names of the packages that have no library although enabled dependencies lead to
/// them, in byte order, each once. Nothing is done after the plan: no child is started, no line is
/// written, and no file is changed.
///
/// Errors: those of `plan_build`.
pub fn missing_libraries<P: Place>(
    alloc: Global,
    place: &mut P,
    options: &Options,
) -> Result<Items<Text>, BuildFault>
    ensures names { IsTrue P.is_modelled
        → IfOk result
        (λ names.
        (project : Project)
        × IsProject options.now
        (environment_of options.now (P.at place.old).world.variables).target
        (P.at place.old).world project
        × (names ≡ project.plan.without_library)) }
    ensures quiet { OnlyLooks MayPlan result (P.at place.old) (P.at place.new) }
    ensures refused { IsTrue P.is_modelled
        → IfErr result
        (IsToldRefusal options.now
        (environment_of options.now (P.at place.old).world.variables).target
        (P.at place.old).world) }
    ensures calls { IsTrue P.is_modelled
        → PlansInTurn result (plan_called options.now (P.at place.old).world)
        (P.at place.old).counts (P.at place.new).counts }
{
    match plan_build(alloc, place, options) {
        Ok(plan) => Ok(without_library(plan)),
        Err(fault) => Err(fault),
    }
}
