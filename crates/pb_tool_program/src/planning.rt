//! `pb_tool plan` over any place.

ghost use Rattle.std.specs.Prelude.{◌≡◌, IfOk, string_bytes};
ghost use Rattle.pb_place_types.specs.Sinks.{SinkState};
ghost use Rattle.pb_build_turns.specs.Executor.{moment};
ghost use Rattle.pb_tool_program.specs.Planning.{plan_text, PrintsText, PrintsPlan, PrintsFrom, PlanFails, PlansTold};

use crate::building::{conclude, look};
use crate::reports::reports_of;
use pb_build::{BuildPlan, plan_build};
use pb_build_result::BuildFault;
use pb_place_host::Reporting;
use pb_place_types::{Out, Place, write_all};
use pb_tool_arguments::PlanForm;
use pb_tool_notes::Remembering;
use pb_tool_plan::{plan_dot, plan_json, plan_lines};
use pb_tool_reasons::Noted;
use pb_unit::Plan;
use pb_workspace_types::Options;
use std::alloc::{AllocError, Global};

/// Returns the text of a plan in a form.
fn plan_text(alloc: Global, plan: &Plan, form: PlanForm) -> Result<String, AllocError>
    ensures { IfOk result (λ text. string_bytes text ≡ plan_text form plan.now) }
{
    match form {
        PlanForm::Lines => plan_lines(alloc, plan),
        PlanForm::Json => plan_json(alloc, plan),
        PlanForm::Dot => plan_dot(alloc, plan),
    }
}

/// Prints a plan.
///
/// Errors: `Sink`, if the output fails; `OutOfMemory`. If memory runs out, nothing is written.
fn print<O: Out>(alloc: Global, out: &mut O, plan: &Plan, form: PlanForm) -> Result<(), BuildFault>
    ensures { PrintsText (plan_text form plan.now) result (O.heard out.old) (O.heard out.new) }
{
    match plan_text(alloc, plan, form) {
        Ok(text) => {
            if write_all(out, text.as_bytes()) {
                Ok(())
            } else {
                Err(BuildFault::Sink)
            }
        }
        Err(_) => Err(BuildFault::OutOfMemory),
    }
}

/// Prints the plan. If the planning failed, returns its fault.
fn print_planned<O: Out>(
    alloc: Global,
    out: &mut O,
    plan: Result<BuildPlan, BuildFault>,
    form: PlanForm,
) -> Result<(), BuildFault>
    ensures { PrintsPlan form plan result (O.heard out.old) (O.heard out.new) }
{
    match plan {
        Ok(plan) => print(alloc, out, &plan.project.get().plan, form),
        Err(fault) => Err(fault),
    }
}

/// Plans a build, and prints the plan.
fn print_plan<P: Place, O: Out>(
    alloc: Global,
    place: &mut P,
    out: &mut O,
    options: &Options,
    form: PlanForm,
) -> Result<(), BuildFault>
    ensures { PrintsFrom P.is_modelled options.now form result
        (moment (P.at place.old) (O.heard out.old)) (moment (P.at place.new) (O.heard out.new)) }
{
    let plan = plan_build(alloc, place, options);
    print_planned(alloc, out, plan, form)
}

/// Looks again, writes what a build with this fault writes, and returns the status.
pub(crate) fn fail<P: Place + Reporting + Remembering, E: Out>(
    alloc: Global,
    place: &mut P,
    err: &mut E,
    options: &Options,
    fault: BuildFault,
) -> u8
    ensures { (heard : SinkState) → PlanFails fault result
        (moment (P.at place.old) heard) (moment (P.at place.new) heard)
        (E.heard err.old) (E.heard err.new) }
{
    let answer = Err(fault);
    let notes = look(alloc, place, options, &answer);
    // For the proof: the notes are at most ten lines.
    notes.texts();
    let report = reports_of(place, &answer);
    conclude(
        alloc,
        err,
        None,
        true,
        &answer,
        &Noted::new(alloc),
        report,
        &notes,
    )
}

/// Prints the plan of a build in a form, and returns the status. The status is 0, or 101 if there
/// is no plan or the plan cannot be printed.
///
/// With 101, `err` has the notes and the result line of a build that ends with this fault. No child
/// is started, not even for the compiler's version, and no file is changed.
pub fn plan_options<P: Place + Reporting + Remembering, O: Out, E: Out>(
    alloc: Global,
    place: &mut P,
    out: &mut O,
    err: &mut E,
    options: &Options,
    form: PlanForm,
) -> u8
    ensures { PlansTold P.is_modelled options.now form result
        (moment (P.at place.old) (O.heard out.old)) (moment (P.at place.new) (O.heard out.new))
        (E.heard err.old) (E.heard err.new) }
{
    match print_plan(alloc, place, out, options, form) {
        Ok(()) => 0,
        Err(fault) => fail(alloc, place, err, options, fault),
    }
}
