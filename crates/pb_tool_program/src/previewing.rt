//! `pb_tool build --dry-run` over any place.

ghost use Rattle.std.specs.Prelude.{◌≡◌, [], IsTrue};
ghost use Rattle.pb_build_turns.specs.Executor.{moment};
ghost use Rattle.pb_place_types.specs.Sinks.{SinkState};
ghost use Rattle.pb_run.specs.Invariants.{records_folder};
ghost use Rattle.pb_store.specs.Folder.{HasNumbers};
ghost use Rattle.pb_store_soundness.specs.Records.{records};
ghost use Rattle.pb_tool_program.specs.Previewing.{Foretells, LooksAhead, PreviewsTold, TellsFates};

use crate::libraries::note;
use crate::planning::fail;
use pb_build::{BuildPlan, Prepared, plan_build, prepare};
use pb_build_result::BuildFault;
use pb_place_host::Reporting;
use pb_place_types::{Out, Place, write_all};
use pb_tool_notes::Remembering;
use pb_tool_preview::{Fate, foresee, preview_lines};
use pb_unit::Planned;
use pb_workspace_types::Options;
use std::alloc::Global;

/// Writes what a build would do with the units of a project. If memory runs out, writes a line that
/// needs no memory instead.
fn tell_fates<E: Out>(alloc: Global, err: &mut E, units: &[Planned], fates: &[Fate])
    ensures { TellsFates units.now fates.now (E.heard err.old) (E.heard err.new) }
{
    match preview_lines(alloc, units, fates) {
        Ok(text) => write_all(err, text.as_bytes()),
        Err(_) => write_all(
            err,
            b"note: there is no memory to show the units that would be started\n",
        ),
    };
}

/// Finds out which prepared units would be started, and writes what it found.
///
/// Errors: those of `foresee`.
fn look_at<P: Place, E: Out>(
    alloc: Global,
    place: &mut P,
    err: &mut E,
    prepared: &Prepared,
) -> Result<(), BuildFault>
    requires folder { prepared.now.store.folder ≡ records_folder prepared.now.project }
    requires numbers { IsTrue P.is_modelled →
        HasNumbers (records (records_folder prepared.now.project) (P.at place.old).world)
        prepared.now.store.numbers }
    ensures { (heard : SinkState) → Foretells P.is_modelled prepared.now result
        (moment (P.at place.old) heard) (moment (P.at place.new) heard)
        (E.heard err.old) (E.heard err.new) }
{
    match foresee(
        alloc,
        place,
        &prepared.setup,
        &prepared.project,
        &prepared.store,
    ) {
        Ok(fates) => {
            tell_fates(alloc, err, prepared.project.units(), fates.as_slice());
            Ok(())
        }
        Err(fault) => Err(fault),
    }
}

/// Prepares the units of a plan as a build does, finds out which units would be started, and writes
/// what it found.
///
/// Errors: those of `prepare` and of `foresee`.
fn look_ahead<P: Place, E: Out>(
    alloc: Global,
    place: &mut P,
    err: &mut E,
    options: &Options,
    plan: Result<BuildPlan, BuildFault>,
) -> Result<(), BuildFault>
    requires none { (P.at place.old).counts.starts.flying ≡ [] }
    ensures { (heard : SinkState) → LooksAhead P.is_modelled P.child options.now plan result
        (moment (P.at place.old) heard) (moment (P.at place.new) heard)
        (E.heard err.old) (E.heard err.new) }
{
    match prepare(alloc, place, options, plan) {
        Ok(prepared) => {
            let answer = look_at(alloc, place, err, &prepared);
            drop(prepared);
            answer
        }
        Err(fault) => Err(fault),
    }
}

/// Writes to `err` what a build with these options would start, and why. Returns the status, which
/// is 0 or 101. With 101, the notes of a failed build and `error: ` with its result line are
/// written, too. The only child is the compiler's query, and no file or folder is changed. So the
/// target folder is not guarded.
pub fn preview_options<P: Place + Reporting + Remembering, E: Out>(
    alloc: Global,
    place: &mut P,
    err: &mut E,
    options: &Options,
) -> u8
    requires none { (P.at place.old).counts.starts.flying ≡ [] }
    ensures { (heard : SinkState) → PreviewsTold P.is_modelled P.child options.now result
        (moment (P.at place.old) heard) (moment (P.at place.new) heard)
        (E.heard err.old) (E.heard err.new) }
{
    let plan = plan_build(alloc, place, options);
    note(alloc, err, &plan);
    match look_ahead(alloc, place, err, options, plan) {
        Ok(()) => 0,
        Err(fault) => fail(alloc, place, err, options, fault),
    }
}
