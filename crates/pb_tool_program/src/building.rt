//! `pb_tool build` over any place.

ghost use Rattle.std.specs.Prelude.{◌≡◌, [], ◌++◌, IfOk, OnOk, Result, Some, string_bytes, codes};
ghost use Rattle.std.specs.Io.KnownBytes.{Appends};
ghost use Rattle.pb_build.specs.Ending.{BuildsFirst};
ghost use Rattle.pb_place_types.specs.Paths.{last_part};
ghost use Rattle.pb_place_types.specs.Sinks.{SinkState};
ghost use Rattle.pb_build_turns.specs.Executor.{BuildState, moment};
ghost use Rattle.pb_build_result.specs.ResultLine.{result_line};
ghost use Rattle.pb_build_result.specs.declared.fault.BuildFault.{BuildFault};
ghost use Rattle.pb_build_result.specs.declared.summary.Summary.{Summary};
ghost use Rattle.pb_tool_notes_pages.specs.Looks.{LooksAgain};
ghost use Rattle.pb_tool_notes_pages.specs.Notes.{lines_of};
ghost use Rattle.pb_tool_program.specs.Building.{status_of, moved_lost, moved_note, moved_notes, look_lost, error_of, folder_of, units_if, LooksTwice, TellsDetail, TellsSaid, TellsWhy, Concludes, BuildsTold};
ghost use Rattle.pb_tool_program.specs.Guarding.{Guarded, waiting};
ghost use Rattle.pb_tool_program.specs.Writing.{Tells, TellsOr};

use crate::explaining::explain_to;
use crate::guard::Guard;
use crate::libraries::note;
use crate::reports::{reports_of, tell_report};
use pb_build::{BuildPlan, plan_build};
use pb_build_result::{BuildFault, Refusal, Summary, result_line, summary_text};
use pb_data::Text;
use pb_place_host::Reporting;
use pb_place_types::{Moved, Out, PathText, Place, write_all};
use pb_tool_notes::{
    Notes, Remembering, notes_on_build, notes_on_features, notes_on_load, notes_on_plan,
};
use pb_tool_progress::build_watched;
use pb_tool_reasons::Noted;
use pb_tool_screen::StatusLine;
use pb_tool_sentences::detail;
use pb_tool_witness::Noting;
use pb_workspace_types::Options;
use std::alloc::{AllocError, Global};

/// Returns the status of a build: 0 if all units are good, else 101.
fn status_of(answer: &Result<Summary, BuildFault>) -> u8
    ensures { result ≡ status_of answer.now }
{
    match answer {
        Ok(summary) => { if summary.success { 0 } else { 101 } }
        Err(_) => 101,
    }
}

/// Returns the line that says that a unit will be built again, because this path has moved.
fn moved_note(alloc: Global, path: &str, key: &str) -> Result<String, AllocError>
    ensures { IfOk result (λ text. string_bytes text ≡ moved_note path.now key.now) }
{
    let mut text = format!(in alloc; "note: {path}")?;
    text.push_str(" was changed while ")?;
    text.push_str(key)?;
    text.push_str(" was built: that unit will be built again\n")?;
    Ok(text)
}

/// Adds the line that says that a unit will be built again.
fn push_moved(alloc: Global, notes: &mut String, moved: &Moved) -> Result<(), AllocError>
    ensures { OnOk result (string_bytes notes.new
        ≡ string_bytes notes.old ++ moved_note moved.now.path (last_part moved.now.out)) }
{
    let note = moved_note(alloc, moved.path.as_str(), moved.out.last_part())?;
    notes.push_str(note.as_str())?;
    Ok(())
}

/// Returns a line for each unit that will be built again because something that the unit's child
/// read was changed meanwhile.
fn moved_notes(alloc: Global, moved: &[Moved]) -> Result<String, AllocError>
    ensures { IfOk result (λ notes. string_bytes notes ≡ moved_notes moved.now) }
{
    let mut notes = String::new(alloc);
    for one in moved {
        push_moved(alloc, &mut notes, one)?;
    }
    Ok(notes)
}

/// Writes what was changed during a build. If memory runs out, writes a line that needs no memory
/// instead.
fn mark<E: Out>(alloc: Global, err: &mut E, moved: &[Moved])
    ensures { TellsOr moved_lost (moved_notes moved.now) (E.heard err.old) (E.heard err.new) }
{
    if moved.is_empty() {
        return;
    }
    match moved_notes(alloc, moved) {
        Ok(lines) => write_all(err, lines.as_bytes()),
        Err(_) => write_all(
            err,
            b"note: there is no memory to show what was changed during the build\n",
        ),
    };
}

/// Returns the line that says why a build failed.
fn error_of(alloc: Global, answer: &Result<Summary, BuildFault>) -> Result<String, AllocError>
    ensures { IfOk result (λ line. string_bytes line ≡ error_of answer.now) }
{
    let mut line = String::from_str(alloc, "error: ")?;
    line.push_str(result_line(alloc, answer)?.as_str())?;
    line.push_str("\n")?;
    Ok(line)
}

/// Writes that another build has the target folder.
fn tell_waiting<E: Out>(err: &mut E)
    ensures { Tells waiting (E.heard err.old) (E.heard err.new) }
{
    let _ = write_all(err, b"note: another build has the target folder: waiting\n");
}

/// Takes a folder. If another build has the folder, writes a line and waits.
pub(crate) fn take<P: Place, G: Guard<P, E>, E: Out>(
    guard: &mut G,
    place: &P,
    err: &mut E,
    folder: &PathText,
)
    ensures { Guarded G.asks G.waits guard.old guard.new (Some folder.now) (P.at place.now).counts
        (E.heard err.old) (E.heard err.new) }
{
    if guard.is_taken(place, err, folder) {
        tell_waiting(err);
        guard.wait(place, err);
    }
}

/// Takes the target folder of a build's plan. If there is no plan, no folder is requested.
fn hold<P: Place, G: Guard<P, E>, E: Out>(
    guard: &mut G,
    place: &P,
    err: &mut E,
    plan: &Result<BuildPlan, BuildFault>,
)
    ensures { Guarded G.asks G.waits guard.old guard.new (folder_of plan.now)
        (P.at place.now).counts (E.heard err.old) (E.heard err.new) }
{
    match plan {
        Ok(plan) => take(guard, place, err, &plan.environment.target),
        Err(_) => {}
    }
}

/// Writes why a build failed, if its status is not 0. If memory runs out, writes a line that needs
/// no memory instead.
fn tell<E: Out>(alloc: Global, err: &mut E, status: u8, answer: &Result<Summary, BuildFault>)
    ensures { TellsWhy status answer.now (E.heard err.old) (E.heard err.new) }
{
    if status == 0 {
        return;
    }
    match error_of(alloc, answer) {
        Ok(line) => write_all(err, line.as_bytes()),
        Err(_) => write_all(
            err,
            b"error: the build failed; there is no memory to show the reason\n",
        ),
    };
}

/// Returns how many units a plan has, if reasons are requested and there is a plan.
fn units_if(explain: bool, plan: &Result<BuildPlan, BuildFault>) -> Option<usize>
    ensures { result ≡ units_if explain plan.now }
{
    match plan {
        Ok(plan) => {
            if explain {
                Some(plan.project.units().len())
            } else {
                None
            }
        }
        Err(_) => None,
    }
}

/// Writes what the child of a build's bad unit printed, except what the message lines contain. If
/// memory runs out, writes a line that needs no memory instead.
fn repeat_to<E: Out>(alloc: Global, err: &mut E, answer: &Result<Summary, BuildFault>)
    ensures { TellsSaid answer.now (E.heard err.old) (E.heard err.new) }
{
    let summary = match answer {
        Ok(summary) => summary,
        Err(_) => return,
    };
    if summary.bad.is_none() || summary.said.as_slice().is_empty() {
        return;
    }
    match summary_text(alloc, summary) {
        Ok(text) => write_all(err, text.as_slice()),
        Err(_) => write_all(
            err,
            b"note: there is no memory to show the output of a child process\n",
        ),
    };
}

/// Writes the detail of a build that failed. If memory runs out, writes a line that needs no memory
/// instead.
fn tell_detail<E: Out>(
    alloc: Global,
    err: &mut E,
    rendered: bool,
    answer: &Result<Summary, BuildFault>,
)
    ensures { TellsDetail rendered answer.now (E.heard err.old) (E.heard err.new) }
{
    match detail(alloc, rendered, answer) {
        Ok(about) if about.is_empty() => true,
        Ok(about) => write_all(err, about.as_bytes()),
        Err(_) => write_all(err, b"note: there is no memory to describe the fault\n"),
    };
}

/// Looks again at a workspace that was refused, and returns notes on why it was refused.
fn look_at_refusal<P: Place + Remembering>(
    alloc: Global,
    place: &mut P,
    options: &Options,
    refusal: &Refusal,
) -> Notes
    ensures { LooksAgain (P.at place.old) (P.at place.new) }
{
    match refusal {
        Refusal::Load(fault) => notes_on_load(alloc, place, options, fault),
        Refusal::Feature(fault) => notes_on_features(alloc, place, options, *fault),
        Refusal::Plan(fault) => notes_on_plan(alloc, place, options, fault),
    }
}

/// Looks again at the workspace of a build that was refused or ended without a fault, and returns
/// notes. After any other fault, the function makes no call of the place.
pub(crate) fn look<P: Place + Remembering>(
    alloc: Global,
    place: &mut P,
    options: &Options,
    answer: &Result<Summary, BuildFault>,
) -> Notes
    ensures { (heard : SinkState) → LooksTwice answer.now result
        (moment (P.at place.old) heard) (moment (P.at place.new) heard) }
{
    match answer {
        Ok(_) => notes_on_build(alloc, place, options),
        Err(BuildFault::Plan(refusal)) => look_at_refusal(alloc, place, options, refusal),
        Err(_) => Notes::new(alloc),
    }
}

/// Writes the notes of a second look, if there are any. If memory runs out, writes a line that
/// needs no memory instead.
fn tell_notes<E: Out>(alloc: Global, err: &mut E, notes: &Notes)
    ensures { TellsOr look_lost (lines_of notes.now) (E.heard err.old) (E.heard err.new) }
{
    if notes.texts().is_empty() {
        return;
    }
    match notes.lines(alloc) {
        Ok(lines) => write_all(err, lines.as_bytes()),
        Err(_) => write_all(err, b"note: there is no memory to show the notes\n"),
    };
}

/// Writes everything that is written after a build, and returns the build's status.
pub(crate) fn conclude<E: Out>(
    alloc: Global,
    err: &mut E,
    explain: Option<usize>,
    rendered: bool,
    answer: &Result<Summary, BuildFault>,
    noted: &Noted,
    report: &[Text],
    notes: &Notes,
) -> u8
    ensures { Concludes explain rendered answer.now report.now notes.now result
        (E.heard err.old) (E.heard err.new) }
{
    explain_to(alloc, err, explain, answer, noted);
    repeat_to(alloc, err, answer);
    tell_detail(alloc, err, rendered, answer);
    tell_report(alloc, err, report);
    tell_notes(alloc, err, notes);
    let status = status_of(answer);
    tell(alloc, err, status, answer);
    status
}

/// Builds, and returns the status: 0 for success, 101 for a build that failed or was refused.
///
/// Message lines go to `out` in plan order, as they are due. These go to `err`:
///
/// - Before the build, a line `note: in PATH: NAME has no library` for each package that an enabled
///   dependency names and that has no library. PATH is the package's manifest.
/// - After the build, a line for each unit whose child read something that was changed meanwhile.
///   The next build builds this unit again.
/// - If requested, why each child was started. After a fault, the reasons are those that the place
///   has noted.
/// - What the child of a bad unit printed, except what the message lines contain.
/// - The sentence of the fault. If a compiler failed and its messages were not rendered, a note
///   says where these messages are.
/// - What the place reports of a fault of the outside world.
/// - The notes of a second look.
/// - For a build that failed or was refused, `error: ` and its result line.
///
/// Between the plan and the query of the compiler's version, the target folder is requested from
/// the guard. If another build has it, a line on `err` says so, and this build waits.
///
/// If the status line is on, it shows each unit that begins. The status line changes nothing else,
/// and the contract says nothing about it.
pub fn build_options<P: Noting + Reporting + Remembering, G: Guard<P, E>, O: Out, E: Out, L: Out>(
    alloc: Global,
    place: &mut P,
    guard: &mut G,
    out: &mut O,
    err: &mut E,
    line: &mut StatusLine<L>,
    options: &Options,
    explain: bool,
    rendered: bool,
) -> u8
    requires none { (P.at place.old).counts.starts.flying ≡ [] }
    ensures { BuildsTold P.is_modelled P.child (Guarded G.asks G.waits guard.old guard.new)
        (P.at place.new).moved options.now explain rendered result
        (moment (P.at place.old) (O.heard out.old)) (moment (P.at place.new) (O.heard out.new))
        (E.heard err.old) (E.heard err.new) }
{
    let plan = plan_build(alloc, place, options);
    note(alloc, err, &plan);
    // The lock comes after the plan, so that a refused build makes no folder.
    hold(guard, place, err, &plan);
    let units = units_if(explain, &plan);
    let answer = build_watched(alloc, place, out, line, options, plan);
    let notes = look(alloc, place, options, &answer);
    // For the proof: the notes are at most ten lines.
    notes.texts();
    mark(alloc, err, place.moved_paths());
    let report = reports_of(place, &answer);
    conclude(
        alloc,
        err,
        units,
        rendered,
        &answer,
        place.notes(),
        report,
        &notes,
    )
}
