//! Writes why a build started the children of its units.

ghost use Rattle.std.specs.Prelude.{◌≡◌};
ghost use Rattle.pb_tool_program.specs.Building.{TellsNoted, TellsReasons, TellsStarted, TellsSummary, reasons_lost};
ghost use Rattle.pb_tool_program.specs.Writing.{Tells};

use pb_build_result::{BuildFault, Summary};
use pb_data::Text;
use pb_place_types::{Out, write_all};
use pb_store::Difference;
use pb_tool_reasons::{Detail, Noted, details_for, explanation};
use std::alloc::Global;

/// Writes that memory ran out for the reasons.
fn tell_lost<E: Out>(err: &mut E)
    ensures { Tells reasons_lost (E.heard err.old) (E.heard err.new) }
{
    let _ = write_all(err, b"note: there is no memory to show the reasons\n");
}

/// Writes why the children of these units were started. If memory runs out, writes a line that
/// needs no memory instead.
fn tell_reasons<E: Out>(
    alloc: Global,
    err: &mut E,
    keys: &[Text],
    differences: &[Difference],
    details: &[Detail],
    kept: usize,
    units: usize,
)
    ensures { TellsStarted units keys.now differences.now details.now kept (E.heard err.old)
        (E.heard err.new) }
{
    match explanation(alloc, keys, differences, details, kept, units) {
        Ok(text) => {
            let _ = write_all(err, text.as_bytes());
        }
        Err(_) => tell_lost(err),
    }
}

/// Writes why a build that ended without a fault started its children, with the noted details.
/// `units` is the number of the build's units.
fn tell_summary<E: Out>(alloc: Global, err: &mut E, units: usize, summary: &Summary, noted: &Noted)
    ensures { TellsSummary units summary.now (E.heard err.old) (E.heard err.new) }
{
    let keys = summary.started.as_slice();
    let differences = summary.differences.as_slice();
    let details = details_for(alloc, noted, keys, differences);
    let details = details.as_slice();
    let kept = summary.kept.len();
    tell_reasons(alloc, err, keys, differences, details, kept, units)
}

/// Writes why a build with this number of units started its children, by the notes of the place.
fn tell_started<E: Out>(alloc: Global, err: &mut E, units: usize, noted: &Noted)
    ensures { TellsStarted units noted.now.started noted.now.differences noted.now.details
        noted.now.kept (E.heard err.old) (E.heard err.new) }
{
    let keys = noted.started.as_slice();
    let differences = noted.differences.as_slice();
    let details = noted.details.as_slice();
    tell_reasons(alloc, err, keys, differences, details, noted.kept, units)
}

/// Writes why a build with this number of units started its children before its fault, by the notes
/// of the place. If memory ran out for a note, writes only the line that says so.
fn tell_noted<E: Out>(alloc: Global, err: &mut E, units: usize, noted: &Noted)
    ensures { TellsNoted units noted.now (E.heard err.old) (E.heard err.new) }
{
    if noted.lost {
        tell_lost(err)
    } else {
        tell_started(alloc, err, units, noted)
    }
}

/// Writes why a build started its children, if this is requested. If reasons are requested,
/// `explain` is the number of the build's units.
pub(crate) fn explain_to<E: Out>(
    alloc: Global,
    err: &mut E,
    explain: Option<usize>,
    answer: &Result<Summary, BuildFault>,
    noted: &Noted,
)
    ensures { TellsReasons explain answer.now noted.now (E.heard err.old) (E.heard err.new) }
{
    let units = match explain {
        Some(units) => units,
        None => return,
    };
    match answer {
        Ok(summary) => tell_summary(alloc, err, units, summary, noted),
        Err(_) => tell_noted(alloc, err, units, noted),
    }
}
