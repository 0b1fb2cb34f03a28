//! What a place reports of a fault, as notes.

ghost use Rattle.std.specs.Prelude.{◌≡◌, ◌++◌, IfOk, OnOk, string_bytes, codes};
ghost use Rattle.pb_tool_notes_pages.specs.Notes.{lines_of};
ghost use Rattle.pb_tool_program.specs.Building.{Reported, TellsReport};

use pb_build_result::{BuildFault, Summary};
use pb_data::Text;
use pb_place_host::Reporting;
use pb_place_types::{Out, write_all};
use std::alloc::{AllocError, Global};

/// Returns what a place reports of a build that ended with a fault of the outside world. After any
/// other end, returns no text. The function makes no call of the place.
pub(crate) fn reports_of<'p, P: Reporting>(
    place: &'p P,
    answer: &Result<Summary, BuildFault>,
) -> &'p [Text]
    ensures { Reported answer.now result.now }
{
    match answer {
        Err(BuildFault::Child { unit, .. }) => place.failed_child(unit.as_str()),
        Err(BuildFault::Device { .. }) => place.failed_call(),
        Err(BuildFault::Toolchain) => place.answered_query(),
        _ => &[],
    }
}

/// Adds the line of one text that a place reports.
fn push_report(lines: &mut String, text: &str) -> Result<(), AllocError>
    ensures { OnOk result (string_bytes lines.new
        ≡ string_bytes lines.old ++ codes "note: " ++ text.now ++ codes "\n") }
{
    lines.push_str("note: ")?;
    lines.push_str(text)?;
    lines.push_str("\n")?;
    Ok(())
}

/// Returns a line for each text that a place reports.
fn report_lines(alloc: Global, texts: &[Text]) -> Result<String, AllocError>
    ensures { IfOk result (λ lines. string_bytes lines ≡ lines_of texts.now) }
{
    let mut lines = String::new(alloc);
    for text in texts {
        push_report(&mut lines, text.as_str())?;
    }
    Ok(lines)
}

/// Writes what a place reports of a fault, if anything. If memory runs out, writes a line that
/// needs no memory instead.
pub(crate) fn tell_report<E: Out>(alloc: Global, err: &mut E, texts: &[Text])
    ensures { TellsReport texts.now (E.heard err.old) (E.heard err.new) }
{
    if texts.is_empty() {
        return;
    }
    match report_lines(alloc, texts) {
        Ok(lines) => write_all(err, lines.as_bytes()),
        Err(_) => write_all(
            err,
            b"note: there is no memory to show the details of the fault\n",
        ),
    };
}
