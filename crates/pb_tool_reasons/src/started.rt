//! Why a build started the children of its units, as lines.

ghost use Rattle.std.specs.Prelude.{◌≡◌, ◌++◌, ◌∷◌, [], IfOk, OnOk, string_bytes};
ghost use Rattle.std.specs.List.{list_all};
ghost use Rattle.std.specs.Option.{option_copied};
ghost use Rattle.pb_tool_reasons.specs.Started.{counts_line, detail_or, explanation, is_tool, note_if, row_if, rows_of, started_row, tool_note};
ghost use Rattle.pb_tool_reasons.specs.declared.grouping.Row.{Row};

use crate::detail::Detail;
use crate::grouping::{Row, group_rows};
use crate::wording::{if_some, reason_with};
use pb_data::{Items, Text, TryCopy};
use pb_store::Difference;
use std::alloc::{AllocError, Global};

/// Returns the row of a unit whose child was started.
fn started_row(
    alloc: Global,
    key: &Text,
    difference: &Difference,
    detail: &Detail,
) -> Result<Row, AllocError>
    ensures { IfOk result (λ row. row ≡ started_row key.now difference.now detail.now) }
{
    let mut said = String::from_str(alloc, "started, since ")?;
    let reason = reason_with(alloc, difference, detail)?;
    said.push_str(reason.as_str())?;
    Ok(Row {
        key: key.copy(alloc)?,
        said: Text::new(said),
    })
}

/// Returns the row of a unit whose child was started, with a detail, if there is one.
fn row_with(
    alloc: Global,
    key: &Text,
    difference: &Difference,
    detail: Option<&Detail>,
) -> Result<Row, AllocError>
    ensures { IfOk result (λ row. row
        ≡ started_row key.now difference.now (detail_or (option_copied detail.entry))) }
{
    match detail {
        Some(detail) => started_row(alloc, key, difference, detail),
        None => started_row(alloc, key, difference, &Detail::Nothing),
    }
}

/// Adds the row of a unit whose child was started, if the first difference is known.
fn push_row(
    alloc: Global,
    rows: &mut Items<Row>,
    key: &Text,
    difference: Option<&Difference>,
    detail: Option<&Detail>,
) -> Result<(), AllocError>
    ensures { OnOk result (rows.new ≡ rows.old
        ++ row_if key.now (option_copied difference.entry) (option_copied detail.entry)) }
{
    match difference {
        Some(difference) => rows.push(row_with(alloc, key, difference, detail)?),
        None => Ok(()),
    }
}

/// Returns a row for each unit whose child was started.
fn rows_of(
    alloc: Global,
    keys: &[Text],
    differences: &[Difference],
    details: &[Detail],
) -> Result<Items<Row>, AllocError>
    ensures { IfOk result (λ rows. rows ≡ rows_of keys.now differences.now details.now) }
{
    let mut rows = Items::new(alloc);
    for index in 0..keys.len() {
        push_row(
            alloc,
            &mut rows,
            &keys[index],
            differences.get(index),
            details.get(index),
        )?;
    }
    Ok(rows)
}

/// Returns the line that says how many units were started and kept, and how many were not reached.
fn counts_line(
    alloc: Global,
    started: usize,
    kept: usize,
    unreached: usize,
) -> Result<String, AllocError>
    ensures { IfOk result (λ text. string_bytes text ≡ counts_line started kept unreached) }
{
    let unreached = if_some(alloc, unreached, " not reached")?;
    let mut text = format!(in alloc; "{started} started, {kept} kept")?;
    text.push_str(unreached.as_str())?;
    text.push_str("\n")?;
    Ok(text)
}

/// Returns whether the first difference is in the text that children get as `CARGO`.
fn is_tool(difference: &Difference) -> bool
    ensures { result ≡ is_tool difference.now }
{
    match difference {
        Difference::Pair(name) => name.as_str() == "CARGO",
        _ => false,
    }
}

/// Returns whether the first difference of each started unit is in `CARGO`.
fn are_tools(differences: &[Difference]) -> bool
    ensures { result ≡ list_all is_tool differences.now }
{
    differences.iter().all(is_tool)
}

/// Returns the note on `CARGO` if `are_tools` is true, and an empty text otherwise.
fn note_if(are_tools: bool) -> &'static str
    ensures { result.now ≡ note_if are_tools }
{
    if are_tools {
        "note: CARGO is the name by which this program was called; --tool TEXT sets CARGO\n"
    } else {
        ""
    }
}

/// Returns the note on `CARGO` if at least one unit was started, and the first difference of each
/// started unit is in `CARGO`.
fn tool_note(differences: &[Difference]) -> &'static str
    ensures { result.now ≡ tool_note differences.now }
{
    if 0 < differences.len() {
        note_if(are_tools(differences))
    } else {
        ""
    }
}

/// Returns why a build started the children of the units with these keys. Each line has a unit's
/// key, what differed first and, if this is known, how it differed. The lines are in order of
/// starting. Five or more units with the same reason have one line.
///
/// The last line says how many units were started, how many were kept, and how many did not begin,
/// if any. A note before this line says what `CARGO` is, if only `CARGO` is known to differ. Each
/// line ends with a line feed. The words are our own choice.
///
/// Errors: out of memory.
pub fn explanation(
    alloc: Global,
    keys: &[Text],
    differences: &[Difference],
    details: &[Detail],
    kept: usize,
    units: usize,
) -> Result<String, AllocError>
    ensures { IfOk result (λ text. string_bytes text
        ≡ explanation units keys.now differences.now details.now kept) }
{
    let rows = rows_of(alloc, keys, differences, details)?;
    let mut text = group_rows(alloc, rows.as_slice())?;
    text.push_str(tool_note(differences))?;
    let unreached = units.saturating_sub(keys.len()).saturating_sub(kept);
    let counts = counts_line(alloc, keys.len(), kept, unreached)?;
    text.push_str(counts.as_str())?;
    Ok(text)
}
