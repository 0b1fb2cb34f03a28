//! What a build would do, as lines for people.

ghost use Rattle.std.specs.Prelude.{◌≡◌, ◌++◌, IfOk, OnOk, count_by, option_map, string_bytes};
ghost use Rattle.std.specs.Option.{option_copied};
ghost use Rattle.pb_tool_preview.specs.Foreseeing.{is_kept};
ghost use Rattle.pb_tool_preview.specs.Telling.{count_kept, counts_line, counts_text, is_started, is_unreached, is_waiting, kept_text, key_at, others_text, preview_lines, row_at, row_of, rows_of, said_of, started_text};
ghost use Rattle.pb_tool_reasons.specs.declared.grouping.Row.{Row};

use crate::fate::Fate;
use pb_data::{Items, Text, TryCopy};
use pb_tool_reasons::{Row, group_rows, if_some, reason};
use pb_unit::Planned;
use std::alloc::{AllocError, Global};

/// Returns whether a unit's child would be started.
fn is_started(fate: &Fate) -> bool
    ensures { result ≡ is_started fate.now }
{
    matches!(fate, Fate::Starts(_))
}

/// Returns whether a unit waits for a unit that a build would start.
fn is_waiting(fate: &Fate) -> bool
    ensures { result ≡ is_waiting fate.now }
{
    matches!(fate, Fate::Waits(_))
}

/// Returns whether a build would not reach a unit.
fn is_unreached(fate: &Fate) -> bool
    ensures { result ≡ is_unreached fate.now }
{
    matches!(fate, Fate::Unreached(_))
}

/// Returns the key of the unit at an index, or the empty text if there is no unit.
fn key_at(units: &[Planned], index: usize) -> &str
    ensures { result.now ≡ key_at units.now index }
{
    match units.get(index) {
        Some(unit) => unit.key.as_str(),
        None => "",
    }
}

/// Returns three texts, one after the other.
fn three(alloc: Global, first: &str, second: &str, third: &str) -> Result<String, AllocError>
    ensures { IfOk result (λ text. string_bytes text ≡ first.now ++ second.now ++ third.now) }
{
    let mut text = String::from_str(alloc, first)?;
    text.push_str(second)?;
    text.push_str(third)?;
    Ok(text)
}

/// Returns the text about a unit of this fate, if there is one.
fn said_of(alloc: Global, units: &[Planned], fate: &Fate) -> Result<Option<String>, AllocError>
    ensures { IfOk result (λ said. option_map string_bytes said ≡ said_of units.now fate.now) }
{
    match fate {
        Fate::Starts(difference) => {
            let reason = reason(alloc, difference)?;
            let said = three(alloc, "would be started, since ", reason.as_str(), "")?;
            Ok(Some(said))
        }
        Fate::Kept => Ok(None),
        Fate::Bad => {
            let said = String::from_str(alloc, "would be bad, since its folder has changed")?;
            Ok(Some(said))
        }
        Fate::Waits(index) => {
            let key = key_at(units, *index);
            let said = three(
                alloc,
                "may be started, since ",
                key,
                " would be started first",
            )?;
            Ok(Some(said))
        }
        Fate::Unreached(index) => {
            let key = key_at(units, *index);
            let said = three(alloc, "would not be reached, since ", key, " would be bad")?;
            Ok(Some(said))
        }
    }
}

/// Adds the row of a unit of this fate, if there is a text about the unit.
fn push_row(
    alloc: Global,
    rows: &mut Items<Row>,
    units: &[Planned],
    unit: &Planned,
    fate: Option<&Fate>,
) -> Result<(), AllocError>
    ensures { OnOk result (rows.new ≡ rows.old
        ++ row_at units.now unit.now.key (option_copied fate.entry)) }
{
    let fate = match fate {
        Some(fate) => fate,
        None => return Ok(()),
    };
    match said_of(alloc, units, fate)? {
        Some(said) => rows.push(Row {
            key: unit.key.copy(alloc)?,
            said: Text::new(said),
        }),
        None => Ok(()),
    }
}

/// Returns the rows of all units for which there is a text.
fn rows_of(alloc: Global, units: &[Planned], fates: &[Fate]) -> Result<Items<Row>, AllocError>
    ensures { IfOk result (λ rows. rows ≡ rows_of units.now units.now fates.now) }
{
    let mut rows = Items::new(alloc);
    for index in 0..units.len() {
        push_row(alloc, &mut rows, units, &units[index], fates.get(index))?;
    }
    Ok(rows)
}

/// Returns the end of the last line: how many units may be started, and how many are not reached,
/// if any.
fn others_text(alloc: Global, waiting: usize, unreached: usize) -> Result<String, AllocError>
    ensures { IfOk result (λ text. string_bytes text ≡ others_text waiting unreached) }
{
    let mut text = if_some(alloc, waiting, " may be started")?;
    let unreached = if_some(alloc, unreached, " not reached")?;
    text.push_str(unreached.as_str())?;
    text.push_str("\n")?;
    Ok(text)
}

/// Returns how many units are kept.
fn kept_text(alloc: Global, kept: usize) -> Result<String, AllocError>
    ensures { IfOk result (λ text. string_bytes text ≡ kept_text kept) }
{
    format!(in alloc; "{kept} kept")
}

/// Returns how many units would be started, and how many are kept.
fn started_text(alloc: Global, started: usize, kept: usize) -> Result<String, AllocError>
    ensures { IfOk result (λ text. string_bytes text ≡ started_text started kept) }
{
    let started = format!(in alloc; "{started}")?;
    let kept = kept_text(alloc, kept)?;
    three(
        alloc,
        started.as_str(),
        " would be started, ",
        kept.as_str(),
    )
}

/// Returns the line with these numbers of units.
fn counts_text(
    alloc: Global,
    started: usize,
    kept: usize,
    waiting: usize,
    unreached: usize,
) -> Result<String, AllocError>
    ensures { IfOk result
        (λ text. string_bytes text ≡ counts_text started kept waiting unreached) }
{
    let mut text = started_text(alloc, started, kept)?;
    let others = others_text(alloc, waiting, unreached)?;
    text.push_str(others.as_str())?;
    Ok(text)
}

/// Returns how many units of these fates would be started.
fn count_started(fates: &[Fate]) -> usize
    ensures { result ≡ count_by is_started fates.now }
{
    fates.iter().filter(|fate| is_started(fate)).count()
}

/// Returns how many units of these fates wait for a unit that would be started.
fn count_waiting(fates: &[Fate]) -> usize
    ensures { result ≡ count_by is_waiting fates.now }
{
    fates.iter().filter(|fate| is_waiting(fate)).count()
}

/// Returns how many units of these fates are not reached.
fn count_unreached(fates: &[Fate]) -> usize
    ensures { result ≡ count_by is_unreached fates.now }
{
    fates.iter().filter(|fate| is_unreached(fate)).count()
}

/// Returns how many units of these fates are kept, whether what their records replay is good or
/// bad.
fn count_kept(fates: &[Fate]) -> usize
    ensures { result ≡ count_kept fates.now }
{
    let others = count_started(fates);
    let left = fates.len().saturating_sub(others);
    let left = left.saturating_sub(count_waiting(fates));
    left.saturating_sub(count_unreached(fates))
}

/// Returns the line that says how many units would be started, are kept, wait, or are not reached.
fn counts_line(alloc: Global, fates: &[Fate]) -> Result<String, AllocError>
    ensures { IfOk result (λ text. string_bytes text ≡ counts_line fates.now) }
{
    let started = count_started(fates);
    let kept = count_kept(fates);
    let waiting = count_waiting(fates);
    let unreached = count_unreached(fates);
    counts_text(alloc, started, kept, waiting, unreached)
}

/// Returns what a build would do with units of these fates. Each unit that is not kept has a line,
/// in plan order, with the unit's key and the reason. Five or more units with the same text share
/// one line. The last line says how many units would be started, are kept, wait, or are not
/// reached. Each line ends with a line feed. The words are our own choice.
///
/// Errors: out of memory.
pub fn preview_lines(alloc: Global, units: &[Planned], fates: &[Fate]) -> Result<String, AllocError>
    ensures { IfOk result (λ text. string_bytes text ≡ preview_lines units.now fates.now) }
{
    let rows = rows_of(alloc, units, fates)?;
    let mut text = group_rows(alloc, rows.as_slice())?;
    let counts = counts_line(alloc, fates)?;
    text.push_str(counts.as_str())?;
    Ok(text)
}
