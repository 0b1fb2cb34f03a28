//! Lines about units. Many units with the same text share one line.

ghost use Rattle.std.specs.Prelude.{◌≡◌, ◌++◌, ◌<◌, IfOk, OnOk, count_by, length, slice_get, string_bytes, Some, take};
ghost use Rattle.std.specs.List.{list_any};
ghost use Rattle.pb_tool_reasons.specs.Grouping.{count_in, group_line, grouped, is_said, line_in, own_line};

use pb_data::Text;
use std::alloc::{AllocError, Global};

/// The least number of units with the same text that share one line.
const MANY: usize = 5;

/// A unit, and a text about this unit.
#[derive(Drop)]
pub struct Row {
    /// The unit's key.
    pub key: Text,
    /// The text about the unit.
    pub said: Text,
}

/// Returns how many of these rows have this text.
fn count_in(rows: &[Row], said: &Text) -> usize
    ensures { result ≡ count_in rows.now said.now }
{
    rows.iter()
        .filter(|row| row.said.as_bytes() == said.as_bytes())
        .count()
}

/// Returns whether one of these rows has this text.
fn is_said(rows: &[Row], said: &Text) -> bool
    ensures { result ≡ is_said rows.now said.now }
{
    rows.iter()
        .any(|row| row.said.as_bytes() == said.as_bytes())
}

/// Returns the line of one unit.
fn own_line(alloc: Global, row: &Row) -> Result<String, AllocError>
    ensures { IfOk result (λ text. string_bytes text ≡ own_line row.now) }
{
    let mut text = String::from_str(alloc, row.key.as_str())?;
    text.push_str(": ")?;
    text.push_str(row.said.as_str())?;
    text.push_str("\n")?;
    Ok(text)
}

/// Returns the line of many units.
fn group_line(alloc: Global, count: usize, row: &Row) -> Result<String, AllocError>
    ensures { IfOk result (λ text. string_bytes text ≡ group_line count row.now) }
{
    let mut text = format!(in alloc; "{count}")?;
    text.push_str(" units: ")?;
    text.push_str(row.said.as_str())?;
    text.push_str("\n")?;
    Ok(text)
}

/// Returns the line for the row at an index. The line is empty if an earlier row already has the
/// shared line for this text.
fn line_in(alloc: Global, rows: &[Row], index: usize, row: &Row) -> Result<String, AllocError>
    requires within { index < length rows.now }
    ensures { IfOk result
        (λ text. string_bytes text ≡ line_in rows.now (take index rows.now) row.now) }
{
    let count = count_in(rows, &row.said);
    if count < MANY {
        return own_line(alloc, row);
    }
    if is_said(&rows[..index], &row.said) {
        return Ok(String::new(alloc));
    }
    group_line(alloc, count, row)
}

/// Returns the lines of rows, in their order. The line of a row is `KEY: SAID`. Five or more rows
/// with the same text share the line `N units: SAID`, which replaces the first of these rows.
///
/// Errors: out of memory.
pub fn group_rows(alloc: Global, rows: &[Row]) -> Result<String, AllocError>
    ensures { IfOk result (λ text. string_bytes text ≡ grouped rows.now) }
{
    let mut text = String::new(alloc);
    for index in 0..rows.len() {
        let line = line_in(alloc, rows, index, &rows[index])?;
        text.push_str(line.as_str())?;
    }
    Ok(text)
}
