//! Notes on one manifest.

use crate::lines::line_of;
use crate::note::{Note, Notes};
use crate::page::Page;
use crate::rules::{expectation, has_values};
use crate::spots::way_to;
use std::alloc::{AllocError, Global};
use toml::Value;

/// Adds a note on the value at a key of the table at a key path.
pub fn tell_key(
    alloc: Global,
    notes: &mut Notes,
    page: &Page,
    way: &str,
    key: &str,
    text: &str,
) -> Result<(), AllocError> {
    if notes.is_full() {
        notes.pass_over();
        return Ok(());
    }
    let whole = way_to(alloc, way, key)?;
    let line = line_of(alloc, page.text(), whole.as_str())?;
    notes.add(
        alloc,
        &Note {
            path: page.path.as_str(),
            line,
            column: 0,
            key: whole.as_str(),
            text,
        },
    )
}

/// Adds a note on a whole manifest.
pub fn tell_page(
    alloc: Global,
    notes: &mut Notes,
    page: &Page,
    text: &str,
) -> Result<(), AllocError> {
    notes.add(
        alloc,
        &Note {
            path: page.path.as_str(),
            line: 0,
            column: 0,
            key: "",
            text,
        },
    )
}

/// Returns a text, a whole number or a truth value as a manifest writes it. For any other value,
/// returns the word `it`.
fn as_written(alloc: Global, value: &Value) -> Result<String, AllocError> {
    match value {
        Value::String(text) => format!(in alloc; "\"{}\"", text.as_str()),
        Value::Integer(number) => format!(in alloc; "{number}"),
        Value::Boolean(true) => String::from_str(alloc, "true"),
        Value::Boolean(false) => String::from_str(alloc, "false"),
        _ => String::from_str(alloc, "it"),
    }
}

/// Returns the type of a value, in words.
fn type_of(value: &Value) -> &'static str {
    match value {
        Value::String(_) => "a text",
        Value::Integer(_) | Value::Float(_) => "a number",
        Value::Boolean(_) => "a truth value",
        Value::Datetime(_) => "a date",
        Value::Array(_) => "a list",
        Value::Table(_) => "a table",
    }
}

/// Returns why a rule does not allow a value: `2021 is a number; it must be a text`. If the rule
/// allows another value of this type, the reason does not name the type: `5 is not allowed; it must
/// be ..`.
pub fn wrong_value(alloc: Global, rule: &str, value: &Value) -> Result<String, AllocError> {
    let written = as_written(alloc, value)?;
    let what = if has_values(rule, value) {
        "not allowed"
    } else {
        type_of(value)
    };
    let expected = expectation(rule);
    format!(in alloc; "{} is {what}; it must be {expected}", written.as_str())
}
