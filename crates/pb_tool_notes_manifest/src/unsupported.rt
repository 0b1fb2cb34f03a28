//! Notes on what is not supported, and on keys that nothing reads.

use pb_tool_notes_pages::{
    Kind, Notes, Page, Spot, is_taken, near, rows_of, rule_of, spots_of, tell_key,
};
use std::alloc::{AllocError, Global};
use toml::{Table, Value};

/// Returns why the source of an entry is not supported, or an empty text if the source is
/// supported.
fn wrong_source(value: &Value) -> &'static str {
    let Some(entry) = value.as_table() else {
        return "it has no path";
    };
    if entry.get("git").is_some() {
        return "git is not supported";
    }
    if entry.get("registry").is_some() {
        return "a registry is not supported";
    }
    if entry.get("path").is_none() && !is_taken(entry) {
        return "it has no path";
    }
    ""
}

/// Adds a note on each entry whose source is not supported.
pub fn tell_sources(
    alloc: Global,
    notes: &mut Notes,
    page: &Page,
    table: &Table,
) -> Result<(), AllocError> {
    for spot in spots_of(alloc, table)?.as_slice() {
        if spot.kind == Kind::Entries || spot.kind == Kind::SharedEntries {
            for (key, value) in spot.table {
                let wrong = wrong_source(value);
                if !wrong.is_empty() {
                    tell_key(alloc, notes, page, spot.way.as_str(), key.as_str(), wrong)?;
                }
            }
        }
    }
    Ok(())
}

/// Adds a note on each table that is not supported.
pub fn tell_tables(
    alloc: Global,
    notes: &mut Notes,
    page: &Page,
    table: &Table,
) -> Result<(), AllocError> {
    for key in ["target", "patch", "replace"] {
        if table.get(key).is_some() {
            tell_key(alloc, notes, page, "", key, "remove this table")?;
        }
    }
    Ok(())
}

/// Adds a note that says where resolver 1 is requested.
pub fn tell_resolver(
    alloc: Global,
    notes: &mut Notes,
    page: &Page,
    table: &Table,
) -> Result<(), AllocError> {
    for key in ["package", "workspace"] {
        if let Some(inner) = table.get(key).and_then(Value::as_table) {
            if matches!(inner.get("resolver").and_then(Value::as_str), Some("1")) {
                tell_key(
                    alloc,
                    notes,
                    page,
                    key,
                    "resolver",
                    "it must be \"2\" or \"3\"",
                )?;
            }
        }
    }
    Ok(())
}

/// Adds a note on each unsupported crate type of a list.
fn tell_types(
    alloc: Global,
    notes: &mut Notes,
    page: &Page,
    types: &[Value],
) -> Result<(), AllocError> {
    for one in types {
        if let Some(text) = one.as_str() {
            if !matches!(text, "lib" | "rlib" | "bin") {
                let text = format!(in alloc; "\"{text}\" must be \"lib\", \"rlib\" or \"bin\"")?;
                tell_key(alloc, notes, page, "lib", "crate-type", text.as_str())?;
            }
        }
    }
    Ok(())
}

/// Adds a note on each crate type that is not supported.
pub fn tell_crate_types(
    alloc: Global,
    notes: &mut Notes,
    page: &Page,
    table: &Table,
) -> Result<(), AllocError> {
    let Some(library) = table.get("lib").and_then(Value::as_table) else {
        return Ok(());
    };
    if matches!(
        library.get("proc-macro").and_then(Value::as_bool),
        Some(true)
    ) {
        tell_key(
            alloc,
            notes,
            page,
            "lib",
            "proc-macro",
            "proc macros are not supported",
        )?;
    }
    match library.get("crate-type").and_then(Value::as_array) {
        Some(types) => tell_types(alloc, notes, page, types.as_slice()),
        None => Ok(()),
    }
}

/// Returns the keys of some rows.
fn keys_of(alloc: Global, rows: &'static str) -> Result<Vec<&'static str>, AllocError> {
    let mut keys = Vec::new(alloc);
    for row in rows.lines() {
        keys.push(row.split(' ').next().unwrap_or(""))?;
    }
    Ok(keys)
}

/// Adds a note on each key of a table, if nothing reads this key.
fn tell_unread(
    alloc: Global,
    notes: &mut Notes,
    page: &Page,
    spot: &Spot,
) -> Result<(), AllocError> {
    for (key, _value) in spot.table {
        if rule_of(spot.kind, key.as_str()).is_none() {
            if notes.is_full() {
                notes.pass_over();
                continue;
            }
            let keys = keys_of(alloc, rows_of(spot.kind))?;
            let near = near(alloc, key.as_str(), keys.as_slice())?;
            let text = format!(in alloc; "it is not used{}", near.as_str())?;
            tell_key(
                alloc,
                notes,
                page,
                spot.way.as_str(),
                key.as_str(),
                text.as_str(),
            )?;
        }
    }
    Ok(())
}

/// Adds a note on each key that nothing reads.
pub fn tell_unused(
    alloc: Global,
    notes: &mut Notes,
    page: &Page,
    table: &Table,
) -> Result<(), AllocError> {
    for spot in spots_of(alloc, table)?.as_slice() {
        tell_unread(alloc, notes, page, spot)?;
    }
    Ok(())
}
