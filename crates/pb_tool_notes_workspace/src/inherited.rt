//! Notes on missing keys that a package inherits.

use pb_tool_notes_pages::{Notes, Page, Pages, is_taken, shared_entry, tell_key};
use std::alloc::{AllocError, Global};
use toml::{Table, Value};

/// Returns whether a value is inherited from the workspace.
fn takes(value: &Value) -> bool {
    match value.as_table() {
        Some(table) => is_taken(table),
        None => false,
    }
}

/// Returns whether `[workspace.package]` of the root has a key.
fn gives_key(root: &Page, key: &str) -> bool {
    root.table_at("workspace")
        .and_then(|table| table.get("package"))
        .and_then(Value::as_table)
        .and_then(|table| table.get(key))
        .is_some()
}

/// Returns whether `[workspace.dependencies]` of the root has an entry.
fn gives_entry(root: &Page, key: &str) -> bool {
    root.table_at("workspace")
        .and_then(|table| table.get("dependencies"))
        .and_then(Value::as_table)
        .and_then(|table| table.get(key))
        .is_some()
}

/// Adds a note on each key that a package inherits and the root does not have.
fn tell_keys(
    alloc: Global,
    notes: &mut Notes,
    root: &Page,
    page: &Page,
    keys: &Table,
) -> Result<(), AllocError> {
    for (key, value) in keys {
        if takes(value) && !gives_key(root, key.as_str()) {
            let text = format!(in alloc;
                "{} has no workspace.package.{}",
                root.path.as_str(),
                key.as_str()
            )?;
            tell_key(alloc, notes, page, "package", key.as_str(), text.as_str())?;
        }
    }
    Ok(())
}

/// Adds a note on each entry of a table that a package inherits and the root does not have.
fn tell_entries(
    alloc: Global,
    notes: &mut Notes,
    root: &Page,
    page: &Page,
    table: &str,
) -> Result<(), AllocError> {
    let Some(entries) = page.table_at(table) else {
        return Ok(());
    };
    for (key, value) in entries {
        if takes(value) && !gives_entry(root, key.as_str()) {
            let text = format!(in alloc;
                "{} has no workspace.dependencies.{}",
                root.path.as_str(),
                key.as_str()
            )?;
            tell_key(alloc, notes, page, table, key.as_str(), text.as_str())?;
        }
    }
    Ok(())
}

/// Adds a note on each key and entry that a package inherits and the root does not have.
fn tell_page(alloc: Global, notes: &mut Notes, root: &Page, page: &Page) -> Result<(), AllocError> {
    if let Some(keys) = page.table_at("package") {
        tell_keys(alloc, notes, root, page, keys)?;
    }
    tell_entries(alloc, notes, root, page, "dependencies")?;
    tell_entries(alloc, notes, root, page, "build-dependencies")
}

/// Adds a note on each key that a package inherits from the workspace, if the workspace does not
/// have this key.
pub fn tell_no_inherited(
    alloc: Global,
    notes: &mut Notes,
    pages: &Pages,
) -> Result<(), AllocError> {
    let Some(root) = pages.root() else {
        return Ok(());
    };
    if root.table_at("workspace").is_none() {
        let text = format!(in alloc;
            "{} has no [workspace]: call pb_tool in the workspace's root, or give --manifest-path",
            root.path.as_str()
        )?;
        notes.say(alloc, text.as_str())?;
    }
    for page in pages.pages.as_slice() {
        tell_page(alloc, notes, root, page)?;
    }
    Ok(())
}

/// Returns what is wrong with the source of the workspace's entry with this key, in words. Returns
/// none if the entry has a path, and neither `git` nor `registry`.
fn source_fault(root: &Page, key: &str) -> Option<&'static str> {
    let Some(shared) = shared_entry(root, key) else {
        return Some("which has no path");
    };
    if shared.get("git").is_some() {
        return Some("in which git is not supported");
    }
    if shared.get("registry").is_some() {
        return Some("in which registry is not supported");
    }
    match shared.get("path") {
        Some(_) => None,
        None => Some("which has no path"),
    }
}

/// Adds a note on each entry that inherits an entry of the workspace, if the source of the
/// workspace's entry is not supported.
pub fn tell_taken_sources(
    alloc: Global,
    notes: &mut Notes,
    pages: &Pages,
    page: &Page,
) -> Result<(), AllocError> {
    let Some(root) = pages.root() else {
        return Ok(());
    };
    for table in ["dependencies", "build-dependencies"] {
        let Some(entries) = page.table_at(table) else {
            continue;
        };
        for (key, value) in entries {
            if !takes(value) || !gives_entry(root, key.as_str()) {
                continue;
            }
            if let Some(fault) = source_fault(root, key.as_str()) {
                let text = format!(in alloc;
                    "it inherits workspace.dependencies.{} of {}, {fault}",
                    key.as_str(),
                    root.path.as_str()
                )?;
                tell_key(alloc, notes, page, table, key.as_str(), text.as_str())?;
            }
        }
    }
    Ok(())
}
