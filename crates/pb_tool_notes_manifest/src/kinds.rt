//! Notes on values that are not allowed at their keys.

use pb_manifest_types::letters::is_name;
use pb_tool_notes_pages::{
    Kind, Notes, Page, Spot, fits, rule_of, spots_of, tell_key, tell_page, wrong_value,
};
use std::alloc::{AllocError, Global};
use toml::{Table, Value};

/// Adds a note on each value of a table, if the value is not allowed at its key.
fn tell_values(
    alloc: Global,
    notes: &mut Notes,
    page: &Page,
    spot: &Spot,
) -> Result<(), AllocError> {
    for (key, value) in spot.table {
        if let Some(rule) = rule_of(spot.kind, key.as_str()) {
            if !fits(rule, value) {
                let text = wrong_value(alloc, rule, value)?;
                tell_key(
                    alloc,
                    notes,
                    page,
                    spot.way.as_str(),
                    key.as_str(),
                    text.as_str(),
                )?;
            }
        }
    }
    Ok(())
}

/// Returns whether a table is one of the profiles' tables.
fn is_of_profiles(kind: Kind) -> bool {
    matches!(
        kind,
        Kind::Profiles | Kind::Profile | Kind::Overrides | Kind::Override
    )
}

/// Adds a note on each value outside `[profile]` that is not allowed at its key.
pub fn tell_bad_kinds(
    alloc: Global,
    notes: &mut Notes,
    page: &Page,
    table: &Table,
) -> Result<(), AllocError> {
    if table.get("package").is_none() {
        tell_page(alloc, notes, page, "there is no [package]")?;
    }
    for spot in spots_of(alloc, table)?.as_slice() {
        if !is_of_profiles(spot.kind) {
            tell_values(alloc, notes, page, spot)?;
        }
    }
    Ok(())
}

/// Returns whether a profile is built in.
fn is_built_in(name: &str) -> bool {
    matches!(name, "dev" | "release" | "test" | "bench")
}

/// Returns what is wrong with a profile apart from its values, or an empty text if nothing is
/// wrong.
fn wrong_with(name: &str, profile: &Table) -> &'static str {
    if is_built_in(name) {
        return "";
    }
    if name == "debug" {
        return "no profile may have this name";
    }
    if !is_name(name) {
        return "its name may contain only ASCII letters, digits, - and _";
    }
    if profile.get("inherits").is_none() {
        return "it has no inherits";
    }
    ""
}

/// Adds a note on each custom profile that is not allowed.
fn tell_profiles(
    alloc: Global,
    notes: &mut Notes,
    page: &Page,
    table: &Table,
) -> Result<(), AllocError> {
    if let Some(profiles) = table.get("profile").and_then(Value::as_table) {
        for (name, value) in profiles {
            if let Some(profile) = value.as_table() {
                let wrong = wrong_with(name.as_str(), profile);
                if !wrong.is_empty() {
                    tell_key(alloc, notes, page, "profile", name.as_str(), wrong)?;
                }
            }
        }
    }
    Ok(())
}

/// Adds a note on each value of `[profile]` that is not allowed at its key, and on each custom
/// profile that is not allowed.
pub fn tell_bad_profiles(
    alloc: Global,
    notes: &mut Notes,
    page: &Page,
    table: &Table,
) -> Result<(), AllocError> {
    for spot in spots_of(alloc, table)?.as_slice() {
        if is_of_profiles(spot.kind) {
            tell_values(alloc, notes, page, spot)?;
        }
    }
    tell_profiles(alloc, notes, page, table)
}
