//! Notes on names, versions and items of features that cannot be read.

use pb_data::Text;
use pb_manifest_types::letters::{is_crate_name, is_feature_name, is_name};
use pb_manifest_types::{ManifestFault, Requirement, Version};
use pb_tool_notes_pages::{Kind, Notes, Page, Spot, spots_of, tell_key, tell_page, text_at};
use std::alloc::{AllocError, Global};
use toml::{Table, Value};

/// The characters that a name may have.
const NAME: &str = "ASCII letters, digits, - and _";

/// Adds a note on a name, if the name is not allowed.
fn tell_name(
    alloc: Global,
    notes: &mut Notes,
    page: &Page,
    spot: &Spot,
    key: &str,
    is_right: bool,
    letters: &str,
) -> Result<(), AllocError> {
    if is_right {
        return Ok(());
    }
    let name = text_at(spot.table, key);
    let text = format!(in alloc; "\"{name}\" may contain only {letters}, and must not be empty")?;
    tell_key(alloc, notes, page, spot.way.as_str(), key, text.as_str())
}

/// Adds what is wrong with the name of a package or a binary.
fn tell_own_name(
    alloc: Global,
    notes: &mut Notes,
    page: &Page,
    spot: &Spot,
) -> Result<(), AllocError> {
    if spot.table.get("name").is_none() {
        let text = format!(in alloc; "{} has no name", spot.way.as_str())?;
        return tell_page(alloc, notes, page, text.as_str());
    }
    let is_right = is_name(text_at(spot.table, "name"));
    tell_name(alloc, notes, page, spot, "name", is_right, NAME)
}

/// Adds a note on each key of dependency entries, if the key is not an allowed name.
fn tell_entry_keys(
    alloc: Global,
    notes: &mut Notes,
    page: &Page,
    spot: &Spot,
) -> Result<(), AllocError> {
    for (key, _value) in spot.table {
        if !is_name(key.as_str()) {
            let text = format!(in alloc; "a name may contain only {NAME}, and must not be empty")?;
            tell_key(
                alloc,
                notes,
                page,
                spot.way.as_str(),
                key.as_str(),
                text.as_str(),
            )?;
        }
    }
    Ok(())
}

/// Adds a note on each name of a table, if the name is not allowed.
fn tell_names_of(
    alloc: Global,
    notes: &mut Notes,
    page: &Page,
    spot: &Spot,
) -> Result<(), AllocError> {
    match spot.kind {
        Kind::Package | Kind::Binary => tell_own_name(alloc, notes, page, spot),
        Kind::Library => {
            let is_right = spot.table.get("name").is_none()
                || is_crate_name(text_at(spot.table, "name"));
            tell_name(
                alloc,
                notes,
                page,
                spot,
                "name",
                is_right,
                "ASCII letters, digits and _",
            )
        }
        Kind::Entry | Kind::SharedEntry => {
            let is_right = spot.table.get("package").is_none()
                || is_name(text_at(spot.table, "package"));
            tell_name(alloc, notes, page, spot, "package", is_right, NAME)
        }
        Kind::Entries | Kind::SharedEntries => tell_entry_keys(alloc, notes, page, spot),
        _ => Ok(()),
    }
}

/// Adds a note on each name that is not allowed.
pub fn tell_bad_names(
    alloc: Global,
    notes: &mut Notes,
    page: &Page,
    table: &Table,
) -> Result<(), AllocError> {
    for spot in spots_of(alloc, table)?.as_slice() {
        tell_names_of(alloc, notes, page, spot)?;
    }
    Ok(())
}

/// Returns whether a version is refused.
fn is_bad_version(alloc: Global, text: &str) -> Result<bool, AllocError> {
    match Version::read(alloc, Text::from_str(alloc, text)?) {
        Err(ManifestFault::BadVersion) => Ok(true),
        _ => Ok(false),
    }
}

/// Returns whether a requirement is refused.
fn is_bad_requirement(alloc: Global, text: &str) -> Result<bool, AllocError> {
    match Requirement::read(alloc, Text::from_str(alloc, text)?) {
        Err(ManifestFault::BadVersion) => Ok(true),
        _ => Ok(false),
    }
}

/// Returns what is wrong with a version that is refused.
fn wrong_version(text: &str) -> &'static str {
    match text.split('.').count() {
        1 => "has no second and no third number",
        2 => "has no third number",
        _ => "is not a version such as 0.1.0",
    }
}

/// Adds what is wrong with the version of a package, if the version is refused.
fn tell_version(
    alloc: Global,
    notes: &mut Notes,
    page: &Page,
    spot: &Spot,
) -> Result<(), AllocError> {
    if let Some(text) = spot.table.get("version").and_then(Value::as_str) {
        if is_bad_version(alloc, text)? {
            let wrong = wrong_version(text);
            let text = format!(in alloc; "\"{text}\" {wrong}")?;
            tell_key(
                alloc,
                notes,
                page,
                spot.way.as_str(),
                "version",
                text.as_str(),
            )?;
        }
    }
    Ok(())
}

/// Adds a note on the text at a key, if the text is not a valid requirement.
fn tell_requirement(
    alloc: Global,
    notes: &mut Notes,
    page: &Page,
    spot: &Spot,
    key: &str,
    text: &str,
) -> Result<(), AllocError> {
    if is_bad_requirement(alloc, text)? {
        let text = format!(in alloc; "\"{text}\" is not a version requirement; \"0.1\" is one")?;
        tell_key(alloc, notes, page, spot.way.as_str(), key, text.as_str())?;
    }
    Ok(())
}

/// Adds a note on each entry that is only a requirement, if this requirement is refused.
fn tell_requirements(
    alloc: Global,
    notes: &mut Notes,
    page: &Page,
    spot: &Spot,
) -> Result<(), AllocError> {
    for (key, value) in spot.table {
        if let Some(text) = value.as_str() {
            tell_requirement(alloc, notes, page, spot, key.as_str(), text)?;
        }
    }
    Ok(())
}

/// Adds a note on each version in a manifest, if the version cannot be read.
pub fn tell_bad_versions(
    alloc: Global,
    notes: &mut Notes,
    page: &Page,
    table: &Table,
) -> Result<(), AllocError> {
    for spot in spots_of(alloc, table)?.as_slice() {
        match spot.kind {
            Kind::Package | Kind::Shared => tell_version(alloc, notes, page, spot)?,
            Kind::Entries | Kind::SharedEntries => tell_requirements(alloc, notes, page, spot)?,
            Kind::Entry | Kind::SharedEntry => {
                if let Some(text) = spot.table.get("version").and_then(Value::as_str) {
                    tell_requirement(alloc, notes, page, spot, "version", text)?;
                }
            }
            _ => {}
        }
    }
    Ok(())
}

/// Returns whether an item of a feature has one of the four forms.
fn is_item(text: &str) -> bool {
    match text.split_once('/') {
        Some((name, feature)) => {
            is_name(name.strip_suffix('?').unwrap_or(name)) && is_feature_name(feature)
        }
        None => match text.strip_prefix("dep:") {
            Some(name) => is_name(name),
            None => is_feature_name(text),
        },
    }
}

/// Adds a note on each item of a feature, if the item has none of the four forms.
fn tell_items(
    alloc: Global,
    notes: &mut Notes,
    page: &Page,
    feature: &str,
    items: &[Value],
) -> Result<(), AllocError> {
    for item in items {
        if let Some(text) = item.as_str() {
            if !is_item(text) {
                let text = format!(in alloc;
                    "\"{text}\" has none of the forms \"F\", \"dep:N\", \"N/F\", \"N?/F\""
                )?;
                tell_key(alloc, notes, page, "features", feature, text.as_str())?;
            }
        }
    }
    Ok(())
}

/// Adds a note on each feature whose name or items cannot be read.
pub fn tell_bad_features(
    alloc: Global,
    notes: &mut Notes,
    page: &Page,
    table: &Table,
) -> Result<(), AllocError> {
    let Some(features) = table.get("features").and_then(Value::as_table) else {
        return Ok(());
    };
    for (name, value) in features {
        if !is_feature_name(name.as_str()) {
            tell_key(
                alloc,
                notes,
                page,
                "features",
                name.as_str(),
                "its name may have ASCII letters, digits and _; -, + and . may not come first",
            )?;
        }
        if let Some(items) = value.as_array() {
            tell_items(alloc, notes, page, name.as_str(), items.as_slice())?;
        }
    }
    Ok(())
}
