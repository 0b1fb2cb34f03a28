//! Notes on two manifests that conflict.

use pb_data::Text;
use pb_manifest_types::{ManifestFault, Requirement, Version};
use pb_tool_notes_pages::{Ask, Notes, Page, Pages, Role, tell_key, text_at};
use std::alloc::{AllocError, Global};
use toml::{Table, Value};

/// Returns the version of a package: its own version, or the version that it inherits from the
/// root.
fn version_of<'a>(pages: &'a Pages, page: &'a Page) -> &'a str {
    let own = page.package_text("version");
    if !own.is_empty() {
        return own;
    }
    let shared = pages
        .root()
        .and_then(|root| root.table_at("workspace"))
        .and_then(|table| table.get("package"))
        .and_then(Value::as_table);
    match shared {
        Some(table) => match text_at(table, "version") {
            "" => "0.0.0",
            version => version,
        },
        None => "0.0.0",
    }
}

/// Returns what was read: a version or a requirement. Returns `None` if the text was refused.
fn read<T: Drop>(found: Result<T, ManifestFault>) -> Result<Option<T>, AllocError> {
    match found {
        Ok(found) => Ok(Some(found)),
        Err(ManifestFault::OutOfMemory) => Err(AllocError),
        Err(_) => Ok(None),
    }
}

/// Returns whether a version does not match a requirement. A text that cannot be read counts as a
/// match.
fn is_mismatch(alloc: Global, requirement: &str, version: &str) -> Result<bool, AllocError> {
    let requirement = read(Requirement::read(alloc, Text::from_str(alloc, requirement)?))?;
    let version = read(Version::read(alloc, Text::from_str(alloc, version)?))?;
    match (requirement, version) {
        (Some(requirement), Some(version)) => Ok(!requirement.matches(&version)),
        _ => Ok(false),
    }
}

/// Adds a note on an entry.
fn tell_entry(
    alloc: Global,
    notes: &mut Notes,
    pages: &Pages,
    ask: &Ask,
    text: &str,
) -> Result<(), AllocError> {
    match pages.at(ask.by.as_str()) {
        Some(page) => tell_key(
            alloc,
            notes,
            page,
            ask.table.as_str(),
            ask.key.as_str(),
            text,
        ),
        None => Ok(()),
    }
}

/// Adds a note on each entry, if the version of the entry's package does not match the entry's
/// requirement.
pub fn tell_versions(alloc: Global, notes: &mut Notes, pages: &Pages) -> Result<(), AllocError> {
    for ask in pages.asks.as_slice() {
        if let Some(page) = pages.at(ask.path.as_str()) {
            let version = version_of(pages, page);
            let wanted = ask.version.as_str();
            if !wanted.is_empty() && is_mismatch(alloc, wanted, version)? {
                let text = format!(in alloc;
                    "it asks for {} {wanted}, and {} has {version}",
                    ask.name.as_str(),
                    page.path.as_str()
                )?;
                tell_entry(alloc, notes, pages, ask, text.as_str())?;
            }
        }
    }
    Ok(())
}

/// Adds a note on each entry, if the entry's package does not have the requested name.
pub fn tell_names(alloc: Global, notes: &mut Notes, pages: &Pages) -> Result<(), AllocError> {
    for ask in pages.asks.as_slice() {
        if let Some(page) = pages.at(ask.path.as_str()) {
            let name = page.package_text("name");
            if ask.role == Role::Entry && name != ask.name.as_str() {
                let text = format!(in alloc;
                    "it leads to {}, whose name is {name} (package = \"{name}\" would keep the key)",
                    page.path.as_str()
                )?;
                tell_entry(alloc, notes, pages, ask, text.as_str())?;
            }
        }
    }
    Ok(())
}

/// Adds a note on each other manifest that has the same text at a key of `[package]` as this
/// manifest.
fn tell_twins(
    alloc: Global,
    notes: &mut Notes,
    page: &Page,
    others: &[Page],
    key: &str,
) -> Result<(), AllocError> {
    let own = page.package_text(key);
    if own.is_empty() {
        return Ok(());
    }
    for other in others {
        if other.package_text(key) == own {
            let text = format!(in alloc; "{own} is in {} too", other.path.as_str())?;
            tell_key(alloc, notes, page, "package", key, text.as_str())?;
        }
    }
    Ok(())
}

/// Adds a note on each pair of manifests that have the same text at a key of `[package]`.
pub fn tell_same(
    alloc: Global,
    notes: &mut Notes,
    pages: &Pages,
    key: &str,
) -> Result<(), AllocError> {
    let mut others = pages.pages.as_slice();
    for _page in pages.pages.as_slice() {
        if let Some((first, rest)) = others.split_first() {
            tell_twins(alloc, notes, first, rest, key)?;
            others = rest;
        }
    }
    Ok(())
}

/// The greatest number of binaries that are compared.
const MOST_BINARIES: usize = 256;

/// Returns the index, from 1, of the first binary with a name, or 0 if there is no such binary.
fn first_named(binaries: &[Value], name: &str) -> usize {
    let mut number = 0usize;
    for one in binaries {
        number = number.saturating_add(1);
        if let Some(table) = one.as_table() {
            if text_at(table, "name") == name {
                return number;
            }
        }
    }
    0
}

/// Adds a note on each binary of a list that has the name of an earlier binary.
fn tell_same_names(
    alloc: Global,
    notes: &mut Notes,
    page: &Page,
    binaries: &[Value],
) -> Result<(), AllocError> {
    let mut number = 0usize;
    for one in binaries.iter().take(MOST_BINARIES) {
        number = number.saturating_add(1);
        let name = match one.as_table() {
            Some(table) => text_at(table, "name"),
            None => continue,
        };
        let first = first_named(binaries, name);
        if first < number {
            let way = format!(in alloc; "bin[{number}]")?;
            let text = format!(in alloc; "{name} is the name of bin[{first}] too")?;
            tell_key(alloc, notes, page, way.as_str(), "name", text.as_str())?;
        }
    }
    Ok(())
}

/// Returns the `[[bin]]` of a manifest.
fn binaries_of(table: &Table) -> &[Value] {
    match table.get("bin").and_then(Value::as_array) {
        Some(values) => values.as_slice(),
        None => &[],
    }
}

/// Adds a note on each `[[bin]]` that has the name of an earlier `[[bin]]`.
pub fn tell_same_binaries(
    alloc: Global,
    notes: &mut Notes,
    pages: &Pages,
) -> Result<(), AllocError> {
    for page in pages.pages.as_slice() {
        if let Some(table) = &page.table {
            tell_same_names(alloc, notes, page, binaries_of(table))?;
        }
    }
    Ok(())
}
