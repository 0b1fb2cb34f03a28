//! The tables of a manifest, each with its whole key path.

use crate::rules::Kind;
use std::alloc::{AllocError, Global};
use toml::{Table, Value};

/// A table of a manifest.
#[derive(Drop)]
pub struct Spot<'a> {
    /// The table's whole key path, as `bin[2]`; empty for the manifest itself.
    pub way: String,
    /// The table.
    pub table: &'a Table,
    /// Its kind.
    pub kind: Kind,
}

/// Returns a key path with one more key.
pub(crate) fn way_to(alloc: Global, way: &str, key: &str) -> Result<String, AllocError> {
    if way.is_empty() {
        return String::from_str(alloc, key);
    }
    format!(in alloc; "{way}.{key}")
}

/// Adds the value at a key, if the value is a table.
fn push_at<'a>(
    alloc: Global,
    spots: &mut Vec<Spot<'a>>,
    table: &'a Table,
    way: &str,
    key: &str,
    kind: Kind,
) -> Result<(), AllocError> {
    if let Some(inner) = table.get(key).and_then(Value::as_table) {
        let way = way_to(alloc, way, key)?;
        spots.push(Spot {
            way,
            table: inner,
            kind,
        })?;
    }
    Ok(())
}

/// Adds each value of the table at a key, if the value is a table itself.
fn push_each<'a>(
    alloc: Global,
    spots: &mut Vec<Spot<'a>>,
    table: &'a Table,
    way: &str,
    key: &str,
    kind: Kind,
) -> Result<(), AllocError> {
    if let Some(inner) = table.get(key).and_then(Value::as_table) {
        let way = way_to(alloc, way, key)?;
        for (name, value) in inner {
            if let Some(one) = value.as_table() {
                let way = way_to(alloc, way.as_str(), name.as_str())?;
                spots.push(Spot {
                    way,
                    table: one,
                    kind,
                })?;
            }
        }
    }
    Ok(())
}

/// Adds each `[[bin]]`.
fn push_binaries<'a>(
    alloc: Global,
    spots: &mut Vec<Spot<'a>>,
    table: &'a Table,
) -> Result<(), AllocError> {
    if let Some(values) = table.get("bin").and_then(Value::as_array) {
        let mut number = 0usize;
        for value in values {
            number = number.saturating_add(1);
            if let Some(one) = value.as_table() {
                let way = format!(in alloc; "bin[{number}]")?;
                spots.push(Spot {
                    way,
                    table: one,
                    kind: Kind::Binary,
                })?;
            }
        }
    }
    Ok(())
}

/// Adds the tables of a profile.
fn push_profile<'a>(
    alloc: Global,
    spots: &mut Vec<Spot<'a>>,
    table: &'a Table,
    way: &str,
) -> Result<(), AllocError> {
    push_at(alloc, spots, table, way, "build-override", Kind::Override)?;
    push_at(alloc, spots, table, way, "package", Kind::Overrides)?;
    push_each(alloc, spots, table, way, "package", Kind::Override)
}

/// Adds the tables of each profile.
fn push_profiles<'a>(
    alloc: Global,
    spots: &mut Vec<Spot<'a>>,
    table: &'a Table,
) -> Result<(), AllocError> {
    push_at(alloc, spots, table, "", "profile", Kind::Profiles)?;
    push_each(alloc, spots, table, "", "profile", Kind::Profile)?;
    if let Some(profiles) = table.get("profile").and_then(Value::as_table) {
        for (name, value) in profiles {
            if let Some(profile) = value.as_table() {
                let way = format!(in alloc; "profile.{}", name.as_str())?;
                push_profile(alloc, spots, profile, way.as_str())?;
            }
        }
    }
    Ok(())
}

/// Adds `[workspace]` and its tables.
fn push_workspace<'a>(
    alloc: Global,
    spots: &mut Vec<Spot<'a>>,
    table: &'a Table,
) -> Result<(), AllocError> {
    push_at(alloc, spots, table, "", "workspace", Kind::Workspace)?;
    if let Some(inner) = table.get("workspace").and_then(Value::as_table) {
        push_at(alloc, spots, inner, "workspace", "package", Kind::Shared)?;
        push_at(
            alloc,
            spots,
            inner,
            "workspace",
            "dependencies",
            Kind::SharedEntries,
        )?;
        push_each(
            alloc,
            spots,
            inner,
            "workspace",
            "dependencies",
            Kind::SharedEntry,
        )?;
    }
    Ok(())
}

/// Returns the tables of a manifest that a build reads, in the order in which the build reads them.
/// The manifest itself comes first.
pub fn spots_of(alloc: Global, table: &Table) -> Result<Vec<Spot<'_>>, AllocError> {
    let mut spots = Vec::new(alloc);
    spots.push(Spot {
        way: String::new(alloc),
        table,
        kind: Kind::Top,
    })?;
    push_at(alloc, &mut spots, table, "", "package", Kind::Package)?;
    push_at(alloc, &mut spots, table, "", "lib", Kind::Library)?;
    push_binaries(alloc, &mut spots, table)?;
    for key in ["dependencies", "build-dependencies"] {
        push_at(alloc, &mut spots, table, "", key, Kind::Entries)?;
        push_each(alloc, &mut spots, table, "", key, Kind::Entry)?;
    }
    push_at(alloc, &mut spots, table, "", "features", Kind::Features)?;
    push_profiles(alloc, &mut spots, table)?;
    push_workspace(alloc, &mut spots, table)?;
    Ok(spots)
}
