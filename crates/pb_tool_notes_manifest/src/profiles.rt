//! Notes on profiles.

use pb_tool_notes_pages::{Kind, Notes, Page, near, spots_of, tell_key, tell_page, text_at};
use std::alloc::{AllocError, Global};
use toml::Table;

/// Returns the names of the profiles that a root manifest writes, and of the built-in profiles.
fn names_of(alloc: Global, page: &Page) -> Result<Vec<&str>, AllocError> {
    let mut names = Vec::new(alloc);
    for name in ["dev", "release", "test", "bench"] {
        names.push(name)?;
    }
    if let Some(profiles) = page.table_at("profile") {
        for (name, _value) in profiles {
            names.push(name.as_str())?;
        }
    }
    Ok(names)
}

/// Returns whether a name is among some names.
fn is_among(name: &str, names: &[&str]) -> bool {
    names.iter().any(|one| *one == name)
}

/// Adds a note on each `inherits` that names no profile.
fn tell_inherits(
    alloc: Global,
    notes: &mut Notes,
    page: &Page,
    names: &[&str],
) -> Result<(), AllocError> {
    let Some(profiles) = page.table_at("profile") else {
        return Ok(());
    };
    for (name, value) in profiles {
        let from = match value.as_table() {
            Some(profile) => text_at(profile, "inherits"),
            None => "",
        };
        if !from.is_empty() && !is_among(from, names) {
            if notes.is_full() {
                notes.pass_over();
                continue;
            }
            let near = near(alloc, from, names)?;
            let way = format!(in alloc; "profile.{}", name.as_str())?;
            let text = format!(in alloc; "it names {from}{}", near.as_str())?;
            tell_key(alloc, notes, page, way.as_str(), "inherits", text.as_str())?;
        }
    }
    Ok(())
}

/// Adds a note that says which profile is missing.
pub fn tell_no_profile(
    alloc: Global,
    notes: &mut Notes,
    page: &Page,
    requested: &str,
) -> Result<(), AllocError> {
    let names = names_of(alloc, page)?;
    if !is_among(requested, names.as_slice()) {
        let near = near(alloc, requested, names.as_slice())?;
        let text = format!(in alloc; "--profile names {requested}{}", near.as_str())?;
        notes.say(alloc, text.as_str())?;
    }
    tell_inherits(alloc, notes, page, names.as_slice())
}

/// Returns the profile from which a profile inherits, or an empty text if there is none.
fn inherits_of<'a>(profiles: &'a Table, name: &str) -> &'a str {
    match profiles.get(name).and_then(|value| value.as_table()) {
        Some(profile) => text_at(profile, "inherits"),
        None => "",
    }
}

/// The greatest number of profiles on a path through `inherits`.
const LONGEST_WAY: usize = 32;

/// Adds a note with the names on the path from a profile through `inherits`, until a profile
/// repeats.
pub fn tell_inherits_cycle(
    alloc: Global,
    notes: &mut Notes,
    page: &Page,
    requested: &str,
) -> Result<(), AllocError> {
    let Some(profiles) = page.table_at("profile") else {
        return Ok(());
    };
    let mut seen = Vec::new(alloc);
    let mut text = String::from_str(alloc, requested)?;
    let mut name = requested;
    for _step in 0..LONGEST_WAY {
        seen.push(name)?;
        name = inherits_of(profiles, name);
        if name.is_empty() {
            break;
        }
        text.push_str(" -> ")?;
        text.push_str(name)?;
        if is_among(name, seen.as_slice()) {
            break;
        }
    }
    tell_page(alloc, notes, page, text.as_str())
}

/// Adds a note on each key of an override, if no override may set this key.
pub fn tell_not_in_override(
    alloc: Global,
    notes: &mut Notes,
    page: &Page,
) -> Result<(), AllocError> {
    let Some(table) = &page.table else {
        return Ok(());
    };
    for spot in spots_of(alloc, table)?.as_slice() {
        if spot.kind == Kind::Override {
            for key in ["lto", "panic", "rpath"] {
                if spot.table.get(key).is_some() {
                    let text = "only the profile itself may set it";
                    tell_key(alloc, notes, page, spot.way.as_str(), key, text)?;
                }
            }
        }
    }
    Ok(())
}
