//! Notes on packages and binaries that are requested and missing.

ghost use Rattle.pb_tool_notes_pages.specs.Looks.{LooksAgain};

use crate::binaries::binaries_of;
use pb_data::Text;
use pb_place_types::{PathText, Place, PlaceFault};
use pb_tool_notes_pages::{
    Ask, Notes, Page, Pages, Role, is_glob, matches_part, near, tell_key, tell_page, text_at,
    texts_of,
};
use pb_workspace_types::Options;
use std::alloc::{AllocError, Global};
use toml::{Table, Value};

/// Returns the names of the packages of a workspace.
fn names_of(alloc: Global, pages: &Pages) -> Result<Vec<&str>, AllocError> {
    let mut names = Vec::new(alloc);
    for page in pages.pages.as_slice() {
        let name = page.package_text("name");
        if !name.is_empty() {
            names.push(name)?;
        }
    }
    Ok(names)
}

/// Returns whether a name is among some names.
fn is_among(name: &str, names: &[&str]) -> bool {
    names.iter().any(|one| *one == name)
}

/// Adds a note on each name of `-p` that is not the name of a package.
fn tell_requested(
    alloc: Global,
    notes: &mut Notes,
    names: &[&str],
    requested: &[Text],
) -> Result<(), AllocError> {
    for one in requested {
        let name = one.as_str();
        let text = if is_among(name, names) {
            format!(in alloc; "-p names {name}: only a member can be selected")?
        } else {
            let near = near(alloc, name, names)?;
            format!(in alloc; "-p names {name}{}", near.as_str())?
        };
        notes.say(alloc, text.as_str())?;
    }
    Ok(())
}

/// Returns whether an ask requests the manifest of a folder that the root names.
fn is_known(alloc: Global, asks: &[Ask], root: &PathText, written: &str) -> bool {
    match root.join(alloc, written) {
        Ok(folder) => match folder.join(alloc, "Cargo.toml") {
            Ok(path) => asks.iter().any(|ask| ask.path.as_str() == path.as_str()),
            Err(_) => true,
        },
        Err(_) => true,
    }
}

/// Adds a note on each folder of `default-members` in which no manifest was read.
fn tell_defaults(
    alloc: Global,
    notes: &mut Notes,
    pages: &Pages,
    root: &Page,
) -> Result<(), AllocError> {
    let folder = root.path.folder(alloc)?;
    let members = texts_of(alloc, root, "members")?;
    for written in texts_of(alloc, root, "default-members")?.as_slice() {
        if !is_glob(*written) && !is_known(alloc, pages.asks.as_slice(), &folder, *written) {
            let near = near(alloc, *written, members.as_slice())?;
            let text = format!(in alloc; "{} is not a member's folder{}", *written, near.as_str())?;
            tell_key(
                alloc,
                notes,
                root,
                "workspace",
                "default-members",
                text.as_str(),
            )?;
        }
    }
    Ok(())
}

/// Adds notes that say which requested packages are not members.
pub fn tell_no_package(
    alloc: Global,
    notes: &mut Notes,
    pages: &Pages,
    options: &Options,
) -> Result<(), AllocError> {
    let names = names_of(alloc, pages)?;
    tell_requested(alloc, notes, names.as_slice(), options.packages.as_slice())?;
    match pages.root() {
        Some(root) => {
            if options.packages.is_empty() {
                tell_defaults(alloc, notes, pages, root)?;
            }
            Ok(())
        }
        None => Ok(()),
    }
}

/// Returns the texts in a list.
fn texts_in(alloc: Global, names: &[Text]) -> Result<Vec<&str>, AllocError> {
    let mut texts = Vec::new(alloc);
    for name in names {
        texts.push(name.as_str())?;
    }
    Ok(texts)
}

/// Returns the texts of a list, with commas between them.
fn join_texts(alloc: Global, values: &[Value]) -> Result<String, AllocError> {
    let mut all = String::new(alloc);
    for one in values {
        if let Some(text) = one.as_str() {
            if !all.is_empty() {
                all.push_str(", ")?;
            }
            all.push_str(text)?;
        }
    }
    Ok(all)
}

/// Returns the features that a binary requires, with commas between them; an empty text if there
/// are none.
fn required_by(alloc: Global, binary: &Table) -> Result<String, AllocError> {
    match binary.get("required-features").and_then(Value::as_array) {
        Some(features) => join_texts(alloc, features.as_slice()),
        None => Ok(String::new(alloc)),
    }
}

/// Adds a note on each `[[bin]]` of this name, if the `[[bin]]` requires features.
fn tell_required(
    alloc: Global,
    notes: &mut Notes,
    page: &Page,
    binaries: &[Value],
    name: &str,
) -> Result<(), AllocError> {
    let mut number = 0usize;
    for one in binaries {
        number = number.saturating_add(1);
        if let Some(table) = one.as_table() {
            let features = required_by(alloc, table)?;
            if text_at(table, "name") == name && !features.is_empty() {
                let way = format!(in alloc; "bin[{number}]")?;
                let text = format!(in alloc;
                    "{name} is left out unless these features are on: {}",
                    features.as_str()
                )?;
                tell_key(
                    alloc,
                    notes,
                    page,
                    way.as_str(),
                    "required-features",
                    text.as_str(),
                )?;
            }
        }
    }
    Ok(())
}

/// Adds what is known about a requested binary.
fn tell_binary(
    alloc: Global,
    notes: &mut Notes,
    pages: &Pages,
    names: &[&str],
    name: &str,
) -> Result<(), AllocError> {
    if !is_among(name, names) {
        let near = near(alloc, name, names)?;
        let text = format!(in alloc; "--bin {name}: there is no such binary{}", near.as_str())?;
        return notes.say(alloc, text.as_str());
    }
    for page in pages.pages.as_slice() {
        if let Some(table) = &page.table {
            if let Some(binaries) = table.get("bin").and_then(Value::as_array) {
                tell_required(alloc, notes, page, binaries.as_slice(), name)?;
            }
        }
    }
    Ok(())
}

/// Adds what is known about each requested binary.
pub fn tell_binaries<P: Place>(
    alloc: Global,
    place: &mut P,
    notes: &mut Notes,
    pages: &Pages,
    options: &Options,
) -> Result<(), PlaceFault>
    ensures { LooksAgain (P.at place.old) (P.at place.new) }
{
    if options.bin.is_empty() {
        return Ok(());
    }
    let found = binaries_of(alloc, place, pages)?;
    let names = texts_in(alloc, found.as_slice())?;
    for one in options.bin.as_slice() {
        tell_binary(alloc, notes, pages, names.as_slice(), one.as_str())?;
    }
    Ok(())
}

/// Returns whether a pattern matches a member that was read. In this function a `*` matches
/// slashes, too.
fn is_met(
    alloc: Global,
    pages: &Pages,
    folder: &PathText,
    pattern: &str,
) -> Result<bool, AllocError> {
    let whole = match folder.join(alloc, pattern) {
        Ok(path) => path,
        Err(_) => return Ok(true),
    };
    for ask in pages.asks.as_slice() {
        if ask.role == Role::Member && pages.at(ask.path.as_str()).is_some() {
            let member = ask.path.folder(alloc)?;
            if matches_part(alloc, whole.as_str(), member.as_str())? {
                return Ok(true);
            }
        }
    }
    Ok(false)
}

/// Adds a note on each pattern of `members` that matches no package.
pub fn tell_patterns(alloc: Global, notes: &mut Notes, pages: &Pages) -> Result<(), AllocError> {
    let Some(root) = pages.root() else {
        return Ok(());
    };
    let folder = root.path.folder(alloc)?;
    for pattern in texts_of(alloc, root, "members")?.as_slice() {
        if is_glob(*pattern) && !is_met(alloc, pages, &folder, *pattern)? {
            let text = format!(in alloc; "{} matches no package", *pattern)?;
            tell_key(alloc, notes, root, "workspace", "members", text.as_str())?;
        }
    }
    Ok(())
}

/// Returns how many packages were read.
fn count_of(pages: &Pages) -> usize {
    pages
        .pages
        .iter()
        .filter(|page| page.table_at("package").is_some())
        .count()
}

/// Adds notes that say why there is nothing to build.
pub fn tell_nothing<P: Place>(
    alloc: Global,
    place: &mut P,
    notes: &mut Notes,
    pages: &Pages,
    options: &Options,
) -> Result<(), PlaceFault>
    ensures { LooksAgain (P.at place.old) (P.at place.new) }
{
    tell_binaries(alloc, place, notes, pages, options)?;
    let Some(root) = pages.root() else {
        return Ok(());
    };
    tell_patterns(alloc, notes, pages)?;
    if count_of(pages) == 0 {
        tell_page(alloc, notes, root, "the workspace has no members")?;
    }
    if notes.texts().is_empty() {
        notes.say(
            alloc,
            "no selected package has a requested file: src/lib.rs, src/main.rs or one in src/bin",
        )?;
    }
    Ok(())
}
