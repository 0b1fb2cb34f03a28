//! Why each manifest is read: what names the manifest.

use crate::page::{Page, text_at};
use crate::rules::is_taken;
use pb_data::{Text, TryCopy};
use pb_place_types::{PathFault, PathText};
use std::alloc::{AllocError, Global};
use toml::{Table, Value};

/// Why a manifest is requested.
#[derive(Clone, Copy, PartialEq, Eq)]
pub enum Role {
    /// The manifest is that of `--manifest-path` or of the current folder.
    Root,
    /// The root's `members` names the manifest's folder.
    Member,
    /// A dependency entry names the manifest.
    Entry,
}

/// The fact that a manifest is requested.
#[derive(Drop)]
pub struct Ask {
    /// Why the manifest is requested.
    pub role: Role,
    /// The path of the manifest that makes the request.
    pub by: PathText,
    /// The table of the entry.
    pub table: Text,
    /// The entry's key.
    pub key: Text,
    /// The name that the package must have: the key, if the entry has no other name.
    pub name: Text,
    /// The requirement that the package's version must match; empty if the entry has none.
    pub version: Text,
    /// The path of the manifest that is requested.
    pub path: PathText,
}

/// Returns an ask without an entry.
fn plain_ask(alloc: Global, role: Role, by: &PathText, path: PathText) -> Result<Ask, AllocError> {
    Ok(Ask {
        role,
        by: by.copy(alloc)?,
        table: Text::from_str(alloc, "")?,
        key: Text::from_str(alloc, "")?,
        name: Text::from_str(alloc, "")?,
        version: Text::from_str(alloc, "")?,
        path,
    })
}

/// Returns the ask for the root.
pub(crate) fn root_ask(alloc: Global, root: &PathText) -> Result<Ask, AllocError> {
    let path = root.copy(alloc)?;
    plain_ask(alloc, Role::Root, root, path)
}

impl Ask {
    /// Returns the ask of the root for a member.
    pub(crate) fn member(
        alloc: Global,
        root: &PathText,
        path: PathText,
    ) -> Result<Ask, AllocError> {
        plain_ask(alloc, Role::Member, root, path)
    }
}

/// Returns whether the manifest `by` asks for the manifest at a path.
pub(crate) fn is_asked(asks: &[Ask], by: &PathText, path: &PathText) -> bool {
    asks.iter().any(|ask| ask.by.as_str() == by.as_str() && ask.path.as_str() == path.as_str())
}

/// Returns the path of the manifest in a folder that another manifest names. Returns `None` if the
/// text is not a path.
fn manifest_in(
    alloc: Global,
    from: &PathText,
    written: &str,
) -> Result<Option<PathText>, AllocError> {
    let folder = from.folder(alloc)?;
    let folder = match folder.join(alloc, written) {
        Ok(folder) => folder,
        Err(PathFault::OutOfMemory) => return Err(AllocError),
        Err(_) => return Ok(None),
    };
    match folder.join(alloc, "Cargo.toml") {
        Ok(path) => Ok(Some(path)),
        Err(PathFault::OutOfMemory) => Err(AllocError),
        Err(_) => Ok(None),
    }
}

/// Returns the ask of an entry, if the entry has a path. An entry that inherits has the path of the
/// root's entry.
fn ask_of(
    alloc: Global,
    page: &Page,
    table: &str,
    key: &str,
    from: &PathText,
    entry: &Table,
) -> Result<Option<Ask>, AllocError> {
    let written = text_at(entry, "path");
    if written.is_empty() {
        return Ok(None);
    }
    let Some(path) = manifest_in(alloc, from, written)? else {
        return Ok(None);
    };
    let name = match text_at(entry, "package") {
        "" => key,
        name => name,
    };
    Ok(Some(Ask {
        role: Role::Entry,
        by: page.path.copy(alloc)?,
        table: Text::from_str(alloc, table)?,
        key: Text::from_str(alloc, key)?,
        name: Text::from_str(alloc, name)?,
        version: Text::from_str(alloc, text_at(entry, "version"))?,
        path,
    }))
}

/// Returns the entry at a key of `[workspace.dependencies]`, if the entry is a table.
pub fn shared_entry<'a>(root: &'a Page, key: &str) -> Option<&'a Table> {
    root.table_at("workspace")
        .and_then(|workspace| workspace.get("dependencies"))
        .and_then(Value::as_table)
        .and_then(|entries| entries.get(key))
        .and_then(Value::as_table)
}

/// Adds the asks of the entries of a table.
fn push_asks(
    alloc: Global,
    asks: &mut Vec<Ask>,
    root: &Page,
    page: &Page,
    table: &str,
) -> Result<(), AllocError> {
    let Some(entries) = page.table_at(table) else {
        return Ok(());
    };
    for (key, value) in entries {
        let own = match value.as_table() {
            Some(own) => own,
            None => continue,
        };
        let key = key.as_str();
        let ask = if is_taken(own) {
            match shared_entry(root, key) {
                Some(shared) => ask_of(alloc, page, table, key, &root.path, shared)?,
                None => None,
            }
        } else {
            ask_of(alloc, page, table, key, &page.path, own)?
        };
        if let Some(ask) = ask {
            asks.push(ask)?;
        }
    }
    Ok(())
}

/// Returns the asks of the entries of a manifest. If no root is given, the manifest is the root
/// itself.
pub(crate) fn asks_of(
    alloc: Global,
    root: Option<&Page>,
    page: &Page,
) -> Result<Vec<Ask>, AllocError> {
    let root = root.unwrap_or(page);
    let mut asks = Vec::new(alloc);
    for table in ["dependencies", "build-dependencies"] {
        push_asks(alloc, &mut asks, root, page, table)?;
    }
    Ok(asks)
}
