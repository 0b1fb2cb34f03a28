//! Reads the value at a key of a table.

ghost use Rattle.std.specs.Prelude.{◌≡◌, option_map, IfOk, IfErr, is_some};
ghost use Rattle.toml.specs.Data.{get_member, as_table};
ghost use Rattle.toml.specs.View.{view, table_view, array_view, items_view};
ghost use Rattle.pb_manifest_types.specs.Values.{UnlessOom};
ghost use Rattle.pb_manifest.specs.Values.{value_at, has, each, text_of, truth_of, zero_free, path_of, texts_of, paths_of, text_at, truth_at, path_at, texts_at, listed_texts_at, paths_at, table_of, array_of, table_at, takes_workspace, is_taken, written_or_taken, inheritable_text_at, inheritable_texts_at, keys_of, keys_at};

use pb_data::{Items, Text};
use pb_manifest_types::{Inheritable, Key, ManifestFault, WrittenPath};
use std::alloc::{AllocError, Global};
use toml::{Table, Value};

/// Returns the value at the key with this name.
#[tactic(auto, using(crate::proofs::Tables::found_laws))]
fn value_named<'a>(table: &'a Table, name: &str) -> Option<&'a Value>
    ensures { option_map (λ v. view v.now) result ≡ get_member name.now (table_view table.now) }
{
    table.get(name)
}

/// Returns the value at a key.
pub(crate) fn value_at<'a>(table: &'a Table, key: Key) -> Option<&'a Value>
    ensures { option_map (λ v. view v.now) result ≡ value_at key (table_view table.now) }
{
    value_named(table, key.name())
}

/// Returns whether a key is present, whatever its value is.
pub(crate) fn has(table: &Table, key: Key) -> bool
    ensures { result ≡ has key (table_view table.now) }
{
    match value_at(table, key) {
        None => false,
        Some(_) => true,
    }
}

/// Returns a value as a text.
pub(crate) fn text_of(alloc: Global, value: &Value, key: Key) -> Result<Text, ManifestFault>
    ensures { UnlessOom result (text_of key (view value.now)) }
{
    match value.as_str() {
        Some(text) => {
            let text = Text::from_str(alloc, text)?;
            Ok(text)
        }
        None => Err(ManifestFault::BadKind(key)),
    }
}

/// Returns a text as a path.
pub(crate) fn path_in(text: Text, key: Key) -> Result<WrittenPath, ManifestFault>
    ensures { result ≡ zero_free key text }
{
    match WrittenPath::new(text) {
        Some(path) => Ok(path),
        None => Err(ManifestFault::BadKind(key)),
    }
}

/// Returns a value as a path, which is a text without byte 0.
pub(crate) fn path_of(alloc: Global, value: &Value, key: Key) -> Result<WrittenPath, ManifestFault>
    ensures { UnlessOom result (path_of key (view value.now)) }
{
    path_in(text_of(alloc, value, key)?, key)
}

/// Returns a value as a truth value.
pub(crate) fn truth_of(value: &Value, key: Key) -> Result<bool, ManifestFault>
    ensures { result ≡ truth_of key (view value.now) }
{
    match value.as_bool() {
        Some(truth) => Ok(truth),
        None => Err(ManifestFault::BadKind(key)),
    }
}

/// Returns a value as a table.
pub(crate) fn table_of<'a>(value: &'a Value, key: Key) -> Result<&'a Table, ManifestFault>
    ensures ok { IfOk result (λ t. table_of key (view value.now) ≡ Ok (table_view t.now)) }
    ensures err { IfErr result (λ e. table_of key (view value.now) ≡ Err e) }
{
    match value.as_table() {
        Some(table) => Ok(table),
        None => Err(ManifestFault::BadKind(key)),
    }
}

/// Returns a value as a list.
pub(crate) fn array_of<'a>(value: &'a Value, key: Key) -> Result<&'a [Value], ManifestFault>
    ensures ok { IfOk result (λ a. array_of key (view value.now) ≡ Ok (items_view a.now)) }
    ensures err { IfErr result (λ e. array_of key (view value.now) ≡ Err e) }
{
    match value.as_array() {
        Some(array) => Ok(array.as_slice()),
        None => Err(ManifestFault::BadKind(key)),
    }
}

/// Returns the texts of a list.
fn each_text(alloc: Global, values: &[Value], key: Key) -> Result<Items<Text>, ManifestFault>
    ensures { UnlessOom result (each (text_of key) (items_view values.now)) }
{
    let mut texts = Items::new(alloc);
    for value in values {
        texts.push(text_of(alloc, value, key)?)?;
    }
    Ok(texts)
}

/// Returns the paths of a list.
fn each_path(alloc: Global, values: &[Value], key: Key) -> Result<Items<WrittenPath>, ManifestFault>
    ensures { UnlessOom result (each (path_of key) (items_view values.now)) }
{
    let mut paths = Items::new(alloc);
    for value in values {
        paths.push(path_of(alloc, value, key)?)?;
    }
    Ok(paths)
}

/// Returns a value as a list of texts.
pub(crate) fn texts_of(alloc: Global, value: &Value, key: Key) -> Result<Items<Text>, ManifestFault>
    ensures { UnlessOom result (texts_of key (view value.now)) }
{
    each_text(alloc, array_of(value, key)?, key)
}

/// Returns a value as a list of paths.
pub(crate) fn paths_of(
    alloc: Global,
    value: &Value,
    key: Key,
) -> Result<Items<WrittenPath>, ManifestFault>
    ensures { UnlessOom result (paths_of key (view value.now)) }
{
    each_path(alloc, array_of(value, key)?, key)
}

/// Returns the text at a key, if the key is present.
pub(crate) fn text_at(alloc: Global, table: &Table, key: Key) -> Result<Option<Text>, ManifestFault>
    ensures { UnlessOom result (text_at key (table_view table.now)) }
{
    match value_at(table, key) {
        None => Ok(None),
        Some(value) => {
            let text = text_of(alloc, value, key)?;
            Ok(Some(text))
        }
    }
}

/// Returns the truth value at a key, if the key is present.
pub(crate) fn truth_at(table: &Table, key: Key) -> Result<Option<bool>, ManifestFault>
    ensures { result ≡ truth_at key (table_view table.now) }
{
    match value_at(table, key) {
        None => Ok(None),
        Some(value) => {
            let truth = truth_of(value, key)?;
            Ok(Some(truth))
        }
    }
}

/// Returns the path at a key, if the key is present.
pub(crate) fn path_at(
    alloc: Global,
    table: &Table,
    key: Key,
) -> Result<Option<WrittenPath>, ManifestFault>
    ensures { UnlessOom result (path_at key (table_view table.now)) }
{
    match value_at(table, key) {
        None => Ok(None),
        Some(value) => {
            let path = path_of(alloc, value, key)?;
            Ok(Some(path))
        }
    }
}

/// Returns the list of texts at a key, if the key is present.
pub(crate) fn texts_at(
    alloc: Global,
    table: &Table,
    key: Key,
) -> Result<Option<Items<Text>>, ManifestFault>
    ensures { UnlessOom result (texts_at key (table_view table.now)) }
{
    match value_at(table, key) {
        None => Ok(None),
        Some(value) => {
            let texts = texts_of(alloc, value, key)?;
            Ok(Some(texts))
        }
    }
}

/// Returns the list of texts at a key. The list is empty if the key is missing.
pub(crate) fn listed_texts_at(
    alloc: Global,
    table: &Table,
    key: Key,
) -> Result<Items<Text>, ManifestFault>
    ensures { UnlessOom result (listed_texts_at key (table_view table.now)) }
{
    match texts_at(alloc, table, key)? {
        Some(texts) => Ok(texts),
        None => Ok(Items::new(alloc)),
    }
}

/// Returns the list of paths at a key, if the key is present.
pub(crate) fn paths_at(
    alloc: Global,
    table: &Table,
    key: Key,
) -> Result<Option<Items<WrittenPath>>, ManifestFault>
    ensures { UnlessOom result (paths_at key (table_view table.now)) }
{
    match value_at(table, key) {
        None => Ok(None),
        Some(value) => {
            let paths = paths_of(alloc, value, key)?;
            Ok(Some(paths))
        }
    }
}

/// Returns the table at a key, if the key is present.
pub(crate) fn table_at<'a>(table: &'a Table, key: Key) -> Result<Option<&'a Table>, ManifestFault>
    ensures ok { IfOk result (λ t. table_at key (table_view table.now)
        ≡ Ok (option_map (λ m. table_view m.now) t)) }
    ensures err { IfErr result (λ e. table_at key (table_view table.now) ≡ Err e) }
{
    match value_at(table, key) {
        None => Ok(None),
        Some(value) => {
            let found = table_of(value, key)?;
            Ok(Some(found))
        }
    }
}

/// Returns whether a table contains `workspace = true`.
pub(crate) fn takes_workspace(table: &Table) -> bool
    ensures { result ≡ takes_workspace (table_view table.now) }
{
    match value_at(table, Key::Workspace) {
        None => false,
        Some(value) => match value.as_bool() {
            Some(truth) => truth,
            None => false,
        },
    }
}

/// Returns whether a value is inherited from the workspace. If the value is a table, the table must
/// contain `workspace = true`.
pub(crate) fn is_taken(value: &Value, key: Key) -> Result<bool, ManifestFault>
    ensures { result ≡ is_taken key (as_table (view value.now)) }
{
    match value.as_table() {
        None => Ok(false),
        Some(table) => {
            if takes_workspace(table) {
                Ok(true)
            } else {
                Err(ManifestFault::BadKind(key))
            }
        }
    }
}

/// Returns a text, or `{ workspace = true }`.
fn text_or_taken(alloc: Global, value: &Value, key: Key) -> Result<Inheritable<Text>, ManifestFault>
    ensures { UnlessOom result (written_or_taken key (text_of key) (view value.now)) }
{
    if is_taken(value, key)? {
        return Ok(Inheritable::Workspace);
    }
    let text = text_of(alloc, value, key)?;
    Ok(Inheritable::Written(text))
}

/// Returns a list of texts, or `{ workspace = true }`.
fn texts_or_taken(
    alloc: Global,
    value: &Value,
    key: Key,
) -> Result<Inheritable<Items<Text>>, ManifestFault>
    ensures { UnlessOom result (written_or_taken key (texts_of key) (view value.now)) }
{
    if is_taken(value, key)? {
        return Ok(Inheritable::Workspace);
    }
    let texts = texts_of(alloc, value, key)?;
    Ok(Inheritable::Written(texts))
}

/// Returns the text at a key. The text may be inherited from the workspace.
pub(crate) fn inheritable_text_at(
    alloc: Global,
    table: &Table,
    key: Key,
) -> Result<Inheritable<Text>, ManifestFault>
    ensures { UnlessOom result (inheritable_text_at key (table_view table.now)) }
{
    match value_at(table, key) {
        None => Ok(Inheritable::Absent),
        Some(value) => text_or_taken(alloc, value, key),
    }
}

/// Returns the list of texts at a key. The list may be inherited from the workspace.
pub(crate) fn inheritable_texts_at(
    alloc: Global,
    table: &Table,
    key: Key,
) -> Result<Inheritable<Items<Text>>, ManifestFault>
    ensures { UnlessOom result (inheritable_texts_at key (table_view table.now)) }
{
    match value_at(table, key) {
        None => Ok(Inheritable::Absent),
        Some(value) => texts_or_taken(alloc, value, key),
    }
}

/// Returns the keys of a table, in byte order.
fn keys_of(alloc: Global, table: &Table) -> Result<Items<Text>, AllocError>
    ensures { IfOk result (λ keys. keys ≡ keys_of (table_view table.now)) }
{
    let mut keys = Items::new(alloc);
    for (name, _value) in table {
        keys.push(Text::from_str(alloc, name.as_str())?)?;
    }
    Ok(keys)
}

/// Returns the keys of the table at a key. There are no keys if there is no table.
pub(crate) fn keys_at(alloc: Global, table: &Table, key: Key) -> Result<Items<Text>, AllocError>
    ensures { IfOk result (λ keys. keys ≡ keys_at key (table_view table.now)) }
{
    let value = match value_at(table, key) {
        None => return Ok(Items::new(alloc)),
        Some(value) => value,
    };
    match value.as_table() {
        None => Ok(Items::new(alloc)),
        Some(entries) => keys_of(alloc, entries),
    }
}
