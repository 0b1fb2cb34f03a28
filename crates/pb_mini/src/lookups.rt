//! What a command line and a source look up in the world: files by their paths, and the values of
//! variables.

ghost use Rattle.std.specs.Prelude.{◌≡◌, IfOk, OnOk, IfErr, IsTrue, ℕ, List};
ghost use Rattle.pb_data.specs.Table.{with_entry, with_entries, table_of};
ghost use Rattle.pb_mini.specs.Lookups.{path_of, path_from, file_at, value_of};
ghost use Rattle.pb_place_types.specs.declared.child.ViewFault.TheVariants as view_fault;

use pb_data::{Bytes, Table, Text, TryCopy};
use pb_place_types::{PathFault, PathText, View, ViewFault};
use std::alloc::{AllocError, Global};

/// Returns the path of a text, or none if the text is not an absolute path.
pub(crate) fn path_of(alloc: Global, text: &str) -> Result<Option<PathText>, AllocError>
    ensures { IfOk result (λ path. path ≡ path_of text.now) }
{
    match PathText::parse(alloc, text) {
        Ok(path) => Ok(Some(path)),
        Err(PathFault::OutOfMemory) => Err(AllocError),
        Err(_) => Ok(None),
    }
}

/// Returns the path of a text relative to a folder, or none if the text contains byte 0.
pub(crate) fn path_from(
    alloc: Global,
    folder: &PathText,
    text: &str,
) -> Result<Option<PathText>, AllocError>
    ensures { IfOk result (λ path. path ≡ path_from folder.now text.now) }
{
    match folder.join(alloc, text) {
        Ok(path) => Ok(Some(path)),
        Err(PathFault::OutOfMemory) => Err(AllocError),
        Err(_) => Ok(None),
    }
}

/// Returns the bytes of the file at a path, or none if there is no path or no file.
pub(crate) fn file_at<V: View>(
    alloc: Global,
    view: &V,
    path: &Option<PathText>,
) -> Result<Option<Bytes>, ViewFault>
    ensures file { IsTrue V.is_modelled →
        IfOk result (λ file. file ≡ file_at (V.shown view.now) path.now) }
    ensures failed { IfErr result (λ e. e ≡ ViewFault.Failed → V.fails view.now) }
{
    match path {
        Some(path) => view.file(alloc, path),
        None => Ok(None),
    }
}

/// Returns the value of a variable: the value in the pairs, or else the inherited value. The result
/// is none if the variable is not set.
pub(crate) fn value_of<V: View>(
    alloc: Global,
    pairs: &Table<Text>,
    view: &V,
    name: &str,
) -> Result<Option<Text>, ViewFault>
    ensures value { IsTrue V.is_modelled →
        IfOk result (λ value. value ≡ value_of pairs.now (V.shown view.now) name.now) }
    ensures failed { IfErr result (λ e. e ≡ ViewFault.Failed → V.fails view.now) }
{
    let key = Text::from_str(alloc, name)?;
    match pairs.get(&key) {
        Some(value) => {
            let value = value.copy(alloc)?;
            Ok(Some(value))
        }
        None => view.variable(alloc, name),
    }
}

/// Adds a pair to a table.
fn put_pair(alloc: Global, table: &mut Table<Text>, pair: &(Text, Text)) -> Result<(), AllocError>
    ensures { OnOk result (table.new ≡ with_entry table.old pair.now.0 pair.now.1) }
{
    table.insert(pair.0.copy(alloc)?, pair.1.copy(alloc)?)
}

/// Returns pairs as a table. If several pairs have the same name, the last one counts.
pub(crate) fn table_of(alloc: Global, pairs: &[(Text, Text)]) -> Result<Table<Text>, AllocError>
    ensures { IfOk result (λ table. table ≡ table_of pairs.now) }
{
    let mut table = Table::new(alloc);
    for pair in pairs {
        put_pair(alloc, &mut table, pair)?;
    }
    Ok(table)
}
