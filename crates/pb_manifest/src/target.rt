//! Reads `[lib]` and `[[bin]]` (The Cargo Book, Cargo Targets).

ghost use Rattle.std.specs.Prelude.{◌≡◌};
ghost use Rattle.toml.specs.View.{view, table_view, items_view};
ghost use Rattle.pb_manifest_types.specs.Values.{UnlessOom};
ghost use Rattle.pb_manifest.specs.Values.{each};
ghost use Rattle.pb_manifest.specs.Library.{crate_type_in, crate_type_of, crate_types_at, crate_name_in, crate_name_at, proc_macro_at, library_of};
ghost use Rattle.pb_manifest.specs.Binaries.{binary_keys, binary_of, binaries_at};

use crate::package::name_at;
use crate::values::{
    array_of, listed_texts_at, path_at, table_of, text_at, text_of, truth_at, value_at,
};
use pb_data::{Items, Text};
use pb_manifest_types::letters::is_crate_name;
use pb_manifest_types::{Binary, CrateType, Key, Library, ManifestFault};
use std::alloc::Global;
use toml::{Table, Value};

/// Returns the crate type that a text spells.
fn crate_type_in(text: &Text) -> Result<CrateType, ManifestFault>
    ensures { result ≡ crate_type_in text.now }
{
    match text.as_str() {
        "lib" => Ok(CrateType::Lib),
        "rlib" => Ok(CrateType::Rlib),
        "bin" => Ok(CrateType::Bin),
        _ => Err(ManifestFault::UnsupportedCrateType),
    }
}

/// Returns a crate type.
fn crate_type_of(alloc: Global, value: &Value) -> Result<CrateType, ManifestFault>
    ensures { UnlessOom result (crate_type_of (view value.now)) }
{
    let text = text_of(alloc, value, Key::CrateType)?;
    crate_type_in(&text)
}

/// Returns the crate types of a list.
fn each_crate_type(alloc: Global, values: &[Value]) -> Result<Items<CrateType>, ManifestFault>
    ensures { UnlessOom result (each crate_type_of (items_view values.now)) }
{
    let mut crate_types = Items::new(alloc);
    for value in values {
        crate_types.push(crate_type_of(alloc, value)?)?;
    }
    Ok(crate_types)
}

/// Returns the crate types at `crate-type`. There are no crate types if the key is missing.
fn crate_types_at(alloc: Global, table: &Table) -> Result<Items<CrateType>, ManifestFault>
    ensures { UnlessOom result (crate_types_at (table_view table.now)) }
{
    match value_at(table, Key::CrateType) {
        None => Ok(Items::new(alloc)),
        Some(value) => each_crate_type(alloc, array_of(value, Key::CrateType)?),
    }
}

/// Returns the name of the crate, if a name is written.
fn crate_name_at(alloc: Global, table: &Table) -> Result<Option<Text>, ManifestFault>
    ensures { UnlessOom result (crate_name_at (table_view table.now)) }
{
    match text_at(alloc, table, Key::Name)? {
        None => Ok(None),
        Some(name) => {
            if is_crate_name(name.as_str()) {
                Ok(Some(name))
            } else {
                Err(ManifestFault::BadName)
            }
        }
    }
}

/// Refuses `proc-macro = true`.
fn proc_macro_at(table: &Table) -> Result<(), ManifestFault>
    ensures { result ≡ proc_macro_at (table_view table.now) }
{
    match truth_at(table, Key::ProcMacro)? {
        Some(true) => Err(ManifestFault::UnsupportedCrateType),
        _ => Ok(()),
    }
}

/// Returns the table `[lib]`.
pub(crate) fn library_of(alloc: Global, table: &Table) -> Result<Library, ManifestFault>
    ensures { UnlessOom result (library_of (table_view table.now)) }
{
    let crate_types = crate_types_at(alloc, table)?;
    let name = crate_name_at(alloc, table)?;
    let path = path_at(alloc, table, Key::Path)?;
    proc_macro_at(table)?;
    Ok(Library {
        crate_types,
        name,
        path,
    })
}

/// Returns the keys of a `[[bin]]`.
fn binary_keys(alloc: Global, table: &Table) -> Result<Binary, ManifestFault>
    ensures { UnlessOom result (binary_keys (table_view table.now)) }
{
    let name = name_at(alloc, table)?;
    let path = path_at(alloc, table, Key::Path)?;
    let required_features = listed_texts_at(alloc, table, Key::RequiredFeatures)?;
    Ok(Binary {
        name,
        path,
        required_features,
    })
}

/// Returns a table of `[[bin]]`.
fn binary_of(alloc: Global, value: &Value) -> Result<Binary, ManifestFault>
    ensures { UnlessOom result (binary_of (view value.now)) }
{
    binary_keys(alloc, table_of(value, Key::Bin)?)
}

/// Returns the binaries of a list, in the order of the list.
fn each_binary(alloc: Global, values: &[Value]) -> Result<Items<Binary>, ManifestFault>
    ensures { UnlessOom result (each binary_of (items_view values.now)) }
{
    let mut binaries = Items::new(alloc);
    for value in values {
        binaries.push(binary_of(alloc, value)?)?;
    }
    Ok(binaries)
}

/// Returns the tables of `[[bin]]`, in the manifest's order.
pub(crate) fn binaries_at(alloc: Global, table: &Table) -> Result<Items<Binary>, ManifestFault>
    ensures { UnlessOom result (binaries_at (table_view table.now)) }
{
    match value_at(table, Key::Bin) {
        None => Ok(Items::new(alloc)),
        Some(value) => each_binary(alloc, array_of(value, Key::Bin)?),
    }
}
