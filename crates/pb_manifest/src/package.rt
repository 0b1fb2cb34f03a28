//! Reads `[package]` (The Cargo Book, Manifest Format).

ghost use Rattle.std.specs.Prelude.{◌≡◌};
ghost use Rattle.toml.specs.View.{view, table_view};
ghost use Rattle.pb_manifest_types.specs.Values.{UnlessOom};
ghost use Rattle.pb_manifest.specs.Values.{written_or_taken, text_at};
ghost use Rattle.pb_manifest.specs.Package.{name_in, name_at, edition_in, edition_of, edition_at, inherited_edition_at, build_at, readme_of, readme_at, inheritable_readme_at, resolver_at, first_keys, middle_keys, last_keys, package_of};
ghost use Rattle.pb_manifest_types.specs.declared.key.Key.TheVariants as key;

use crate::values::{
    inheritable_text_at, inheritable_texts_at, is_taken, path_in, text_at, text_of, truth_at,
    value_at,
};
use crate::version::inherited_version_at;
use pb_data::{Items, Text};
use pb_manifest_types::letters::is_name;
use pb_manifest_types::{
    Build, Edition, Inheritable, Inherited, Key, ManifestFault, Package, Readme, Version,
};
use std::alloc::Global;
use toml::{Table, Value};

/// The keys of `[package]`, in byte order from `authors` to `edition`.
#[derive(Drop)]
struct FirstKeys {
    authors: Inheritable<Items<Text>>,
    autobins: bool,
    build: Build,
    description: Inheritable<Text>,
    edition: Inherited<Edition>,
}

/// The keys of `[package]`, in byte order from `homepage` to `name`.
#[derive(Drop)]
struct MiddleKeys {
    homepage: Inheritable<Text>,
    license: Inheritable<Text>,
    license_file: Inheritable<Text>,
    links: Option<Text>,
    name: Text,
}

/// The keys of `[package]`, in byte order from `readme` to `version`.
#[derive(Drop)]
struct LastKeys {
    readme: Inheritable<Readme>,
    repository: Inheritable<Text>,
    rust_version: Inheritable<Text>,
    version: Inherited<Version>,
}

/// Returns the name of a package or of a binary. The name must be written and valid.
fn name_in(text: Option<Text>) -> Result<Text, ManifestFault>
    ensures { result ≡ name_in text }
{
    match text {
        Some(text) => {
            if is_name(text.as_str()) {
                Ok(text)
            } else {
                Err(ManifestFault::BadName)
            }
        }
        None => Err(ManifestFault::BadName),
    }
}

/// Returns the name at `name`, which is required.
pub(crate) fn name_at(alloc: Global, table: &Table) -> Result<Text, ManifestFault>
    ensures { UnlessOom result (name_at (table_view table.now)) }
{
    name_in(text_at(alloc, table, Key::Name)?)
}

/// Returns the edition that a text spells.
fn edition_in(text: &Text) -> Result<Edition, ManifestFault>
    ensures { result ≡ edition_in text.now }
{
    match text.as_str() {
        "2015" => Ok(Edition::E2015),
        "2018" => Ok(Edition::E2018),
        "2021" => Ok(Edition::E2021),
        "2024" => Ok(Edition::E2024),
        _ => Err(ManifestFault::BadKind(Key::Edition)),
    }
}

/// Returns an edition.
fn edition_of(alloc: Global, value: &Value) -> Result<Edition, ManifestFault>
    ensures { UnlessOom result (edition_of (view value.now)) }
{
    let text = text_of(alloc, value, Key::Edition)?;
    edition_in(&text)
}

/// Returns the edition at `edition`, if the key is present.
pub(crate) fn edition_at(alloc: Global, table: &Table) -> Result<Option<Edition>, ManifestFault>
    ensures { UnlessOom result (edition_at (table_view table.now)) }
{
    match value_at(table, Key::Edition) {
        None => Ok(None),
        Some(value) => {
            let edition = edition_of(alloc, value)?;
            Ok(Some(edition))
        }
    }
}

/// Returns an edition, or `{ workspace = true }`.
fn edition_or_taken(alloc: Global, value: &Value) -> Result<Inheritable<Edition>, ManifestFault>
    ensures { UnlessOom result (written_or_taken key.Edition edition_of (view value.now)) }
{
    if is_taken(value, Key::Edition)? {
        return Ok(Inheritable::Workspace);
    }
    let edition = edition_of(alloc, value)?;
    Ok(Inheritable::Written(edition))
}

/// Returns the edition of a package. If no edition is written, the edition is 2015.
fn inherited_edition_at(alloc: Global, table: &Table) -> Result<Inherited<Edition>, ManifestFault>
    ensures { UnlessOom result (inherited_edition_at (table_view table.now)) }
{
    let value = match value_at(table, Key::Edition) {
        None => return Ok(Inherited::Written(Edition::E2015)),
        Some(value) => value,
    };
    match edition_or_taken(alloc, value)? {
        Inheritable::Written(edition) => Ok(Inherited::Written(edition)),
        Inheritable::Workspace => Ok(Inherited::Workspace),
        Inheritable::Absent => Ok(Inherited::Written(Edition::E2015)),
    }
}

/// Returns the value at `build`.
fn build_at(alloc: Global, table: &Table) -> Result<Build, ManifestFault>
    ensures { UnlessOom result (build_at (table_view table.now)) }
{
    let value = match value_at(table, Key::Build) {
        None => return Ok(Build::Discovered),
        Some(value) => value,
    };
    if let Some(path) = value.as_str() {
        let path = path_in(Text::from_str(alloc, path)?, Key::Build)?;
        return Ok(Build::At(path));
    }
    match value.as_bool() {
        Some(true) => Ok(Build::Standard),
        Some(false) => Ok(Build::Never),
        None => Err(ManifestFault::BadKind(Key::Build)),
    }
}

/// Returns a README setting, which is a text or a truth value.
fn readme_of(alloc: Global, value: &Value) -> Result<Readme, ManifestFault>
    ensures { UnlessOom result (readme_of (view value.now)) }
{
    if let Some(path) = value.as_str() {
        let path = Text::from_str(alloc, path)?;
        return Ok(Readme::At(path));
    }
    match value.as_bool() {
        Some(true) => Ok(Readme::Standard),
        Some(false) => Ok(Readme::Never),
        None => Err(ManifestFault::BadKind(Key::Readme)),
    }
}

/// Returns the value at `readme`, if the key is present.
pub(crate) fn readme_at(alloc: Global, table: &Table) -> Result<Option<Readme>, ManifestFault>
    ensures { UnlessOom result (readme_at (table_view table.now)) }
{
    match value_at(table, Key::Readme) {
        None => Ok(None),
        Some(value) => {
            let readme = readme_of(alloc, value)?;
            Ok(Some(readme))
        }
    }
}

/// Returns a README setting, or `{ workspace = true }`.
fn readme_or_taken(alloc: Global, value: &Value) -> Result<Inheritable<Readme>, ManifestFault>
    ensures { UnlessOom result (written_or_taken key.Readme readme_of (view value.now)) }
{
    if is_taken(value, Key::Readme)? {
        return Ok(Inheritable::Workspace);
    }
    let readme = readme_of(alloc, value)?;
    Ok(Inheritable::Written(readme))
}

/// Returns the value at `readme`. The value may be inherited from the workspace.
fn inheritable_readme_at(alloc: Global, table: &Table) -> Result<Inheritable<Readme>, ManifestFault>
    ensures { UnlessOom result (inheritable_readme_at (table_view table.now)) }
{
    match value_at(table, Key::Readme) {
        None => Ok(Inheritable::Absent),
        Some(value) => readme_or_taken(alloc, value),
    }
}

/// Refuses a resolver that is neither `"2"` nor `"3"`.
pub(crate) fn resolver_at(alloc: Global, table: &Table) -> Result<(), ManifestFault>
    ensures { UnlessOom result (resolver_at (table_view table.now)) }
{
    match text_at(alloc, table, Key::Resolver)? {
        None => Ok(()),
        Some(text) => match text.as_str() {
            "2" | "3" => Ok(()),
            _ => Err(ManifestFault::BadKind(Key::Resolver)),
        },
    }
}

/// Returns the keys of `[package]`, in byte order from `authors` to `edition`.
fn first_keys(alloc: Global, table: &Table) -> Result<FirstKeys, ManifestFault>
    ensures { UnlessOom result (first_keys (table_view table.now)) }
{
    let authors = inheritable_texts_at(alloc, table, Key::Authors)?;
    let autobins = truth_at(table, Key::Autobins)?.unwrap_or(true);
    let build = build_at(alloc, table)?;
    let description = inheritable_text_at(alloc, table, Key::Description)?;
    let edition = inherited_edition_at(alloc, table)?;
    Ok(FirstKeys {
        authors,
        autobins,
        build,
        description,
        edition,
    })
}

/// Returns the keys of `[package]`, in byte order from `homepage` to `name`.
fn middle_keys(alloc: Global, table: &Table) -> Result<MiddleKeys, ManifestFault>
    ensures { UnlessOom result (middle_keys (table_view table.now)) }
{
    let homepage = inheritable_text_at(alloc, table, Key::Homepage)?;
    let license = inheritable_text_at(alloc, table, Key::License)?;
    let license_file = inheritable_text_at(alloc, table, Key::LicenseFile)?;
    let links = text_at(alloc, table, Key::Links)?;
    let name = name_at(alloc, table)?;
    Ok(MiddleKeys {
        homepage,
        license,
        license_file,
        links,
        name,
    })
}

/// Returns the keys of `[package]`, in byte order from `readme` to `version`.
fn last_keys(alloc: Global, table: &Table) -> Result<LastKeys, ManifestFault>
    ensures { UnlessOom result (last_keys (table_view table.now)) }
{
    let readme = inheritable_readme_at(alloc, table)?;
    let repository = inheritable_text_at(alloc, table, Key::Repository)?;
    resolver_at(alloc, table)?;
    let rust_version = inheritable_text_at(alloc, table, Key::RustVersion)?;
    let version = inherited_version_at(alloc, table)?;
    Ok(LastKeys {
        readme,
        repository,
        rust_version,
        version,
    })
}

/// Returns the table `[package]`.
pub(crate) fn package_of(alloc: Global, table: &Table) -> Result<Package, ManifestFault>
    ensures { UnlessOom result (package_of (table_view table.now)) }
{
    let first = first_keys(alloc, table)?;
    let middle = middle_keys(alloc, table)?;
    let last = last_keys(alloc, table)?;
    Ok(Package {
        authors: first.authors,
        autobins: first.autobins,
        build: first.build,
        description: first.description,
        edition: first.edition,
        homepage: middle.homepage,
        license: middle.license,
        license_file: middle.license_file,
        links: middle.links,
        name: middle.name,
        readme: last.readme,
        repository: last.repository,
        rust_version: last.rust_version,
        version: last.version,
    })
}
