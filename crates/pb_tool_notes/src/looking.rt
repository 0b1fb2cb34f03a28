//! The second look after a refusal.

ghost use Rattle.pb_tool_notes_pages.specs.Looks.{LooksAgain};

use pb_feature::FeatureFault;
use pb_manifest_types::ManifestFault;
use pb_place_types::{PathText, Place, PlaceFault};
use pb_profile::ProfileFault;
use pb_tool_notes_manifest::{
    tell_bad_features, tell_bad_kinds, tell_bad_names, tell_bad_profiles, tell_bad_versions,
    tell_crate_types, tell_inherits_cycle, tell_no_profile, tell_not_in_override, tell_not_toml,
    tell_resolver, tell_sources, tell_tables, tell_too_large, tell_unused,
};
use pb_tool_notes_pages::{Notes, Page, Pages, Remembering, is_file, pages_of, tell_key, text_at};
use pb_tool_notes_workspace::{
    tell_above, tell_all_items, tell_binaries, tell_circle, tell_entries, tell_missing, tell_names,
    tell_no_inherited, tell_no_package, tell_nothing, tell_patterns, tell_requested, tell_same,
    tell_same_binaries, tell_taken_sources, tell_too_many, tell_too_many_units, tell_versions,
};
use pb_unit::PlanFault;
use pb_workspace_types::{LoadFault, Options};
use std::alloc::{AllocError, Global};
use toml::Table;

/// Adds what is wrong with the document of a manifest.
fn tell_document(
    alloc: Global,
    notes: &mut Notes,
    page: &Page,
    table: &Table,
    fault: ManifestFault,
) -> Result<(), AllocError> {
    match fault {
        ManifestFault::BadKind(_) => tell_bad_kinds(alloc, notes, page, table),
        ManifestFault::BadName => tell_bad_names(alloc, notes, page, table),
        ManifestFault::BadVersion => tell_bad_versions(alloc, notes, page, table),
        ManifestFault::BadProfile => tell_bad_profiles(alloc, notes, page, table),
        ManifestFault::BadFeature => tell_bad_features(alloc, notes, page, table),
        ManifestFault::UnsupportedTable => tell_tables(alloc, notes, page, table),
        ManifestFault::UnsupportedSource => tell_sources(alloc, notes, page, table),
        ManifestFault::UnsupportedCrateType => tell_crate_types(alloc, notes, page, table),
        ManifestFault::OldResolver => tell_resolver(alloc, notes, page, table),
        ManifestFault::NotToml | ManifestFault::TooLarge | ManifestFault::OutOfMemory => Ok(()),
    }
}

/// Adds what is wrong with a manifest.
fn tell_manifest(
    alloc: Global,
    notes: &mut Notes,
    pages: &Pages,
    path: &PathText,
    fault: ManifestFault,
) -> Result<(), AllocError> {
    let Some(page) = pages.at(path.as_str()) else {
        return Ok(());
    };
    match fault {
        ManifestFault::NotToml => tell_not_toml(alloc, notes, page)?,
        ManifestFault::TooLarge => tell_too_large(alloc, notes, page)?,
        _ => {}
    }
    if let Some(table) = &page.table {
        tell_document(alloc, notes, page, table, fault)?;
    }
    if fault == ManifestFault::UnsupportedSource {
        tell_taken_sources(alloc, notes, pages, page)?;
    }
    Ok(())
}

/// Returns whether a package links a native library and its manifest names no build script.
fn wants_script(page: &Page) -> bool {
    match page.table_at("package") {
        Some(keys) => !text_at(keys, "links").is_empty() && text_at(keys, "build").is_empty(),
        None => false,
    }
}

/// Adds a note on a package, if the package links a native library and has no build script.
fn tell_script<P: Place>(
    alloc: Global,
    place: &mut P,
    notes: &mut Notes,
    page: &Page,
) -> Result<(), PlaceFault>
    ensures { LooksAgain (P.at place.old) (P.at place.new) }
{
    if !wants_script(page) {
        return Ok(());
    }
    let folder = page.path.folder(alloc)?;
    if let Ok(script) = folder.join(alloc, "build.rs") {
        if !is_file(alloc, place, &script)? {
            let text = format!(in alloc;
                "{} is linked, but {} does not exist",
                page.package_text("links"),
                script.as_str()
            )?;
            tell_key(alloc, notes, page, "package", "links", text.as_str())?;
        }
    }
    Ok(())
}

/// Adds a note on each package that links a native library and has no build script.
fn tell_scripts<P: Place>(
    alloc: Global,
    place: &mut P,
    notes: &mut Notes,
    pages: &Pages,
) -> Result<(), PlaceFault>
    ensures { LooksAgain (P.at place.old) (P.at place.new) }
{
    for page in pages.pages.as_slice() {
        tell_script(alloc, place, notes, page)?;
    }
    Ok(())
}

/// Adds what is known about a refusal of the loader. The function makes no call of the place.
fn tell_load(
    alloc: Global,
    notes: &mut Notes,
    pages: &Pages,
    options: &Options,
    fault: &LoadFault,
) -> Result<(), AllocError> {
    match fault {
        LoadFault::Manifest(path, fault) => tell_manifest(alloc, notes, pages, path, *fault),
        LoadFault::SameName => tell_same(alloc, notes, pages, "name"),
        LoadFault::LinksTwice => tell_same(alloc, notes, pages, "links"),
        LoadFault::NameMismatch => tell_names(alloc, notes, pages),
        LoadFault::VersionMismatch => tell_versions(alloc, notes, pages),
        LoadFault::SameBinary => tell_same_binaries(alloc, notes, pages),
        LoadFault::NoSuchPackage => tell_no_package(alloc, notes, pages, options),
        LoadFault::TooMany => tell_too_many(alloc, notes, pages),
        _ => Ok(()),
    }
}

/// Adds what is known about a refusal of the loader.
fn tell_workspace<P: Place + Remembering>(
    alloc: Global,
    place: &mut P,
    notes: &mut Notes,
    pages: &Pages,
    options: &Options,
    fault: &LoadFault,
) -> Result<(), PlaceFault>
    ensures { LooksAgain (P.at place.old) (P.at place.new) }
{
    match fault {
        LoadFault::NoManifest(path) => tell_missing(alloc, place, notes, pages, path),
        LoadFault::LinksWithoutScript => tell_scripts(alloc, place, notes, pages),
        LoadFault::NoInherited => {
            tell_no_inherited(alloc, notes, pages)?;
            tell_root_above(alloc, place, notes, pages)
        }
        _ => {
            tell_load(alloc, notes, pages, options, fault)?;
            Ok(())
        }
    }
}

/// Adds what is known about a refusal of features.
fn tell_features(
    alloc: Global,
    notes: &mut Notes,
    pages: &Pages,
    options: &Options,
    fault: FeatureFault,
) -> Result<(), AllocError> {
    tell_all_items(alloc, notes, pages)?;
    tell_entries(alloc, notes, pages)?;
    if fault == FeatureFault::NoSuchFeature && notes.texts().is_empty() {
        tell_requested(alloc, notes, pages, options.features.as_slice())?;
    }
    Ok(())
}

/// Adds what is known about a profile without settings.
fn tell_profile(
    alloc: Global,
    notes: &mut Notes,
    pages: &Pages,
    options: &Options,
    fault: ProfileFault,
) -> Result<(), AllocError> {
    let Some(root) = pages.root() else {
        return Ok(());
    };
    let requested = options.profile.as_str();
    match fault {
        ProfileFault::NoSuchProfile => tell_no_profile(alloc, notes, root, requested),
        ProfileFault::InheritsCycle => tell_inherits_cycle(alloc, notes, root, requested),
        ProfileFault::NotInOverride => tell_not_in_override(alloc, notes, root),
        ProfileFault::OutOfMemory => Ok(()),
    }
}

/// Adds what is known about a refusal of the plan.
fn tell_plan<P: Place + Remembering>(
    alloc: Global,
    place: &mut P,
    notes: &mut Notes,
    pages: &Pages,
    options: &Options,
    fault: &PlanFault,
) -> Result<(), PlaceFault>
    ensures { LooksAgain (P.at place.old) (P.at place.new) }
{
    match fault {
        PlanFault::Cycle(names) => {
            tell_circle(alloc, notes, pages, names.as_slice())?;
            Ok(())
        }
        PlanFault::NothingToBuild => tell_nothing(alloc, place, notes, pages, options),
        PlanFault::Profile(fault) => {
            tell_profile(alloc, notes, pages, options, *fault)?;
            Ok(())
        }
        PlanFault::TooManyUnits => tell_too_many_units(alloc, place, notes, pages),
        PlanFault::OutOfMemory => Ok(()),
    }
}

/// Adds a note on each key in the manifests, if nothing reads this key.
fn tell_all_unused(alloc: Global, notes: &mut Notes, pages: &Pages) -> Result<(), AllocError> {
    for page in pages.pages.as_slice() {
        if let Some(table) = &page.table {
            tell_unused(alloc, notes, page, table)?;
        }
    }
    Ok(())
}

/// If the root package is built alone, and a workspace in a folder above lists the package, adds a
/// note that says so.
fn tell_root_above<P: Place + Remembering>(
    alloc: Global,
    place: &mut P,
    notes: &mut Notes,
    pages: &Pages,
) -> Result<(), PlaceFault>
    ensures { LooksAgain (P.at place.old) (P.at place.new) }
{
    match pages.root() {
        Some(root) => tell_above(alloc, place, notes, root),
        None => Ok(()),
    }
}

/// Adds what a build ignores: keys, requested binaries, patterns of `members`.
fn tell_passed_over<P: Place + Remembering>(
    alloc: Global,
    place: &mut P,
    notes: &mut Notes,
    pages: &Pages,
    options: &Options,
) -> Result<(), PlaceFault>
    ensures { LooksAgain (P.at place.old) (P.at place.new) }
{
    tell_all_unused(alloc, notes, pages)?;
    tell_patterns(alloc, notes, pages)?;
    tell_root_above(alloc, place, notes, pages)?;
    tell_binaries(alloc, place, notes, pages, options)
}

/// Returns notes on a workspace that the loader refuses, or in which nothing is selected.
///
/// Four functions return notes: this function and the three below it. These functions only read
/// manifests again, list folders, and check whether files exist. If a call fails or memory runs
/// out, each function returns the notes that it has made so far.
pub fn notes_on_load<P: Place + Remembering>(
    alloc: Global,
    place: &mut P,
    options: &Options,
    fault: &LoadFault,
) -> Notes
    ensures { LooksAgain (P.at place.old) (P.at place.new) }
{
    let mut notes = Notes::new(alloc);
    let pages = pages_of(alloc, place, &options.manifest);
    if tell_workspace(alloc, place, &mut notes, &pages, options, fault).is_ok() {
        let _ = tell_all_unused(alloc, &mut notes, &pages);
    }
    notes.finish(alloc)
}

/// Returns notes on features that are not resolved.
pub fn notes_on_features<P: Place + Remembering>(
    alloc: Global,
    place: &mut P,
    options: &Options,
    fault: FeatureFault,
) -> Notes
    ensures { LooksAgain (P.at place.old) (P.at place.new) }
{
    let mut notes = Notes::new(alloc);
    let pages = pages_of(alloc, place, &options.manifest);
    if tell_features(alloc, &mut notes, &pages, options, fault).is_ok() {
        let _ = tell_all_unused(alloc, &mut notes, &pages);
    }
    notes.finish(alloc)
}

/// Returns notes on a workspace without a plan.
pub fn notes_on_plan<P: Place + Remembering>(
    alloc: Global,
    place: &mut P,
    options: &Options,
    fault: &PlanFault,
) -> Notes
    ensures { LooksAgain (P.at place.old) (P.at place.new) }
{
    let mut notes = Notes::new(alloc);
    let pages = pages_of(alloc, place, &options.manifest);
    if tell_plan(alloc, place, &mut notes, &pages, options, fault).is_ok() {
        let _ = tell_all_unused(alloc, &mut notes, &pages);
    }
    notes.finish(alloc)
}

/// Returns notes on what a build ignores:
///
/// - keys in manifests, if nothing reads these keys;
/// - requested binaries that are missing;
/// - patterns of `members` that match no package;
/// - a workspace in a folder above, if this workspace lists the package.
pub fn notes_on_build<P: Place + Remembering>(
    alloc: Global,
    place: &mut P,
    options: &Options,
) -> Notes
    ensures { LooksAgain (P.at place.old) (P.at place.new) }
{
    let mut notes = Notes::new(alloc);
    let pages = pages_of(alloc, place, &options.manifest);
    let _ = tell_passed_over(alloc, place, &mut notes, &pages, options);
    notes.finish(alloc)
}
