//! Laws about the reader's definitions, in the terms of the rules. Each function does nothing; its
//! contract is the law.

ghost use Rattle.std.specs.Prelude.{◌≡◌, ◌<◌, ℕ, List};
ghost use Rattle.pb_manifest.specs.Binaries.{binary_keys};
ghost use Rattle.pb_manifest.specs.Dependencies.{dependency_keys, dependency_of, shared_dependency_keys, shared_dependency_of};
ghost use Rattle.pb_manifest.specs.Document.{document_of};
ghost use Rattle.pb_manifest.specs.Laws.{OrdersTables, OrdersInnerTables, OrdersKeys, SpellsItems, ReadsSpellings, KeepsPromises, PassesOver, RefusesLarge, NamesPackages, DefaultEdition, DefaultVersion, KeepsOrder};
ghost use Rattle.pb_manifest.specs.FirstFaults.{TellsLowest, TellsLowestEntry, faults_of_package, faults_of_library, faults_of_binary, faults_of_dependency, faults_of_shared_dependency, faults_of_inherited, faults_of_workspace};
ghost use Rattle.pb_manifest.specs.Features.{feature_of};
ghost use Rattle.pb_manifest.specs.Library.{library_of};
ghost use Rattle.pb_manifest.specs.OwnKeys.{DependsOnlyOn, of_package, of_library, of_binary, of_dependency, of_settings, of_profile, of_workspace, of_inherited, of_document};
ghost use Rattle.pb_manifest.specs.Package.{package_of};
ghost use Rattle.pb_manifest.specs.Profiles.{override_of, profile_keys, profile_of, profile_of_table};
ghost use Rattle.pb_manifest_types.specs.Values.{Text};
ghost use Rattle.pb_manifest.specs.Workspace.{workspace_of, workspace_package_of};
ghost use Rattle.pb_manifest_types.specs.declared.key.Key.{Key};

/// For each table with fixed keys, the result of reading the table does not depend on keys that no
/// rule names. The Cargo Book (Manifest Format) says that unused keys cause at most a warning.
pub fn unnamed_keys_change_nothing()
    ensures package { PassesOver package_of }
    ensures library { PassesOver library_of }
    ensures binary { PassesOver binary_keys }
    ensures dependency { (name : Text) → PassesOver (dependency_keys name) }
    ensures shared_dependency { (name : Text) → PassesOver (shared_dependency_keys name) }
    ensures profile { (name : Text) → PassesOver (profile_of_table name) }
    ensures settings { PassesOver profile_keys }
    ensures workspace { PassesOver workspace_of }
    ensures inherited { PassesOver workspace_package_of }
    ensures document { PassesOver document_of }
{}

/// Reading a table looks only at the keys that the rules of this table name. So two tables with the
/// same values at these keys are read with the same result.
pub fn tables_look_at_their_own_keys()
    ensures package { DependsOnlyOn of_package package_of }
    ensures library { DependsOnlyOn of_library library_of }
    ensures binary { DependsOnlyOn of_binary binary_keys }
    ensures dependency { (name : Text) → DependsOnlyOn of_dependency (dependency_keys name) }
    ensures shared_dependency { (name : Text)
        → DependsOnlyOn of_dependency (shared_dependency_keys name) }
    ensures profile { (name : Text) → DependsOnlyOn of_profile (profile_of_table name) }
    ensures settings { DependsOnlyOn of_settings profile_keys }
    ensures workspace { DependsOnlyOn of_workspace workspace_of }
    ensures inherited { DependsOnlyOn of_inherited workspace_package_of }
    ensures document { DependsOnlyOn of_document document_of }
{}

/// A manifest over the size limit is refused, whatever it contains.
pub fn large_manifests_are_refused()
    ensures { RefusesLarge }
{}

/// The keys of each table of a document that `toml` reads are in byte order without repeats. The
/// law is about the document itself, and about the table at a key of a table.
pub fn documents_are_in_order()
    ensures document { OrdersTables }
    ensures tables { OrdersInnerTables }
    ensures keys { OrdersKeys }
{}

/// Each manifest that was read keeps the promises of `specs/Promises.antt`.
///
/// - Names have valid letters, and paths contain no byte 0.
/// - Each key of a profile has a value that is allowed for the key. So `codegen-units` is from 1 to
///   65,536.
/// - A custom profile has `inherits`, and no custom profile is called `debug`.
/// - The entries of each table are in byte order of their keys, without repeats.
pub fn manifests_keep_promises()
    ensures { KeepsPromises }
{}

/// A text is read as an item of a feature if and only if the text is the item's own spelling: `F`,
/// `dep:N`, `N/F` or `N?/F`. N has the letters of package names, and F has the letters of feature
/// names (The Cargo Book, Features).
pub fn items_have_their_spelling()
    ensures only { SpellsItems }
    ensures each { ReadsSpellings }
{}

/// The package of a manifest that was read has a non-empty name of ASCII letters, digits, `-` and
/// `_` (The Cargo Book, Manifest Format).
pub fn packages_have_names()
    ensures { NamesPackages }
{}

/// A package without a written edition has the edition 2015.
pub fn default_edition()
    ensures { DefaultEdition }
{}

/// A package without a written version has the version 0.0.0.
pub fn default_version()
    ensures { DefaultVersion }
{}

/// Each item of the list `[[bin]]` becomes one binary, in the order of the list.
pub fn binaries_keep_their_order()
    ensures { KeepsOrder }
{}

/// If a table with fixed keys has several faults, the fault of the lowest key in byte order is
/// reported. Tables with fixed keys are `[package]`, `[lib]`, a `[[bin]]`, an entry of
/// dependencies, an entry of `[workspace.dependencies]`, `[workspace.package]` and `[workspace]`.
/// In `[profile]` all faults are the same.
///
/// If a table whose keys the user chooses has several bad entries, the fault of the entry with the
/// lowest key is reported. The keys of each table of a document are in byte order.
pub fn lowest_faults_are_told()
    ensures package_table { TellsLowest faults_of_package package_of }
    ensures library { TellsLowest faults_of_library library_of }
    ensures binary { TellsLowest faults_of_binary binary_keys }
    ensures dependency { (name : Text) → TellsLowest faults_of_dependency (dependency_keys name) }
    ensures shared_dependency { (name : Text)
        → TellsLowest faults_of_shared_dependency (shared_dependency_keys name) }
    ensures inherited { TellsLowest faults_of_inherited workspace_package_of }
    ensures workspace { TellsLowest faults_of_workspace workspace_of }
    ensures dependencies { (k : Key) → TellsLowestEntry (dependency_of k) }
    ensures shared_dependencies { TellsLowestEntry shared_dependency_of }
    ensures features { TellsLowestEntry feature_of }
    ensures overrides { TellsLowestEntry override_of }
    ensures profiles { TellsLowestEntry profile_of }
{}
