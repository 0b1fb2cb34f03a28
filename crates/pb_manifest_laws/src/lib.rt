//! Laws of manifests: the meaning of each table of a document, key by key (The Cargo Book, Manifest
//! Format, Cargo Targets, Features, Specifying Dependencies, Profiles, Workspaces).
#![tactic(auto)]

ghost use Rattle.pb_manifest_laws.specs.Laws.{ReadsPackages, ReadsLibraries, ReadsBinaries, ReadsFeatures, ReadsDependencies, ReadsSettings, ReadsProfiles, ReadsSharedDependencies, ReadsWorkspaces, ReadsDocuments, ReadsManifests, DocumentsSayOne, ReadsWhatIsWritten, ReadsWhatIsPrinted};

/// A law: the reading of `[package]` returns exactly what the table means, key by key.
pub fn packages_say()
    ensures { ReadsPackages }
{}

/// A law: the readings of `[lib]`, of each `[[bin]]` and of each entry of `[features]` return
/// exactly what these tables and entries mean.
pub fn targets_say()
    ensures libraries { ReadsLibraries }
    ensures binaries { ReadsBinaries }
    ensures features { ReadsFeatures }
{}

/// A law: the reading of each entry of `[dependencies]` and `[build-dependencies]` returns exactly
/// what the entry means (The Cargo Book, Specifying Dependencies).
pub fn dependencies_say()
    ensures { ReadsDependencies }
{}

/// A law: the readings of a profile's settings, and of each entry of `[profile]`, return exactly
/// what these settings and entries mean (The Cargo Book, Profiles).
pub fn profiles_say()
    ensures settings { ReadsSettings }
    ensures profiles { ReadsProfiles }
{}

/// A law: the readings of each entry of `[workspace.dependencies]`, and of `[workspace]`, return
/// exactly what these tables and entries mean (The Cargo Book, Workspaces).
pub fn workspaces_say()
    ensures entries { ReadsSharedDependencies }
    ensures workspaces { ReadsWorkspaces }
{}

/// A law about whole manifests.
///
/// - A document is read as a manifest if and only if the document means this manifest, table by
///   table and key by key.
/// - Bytes are read as a manifest if and only if they are the bytes of such a document.
/// - A document means at most one manifest.
/// - The written form of a manifest that was read, each key with its value, is read as the same
///   manifest. The same is true of a text that prints the written form as `toml` does.
pub fn manifests_say()
    ensures documents { ReadsDocuments }
    ensures manifests { ReadsManifests }
    ensures one { DocumentsSayOne }
    ensures written { ReadsWhatIsWritten }
    ensures printed { ReadsWhatIsPrinted }
{}
