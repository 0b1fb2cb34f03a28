//! A package, with everything inherited and discovered.

use crate::by_key::EntriesByKey;
use crate::by_name::{BinariesByName, FeaturesByName};
use pb_data::{Items, Text};
use pb_manifest_types::{CrateType, Edition, Version};
use pb_place_types::PathText;

/// The side for which a part of a build is made. Build scripts and what they depend on are made for
/// the host, everything else for the target (The Cargo Book, Features). Our own choice: the sides
/// share nothing.
#[derive(Clone, Copy, Debug, PartialEq, Eq)]
pub enum Side {
    /// The machine for which we build.
    Target,
    /// The machine that builds.
    Host,
}

/// The table in which a dependency is written (The Cargo Book, Specifying Dependencies).
#[derive(Clone, Copy, Debug, PartialEq, Eq)]
pub enum DependencyKind {
    /// `[dependencies]`.
    Normal,
    /// `[build-dependencies]`.
    Build,
}

/// An entry of `[dependencies]` or `[build-dependencies]` whose package was found.
#[derive(Drop)]
pub struct Entry {
    /// The name of the entry in the manifest, with the letters of package names.
    pub key: Text,
    /// The table in which the entry is written.
    pub kind: DependencyKind,
    /// The index of the entry's package in the workspace.
    pub to: usize,
    /// Whether the name at `package` differs from `key`. False if `package` is not written.
    pub renamed: bool,
    /// Whether the entry is optional. An optional entry is enabled only by a feature.
    pub optional: bool,
    /// Whether the entry enables the feature `default` of its package, if the package has this
    /// feature.
    pub default_features: bool,
    /// The features that the entry enables. If the entry inherits from `[workspace.dependencies]`,
    /// the features there come first. The entry's own features follow. The features of each entry
    /// are in the manifest's order.
    pub features: Items<Text>,
}

/// The library of a package.
#[derive(Drop)]
pub struct Library {
    /// The crate's name: ASCII letters, digits and `_`, not empty.
    pub name: Text,
    /// The crate types, in the manifest's order. If no crate type is written, the list is only
    /// `lib`, so the list is never empty.
    pub crate_types: Items<CrateType>,
    /// The path of the source.
    pub source: PathText,
}

/// A binary of a package.
#[derive(Drop)]
pub struct Binary {
    /// The binary's name, with the letters of package names.
    pub name: Text,
    /// The path of the source.
    pub source: PathText,
    /// The features that the binary requires.
    pub required_features: Items<Text>,
}

/// The texts in which a package describes itself to people. A text that is not written is empty.
#[derive(Drop)]
pub struct About {
    /// The authors, separated by `:`.
    pub authors: Text,
    /// `description`.
    pub description: Text,
    /// `homepage`.
    pub homepage: Text,
    /// `license`.
    pub license: Text,
    /// `license-file`, as a path relative to the package's folder.
    pub license_file: Text,
    /// `readme`, as a path from the package's folder: `README.md` for `true`, nothing for `false`.
    /// If `readme` is not written, the path is the first of `README.md`, `README.txt`, `README`
    /// that is a file.
    pub readme: Text,
    /// `repository`.
    pub repository: Text,
    /// `rust-version`.
    pub rust_version: Text,
}

/// A package: the contents of its manifest and its folder, and everything that the package inherits
/// from its workspace.
#[derive(Drop)]
pub struct Package {
    /// The name: ASCII letters, digits, `-` and `_`, not empty. No two packages of a workspace have
    /// the same name.
    pub name: Text,
    /// The version. If no version is written, the version is 0.0.0.
    pub version: Version,
    /// The edition. If no edition is written, the edition is 2015.
    pub edition: Edition,
    /// The folder that contains the package's manifest.
    pub folder: PathText,
    /// The path of its manifest.
    pub manifest: PathText,
    /// Whether the package is a member of the workspace. A package that is not a member is read
    /// because a path dependency leads to this package.
    pub is_member: bool,
    /// The texts in which the package describes itself to people.
    pub about: About,
    /// The native library that the package links, any text. No two packages of a workspace link the
    /// same library.
    pub links: Option<Text>,
    /// The package's library, if there is a library.
    pub library: Option<Library>,
    /// The package's binaries, in byte order of their names, without repeats.
    pub binaries: BinariesByName,
    /// The source of the package's build script, if there is a build script.
    pub script: Option<PathText>,
    /// The entries of `[dependencies]`, and then the entries of `[build-dependencies]`. The entries
    /// of each table are in byte order of their keys.
    pub entries: EntriesByKey,
    /// The features in byte order of their names, without repeats. An optional dependency N makes a
    /// feature N with the single item `dep:N`. If a feature N or some item `dep:N` is written, the
    /// dependency makes no feature (The Cargo Book, Features). Because of such features, a
    /// feature's name may be any package name, even a name that begins with `-`.
    pub features: FeaturesByName,
    /// The keys of `[dev-dependencies]`, in byte order.
    pub development: Items<Text>,
}
