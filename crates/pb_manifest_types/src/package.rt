//! The table `[package]`.

use crate::inherited::{Inheritable, Inherited};
use crate::version::Version;
use crate::written_path::WrittenPath;
use pb_data::{Items, Text, TryCopy};
use std::alloc::{AllocError, Global};

/// A Rust edition.
#[derive(Clone, Copy, Debug, PartialEq, Eq)]
pub enum Edition {
    /// `"2015"`.
    E2015,
    /// `"2018"`.
    E2018,
    /// `"2021"`.
    E2021,
    /// `"2024"`.
    E2024,
}

/// The value at `build`, for the build script (The Cargo Book, Manifest Format).
#[derive(Drop)]
pub enum Build {
    /// Nothing is written: `build.rs` is the script if that file exists.
    Discovered,
    /// `build = true`: `build.rs` is the script.
    Standard,
    /// `build = false`: there is no script.
    Never,
    /// The script's path, relative to the package's folder.
    At(WrittenPath),
}

/// The value at `readme`.
#[derive(Drop)]
pub enum Readme {
    /// `readme = true`, which means `README.md`.
    Standard,
    /// `readme = false`: there is no README.
    Never,
    /// The file's path.
    At(Text),
}

impl TryCopy for Readme {
    fn copy(&self, alloc: Global) -> Result<Readme, AllocError> {
        match self {
            Readme::Standard => Ok(Readme::Standard),
            Readme::Never => Ok(Readme::Never),
            Readme::At(path) => {
                let path = path.copy(alloc)?;
                Ok(Readme::At(path))
            }
        }
    }
}

/// The table `[package]`: its keys in The Cargo Book, chapter Manifest Format, as far as a build
/// uses them.
#[derive(Drop)]
pub struct Package {
    /// `authors`, in the manifest's order.
    pub authors: Inheritable<Items<Text>>,
    /// Whether binaries are discovered. True if the key is not written: our own choice, in every
    /// edition.
    pub autobins: bool,
    /// The value at `build`.
    pub build: Build,
    /// `description`.
    pub description: Inheritable<Text>,
    /// `edition`: 2015 if the key is not written.
    pub edition: Inherited<Edition>,
    /// `homepage`.
    pub homepage: Inheritable<Text>,
    /// `license`.
    pub license: Inheritable<Text>,
    /// `license-file`: any text.
    pub license_file: Inheritable<Text>,
    /// `links`: any text, even an empty text. `None` if the key is not written.
    pub links: Option<Text>,
    /// `name`: ASCII letters, digits, `-` and `_`, not empty.
    pub name: Text,
    /// If the key is not written, the README is discovered.
    pub readme: Inheritable<Readme>,
    /// `repository`.
    pub repository: Inheritable<Text>,
    /// `rust-version`: any text.
    pub rust_version: Inheritable<Text>,
    /// `version`: 0.0.0 if the key is not written.
    pub version: Inherited<Version>,
}
