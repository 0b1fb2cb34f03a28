//! The tables `[lib]` and `[[bin]]`.

use crate::written_path::WrittenPath;
use pb_data::{Items, Text};

/// A supported crate type.
#[derive(Clone, Copy, Debug, PartialEq, Eq)]
pub enum CrateType {
    /// `"lib"`.
    Lib,
    /// `"rlib"`.
    Rlib,
    /// `"bin"`.
    Bin,
}

/// The table `[lib]`.
#[derive(Drop)]
pub struct Library {
    /// The crate types, in the manifest's order. If no crate type is written, the list is empty,
    /// which means `lib`.
    pub crate_types: Items<CrateType>,
    /// The crate's name: ASCII letters, digits and `_`, not empty. `None` means the package's name
    /// with `_` for each `-`.
    pub name: Option<Text>,
    /// The path of the source, relative to the package's folder. `None` means `src/lib.rs`.
    pub path: Option<WrittenPath>,
}

/// A table of `[[bin]]`.
#[derive(Drop)]
pub struct Binary {
    /// The name: ASCII letters, digits, `-` and `_`, not empty.
    pub name: Text,
    /// The path of the source, relative to the package's folder. `None` means that the file is
    /// discovered.
    pub path: Option<WrittenPath>,
    /// The features that the binary requires.
    pub required_features: Items<Text>,
}
