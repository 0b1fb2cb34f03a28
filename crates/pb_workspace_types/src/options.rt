//! The options of a build, and the packages that they select.

use pb_data::{Items, Text};
use pb_place_types::PathText;

/// The options of a build (The Cargo Book, cargo build).
#[derive(Drop)]
pub struct Options {
    /// The path of the root manifest.
    pub manifest: PathText,
    /// `-p`: names of members.
    pub packages: Items<Text>,
    /// `--workspace`: all members.
    pub workspace: bool,
    /// `--features`: each text contains names, separated by commas or spaces.
    pub features: Items<Text>,
    /// `--all-features`.
    pub all_features: bool,
    /// `--no-default-features`.
    pub no_default_features: bool,
    /// The profile's name, which is `dev` unless another profile is requested.
    pub profile: Text,
    /// `--lib`: the libraries of the selected packages.
    pub lib: bool,
    /// `--bins`: the binaries of the selected packages.
    pub bins: bool,
    /// `--bin`: the binaries with these names in the selected packages.
    pub bin: Items<Text>,
    /// `--target-dir`. A relative folder starts at the workspace's root (our own choice).
    pub target_dir: Option<Text>,
    /// A program and its arguments, which are written before the path of a build script. If there
    /// is no program, the script is started directly.
    pub runner: Items<Text>,
    /// The value of a child's variable `CARGO`: the path by which the builder was called (our own
    /// choice).
    pub tool: Text,
    /// `--jobs`: how many units may be in flight at one time. 0 means 1 (our own choice).
    pub jobs: u64,
}

/// The packages that a build must build, and the features and targets with which it builds them.
#[derive(Drop)]
pub struct Selection {
    /// The indices of the selected packages, in ascending order, without repeats.
    pub packages: Items<usize>,
    /// The requested features. Each text is `FEATURE` or `PACKAGE/FEATURE`, is not empty, and
    /// contains no commas and no spaces.
    pub features: Items<Text>,
    /// Whether all features of the selected packages are requested.
    pub all_features: bool,
    /// Whether the feature `default` of the selected packages is not requested.
    pub no_default_features: bool,
    /// `--lib`: the libraries of the selected packages.
    pub lib: bool,
    /// `--bins`: the binaries of the selected packages.
    pub bins: bool,
    /// `--bin`: the binaries with these names in the selected packages.
    pub bin: Items<Text>,
}
