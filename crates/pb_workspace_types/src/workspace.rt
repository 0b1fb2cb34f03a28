//! A workspace that was read.

use crate::package::Package;
use pb_data::Items;
use pb_manifest_types::Profile;
use pb_place_types::PathText;

/// The default members.
#[derive(Drop)]
pub enum DefaultMembers {
    /// `default-members` is not written.
    Unwritten,
    /// The indices of the members that `default-members` lists, in ascending order.
    Named(Items<usize>),
    /// `default-members` lists a folder that is not a member.
    Unknown,
}

/// A workspace that was read. A package is identified by its index in `packages`.
#[derive(Drop)]
pub struct Workspace {
    /// The folder of the root manifest.
    pub root: PathText,
    /// The target folder. Nothing at or below this folder was looked at.
    pub target: PathText,
    /// The packages, in byte order of their folders, without repeats. There are at most 256.
    pub packages: Items<Package>,
    /// The index of the package in the root folder, if the root folder has a package.
    pub root_package: Option<usize>,
    /// The default members, from the root manifest's `default-members`.
    pub default_members: DefaultMembers,
    /// `[profile]` of the root manifest, in byte order of the profiles' names.
    pub profiles: Items<Profile>,
}
