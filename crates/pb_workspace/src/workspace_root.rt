//! What a root manifest contains about its workspace.

ghost use Rattle.std.specs.Prelude.{◌≡◌, IfOk, IfSome};
ghost use Rattle.pb_workspace.specs.Readings.{HasSharedInOrder};
ghost use Rattle.pb_workspace.specs.Frames.{no_keys, nothing, keys_or_none, frame_of, is_member};

use crate::by_folder::ByFolder;
use crate::member::is_excluded;
use pb_data::Items;
use pb_manifest_types::{WorkspacePackage, WorkspaceTable, WrittenPath};
use pb_place_types::PathText;
use pb_workspace_package::{Given, SharedByKey};
use std::alloc::{AllocError, Global};

/// What a root manifest contains about its workspace.
#[derive(Drop)]
pub struct WorkspaceRoot {
    /// The folder of the root manifest.
    pub root: PathText,
    /// The path of the root manifest.
    pub manifest: PathText,
    /// Whether `[workspace]` is written.
    pub is_workspace: bool,
    /// `members`.
    pub members: Items<WrittenPath>,
    /// `exclude`.
    pub exclude: Items<WrittenPath>,
    /// `default-members`, if it is written.
    pub default_members: Option<Items<WrittenPath>>,
    /// What members may inherit.
    pub given: Given,
}

/// Returns a `[workspace.package]` without keys.
fn no_keys() -> WorkspacePackage
    ensures { result ≡ no_keys }
{
    WorkspacePackage {
        authors: None,
        description: None,
        edition: None,
        homepage: None,
        license: None,
        license_file: None,
        readme: None,
        repository: None,
        rust_version: None,
        version: None,
    }
}

/// Returns the value of a workspace that offers nothing to inherit. No memory is used.
pub fn nothing(alloc: Global) -> Given
    ensures { result ≡ nothing }
{
    Given {
        package: no_keys(),
        dependencies: SharedByKey::new(alloc),
    }
}

/// Returns the keys of `[workspace.package]`, or no keys if this table is not written.
fn keys_or_none(written: Option<WorkspacePackage>) -> WorkspacePackage
    ensures { result ≡ keys_or_none written }
{
    match written {
        Some(keys) => keys,
        None => no_keys(),
    }
}

/// Returns the workspace of a root manifest. Without `[workspace]`, the workspace is the root
/// package only (The Cargo Book, Workspaces). No memory is used.
pub fn frame_of(
    alloc: Global,
    root: PathText,
    manifest: PathText,
    written: Option<WorkspaceTable>,
) -> WorkspaceRoot
    requires { IfSome written HasSharedInOrder }
    ensures { result ≡ frame_of root manifest written }
{
    match written {
        None => WorkspaceRoot {
            root,
            manifest,
            is_workspace: false,
            members: Items::new(alloc),
            exclude: Items::new(alloc),
            default_members: None,
            given: nothing(alloc),
        },
        Some(table) => WorkspaceRoot {
            root,
            manifest,
            is_workspace: true,
            members: table.members,
            exclude: table.exclude,
            default_members: table.default_members,
            given: Given {
                package: keys_or_none(table.package),
                dependencies: SharedByKey::from_items(table.dependencies),
            },
        },
    }
}

/// Returns whether the package of a folder is a member. The root package is a member. In a
/// workspace, the package of each folder that `members` means is a member. Unless a folder inside
/// the root folder is excluded, its package is a member too (The Cargo Book, Workspaces). It does
/// not matter which package's path dependency leads to the folder (our own choice).
///
/// Errors: out of memory only.
pub fn is_member(
    alloc: Global,
    frame: &WorkspaceRoot,
    meant: &ByFolder<()>,
    folder: &PathText,
) -> Result<bool, AllocError>
    ensures { IfOk result (λ answer. answer ≡ is_member frame.now meant.now folder.now) }
{
    if *folder == frame.root {
        return Ok(true);
    }
    if !frame.is_workspace {
        return Ok(false);
    }
    if meant.contains(folder) {
        return Ok(true);
    }
    if !folder.starts_with(&frame.root) {
        return Ok(false);
    }
    let excluded = is_excluded(alloc, &frame.root, frame.exclude.as_slice(), folder)?;
    Ok(!excluded)
}
