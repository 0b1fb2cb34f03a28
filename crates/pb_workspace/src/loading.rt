//! Reads the workspace of a root manifest.

ghost use Rattle.std.specs.Prelude.{◌≡◌, IfErr, IfOk, IsTrue, Some, false, IfSome};
ghost use Rattle.pb_place_types.specs.Paths.{folder_of};
ghost use Rattle.pb_workspace.specs.Rounds.{with_draft};
ghost use Rattle.pb_place_types.specs.World.{from_nothing};
ghost use Rattle.pb_workspace.specs.ByFolder.{values_of};
ghost use Rattle.pb_data.specs.UnlessOom.{UnlessOom};
ghost use Rattle.pb_workspace_types.specs.declared.fault.LoadFault.TheVariants as load_fault;
ghost use Rattle.pb_workspace_package.specs.Looks.{Looks, listings_at};
ghost use Rattle.pb_workspace.specs.LookedAt.{package_looked, root_looked, others_looked, packages_looked, looked_at};
ghost use Rattle.pb_workspace_package.specs.Causes.{is_failure, UnlessFailed, OnlyLooks};
ghost use Rattle.pb_workspace.specs.Frames.{frame_of};
ghost use Rattle.pb_workspace.specs.Loaded.{root_parts, at_root, nothing_read, root_read, others_read, packages_read, workspace_from, workspace_in, workspace_of};
ghost use Rattle.pb_workspace.specs.Readings.{ManifestsAreRead, HasSharedInOrder, IsReading};
ghost use Rattle.pb_workspace.specs.NormalPaths.{HasNormalPaths};

use crate::assembled::assemble;
use crate::by_folder::ByFolder;
use crate::checks::fault_of;
use crate::indices::indices_of;
use crate::member_folders::{is_manifest, member_folders};
use crate::normal_paths::workspace_has_paths;
use crate::rounds::{
    LoadState, MAX_ROUNDS, Parts, all_read, no_manifest, parts_at, rounds, with_draft,
};
use crate::workspace_root::{WorkspaceRoot, frame_of};
use pb_data::{Items, TryCopy, with_next};
use pb_manifest_types::{Package, Profile, WorkspaceTable};
use pb_place_types::{PathText, Place};
use pb_workspace_package::{PackageLocation, Tables, UnresolvedPackage, draft_of};
use pb_workspace_types::{LoadFault, SettledWorkspace, Workspace};
use std::alloc::{AllocError, Global};

/// Returns the parts of the root manifest.
///
/// Errors:
///
/// - Those of `parts_at`.
/// - `NoManifest`, if the manifest is not named `Cargo.toml` or is not a file of the sources.
fn root_parts<P: Place>(
    alloc: Global,
    place: &mut P,
    target: &PathText,
    path: &PathText,
) -> Result<Parts, LoadFault>
    ensures ok { IsTrue P.is_modelled → UnlessFailed result
        (root_parts (from_nothing target.now (P.at place.old).world) path.now) }
    ensures read { IfOk result (λ parts. ManifestsAreRead parts.tables parts.found) }
    ensures shared { IfOk result (λ parts. IfSome parts.workspace HasSharedInOrder) }
    ensures quiet { OnlyLooks result (P.at place.old) (P.at place.new) }
    ensures looks { Looks result (root_looked target.now path.now)
        (P.at place.old).counts (P.at place.new).counts }
{
    if !is_manifest(path) {
        return Err(no_manifest(alloc, path));
    }
    parts_at(alloc, place, target, path)
}

/// Returns the location of the root package.
fn at_root(alloc: Global, frame: &WorkspaceRoot) -> Result<PackageLocation, AllocError>
    ensures { IfOk result (λ at. at ≡ at_root frame.now) }
{
    let root = frame.root.copy(alloc)?;
    let folder = frame.root.copy(alloc)?;
    let manifest = frame.manifest.copy(alloc)?;
    Ok(PackageLocation {
        root,
        folder,
        manifest,
    })
}

/// Returns the state of a reading in which no package has been read. No memory is used.
fn nothing_read(alloc: Global) -> LoadState
    ensures { result ≡ nothing_read }
{
    LoadState {
        found: ByFolder::new(alloc),
        ahead: ByFolder::new(alloc),
    }
}

/// Returns the state of a reading in which only the root package has been read.
fn begun_with(
    alloc: Global,
    frame: &WorkspaceRoot,
    draft: UnresolvedPackage,
) -> Result<LoadState, AllocError>
    ensures { IfOk result (λ begun. begun ≡ with_draft nothing_read frame.now.root draft) }
{
    frame.root.copy(alloc).and_then(|folder| with_draft(alloc, nothing_read(alloc), folder, draft))
}

/// Reads the root package.
#[tactic(auto, using(crate::proofs::Keeping::draft_laws), unfolding(crate::specs::Loaded::root_read))]
fn root_package_read<P: Place>(
    alloc: Global,
    place: &mut P,
    target: &PathText,
    frame: &WorkspaceRoot,
    tables: Tables,
    found: &Package,
) -> Result<LoadState, LoadFault>
    requires { ManifestsAreRead tables (Some found.now) }
    ensures ok { IsTrue P.is_modelled → UnlessFailed result
        (root_read (from_nothing target.now (P.at place.old).world) frame.now tables
        (Some found.now)) }
    ensures kept { IfOk result IsReading }
    ensures quiet { OnlyLooks result (P.at place.old) (P.at place.new) }
    ensures looks { Looks result (listings_at target.now frame.now.root)
        (P.at place.old).counts (P.at place.new).counts }
{
    let (tables, at) = with_next(tables, at_root(alloc, frame))?;
    let draft = draft_of(alloc, place, target, at, true, &frame.given, found, tables)?;
    let begun = begun_with(alloc, frame, draft)?;
    Ok(begun)
}

/// Reads the root package, if there is one.
#[tactic(auto, using(crate::proofs::Keeping::draft_laws), unfolding(crate::specs::Loaded::root_read))]
fn root_read<P: Place>(
    alloc: Global,
    place: &mut P,
    target: &PathText,
    frame: &WorkspaceRoot,
    tables: Tables,
    found: Option<Package>,
) -> Result<LoadState, LoadFault>
    requires { ManifestsAreRead tables found }
    ensures ok { IsTrue P.is_modelled → UnlessFailed result
        (root_read (from_nothing target.now (P.at place.old).world) frame.now tables found) }
    ensures kept { IfOk result IsReading }
    ensures quiet { OnlyLooks result (P.at place.old) (P.at place.new) }
    ensures looks { Looks result (package_looked target.now frame.now.root found)
        (P.at place.old).counts (P.at place.new).counts }
{
    match found {
        Some(found) => {
            let begun = root_package_read(alloc, place, target, frame, tables, &found);
            drop(found);
            begun
        }
        None => {
            drop(tables);
            Ok(nothing_read(alloc))
        }
    }
}

/// Reads the members, and then, round by round, the packages to which path dependencies lead.
#[tactic(auto, unfolding(crate::specs::Loaded::others_read))]
fn others_read<P: Place>(
    alloc: Global,
    place: &mut P,
    target: &PathText,
    frame: &WorkspaceRoot,
    begun: LoadState,
) -> Result<LoadState, LoadFault>
    requires { IsReading begun }
    ensures ok { IsTrue P.is_modelled → UnlessFailed result
        (others_read (from_nothing target.now (P.at place.old).world) frame.now begun) }
    ensures kept { IfOk result IsReading }
    ensures quiet { OnlyLooks result (P.at place.old) (P.at place.new) }
    ensures looks { IsTrue P.is_modelled → Looks result
        (others_looked target.now (from_nothing target.now (P.at place.old).world) frame.now begun)
        (P.at place.old).counts (P.at place.new).counts }
{
    let meant = member_folders(alloc, place, target, frame)?;
    let folders = meant.folders(alloc)?;
    let read = all_read(alloc, place, target, frame, &meant, begun, folders)?;
    rounds(alloc, place, target, frame, &meant, read, MAX_ROUNDS)
}

/// Returns the packages of a workspace, by their folders.
#[tactic(auto, unfolding(crate::specs::Loaded::packages_read))]
fn packages_read<P: Place>(
    alloc: Global,
    place: &mut P,
    target: &PathText,
    frame: &WorkspaceRoot,
    tables: Tables,
    found: Option<Package>,
) -> Result<LoadState, LoadFault>
    requires { ManifestsAreRead tables found }
    ensures ok { IsTrue P.is_modelled → UnlessFailed result
        (packages_read (from_nothing target.now (P.at place.old).world) frame.now tables found) }
    ensures kept { IfOk result IsReading }
    ensures quiet { OnlyLooks result (P.at place.old) (P.at place.new) }
    ensures looks { let sources = from_nothing target.now (P.at place.old).world in
        IsTrue P.is_modelled → Looks result
        (packages_looked target.now sources frame.now tables found)
        (P.at place.old).counts (P.at place.new).counts }
{
    let begun = root_read(alloc, place, target, frame, tables, found)?;
    others_read(alloc, place, target, frame, begun)
}

/// Returns the workspace of packages that were read, or the reason why the packages do not fit
/// together.
#[tactic(auto, unfolding(crate::specs::Loaded::workspace_from))]
fn workspace_from(
    alloc: Global,
    target: &PathText,
    frame: &WorkspaceRoot,
    profiles: Items<Profile>,
    drafts: Items<UnresolvedPackage>,
) -> Result<Workspace, LoadFault>
    ensures told { UnlessOom load_fault.OutOfMemory (λ ws. ws) result
        (workspace_from target.now frame.now profiles drafts) }
    ensures here { IfErr result (λ e. is_failure e ≡ false) }
{
    let indices = indices_of(alloc, drafts.as_slice())?;
    if let Some(fault) = fault_of(alloc, drafts.as_slice(), &indices)? {
        return Err(fault);
    }
    let made = assemble(alloc, target, frame, profiles, &indices, drafts)?;
    Ok(made)
}

/// Returns the workspace of the packages that were read.
fn workspace_of(
    alloc: Global,
    target: &PathText,
    frame: &WorkspaceRoot,
    profiles: Items<Profile>,
    read: LoadState,
) -> Result<SettledWorkspace, LoadFault>
    requires { IsReading read }
    ensures told { UnlessOom load_fault.OutOfMemory (λ ws. ws) result
        (workspace_from target.now frame.now profiles (values_of read.found)) }
    ensures paths { IfOk result HasNormalPaths }
    ensures here { IfErr result (λ e. is_failure e ≡ false) }
{
    let drafts = read.found.into_values(alloc)?;
    let made = workspace_from(alloc, target, frame, profiles, drafts)?;
    workspace_has_paths(&made);
    Ok(SettledWorkspace::new(made))
}

/// Returns the workspace of a root manifest (`frame`) and its root package, if there is one.
#[tactic(auto, unfolding(crate::specs::Loaded::workspace_in))]
fn workspace_in<P: Place>(
    alloc: Global,
    place: &mut P,
    target: &PathText,
    frame: &WorkspaceRoot,
    profiles: Items<Profile>,
    tables: Tables,
    found: Option<Package>,
) -> Result<SettledWorkspace, LoadFault>
    requires { ManifestsAreRead tables found }
    ensures ok { IsTrue P.is_modelled → UnlessFailed result
        (workspace_in (from_nothing target.now (P.at place.old).world) target.now frame.now
        profiles tables found) }
    ensures paths { IfOk result HasNormalPaths }
    ensures quiet { OnlyLooks result (P.at place.old) (P.at place.new) }
    ensures looks { let sources = from_nothing target.now (P.at place.old).world in
        IsTrue P.is_modelled → Looks result
        (packages_looked target.now sources frame.now tables found)
        (P.at place.old).counts (P.at place.new).counts }
{
    let read = packages_read(alloc, place, target, frame, tables, found)?;
    let made = workspace_of(alloc, target, frame, profiles, read)?;
    Ok(made)
}

/// Reads the workspace of a root manifest (The Cargo Book, Workspaces, Manifest Format, Specifying
/// Dependencies).
///
/// The root package is read first, and then the members in byte order of their folders. Then the
/// packages to which path dependencies lead are read, in rounds. Each round, too, reads its
/// packages in byte order of their folders. No package is read twice, and nothing at or below the
/// target folder is looked at. No child process is started, and no file is changed.
///
/// Errors: the first of these that occurs.
/// - `NoManifest`: the file does not exist, is not named `Cargo.toml`, or is at or below the target
///   folder.
/// - `Manifest`: the manifest reader refuses the file.
/// - `Manifest` with `BadKind` of `package`: the manifest of a package has no `[package]`.
/// - `Manifest` with `UnsupportedSource`: a package inherits an entry of the workspace, and this
///   entry has no path, or has `git` or `registry`.
/// - `NoInherited`: a package inherits a key or an entry that the workspace does not have, or the
///   package inherits but is not a member.
/// - `TooMany`: a 257th package would be read.
/// - `Place`: a call failed. The error contains the path of that call.
/// - `SameName`, `NameMismatch`, `VersionMismatch`, `LinksTwice`, `LinksWithoutScript`,
///   `SameBinary`, in this order, after all packages are read.
/// - `OutOfMemory`, at any time.
#[tactic(auto, unfolding(crate::specs::Loaded::workspace_of))]
pub fn load<P: Place>(
    alloc: Global,
    place: &mut P,
    manifest: &PathText,
    target: &PathText,
) -> Result<SettledWorkspace, LoadFault>
    ensures ok { IsTrue P.is_modelled → UnlessFailed result
        (workspace_of manifest.now target.now (P.at place.old).world) }
    ensures paths { IfOk result HasNormalPaths }
    ensures quiet { OnlyLooks result (P.at place.old) (P.at place.new) }
    ensures looks { IsTrue P.is_modelled → Looks result
        (looked_at manifest.now target.now (P.at place.old).world)
        (P.at place.old).counts (P.at place.new).counts }
{
    let root = manifest.folder(alloc)?;
    let path = manifest.copy(alloc)?;
    let parts = root_parts(alloc, place, target, manifest)?;
    let frame = frame_of(alloc, root, path, parts.workspace);
    let loaded = workspace_in(
        alloc,
        place,
        target,
        &frame,
        parts.profiles,
        parts.tables,
        parts.found,
    );
    drop(frame);
    loaded
}
