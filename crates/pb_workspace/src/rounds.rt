//! The packages of a workspace, read folder by folder.

ghost use Rattle.std.specs.Prelude.{◌≡◌, IfErr, IfOk, IsTrue, OnOk, false, IfSome};
ghost use Rattle.pb_place_types.specs.declared.call.Call.TheVariants as call;
ghost use Rattle.pb_place_types.specs.World.{from_nothing};
ghost use Rattle.pb_place_types.specs.Paths.{below};
ghost use Rattle.pb_manifest.specs.Promises.{IsManifest};
ghost use Rattle.pb_workspace.specs.ByFolder.{folders_of, with_folders};
ghost use Rattle.pb_workspace_package.specs.Looks.{Looks, looked};
ghost use Rattle.pb_workspace.specs.LookedAt.{package_looked, file_looked, folder_looked, one_looked, all_looked, round_looked, rounds_looked};
ghost use Rattle.pb_workspace_package.specs.Causes.{is_failure, is_outside, UnlessFailed, OnlyLooks};
ghost use Rattle.pb_workspace.specs.Frames.{given_to, nothing};
ghost use Rattle.pb_workspace_types.specs.declared.fault.LoadFault.TheVariants as load_fault;
ghost use Rattle.pb_workspace.specs.Rounds.{read_found, manifest_at, tables_in, parts_in, parts_at, no_package, draft_if, standing_in, draft_in_file, draft_at, leads_to, with_draft, one_read, all_read, round, rounds};
ghost use Rattle.pb_workspace_package.specs.Drafted.{IsDraft};
ghost use Rattle.pb_workspace.specs.Readings.{ManifestsAreRead, HasSharedInOrder, IsReading};

use crate::by_folder::{ByFolder, put_folders};
use crate::workspace_root::{WorkspaceRoot, is_member, nothing};
use pb_data::{Bytes, Items, MAX_MANIFEST_BYTES, MAX_PACKAGES, TryCopy};
use pb_manifest::read_manifest;
use pb_manifest_types::{Key, Manifest, ManifestFault, Package, Profile, WorkspaceTable};
use pb_place_types::{PathText, Place};
use pb_workspace_package::source::{own_path, source};
use pb_workspace_package::{Given, PackageLocation, Tables, UnresolvedPackage, Wanted, draft_of};
use pb_workspace_types::LoadFault;
use std::alloc::{AllocError, Global};

/// The number of rounds that is enough for the largest number of packages. After a round that reads
/// no package, no folder is left to read.
pub const MAX_ROUNDS: usize = MAX_PACKAGES + 1;

/// Packages that were read, and the folders of the next round.
#[derive(Drop)]
pub struct LoadState {
    /// The packages by their folders.
    pub found: ByFolder<UnresolvedPackage>,
    /// The folders of the next round: those to which entries of this round's packages lead.
    pub ahead: ByFolder<()>,
}

/// Returns the fault of a path at which there is no manifest.
pub fn no_manifest(alloc: Global, path: &PathText) -> LoadFault
    ensures refusal { is_outside result ≡ false → result ≡ load_fault.NoManifest path.now }
    ensures here { is_failure result ≡ false }
{
    match path.copy(alloc) {
        Ok(path) => LoadFault::NoManifest(path),
        Err(_) => LoadFault::OutOfMemory,
    }
}

/// Returns the fault of a manifest that the reader refuses.
fn manifest_refusal(alloc: Global, path: &PathText, fault: ManifestFault) -> LoadFault
    ensures refusal { is_outside result ≡ false → result ≡ load_fault.Manifest path.now fault }
    ensures here { is_failure result ≡ false }
{
    match path.copy(alloc) {
        Ok(path) => LoadFault::Manifest(path, fault),
        Err(_) => LoadFault::OutOfMemory,
    }
}

/// Returns the manifest in the bytes that were found at a path, or `NoManifest` if nothing was
/// found.

fn read_found(alloc: Global, path: &PathText, found: Option<Bytes>) -> Result<Manifest, LoadFault>
    ensures told { UnlessFailed result (read_found path.now found) }
    ensures promised { IfOk result IsManifest }
    ensures here { IfErr result (λ e. is_failure e ≡ false) }
{
    let bytes = match found {
        Some(bytes) => bytes,
        None => return Err(no_manifest(alloc, path)),
    };
    match read_manifest(alloc, bytes.as_slice()) {
        Ok(manifest) => Ok(manifest),
        Err(ManifestFault::OutOfMemory) => Err(LoadFault::OutOfMemory),
        Err(fault) => Err(manifest_refusal(alloc, path, fault)),
    }
}

/// Returns the manifest at a path. The read takes at most one byte more than a manifest may have.
///
/// Errors:
///
/// - `NoManifest`, if the path is not a file of the sources.
/// - `Manifest`, if the reader refuses the file.
/// - `Place`, if the read failed.
/// - `OutOfMemory`.
#[tactic(auto, using(crate::proofs::Cut::cut_laws))]
fn manifest_at<P: Place>(
    alloc: Global,
    place: &mut P,
    target: &PathText,
    path: &PathText,
) -> Result<Manifest, LoadFault>
    ensures ok { IsTrue P.is_modelled → UnlessFailed result
        (manifest_at (from_nothing target.now (P.at place.old).world) path.now) }
    ensures promised { IfOk result IsManifest }
    ensures quiet { OnlyLooks result (P.at place.old) (P.at place.new) }
    ensures looks { Looks result (looked target.now (call.Read path.now))
        (P.at place.old).counts (P.at place.new).counts }
{
    let found = source(alloc, place, target, path, MAX_MANIFEST_BYTES + 1)?;
    let manifest = read_found(alloc, path, found)?;
    Ok(manifest)
}

/// Returns what a package may inherit from its workspace. A package that is not a member may
/// inherit nothing.
fn given_to<'a>(frame: &'a WorkspaceRoot, none: &'a Given, is_member: bool) -> &'a Given
    requires { none.now ≡ nothing }
    ensures { result.now ≡ given_to frame.now is_member }
{
    if is_member { &frame.given } else { none }
}

/// Returns the package of a manifest that was read.
///
/// Errors:
///
/// - `Manifest` with `BadKind` of `package`, if the manifest has no package.
/// - Those of `draft_of`.
#[tactic(auto, unfolding(crate::specs::Rounds::draft_if))]
pub fn draft_if<P: Place>(
    alloc: Global,
    place: &mut P,
    target: &PathText,
    frame: &WorkspaceRoot,
    is_member: bool,
    at: PackageLocation,
    tables: Tables,
    found: Option<Package>,
) -> Result<UnresolvedPackage, LoadFault>
    requires { ManifestsAreRead tables found }
    ensures ok { IsTrue P.is_modelled → UnlessFailed result
        (draft_if (from_nothing target.now (P.at place.old).world) frame.now is_member at
        tables found) }
    ensures draft { IfOk result IsDraft }
    ensures folder { IfOk result (λ draft. draft.folder ≡ at.folder) }
    ensures quiet { OnlyLooks result (P.at place.old) (P.at place.new) }
    ensures looks { Looks result (package_looked target.now at.folder found)
        (P.at place.old).counts (P.at place.new).counts }
{
    match found {
        Some(found) => {
            let none = nothing(alloc);
            let given = given_to(frame, &none, is_member);
            let draft = draft_of(alloc, place, target, at, is_member, given, &found, tables);
            drop(none);
            drop(found);
            draft
        }
        None => {
            drop(tables);
            Err(manifest_refusal(alloc, &at.manifest, ManifestFault::BadKind(Key::Package)))
        }
    }
}

/// Returns the location of a folder's package.
fn standing_in(
    alloc: Global,
    frame: &WorkspaceRoot,
    folder: &PathText,
) -> Result<PackageLocation, AllocError>
    ensures { IfOk result (λ at. at ≡ standing_in frame.now folder.now) }
{
    let manifest = own_path(alloc, folder, "Cargo.toml")?;
    let root = frame.root.copy(alloc)?;
    let folder = folder.copy(alloc)?;
    Ok(PackageLocation {
        root,
        folder,
        manifest,
    })
}

/// A manifest, split into parts.
#[derive(Drop)]
pub struct Parts {
    /// `[package]`, if it is written.
    pub found: Option<Package>,
    /// The other tables that concern the package.
    pub tables: Tables,
    /// `[workspace]`, if it is written.
    pub workspace: Option<WorkspaceTable>,
    /// `[profile]`.
    pub profiles: Items<Profile>,
}

/// Returns the parts of a manifest.
#[tactic(auto, using(crate::proofs::Promised::binary_laws))]
pub fn parts_of(read: Manifest) -> Parts
    requires { IsManifest read }
    ensures parts { result ≡ parts_in read }
    ensures read { ManifestsAreRead result.tables result.found }
    ensures shared { IfSome result.workspace HasSharedInOrder }
{
    Parts {
        found: read.package,
        tables: Tables {
            library: read.library,
            binaries: read.binaries,
            dependencies: read.dependencies,
            build_dependencies: read.build_dependencies,
            dev_dependencies: read.dev_dependencies,
            features: read.features,
        },
        workspace: read.workspace,
        profiles: read.profiles,
    }
}

/// Returns the parts of the manifest at a path.
///
/// Errors:
///
/// - `NoManifest`, if the path is not a file of the sources.
/// - `Manifest`, if the reader refuses the file.
/// - `Place`, if the read failed.
/// - `OutOfMemory`.
pub fn parts_at<P: Place>(
    alloc: Global,
    place: &mut P,
    target: &PathText,
    path: &PathText,
) -> Result<Parts, LoadFault>
    ensures ok { IsTrue P.is_modelled → UnlessFailed result
        (parts_at (from_nothing target.now (P.at place.old).world) path.now) }
    ensures read { IfOk result (λ parts. ManifestsAreRead parts.tables parts.found) }
    ensures shared { IfOk result (λ parts. IfSome parts.workspace HasSharedInOrder) }
    ensures quiet { OnlyLooks result (P.at place.old) (P.at place.new) }
    ensures looks { Looks result (looked target.now (call.Read path.now))
        (P.at place.old).counts (P.at place.new).counts }
{
    let found = manifest_at(alloc, place, target, path)?;
    Ok(parts_of(found))
}

/// Returns the package of this folder's manifest.
#[tactic(auto, unfolding(crate::specs::Rounds::draft_in_file))]
fn draft_in_file<P: Place>(
    alloc: Global,
    place: &mut P,
    target: &PathText,
    frame: &WorkspaceRoot,
    is_member: bool,
    at: PackageLocation,
) -> Result<UnresolvedPackage, LoadFault>
    ensures ok { IsTrue P.is_modelled → UnlessFailed result
        (draft_in_file (from_nothing target.now (P.at place.old).world) frame.now is_member at) }
    ensures draft { IfOk result IsDraft }
    ensures folder { IfOk result (λ draft. draft.folder ≡ at.folder) }
    ensures quiet { OnlyLooks result (P.at place.old) (P.at place.new) }
    ensures looks { IsTrue P.is_modelled → Looks result
        (file_looked target.now (from_nothing target.now (P.at place.old).world) at)
        (P.at place.old).counts (P.at place.new).counts }
{
    let parts = parts_at(alloc, place, target, &at.manifest)?;
    drop(parts.workspace);
    drop(parts.profiles);
    draft_if(
        alloc,
        place,
        target,
        frame,
        is_member,
        at,
        parts.tables,
        parts.found,
    )
}

/// Returns the package of a folder, from its manifest and its files. The root's manifest is not
/// read again.
///
/// Errors: those of `parts_at` and of `draft_if`.
#[tactic(auto, unfolding(crate::specs::Rounds::draft_at, crate::specs::LookedAt::folder_looked))]
fn draft_at<P: Place>(
    alloc: Global,
    place: &mut P,
    target: &PathText,
    frame: &WorkspaceRoot,
    meant: &ByFolder<()>,
    folder: &PathText,
) -> Result<UnresolvedPackage, LoadFault>
    ensures ok { IsTrue P.is_modelled → UnlessFailed result
        (draft_at (from_nothing target.now (P.at place.old).world) frame.now meant.now folder.now) }
    ensures draft { IfOk result IsDraft }
    ensures folder { IfOk result (λ draft. draft.folder ≡ folder.now) }
    ensures quiet { OnlyLooks result (P.at place.old) (P.at place.new) }
    ensures looks { let sources = from_nothing target.now (P.at place.old).world in
        IsTrue P.is_modelled → Looks result (folder_looked target.now sources frame.now folder.now)
        (P.at place.old).counts (P.at place.new).counts }
{
    if *folder == frame.root {
        return Err(manifest_refusal(alloc, &frame.manifest, ManifestFault::BadKind(Key::Package)));
    }
    let at = standing_in(alloc, frame, folder)?;
    let member = is_member(alloc, frame, meant, folder)?;
    draft_in_file(alloc, place, target, frame, member, at)
}

/// Returns the folders to which entries lead.
fn leads_to(alloc: Global, wanted: &[Wanted]) -> Result<Items<PathText>, AllocError>
    ensures { IfOk result (λ folders. folders ≡ leads_to wanted.now) }
{
    let mut folders = Items::new(alloc);
    for one in wanted {
        folders.push(one.folder.copy(alloc)?)?;
    }
    Ok(folders)
}

/// Inserts the folders to which the entries of a package lead.
fn put_led(
    alloc: Global,
    ahead: &mut ByFolder<()>,
    draft: &UnresolvedPackage,
) -> Result<(), AllocError>
    ensures { OnOk result (ahead.new ≡ with_folders ahead.old (leads_to draft.now.wanted)) }
{
    let folders = leads_to(alloc, draft.wanted.as_slice())?;
    put_folders(ahead, folders)?;
    Ok(())
}

/// Adds a package that was read.
fn add_draft(
    alloc: Global,
    reading: &mut LoadState,
    folder: PathText,
    draft: UnresolvedPackage,
) -> Result<(), AllocError>
    ensures { OnOk result (reading.new ≡ with_draft reading.old folder draft) }
{
    let led = put_led(alloc, &mut reading.ahead, &draft);
    reading.found.insert(folder, draft)?;
    led
}

/// Returns the state of a reading after one more package.
pub fn with_draft(
    alloc: Global,
    reading: LoadState,
    folder: PathText,
    draft: UnresolvedPackage,
) -> Result<LoadState, AllocError>
    ensures { IfOk result (λ made. made ≡ with_draft reading folder draft) }
{
    let mut made = reading;
    add_draft(alloc, &mut made, folder, draft)?;
    Ok(made)
}

/// Reads one folder, unless it was read before.
///
/// Errors: `TooMany`, if 256 packages have been read; those of `draft_at`.
fn one_read<P: Place>(
    alloc: Global,
    place: &mut P,
    target: &PathText,
    frame: &WorkspaceRoot,
    meant: &ByFolder<()>,
    reading: LoadState,
    folder: PathText,
) -> Result<LoadState, LoadFault>
    requires { IsReading reading }
    ensures ok { let sources = from_nothing target.now (P.at place.old).world in
        IsTrue P.is_modelled → UnlessFailed result
        (one_read (draft_at sources frame.now meant.now) reading folder) }
    ensures kept { IfOk result IsReading }
    ensures quiet { OnlyLooks result (P.at place.old) (P.at place.new) }
    ensures looks { let sources = from_nothing target.now (P.at place.old).world in
        IsTrue P.is_modelled → Looks result
        (one_looked (folder_looked target.now sources frame.now) reading folder)
        (P.at place.old).counts (P.at place.new).counts }
{
    if reading.found.contains(&folder) {
        return Ok(reading);
    }
    if MAX_PACKAGES <= reading.found.len() {
        drop(reading);
        return Err(LoadFault::TooMany);
    }
    let draft = match draft_at(alloc, place, target, frame, meant, &folder) {
        Ok(draft) => draft,
        Err(fault) => {
            drop(reading);
            return Err(fault);
        }
    };
    let made = with_draft(alloc, reading, folder, draft)?;
    Ok(made)
}

/// Reads folders, one after another, up to the first fault.
pub fn all_read<P: Place>(
    alloc: Global,
    place: &mut P,
    target: &PathText,
    frame: &WorkspaceRoot,
    meant: &ByFolder<()>,
    reading: LoadState,
    folders: Items<PathText>,
) -> Result<LoadState, LoadFault>
    requires { IsReading reading }
    ensures ok { let sources = from_nothing target.now (P.at place.old).world in
        IsTrue P.is_modelled → UnlessFailed result
        (all_read (draft_at sources frame.now meant.now) reading folders) }
    ensures kept { IfOk result IsReading }
    ensures quiet { OnlyLooks result (P.at place.old) (P.at place.new) }
    ensures looks { let sources = from_nothing target.now (P.at place.old).world in
        IsTrue P.is_modelled → Looks result
        (all_looked (draft_at sources frame.now meant.now)
        (folder_looked target.now sources frame.now) reading folders)
        (P.at place.old).counts (P.at place.new).counts }
{
    let mut reading = reading;
    for folder in folders.into_vec() {
        reading = one_read(alloc, place, target, frame, meant, reading, folder)?;
    }
    Ok(reading)
}

/// Reads the folders to which the packages of the last round lead, in byte order.
fn round<P: Place>(
    alloc: Global,
    place: &mut P,
    target: &PathText,
    frame: &WorkspaceRoot,
    meant: &ByFolder<()>,
    reading: LoadState,
) -> Result<LoadState, LoadFault>
    requires { IsReading reading }
    ensures ok { let sources = from_nothing target.now (P.at place.old).world in
        IsTrue P.is_modelled → UnlessFailed result
        (round (draft_at sources frame.now meant.now) reading) }
    ensures kept { IfOk result IsReading }
    ensures quiet { OnlyLooks result (P.at place.old) (P.at place.new) }
    ensures looks { let sources = from_nothing target.now (P.at place.old).world in
        IsTrue P.is_modelled → Looks result
        (round_looked (draft_at sources frame.now meant.now)
        (folder_looked target.now sources frame.now) reading)
        (P.at place.old).counts (P.at place.new).counts }
{
    let LoadState { found, ahead } = reading;
    let folders = ahead.folders(alloc)?;
    let begun = LoadState {
        found,
        ahead: ByFolder::new(alloc),
    };
    all_read(alloc, place, target, frame, meant, begun, folders)
}

/// Reads n rounds, up to the first fault.
#[tactic(auto, unfolding(crate::specs::Rounds::rounds))]
pub fn rounds<P: Place>(
    alloc: Global,
    place: &mut P,
    target: &PathText,
    frame: &WorkspaceRoot,
    meant: &ByFolder<()>,
    reading: LoadState,
    count: usize,
) -> Result<LoadState, LoadFault>
    requires { IsReading reading }
    ensures ok { let sources = from_nothing target.now (P.at place.old).world in
        IsTrue P.is_modelled → UnlessFailed result
        (rounds count (draft_at sources frame.now meant.now) reading) }
    ensures kept { IfOk result IsReading }
    ensures quiet { OnlyLooks result (P.at place.old) (P.at place.new) }
    ensures looks { let sources = from_nothing target.now (P.at place.old).world in
        IsTrue P.is_modelled → Looks result
        (rounds_looked count (draft_at sources frame.now meant.now)
        (folder_looked target.now sources frame.now) reading)
        (P.at place.old).counts (P.at place.new).counts }
{
    let mut reading = reading;
    for done in 0..count {
        match round(alloc, place, target, frame, meant, reading) {
            Ok(next) => reading = next,
            Err(fault) => return Err(fault),
        }
    }
    Ok(reading)
}
