//! The folders that `members` means.

ghost use Rattle.std.specs.Prelude.{◌≡◌, ◌++◌, [], ◌∷◌, codes, IfOk, IfErr, OnOk, IsTrue, true, filter};
ghost use Rattle.std.specs.List.{flat_map};
ghost use Rattle.pb_place_types.specs.Paths.{below, last_part};
ghost use Rattle.pb_place_types.specs.World.{from_nothing};
ghost use Rattle.pb_workspace_package.specs.Causes.{is_outside, OnlyLooks};
ghost use Rattle.pb_workspace_package.specs.Looks.{Looks};
ghost use Rattle.pb_workspace_package.specs.Sources.{resolved};
ghost use Rattle.pb_workspace.specs.Globs.{matches};
ghost use Rattle.pb_workspace.specs.LookedAt.{glob_looked, manifest_looked, members_looked, step_looked, text_looked, walk_looked};
ghost use Rattle.pb_workspace.specs.MemberFolders.{folders_meant, folders_taken, has_manifest, is_fixed, is_kept, is_manifest, kept_step, led_to, member_folders, one_step};

use crate::by_folder::{ByFolder, put_folders};
use crate::glob::{is_glob, matches};
use crate::member::{Part, is_excluded, parts_meant};
use crate::workspace_root::WorkspaceRoot;
use pb_data::Items;
use pb_manifest_types::WrittenPath;
use pb_place_types::{PathText, Place};
use pb_workspace_package::source::{is_source, own_path, resolve_path, source_folders};
use pb_workspace_types::LoadFault;
use std::alloc::{AllocError, Global};

/// Returns whether a path ends with the name `Cargo.toml`.
pub fn is_manifest(path: &PathText) -> bool
    ensures { result ≡ is_manifest path.now }
{
    path.last_part() == "Cargo.toml"
}

/// Returns whether only one name matches a part.
fn is_fixed(part: &Part) -> bool
    ensures { result ≡ is_fixed part.now }
{
    !(part.is_pattern && is_glob(part.text.as_str()))
}

/// Returns the folders whose names match a pattern.
///
/// Errors: out of memory only.
fn folders_matching(
    alloc: Global,
    pattern: &str,
    folders: Items<PathText>,
) -> Result<Items<PathText>, AllocError>
    ensures { IfOk result
        (λ named. named ≡ filter (λ folder. matches pattern.now (last_part folder)) folders) }
{
    let mut named = Items::new(alloc);
    for folder in folders.into_vec() {
        if matches(alloc, pattern, folder.last_part())? {
            named.push(folder)?;
        }
    }
    Ok(named)
}

/// Returns one folder as a list.
///
/// Errors: out of memory only.
fn alone(alloc: Global, folder: PathText) -> Result<Items<PathText>, AllocError>
    ensures { IfOk result (λ folders. folders ≡ folder ∷ []) }
{
    let mut folders = Items::new(alloc);
    folders.push(folder)?;
    Ok(folders)
}

/// Returns the folder with a part's name inside a folder, whether or not it exists.
///
/// Errors: out of memory only.
fn folder_named(
    alloc: Global,
    folder: &PathText,
    part: &Part,
) -> Result<Items<PathText>, AllocError>
    ensures { IfOk result (λ folders. folders ≡ below folder.now part.now.text ∷ []) }
{
    let named = folder.below(alloc, &part.text)?;
    alone(alloc, named)
}

/// Returns the folders to which a part leads from a folder (The Cargo Book, Workspaces). If only
/// one name matches the part, the part leads to the folder with this name, whether or not the
/// folder exists. In this case no call is made. Any other part leads to the folders with matching
/// names, and one call lists the folders (our own choice).
///
/// Errors: `Place` with the call's path, if the listing failed; `OutOfMemory`.
fn one_step<P: Place>(
    alloc: Global,
    place: &mut P,
    target: &PathText,
    part: &Part,
    folder: &PathText,
) -> Result<Items<PathText>, LoadFault>
    ensures ok { IsTrue P.is_modelled → IfOk result (λ folders. folders
        ≡ one_step (from_nothing target.now (P.at place.old).world) part.now folder.now) }
    ensures outside { IfErr result (λ e. is_outside e ≡ true) }
    ensures quiet { OnlyLooks result (P.at place.old) (P.at place.new) }
    ensures looks { Looks result (step_looked target.now part.now folder.now)
        (P.at place.old).counts (P.at place.new).counts }
{
    if is_fixed(part) {
        let named = folder_named(alloc, folder, part)?;
        return Ok(named);
    }
    let folders = source_folders(alloc, place, target, folder)?;
    let named = folders_matching(alloc, part.text.as_str(), folders)?;
    Ok(named)
}

/// Returns those of these folders that `exclude` does not leave out.
///
/// Errors: out of memory only.
fn kept_among(
    alloc: Global,
    frame: &WorkspaceRoot,
    folders: Items<PathText>,
) -> Result<Items<PathText>, AllocError>
    ensures { IfOk result (λ kept. kept ≡ filter (is_kept frame.now) folders) }
{
    let mut kept = Items::new(alloc);
    for folder in folders.into_vec() {
        if !is_excluded(alloc, &frame.root, frame.exclude.as_slice(), &folder)? {
            kept.push(folder)?;
        }
    }
    Ok(kept)
}

/// Returns the folders to which a part leads from a folder, without the folders that `exclude`
/// leaves out. So a glob does not look below excluded folders (our own choice).
///
/// Errors: those of `one_step`.
fn kept_step<P: Place>(
    alloc: Global,
    place: &mut P,
    target: &PathText,
    frame: &WorkspaceRoot,
    part: &Part,
    folder: &PathText,
) -> Result<Items<PathText>, LoadFault>
    ensures ok { let sources = from_nothing target.now (P.at place.old).world in
        IsTrue P.is_modelled → IfOk result
        (λ folders. folders ≡ kept_step sources frame.now part.now folder.now) }
    ensures outside { IfErr result (λ e. is_outside e ≡ true) }
    ensures quiet { OnlyLooks result (P.at place.old) (P.at place.new) }
    ensures looks { Looks result (step_looked target.now part.now folder.now)
        (P.at place.old).counts (P.at place.new).counts }
{
    let folders = one_step(alloc, place, target, part, folder)?;
    let kept = kept_among(alloc, frame, folders)?;
    Ok(kept)
}

/// Appends folders to a list.
fn add_folders(made: &mut Items<PathText>, folders: Items<PathText>) -> Result<(), AllocError>
    ensures { OnOk result (made.new ≡ made.old ++ folders) }
{
    for folder in folders.into_vec() {
        made.push(folder)?;
    }
    Ok(())
}

/// Returns the folders to which a part leads from some folders, one folder after the other.
///
/// Errors: those of `one_step`.
fn all_steps<P: Place>(
    alloc: Global,
    place: &mut P,
    target: &PathText,
    frame: &WorkspaceRoot,
    part: &Part,
    folders: &[PathText],
) -> Result<Items<PathText>, LoadFault>
    ensures ok { let sources = from_nothing target.now (P.at place.old).world in
        IsTrue P.is_modelled → IfOk result
        (λ led. led ≡ flat_map (kept_step sources frame.now part.now) folders.now) }
    ensures outside { IfErr result (λ e. is_outside e ≡ true) }
    ensures quiet { OnlyLooks result (P.at place.old) (P.at place.new) }
    ensures looks { Looks result (flat_map (step_looked target.now part.now) folders.now)
        (P.at place.old).counts (P.at place.new).counts }
{
    let mut led = Items::new(alloc);
    for folder in folders {
        let found = kept_step(alloc, place, target, frame, part, folder)?;
        add_folders(&mut led, found)?;
    }
    Ok(led)
}

/// Returns the folders to which several parts lead from some folders, one part after the other.
///
/// Errors: those of `kept_step`.
fn led_to<P: Place>(
    alloc: Global,
    place: &mut P,
    target: &PathText,
    frame: &WorkspaceRoot,
    parts: &[Part],
    begun: Items<PathText>,
) -> Result<Items<PathText>, LoadFault>
    ensures ok { let sources = from_nothing target.now (P.at place.old).world in
        IsTrue P.is_modelled → IfOk result (λ led. led ≡ led_to sources frame.now parts.now begun) }
    ensures outside { IfErr result (λ e. is_outside e ≡ true) }
    ensures quiet { OnlyLooks result (P.at place.old) (P.at place.new) }
    ensures looks { let sources = from_nothing target.now (P.at place.old).world in
        IsTrue P.is_modelled → Looks result
        (walk_looked target.now sources frame.now parts.now begun)
        (P.at place.old).counts (P.at place.new).counts }
{
    let mut led = begun;
    for part in parts {
        led = all_steps(alloc, place, target, frame, part, led.as_slice())?;
    }
    Ok(led)
}

/// Returns a list that contains only the folder `/`. The text `/` is a path, so the call can only
/// run out of memory.
///
/// Errors: out of memory only.
fn root_alone(alloc: Global) -> Result<Items<PathText>, AllocError>
    ensures { IfOk result (λ folders. folders ≡ codes "/" ∷ []) }
{
    match PathText::parse(alloc, "/") {
        Ok(root) => alone(alloc, root),
        Err(_) => Err(AllocError),
    }
}

/// Returns whether a folder has a manifest.
///
/// Errors: `Place` with the call's path, if the call failed; `OutOfMemory`.
fn has_manifest<P: Place>(
    alloc: Global,
    place: &mut P,
    target: &PathText,
    folder: &PathText,
) -> Result<bool, LoadFault>
    ensures ok { IsTrue P.is_modelled → IfOk result (λ answer. answer
        ≡ has_manifest (from_nothing target.now (P.at place.old).world) folder.now) }
    ensures outside { IfErr result (λ e. is_outside e ≡ true) }
    ensures quiet { OnlyLooks result (P.at place.old) (P.at place.new) }
    ensures looks { Looks result (manifest_looked target.now folder.now)
        (P.at place.old).counts (P.at place.new).counts }
{
    let path = own_path(alloc, folder, "Cargo.toml")?;
    is_source(alloc, place, target, &path)
}

/// Returns the folders that have a manifest.
///
/// Errors: those of `has_manifest`.
fn with_manifests<P: Place>(
    alloc: Global,
    place: &mut P,
    target: &PathText,
    folders: Items<PathText>,
) -> Result<Items<PathText>, LoadFault>
    ensures ok { let sources = from_nothing target.now (P.at place.old).world in
        IsTrue P.is_modelled → IfOk result (λ taken. taken
        ≡ filter (has_manifest sources) folders) }
    ensures outside { IfErr result (λ e. is_outside e ≡ true) }
    ensures quiet { OnlyLooks result (P.at place.old) (P.at place.new) }
    ensures looks { Looks result (flat_map (manifest_looked target.now) folders)
        (P.at place.old).counts (P.at place.new).counts }
{
    let mut taken = Items::new(alloc);
    for folder in folders.into_vec() {
        let is_taken = has_manifest(alloc, place, target, &folder)?;
        if !is_taken {
            continue;
        }
        taken.push(folder)?;
    }
    Ok(taken)
}

/// Returns the folders that a glob means. The parts of the glob lead to these folders from `/`. The
/// folders have a manifest, and `exclude` does not leave them out. No call is made for a path at or
/// below a folder that `exclude` leaves out (our own choice).
///
/// Errors: those of `one_step` and `has_manifest`.
fn folders_taken<P: Place>(
    alloc: Global,
    place: &mut P,
    target: &PathText,
    frame: &WorkspaceRoot,
    parts: &[Part],
) -> Result<Items<PathText>, LoadFault>
    ensures ok { IsTrue P.is_modelled → IfOk result (λ folders. folders
        ≡ folders_taken (from_nothing target.now (P.at place.old).world) frame.now parts.now) }
    ensures outside { IfErr result (λ e. is_outside e ≡ true) }
    ensures quiet { OnlyLooks result (P.at place.old) (P.at place.new) }
    ensures looks { let sources = from_nothing target.now (P.at place.old).world in
        IsTrue P.is_modelled → Looks result (glob_looked target.now sources frame.now parts.now)
        (P.at place.old).counts (P.at place.new).counts }
{
    let begun = root_alone(alloc)?;
    let led = led_to(alloc, place, target, frame, parts, begun)?;
    let kept = kept_among(alloc, frame, led)?;
    with_manifests(alloc, place, target, kept)
}

/// Returns the folder of a text without `*` and `?`.
///
/// Errors: out of memory only.
fn folder_written(
    alloc: Global,
    root: &PathText,
    text: &WrittenPath,
) -> Result<Items<PathText>, AllocError>
    ensures { IfOk result (λ folders. folders ≡ resolved root.now text.now ∷ []) }
{
    let folder = resolve_path(alloc, root, text)?;
    alone(alloc, folder)
}

/// Returns the folders that one text of `members` means.
///
/// Errors: those of `folders_taken`.
fn folders_meant<P: Place>(
    alloc: Global,
    place: &mut P,
    target: &PathText,
    frame: &WorkspaceRoot,
    text: &WrittenPath,
) -> Result<Items<PathText>, LoadFault>
    ensures ok { IsTrue P.is_modelled → IfOk result (λ folders. folders
        ≡ folders_meant (from_nothing target.now (P.at place.old).world) frame.now text.now) }
    ensures outside { IfErr result (λ e. is_outside e ≡ true) }
    ensures quiet { OnlyLooks result (P.at place.old) (P.at place.new) }
    ensures looks { let sources = from_nothing target.now (P.at place.old).world in
        IsTrue P.is_modelled → Looks result (text_looked target.now sources frame.now text.now)
        (P.at place.old).counts (P.at place.new).counts }
{
    if is_glob(text.as_str()) {
        let parts = parts_meant(alloc, &frame.root, text)?;
        return folders_taken(alloc, place, target, frame, parts.as_slice());
    }
    let folders = folder_written(alloc, &frame.root, text)?;
    Ok(folders)
}

/// Returns the folders that texts of `members` mean, one text after the other.
///
/// Errors: those of `folders_meant`.
fn folders_of_texts<P: Place>(
    alloc: Global,
    place: &mut P,
    target: &PathText,
    frame: &WorkspaceRoot,
    texts: &[WrittenPath],
) -> Result<Items<PathText>, LoadFault>
    ensures ok { let sources = from_nothing target.now (P.at place.old).world in
        IsTrue P.is_modelled → IfOk result
        (λ folders. folders ≡ flat_map (folders_meant sources frame.now) texts.now) }
    ensures outside { IfErr result (λ e. is_outside e ≡ true) }
    ensures quiet { OnlyLooks result (P.at place.old) (P.at place.new) }
    ensures looks { let sources = from_nothing target.now (P.at place.old).world in
        IsTrue P.is_modelled → Looks result
        (flat_map (text_looked target.now sources frame.now) texts.now)
        (P.at place.old).counts (P.at place.new).counts }
{
    let mut made = Items::new(alloc);
    for text in texts {
        let folders = folders_meant(alloc, place, target, frame, text)?;
        add_folders(&mut made, folders)?;
    }
    Ok(made)
}

/// Returns the folders that `members` means, in byte order without repeats (The Cargo Book,
/// Workspaces).
///
/// A text without `*` and `?` means the folder that the text names. A glob means each folder that
/// it matches, if the folder has a manifest and `exclude` does not leave it out. A glob never
/// matches a folder at or below the target folder. Only folders to which the parts of a glob lead
/// are looked at: `crates/*` lists the folders in `crates`, and nothing below them (our own
/// choice).
///
/// Errors: `Place` with the call's path, if a call failed; `OutOfMemory`.
pub fn member_folders<P: Place>(
    alloc: Global,
    place: &mut P,
    target: &PathText,
    frame: &WorkspaceRoot,
) -> Result<ByFolder<()>, LoadFault>
    ensures ok { IsTrue P.is_modelled → IfOk result (λ folders. folders
        ≡ member_folders (from_nothing target.now (P.at place.old).world) frame.now) }
    ensures outside { IfErr result (λ e. is_outside e ≡ true) }
    ensures quiet { OnlyLooks result (P.at place.old) (P.at place.new) }
    ensures looks { let sources = from_nothing target.now (P.at place.old).world in
        IsTrue P.is_modelled → Looks result (members_looked target.now sources frame.now)
        (P.at place.old).counts (P.at place.new).counts }
{
    let folders = folders_of_texts(alloc, place, target, frame, frame.members.as_slice())?;
    let mut made = ByFolder::new(alloc);
    put_folders(&mut made, folders)?;
    Ok(made)
}
