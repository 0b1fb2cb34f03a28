//! Files of the sources: what is at or below the target folder is left out.

ghost use Rattle.std.specs.Prelude.{◌≡◌, IfOk, IfErr, IsTrue, true, take};
ghost use Rattle.std.specs.FinMap as finite;
ghost use Rattle.std.specs.Option.{option_map};
ghost use Rattle.pb_place_types.specs.declared.call.Call.TheVariants as call;
ghost use Rattle.pb_place_types.specs.Paths.{below, is_relative};
ghost use Rattle.pb_place_types.specs.World.{from_nothing, has_file, listed, listed_folders};
ghost use Rattle.pb_workspace_package.specs.Looks.{Looks, looked};
ghost use Rattle.pb_workspace_package.specs.Causes.{is_outside, fault_at, OnlyLooks};
ghost use Rattle.pb_workspace_package.specs.Sources.{resolved};

use pb_data::{Bytes, Items, TryCopy};
use pb_manifest_types::WrittenPath;
use pb_place_types::{PathText, Place, PlaceFault, RelativePath};
use pb_workspace_types::LoadFault;
use std::alloc::{AllocError, Global};

/// Returns the fault of a failed call on a path. `OutOfMemory` stays `OutOfMemory`. No memory is
/// used.
pub fn call_fault(path: PathText, fault: PlaceFault) -> LoadFault
    ensures { result ≡ fault_at path fault }
{
    match fault {
        PlaceFault::OutOfMemory => LoadFault::OutOfMemory,
        fault => LoadFault::Place(path, fault),
    }
}

/// Returns at most the first `most` bytes of the file at a path, if the file is one of the sources.
/// A path at or below the target folder is not read.
///
/// Errors: `Place` with the call's path, if the read failed; `OutOfMemory`.
#[tactic(auto, using(crate::proofs::SourceLemmas::source_laws))]
pub fn source<P: Place>(
    alloc: Global,
    place: &mut P,
    target: &PathText,
    path: &PathText,
    most: usize,
) -> Result<Option<Bytes>, LoadFault>
    ensures ok { IsTrue P.is_modelled → IfOk result (λ found. found ≡ option_map (take most)
        (finite.get (from_nothing target.now (P.at place.old).world).files path.now)) }
    ensures outside { IfErr result (λ e. is_outside e ≡ true) }
    ensures quiet { OnlyLooks result (P.at place.old) (P.at place.new) }
    ensures looks { Looks result (looked target.now (call.Read path.now))
        (P.at place.old).counts (P.at place.new).counts }
{
    if path.starts_with(target) {
        return Ok(None);
    }
    let named = path.copy(alloc)?;
    match place.read_first(alloc, path, most) {
        Ok(found) => Ok(found),
        Err(fault) => Err(call_fault(named, fault)),
    }
}

/// Returns whether a file of the sources is at a path. No call is made for a path at or below the
/// target folder.
///
/// Errors: `Place` with the call's path, if the call failed; `OutOfMemory`.
#[tactic(auto, using(crate::proofs::SourceLemmas::asking_laws))]
pub fn is_source<P: Place>(
    alloc: Global,
    place: &mut P,
    target: &PathText,
    path: &PathText,
) -> Result<bool, LoadFault>
    ensures ok { IsTrue P.is_modelled → IfOk result (λ answer. answer
        ≡ has_file path.now (from_nothing target.now (P.at place.old).world)) }
    ensures outside { IfErr result (λ e. is_outside e ≡ true) }
    ensures quiet { OnlyLooks result (P.at place.old) (P.at place.new) }
    ensures looks { Looks result (looked target.now (call.IsFile path.now))
        (P.at place.old).counts (P.at place.new).counts }
{
    if path.starts_with(target) {
        return Ok(false);
    }
    let named = path.copy(alloc)?;
    match place.is_file(alloc, path) {
        Ok(answer) => Ok(answer),
        Err(fault) => Err(call_fault(named, fault)),
    }
}

/// Returns the files of the sources below a folder, in byte order. Nothing at or below the target
/// folder is looked at.
///
/// Errors: `Place` with the call's path, if the listing failed; `OutOfMemory`.
#[tactic(auto, using(crate::proofs::SourceLemmas::listing_laws))]
pub fn listed_sources<P: Place>(
    alloc: Global,
    place: &mut P,
    target: &PathText,
    folder: &PathText,
) -> Result<Items<PathText>, LoadFault>
    ensures ok { IsTrue P.is_modelled → IfOk result
        (λ paths. paths ≡ listed folder.now (from_nothing target.now (P.at place.old).world)) }
    ensures outside { IfErr result (λ e. is_outside e ≡ true) }
    ensures quiet { OnlyLooks result (P.at place.old) (P.at place.new) }
    ensures looks { Looks result (looked target.now (call.ListOutside folder.now target.now))
        (P.at place.old).counts (P.at place.new).counts }
{
    if folder.starts_with(target) {
        return Ok(Items::new(alloc));
    }
    let named = folder.copy(alloc)?;
    match place.list_outside(alloc, folder, target) {
        Ok(paths) => Ok(paths),
        Err(fault) => Err(call_fault(named, fault)),
    }
}

/// Returns those folders directly in a folder that contain sources. Each folder is returned once. A
/// folder at or below the target folder is not listed.
///
/// Errors: `Place` with the call's path, if the listing failed; `OutOfMemory`.
#[tactic(auto, using(crate::proofs::SourceLemmas::listing_laws))]
pub fn source_folders<P: Place>(
    alloc: Global,
    place: &mut P,
    target: &PathText,
    folder: &PathText,
) -> Result<Items<PathText>, LoadFault>
    ensures ok { IsTrue P.is_modelled → IfOk result (λ folders. folders
        ≡ listed_folders folder.now (from_nothing target.now (P.at place.old).world)) }
    ensures outside { IfErr result (λ e. is_outside e ≡ true) }
    ensures quiet { OnlyLooks result (P.at place.old) (P.at place.new) }
    ensures looks { Looks result (looked target.now (call.ListFolders folder.now target.now))
        (P.at place.old).counts (P.at place.new).counts }
{
    if folder.starts_with(target) {
        return Ok(Items::new(alloc));
    }
    let named = folder.copy(alloc)?;
    match place.list_folders(alloc, folder, target) {
        Ok(folders) => Ok(folders),
        Err(fault) => Err(call_fault(named, fault)),
    }
}

/// Returns the path of a file or folder inside a folder. `name` is a name, or names with slashes
/// between them.
///
/// Errors: out of memory.
pub fn own_path(alloc: Global, folder: &PathText, name: &str) -> Result<PathText, AllocError>
    requires { is_relative name.now ≡ true }
    ensures { IfOk result (λ path. path ≡ below folder.now name.now) }
{
    let name = RelativePath::name(alloc, name)?;
    folder.below(alloc, &name)
}

/// Returns the path that a written path means, relative to a folder. An absolute path means itself.
/// A written path contains no byte 0, so it always means a path.
///
/// Errors: out of memory.
#[tactic(auto, using(crate::proofs::Resolving::resolving_laws))]
pub fn resolve_path(
    alloc: Global,
    folder: &PathText,
    path: &WrittenPath,
) -> Result<PathText, AllocError>
    ensures { IfOk result (λ made. made ≡ resolved folder.now path.now) }
{
    match folder.join(alloc, path.as_str()) {
        Ok(made) => Ok(made),
        Err(_) => Err(AllocError),
    }
}
