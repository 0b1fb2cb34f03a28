//! The present value of an input is compared with the recorded value. Only one file of the present
//! value is in memory at a time.

ghost use Rattle.std.specs.Prelude.{◌≡◌, ◌∷◌, ◌&&◌, [], map, IsTrue, IfOk, Decides};
ghost use Rattle.std.specs.FinMap as finite;
ghost use Rattle.std.specs.List.{filter_map};
ghost use Rattle.std.specs.Str.{bytes_eq};
ghost use Rattle.pb_place_types.specs.declared.call.Call.TheVariants as call;
ghost use Rattle.pb_place_types.specs.World.{from_nothing, listed, removed};
ghost use Rattle.pb_record.specs.declared.record.Input.TheVariants.{File, Tree, Value};
ghost use Rattle.pb_record.specs.declared.record.InputName.TheVariants.{Path, Variable};
ghost use Rattle.pb_store_soundness.specs.Inputs.{contents, input_in, name_of, path_input};
ghost use Rattle.pb_store.specs.Calls.{OnlyLooks, MayLook, MayRead};
ghost use Rattle.pb_store.specs.Differences.{IsPresent, same_files};
ghost use Rattle.pb_store.specs.Looking.{Looks, name_looked};
ghost use Rattle.pb_store.specs.Matching.{Files, matched};
ghost use Rattle.pb_store.specs.Presence.{file_in, files_looked};

use crate::fault::StoreFault;
use crate::inputs::{file_at, paths_below, paths_outside, source_at, text_in};
use pb_data::{Bytes, Items, Text};
use pb_place_types::{PathText, Place, RelativePath};
use pb_record::Input;
use std::alloc::Global;

/// Returns whether two files are equal.
fn is_same_file(file: &(RelativePath, Bytes), other: &(RelativePath, Bytes)) -> bool
    ensures { result ≡ bytes_eq file.now.0 other.now.0 && bytes_eq file.now.1 other.now.1 }
{
    file.0.as_str().as_bytes() == other.0.as_str().as_bytes()
        && file.1.as_slice() == other.1.as_slice()
}

/// The comparison of some files with the recorded files, so far.
#[derive(Drop)]
struct Matching<'a> {
    /// Whether all files so far are equal to the recorded files.
    same: bool,
    /// The recorded files that are left to compare.
    left: &'a [(RelativePath, Bytes)],
}

/// Returns the state of the comparison after one more file.
fn with_file<'a>(matching: Matching<'a>, file: &(RelativePath, Bytes)) -> Matching<'a>
    ensures { (more : Files) → matched result more ≡ matched matching.entry (file.now ∷ more) }
{
    match matching.left {
        [other, after @ ..] => Matching {
            same: matching.same && is_same_file(file, other),
            left: after,
        },
        [] => Matching {
            same: false,
            left: &[],
        },
    }
}

/// Returns the result of a comparison after its last file.
fn outcome(matching: &Matching<'_>) -> bool
    ensures { result ≡ matched matching.now [] }
{
    matching.same && matching.left.is_empty()
}

/// Returns whether the files at these paths are the recorded files. The recorded paths are relative
/// to a folder. Only one file is in memory at a time. The files after the first different file are
/// read, too.
fn are_files_at<P: Place>(
    alloc: Global,
    place: &mut P,
    folder: &PathText,
    paths: &[PathText],
    recorded: &[(RelativePath, Bytes)],
) -> Result<bool, StoreFault>
    ensures ok { IsTrue P.is_modelled →
        IfOk result (λ same. same ≡ same_files
        (filter_map (file_in folder.now (P.at place.old).world.files) paths.now) recorded.now) }
    ensures quiet { OnlyLooks MayRead result (P.at place.old) (P.at place.new) }
    ensures looks { Looks result (files_looked folder.now paths.now) (P.at place.old).counts
        (P.at place.new).counts }
{
    let mut matching = Matching {
        same: true,
        left: recorded,
    };
    for path in paths {
        let found = file_at(alloc, place, folder, path)?;
        if let Some(file) = found {
            matching = with_file(matching, &file);
        }
    }
    Ok(outcome(&matching))
}

/// Returns whether the sources below a folder, in byte order, are the recorded files. The recorded
/// paths are relative to the folder.
#[tactic(auto, using(crate::proofs::Present::sources_in, crate::proofs::Firsts::files_same))]
fn are_sources<P: Place>(
    alloc: Global,
    place: &mut P,
    target: &PathText,
    folder: &PathText,
    recorded: &[(RelativePath, Bytes)],
) -> Result<bool, StoreFault>
    ensures ok { IsTrue P.is_modelled →
        IfOk result (λ same. Decides same (contents folder.now
        (from_nothing target.now (P.at place.old).world).files ≡ recorded.now)) }
    ensures quiet { OnlyLooks MayLook result (P.at place.old) (P.at place.new) }
    ensures looks { IsTrue P.is_modelled →
        Looks result (call.ListOutside folder.now target.now ∷ map call.Read
        (listed folder.now (removed target.now (P.at place.old).world))) (P.at place.old).counts
        (P.at place.new).counts }
{
    let paths = paths_outside(alloc, place, target, folder)?;
    match are_files_at(alloc, place, folder, paths.as_slice(), recorded) {
        Ok(same) => Ok(same),
        Err(fault) => Err(fault),
    }
}

/// Returns whether the files below a folder, in byte order, are the recorded files. The recorded
/// paths are relative to the folder.
#[tactic(auto, using(crate::proofs::Present::files_in_it, crate::proofs::Firsts::files_same))]
pub(crate) fn are_files<P: Place>(
    alloc: Global,
    place: &mut P,
    folder: &PathText,
    recorded: &[(RelativePath, Bytes)],
) -> Result<bool, StoreFault>
    ensures ok { IsTrue P.is_modelled →
        IfOk result (λ same. Decides same
        (contents folder.now (P.at place.old).world.files ≡ recorded.now)) }
    ensures quiet { OnlyLooks MayLook result (P.at place.old) (P.at place.new) }
    ensures looks { IsTrue P.is_modelled →
        Looks result
        (call.List folder.now ∷ map call.Read (listed folder.now (P.at place.old).world))
        (P.at place.old).counts (P.at place.new).counts }
{
    let paths = paths_below(alloc, place, folder)?;
    match are_files_at(alloc, place, folder, paths.as_slice(), recorded) {
        Ok(same) => Ok(same),
        Err(fault) => Err(fault),
    }
}

/// Returns whether the file at a path has these bytes. If there is no file at the path, the
/// function looks for a folder there. `path_now` makes the same calls to read the present value.
fn is_file_present<P: Place>(
    alloc: Global,
    place: &mut P,
    target: &PathText,
    path: &PathText,
    bytes: &Bytes,
) -> Result<bool, StoreFault>
    ensures ok { IsTrue P.is_modelled →
        IfOk result (λ same. Decides same
        (input_in target.now (P.at place.old).world (Path path.now) ≡ File path.now bytes.now)) }
    ensures quiet { OnlyLooks MayLook result (P.at place.old) (P.at place.new) }
    ensures looks { IsTrue P.is_modelled →
        Looks result (name_looked target.now (P.at place.old).world (Path path.now))
        (P.at place.old).counts (P.at place.new).counts }
{
    match source_at(alloc, place, target, path) {
        Ok(Some(found)) => return Ok(found == *bytes),
        Ok(None) => {}
        Err(fault) => return Err(fault),
    }
    match are_sources(alloc, place, target, path, &[]) {
        Ok(_) => Ok(false),
        Err(fault) => Err(fault),
    }
}

/// Returns whether a path is a folder with these files.
fn is_tree_present<P: Place>(
    alloc: Global,
    place: &mut P,
    target: &PathText,
    path: &PathText,
    files: &Items<(RelativePath, Bytes)>,
) -> Result<bool, StoreFault>
    ensures ok { IsTrue P.is_modelled →
        IfOk result (λ same. Decides same
        (input_in target.now (P.at place.old).world (Path path.now) ≡ Tree path.now files.now)) }
    ensures quiet { OnlyLooks MayLook result (P.at place.old) (P.at place.new) }
    ensures looks { IsTrue P.is_modelled →
        Looks result (name_looked target.now (P.at place.old).world (Path path.now))
        (P.at place.old).counts (P.at place.new).counts }
{
    match source_at(alloc, place, target, path) {
        Ok(Some(_)) => return Ok(false),
        Ok(None) => {}
        Err(fault) => return Err(fault),
    }
    match are_sources(alloc, place, target, path, files.as_slice()) {
        Ok(same) => Ok(same),
        Err(fault) => Err(fault),
    }
}

/// Returns whether a variable has this value.
fn is_value_present<P: Place>(
    alloc: Global,
    place: &mut P,
    target: &PathText,
    name: &Text,
    value: &Option<Text>,
) -> Result<bool, StoreFault>
    ensures ok { IsTrue P.is_modelled →
        IfOk result (λ same. Decides same
        (input_in target.now (P.at place.old).world (Variable name.now)
        ≡ Value name.now value.now)) }
    ensures quiet { OnlyLooks MayLook result (P.at place.old) (P.at place.new) }
    ensures looks { Looks result (call.Variable name.now ∷ []) (P.at place.old).counts
        (P.at place.new).counts }
{
    let _ = target.as_str();
    match text_in(alloc, place, name) {
        Ok(found) => Ok(found == *value),
        Err(fault) => Err(fault),
    }
}

/// Returns whether the recorded value of an input is the present value. Nothing at or below the
/// target folder is looked at.
pub(crate) fn is_present<P: Place>(
    alloc: Global,
    place: &mut P,
    target: &PathText,
    input: &Input,
) -> Result<bool, StoreFault>
    ensures ok { IsTrue P.is_modelled →
        IfOk result (λ same. Decides same (IsPresent target.now (P.at place.old).world input.now)) }
    ensures quiet { OnlyLooks MayLook result (P.at place.old) (P.at place.new) }
    ensures looks { IsTrue P.is_modelled →
        Looks result (name_looked target.now (P.at place.old).world (name_of input.now))
        (P.at place.old).counts (P.at place.new).counts }
{
    match input {
        Input::File(path, bytes) => is_file_present(alloc, place, target, path, bytes),
        Input::Tree(path, files) => is_tree_present(alloc, place, target, path, files),
        Input::Value(name, value) => is_value_present(alloc, place, target, name, value),
    }
}
