//! The present values of inputs.

ghost use Rattle.std.specs.Prelude.{◌≡◌, ◌∷◌, IsTrue, IfOk, List, [], map};
ghost use Rattle.std.specs.FinMap as finite;
ghost use Rattle.std.specs.List.{filter_map};
ghost use Rattle.pb_place_types.specs.declared.call.Call.TheVariants as call;
ghost use Rattle.pb_place_types.specs.Paths.{inside};
ghost use Rattle.pb_place_types.specs.World.{from_nothing, listed, removed};
ghost use Rattle.pb_record.specs.declared.record.InputName.TheVariants.{Path, Variable};
ghost use Rattle.pb_store_soundness.specs.Inputs.{contents, input_in, path_input};
ghost use Rattle.pb_store.specs.Calls.{OnlyLooks, MayRead, MayLook};
ghost use Rattle.pb_store.specs.Looking.{Looks, name_looked, names_looked, source_looked};
ghost use Rattle.pb_store.specs.Presence.{file_in, file_looked, files_looked};

use crate::fault::{StoreFault, store_error};
use crate::store::text_of;
use pb_data::{Bytes, Items, Text, TryCopy};
use pb_place_types::{PathText, Place, RelativePath};
use pb_record::{Input, InputName};
use std::alloc::Global;

/// Returns the bytes of a file of the sources, or none if there is no file. For a path at or below
/// the target folder the result is none, and no call is made.
#[tactic(auto, using(crate::proofs::Present::source_laws))]
pub(crate) fn source_at<P: Place>(
    alloc: Global,
    place: &mut P,
    target: &PathText,
    path: &PathText,
) -> Result<Option<Bytes>, StoreFault>
    ensures ok { IsTrue P.is_modelled →
        IfOk result
        (λ found. found ≡ finite.get (from_nothing target.now (P.at place.old).world).files
        path.now) }
    ensures quiet { OnlyLooks MayRead result (P.at place.old) (P.at place.new) }
    ensures looks { Looks result (source_looked target.now path.now) (P.at place.old).counts
        (P.at place.new).counts }
{
    if path.starts_with(target) {
        return Ok(None);
    }
    match text_of(alloc, place, path) {
        Ok(found) => Ok(found),
        Err(fault) => Err(fault),
    }
}

/// Returns the file at a path. The returned path is relative to a folder. The result is none if the
/// path is not below the folder, or if there is no file.
pub(crate) fn file_at<P: Place>(
    alloc: Global,
    place: &mut P,
    folder: &PathText,
    path: &PathText,
) -> Result<Option<(RelativePath, Bytes)>, StoreFault>
    ensures ok { IsTrue P.is_modelled →
        IfOk result (λ found. found ≡ file_in folder.now (P.at place.old).world.files path.now) }
    ensures quiet { OnlyLooks MayRead result (P.at place.old) (P.at place.new) }
    ensures looks { Looks result (file_looked path.now (inside folder.now path.now))
        (P.at place.old).counts (P.at place.new).counts }
{
    let relative = match path.inside(alloc, folder) {
        Ok(Some(relative)) => relative,
        Ok(None) => return Ok(None),
        Err(_) => return Err(StoreFault::OutOfMemory),
    };
    match text_of(alloc, place, path) {
        Ok(Some(bytes)) => Ok(Some((relative, bytes))),
        Ok(None) => Ok(None),
        Err(fault) => Err(fault),
    }
}

/// Returns the files at these paths, with their paths relative to a folder.
fn files_at<P: Place>(
    alloc: Global,
    place: &mut P,
    folder: &PathText,
    paths: &[PathText],
) -> Result<Items<(RelativePath, Bytes)>, StoreFault>
    ensures ok { IsTrue P.is_modelled →
        IfOk result (λ files. files ≡ filter_map (file_in folder.now (P.at place.old).world.files)
        paths.now) }
    ensures quiet { OnlyLooks MayRead result (P.at place.old) (P.at place.new) }
    ensures looks { Looks result (files_looked folder.now paths.now) (P.at place.old).counts
        (P.at place.new).counts }
{
    let mut made = Items::new(alloc);
    for path in paths {
        let found = file_at(alloc, place, folder, path)?;
        if let Some(file) = found {
            match made.push(file) {
                Ok(()) => {}
                Err(_) => return Err(StoreFault::OutOfMemory),
            }
        }
    }
    Ok(made)
}

/// Returns the paths of the files below a folder, except files at or below the target folder.
#[tactic(auto, using(crate::proofs::Looking::stops_once))]
pub(crate) fn paths_outside<P: Place>(
    alloc: Global,
    place: &mut P,
    target: &PathText,
    folder: &PathText,
) -> Result<Items<PathText>, StoreFault>
    ensures ok { IsTrue P.is_modelled →
        IfOk result
        (λ paths. paths ≡ listed folder.now (removed target.now (P.at place.old).world)) }
    ensures quiet { OnlyLooks MayLook result (P.at place.old) (P.at place.new) }
    ensures looks { Looks result (call.ListOutside folder.now target.now ∷ [])
        (P.at place.old).counts (P.at place.new).counts }
{
    match place.list_outside(alloc, folder, target) {
        Ok(paths) => Ok(paths),
        Err(fault) => Err(store_error(fault)),
    }
}

/// Returns the paths of the files below a folder.
#[tactic(auto, using(crate::proofs::Looking::stops_once))]
pub(crate) fn paths_below<P: Place>(
    alloc: Global,
    place: &mut P,
    folder: &PathText,
) -> Result<Items<PathText>, StoreFault>
    ensures ok { IsTrue P.is_modelled →
        IfOk result (λ paths. paths ≡ listed folder.now (P.at place.old).world) }
    ensures quiet { OnlyLooks MayLook result (P.at place.old) (P.at place.new) }
    ensures looks { Looks result (call.List folder.now ∷ []) (P.at place.old).counts
        (P.at place.new).counts }
{
    match place.list(alloc, folder) {
        Ok(paths) => Ok(paths),
        Err(fault) => Err(store_error(fault)),
    }
}

/// Returns the sources below a folder, with their paths relative to the folder, in byte order.
#[tactic(auto, using(crate::proofs::Present::sources_in))]
fn sources_in<P: Place>(
    alloc: Global,
    place: &mut P,
    target: &PathText,
    folder: &PathText,
) -> Result<Items<(RelativePath, Bytes)>, StoreFault>
    ensures ok { IsTrue P.is_modelled →
        IfOk result
        (λ files. files ≡ contents folder.now
        (from_nothing target.now (P.at place.old).world).files) }
    ensures quiet { OnlyLooks MayLook result (P.at place.old) (P.at place.new) }
    ensures looks { IsTrue P.is_modelled →
        Looks result (call.ListOutside folder.now target.now ∷ map call.Read
        (listed folder.now (removed target.now (P.at place.old).world))) (P.at place.old).counts
        (P.at place.new).counts }
{
    let paths = paths_outside(alloc, place, target, folder)?;
    match files_at(alloc, place, folder, paths.as_slice()) {
        Ok(files) => Ok(files),
        Err(fault) => Err(fault),
    }
}

/// Returns the text of a variable, or none if the variable is not set.
#[tactic(auto, using(crate::proofs::Looking::stops_once))]
pub(crate) fn text_in<P: Place>(
    alloc: Global,
    place: &mut P,
    name: &Text,
) -> Result<Option<Text>, StoreFault>
    ensures ok { IsTrue P.is_modelled →
        IfOk result (λ found. found ≡ finite.get (P.at place.old).world.variables name.now) }
    ensures quiet { OnlyLooks MayLook result (P.at place.old) (P.at place.new) }
    ensures looks { Looks result (call.Variable name.now ∷ []) (P.at place.old).counts
        (P.at place.new).counts }
{
    match place.variable(alloc, name.as_str()) {
        Ok(found) => Ok(found),
        Err(fault) => Err(store_error(fault)),
    }
}

/// Returns the present value of a path: the bytes of a file, or the files of a folder.
fn path_now<P: Place>(
    alloc: Global,
    place: &mut P,
    target: &PathText,
    path: &PathText,
) -> Result<Input, StoreFault>
    ensures ok { IsTrue P.is_modelled →
        IfOk result
        (λ input. input ≡ path_input path.now (from_nothing target.now (P.at place.old).world).files
        (finite.get (from_nothing target.now (P.at place.old).world).files path.now)) }
    ensures quiet { OnlyLooks MayLook result (P.at place.old) (P.at place.new) }
    ensures looks { IsTrue P.is_modelled →
        Looks result (name_looked target.now (P.at place.old).world (Path path.now))
        (P.at place.old).counts (P.at place.new).counts }
{
    let name = match path.copy(alloc) {
        Ok(name) => name,
        Err(_) => return Err(StoreFault::OutOfMemory),
    };
    match source_at(alloc, place, target, path) {
        Ok(Some(bytes)) => return Ok(Input::File(name, bytes)),
        Ok(None) => {}
        Err(fault) => return Err(fault),
    }
    match sources_in(alloc, place, target, path) {
        Ok(files) => Ok(Input::Tree(name, files)),
        Err(fault) => Err(fault),
    }
}

/// Returns the present value of a variable.
fn value_now<P: Place>(
    alloc: Global,
    place: &mut P,
    target: &PathText,
    name: &Text,
) -> Result<Input, StoreFault>
    ensures ok { IsTrue P.is_modelled →
        IfOk result (λ input. input ≡ input_in target.now (P.at place.old).world
        (Variable name.now)) }
    ensures quiet { OnlyLooks MayLook result (P.at place.old) (P.at place.new) }
    ensures looks { Looks result (call.Variable name.now ∷ []) (P.at place.old).counts
        (P.at place.new).counts }
{
    let copied = match name.copy(alloc) {
        Ok(copied) => copied,
        Err(_) => return Err(StoreFault::OutOfMemory),
    };
    match text_in(alloc, place, name) {
        Ok(found) => Ok(Input::Value(copied, found)),
        Err(fault) => Err(fault),
    }
}

/// Returns the input of this name with its present value. Nothing at or below the target folder is
/// looked at.
fn input_now<P: Place>(
    alloc: Global,
    place: &mut P,
    target: &PathText,
    name: &InputName,
) -> Result<Input, StoreFault>
    ensures ok { IsTrue P.is_modelled →
        IfOk result (λ input. input ≡ input_in target.now (P.at place.old).world name.now) }
    ensures quiet { OnlyLooks MayLook result (P.at place.old) (P.at place.new) }
    ensures looks { IsTrue P.is_modelled →
        Looks result (name_looked target.now (P.at place.old).world name.now)
        (P.at place.old).counts (P.at place.new).counts }
{
    match name {
        InputName::Path(path) => path_now(alloc, place, target, path),
        InputName::Variable(name) => value_now(alloc, place, target, name),
    }
}

/// Returns the inputs of these names with their present values.
pub(crate) fn present<P: Place>(
    alloc: Global,
    place: &mut P,
    target: &PathText,
    names: &[InputName],
) -> Result<Items<Input>, StoreFault>
    ensures ok { IsTrue P.is_modelled →
        IfOk result
        (λ inputs. inputs ≡ map (input_in target.now (P.at place.old).world) names.now) }
    ensures quiet { OnlyLooks MayLook result (P.at place.old) (P.at place.new) }
    ensures looks { IsTrue P.is_modelled →
        Looks result (names_looked target.now (P.at place.old).world names.now)
        (P.at place.old).counts (P.at place.new).counts }
{
    let mut made = Items::new(alloc);
    for name in names {
        let input = input_now(alloc, place, target, name)?;
        match made.push(input) {
            Ok(()) => {}
            Err(_) => return Err(StoreFault::OutOfMemory),
        }
    }
    Ok(made)
}
