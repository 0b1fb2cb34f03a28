//! Removes the chosen part of a target folder.

ghost use Rattle.std.specs.Prelude.{◌≡◌, IfOk, OnOk, OnErr, IsTrue, false, true};
ghost use Rattle.pb_place_types.specs.Paths.{is_at_or_below};
ghost use Rattle.pb_place_types.specs.World.{listed, removed};
ghost use Rattle.pb_tool_clean.specs.Calls.{Cut, Looks, Removes, moment_of, tag_in};
ghost use Rattle.pb_tool_clean.specs.Cleaning.{RemovesEach, RemovesRest, GoesOn, Cleans, CleansNow, is_bare, is_emptied, is_tag_alone, is_whole, chosen_of, listed_in};

use crate::choice::{Choice, choose, is_whole};
use crate::fault::{CleanFault, fault_of};
use crate::looking::{Listed, look, tag_in};
use pb_data::{Items, TryCopy};
use pb_place_types::{PathText, Place};
use std::alloc::Global;

/// Removes what is at a path and below it, by one call.
fn remove_one<P: Place>(alloc: Global, place: &mut P, path: &PathText) -> Result<(), CleanFault>
    ensures removes { Removes (is_at_or_below path.now) result
        (moment_of (P.at place.old)) (moment_of (P.at place.new)) }
    ensures gone { IsTrue P.is_modelled → OnOk result
        ((P.at place.new).world ≡ removed path.now (P.at place.old).world) }
    ensures cut { IsTrue P.is_modelled → OnErr result
        (Cut path.now (P.at place.old).world (P.at place.new).world) }
{
    let name = match path.copy(alloc) {
        Ok(name) => name,
        Err(_) => return Err(CleanFault::OutOfMemory),
    };
    match place.remove_tree(alloc, path) {
        Ok(()) => Ok(()),
        Err(fault) => Err(fault_of(name.into_text(), fault)),
    }
}

/// Removes what is at some paths and below them, one path after another. The first fault ends the
/// removal.
fn remove_each<P: Place>(alloc: Global, place: &mut P, paths: &[PathText]) -> Result<(), CleanFault>
    ensures { RemovesEach P.is_modelled paths.now result
        (moment_of (P.at place.old)) (moment_of (P.at place.new)) }
{
    for path in paths {
        match remove_one(alloc, place, path) {
            Ok(()) => {}
            Err(fault) => return Err(fault),
        }
    }
    Ok(())
}

/// Returns the files below a folder, by one call.
fn list_all<P: Place>(
    alloc: Global,
    place: &mut P,
    folder: &PathText,
) -> Result<Items<PathText>, CleanFault>
    ensures ok { IsTrue P.is_modelled → IfOk result
        (λ files. files ≡ listed folder.now (P.at place.old).world) }
    ensures looks { Looks result (moment_of (P.at place.old)) (moment_of (P.at place.new)) }
{
    let name = match folder.copy(alloc) {
        Ok(name) => name,
        Err(_) => return Err(CleanFault::OutOfMemory),
    };
    match place.list(alloc, folder) {
        Ok(files) => Ok(files),
        Err(fault) => Err(fault_of(name.into_text(), fault)),
    }
}

/// Returns whether there is no file, or only the tag.
fn is_tag_alone(tag: &PathText, files: &[PathText]) -> bool
    ensures { result ≡ is_tag_alone tag.now files.now }
{
    match files {
        [] => true,
        [file] => file.as_str() == tag.as_str(),
        _ => false,
    }
}

/// Returns whether a target folder has no file, or only its tag.
fn has_tag_alone<P: Place>(
    alloc: Global,
    place: &mut P,
    target: &PathText,
) -> Result<bool, CleanFault>
    ensures ok { IsTrue P.is_modelled → IfOk result (λ alone. alone
        ≡ is_tag_alone (tag_in target.now) (listed target.now (P.at place.old).world)) }
    ensures looks { Looks result (moment_of (P.at place.old)) (moment_of (P.at place.new)) }
{
    let tag = match tag_in(alloc, target) {
        Ok(tag) => tag,
        Err(_) => return Err(CleanFault::OutOfMemory),
    };
    match list_all(alloc, place, target) {
        Ok(files) => Ok(is_tag_alone(&tag, files.as_slice())),
        Err(fault) => Err(fault),
    }
}

/// Returns whether nothing was listed.
fn is_bare(listed: &Listed) -> bool
    ensures { result ≡ is_bare listed.now }
{
    listed.files.is_empty() && listed.folders.is_empty()
}

/// Returns whether nothing is in the folders of the profiles of a target folder.
fn has_bare_profiles<P: Place>(
    alloc: Global,
    place: &mut P,
    target: &PathText,
) -> Result<bool, CleanFault>
    ensures ok { IsTrue P.is_modelled → IfOk result
        (λ bare. bare ≡ is_bare (listed_in target.now (P.at place.old).world)) }
    ensures looks { Looks result (moment_of (P.at place.old)) (moment_of (P.at place.new)) }
{
    match look(alloc, place, target) {
        Ok(listed) => Ok(is_bare(&listed)),
        Err(fault) => Err(fault),
    }
}

/// Returns whether a target folder contains only its tag.
fn is_emptied<P: Place>(alloc: Global, place: &mut P, target: &PathText) -> Result<bool, CleanFault>
    ensures ok { IsTrue P.is_modelled → IfOk result
        (λ emptied. emptied ≡ is_emptied target.now (P.at place.old).world) }
    ensures looks { Looks result (moment_of (P.at place.old)) (moment_of (P.at place.new)) }
{
    match has_bare_profiles(alloc, place, target) {
        Ok(true) => has_tag_alone(alloc, place, target),
        Ok(false) => Ok(false),
        Err(fault) => Err(fault),
    }
}

/// Removes a target folder if it contains only its tag.
fn remove_rest<P: Place>(alloc: Global, place: &mut P, target: &PathText) -> Result<(), CleanFault>
    ensures { RemovesRest P.is_modelled target.now result
        (moment_of (P.at place.old)) (moment_of (P.at place.new)) }
{
    match is_emptied(alloc, place, target) {
        Ok(true) => remove_one(alloc, place, target),
        Ok(false) => Ok(()),
        Err(fault) => Err(fault),
    }
}

/// Removes the chosen part of what was listed.
#[tactic(auto, using(crate::proofs::Cuts::none_cut))]
fn remove_chosen<P: Place>(
    alloc: Global,
    place: &mut P,
    choice: &Choice,
    listed: &Listed,
) -> Result<(), CleanFault>
    ensures { RemovesEach P.is_modelled (chosen_of choice.now listed.now) result
        (moment_of (P.at place.old)) (moment_of (P.at place.new)) }
{
    match choose(alloc, choice, listed) {
        Ok(paths) => remove_each(alloc, place, paths.as_slice()),
        Err(_) => Err(CleanFault::OutOfMemory),
    }
}

/// Removes the rest of the target folder, if everything was chosen and the chosen part was removed.
/// A fault ends the removal.
fn go_on<P: Place>(
    alloc: Global,
    place: &mut P,
    choice: &Choice,
    first: Result<(), CleanFault>,
) -> Result<(), CleanFault>
    ensures { GoesOn P.is_modelled (is_whole choice.now) choice.now.target first result
        (moment_of (P.at place.old)) (moment_of (P.at place.new)) }
{
    match first {
        Ok(()) => {
            if is_whole(choice) {
                remove_rest(alloc, place, &choice.target)
            } else {
                Ok(())
            }
        }
        Err(fault) => Err(fault),
    }
}

/// Removes the chosen part of what was listed, and nothing else: records first, then the folders of
/// units. If everything is chosen and the target folder then contains only its tag, the target
/// folder is removed, too.
///
/// Errors: those of `clean`.
fn remove<P: Place>(
    alloc: Global,
    place: &mut P,
    choice: &Choice,
    listed: &Listed,
) -> Result<(), CleanFault>
    ensures { Cleans P.is_modelled choice.now listed.now result
        (moment_of (P.at place.old)) (moment_of (P.at place.new)) }
{
    let first = remove_chosen(alloc, place, choice, listed);
    go_on(alloc, place, choice, first)
}

/// Lists the folders of the profiles in a target folder, and removes exactly the chosen part of
/// this list. Records are removed first, and then the folders of units. If everything is chosen and
/// the target folder then contains only its tag, the target folder is removed, too.
///
/// Errors:
///
/// - `Call`, with the path of the call that failed.
/// - `OutOfMemory`.
///
/// What was removed before the error stays removed.
pub fn clean<P: Place>(alloc: Global, place: &mut P, choice: &Choice) -> Result<(), CleanFault>
    ensures { CleansNow P.is_modelled choice.now result
        (moment_of (P.at place.old)) (moment_of (P.at place.new)) }
{
    match look(alloc, place, &choice.target) {
        Ok(listed) => remove(alloc, place, choice, &listed),
        Err(fault) => Err(fault),
    }
}
