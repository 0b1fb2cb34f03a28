//! What a removal removes: the target folder, and which part of this folder is chosen.

ghost use Rattle.std.specs.Prelude.{◌≡◌, ◌⊎◌, [], IfOk, IfErr, true, false, Decides};
ghost use Rattle.pb_place_types.specs.Paths.{below, is_relative};
ghost use Rattle.pb_profile.specs.Line.{folder_of as profile_folder};
ghost use Rattle.pb_tool_clean.specs.Calls.{moment_of};
ghost use Rattle.pb_tool_clean.specs.Cleaning.{IsProfile, RefusesChoice, ReportsMissing, RequiresListed, Finds, all_of, of_all_packages, chosen_of, looked_in};
ghost use Rattle.pb_tool_clean.specs.declared.fault.CleanFault.TheVariants.{NoSuchProfile, OutOfMemory};

use crate::choice::{Choice, choose};
use crate::fault::{CleanFault, Wanted};
use crate::looking::{Listed, look};
use crate::target::target_of;
use pb_data::{Items, Text, TryCopy};
use pb_place_types::{PathText, Place, RelativePath};
use pb_profile::folder_of;
use pb_workspace_types::Options;
use std::alloc::{AllocError, Global};

/// Returns the choice of everything in a target folder.
fn all_of(alloc: Global, target: &PathText) -> Result<Choice, AllocError>
    ensures { IfOk result (λ choice. choice ≡ all_of target.now) }
{
    Ok(Choice {
        target: target.copy(alloc)?,
        packages: Items::new(alloc),
        profile: None,
    })
}

/// Returns a choice without its packages: all packages are chosen.
fn of_all_packages(alloc: Global, choice: &Choice) -> Result<Choice, AllocError>
    ensures { IfOk result (λ all. all ≡ of_all_packages choice.now) }
{
    Ok(Choice {
        target: choice.target.copy(alloc)?,
        packages: Items::new(alloc),
        profile: choice.profile.copy(alloc)?,
    })
}

/// Returns the folder in which a choice looks: the folder of the profile, if a profile is named,
/// else the target folder.
fn looked_in(choice: Choice) -> PathText
    ensures { result ≡ looked_in choice }
{
    let Choice {
        target,
        packages,
        profile,
    } = choice;
    drop(packages);
    match profile {
        Some(folder) => {
            drop(target);
            folder
        }
        None => target,
    }
}

/// Returns whether nothing that was listed is chosen.
fn has_nothing(alloc: Global, choice: &Choice, listed: &Listed) -> Result<bool, AllocError>
    ensures { IfOk result (λ nothing. Decides nothing (chosen_of choice.now listed.now ≡ [])) }
{
    Ok(choose(alloc, choice, listed)?.is_empty())
}

/// Returns what is missing, if the list contains nothing that the choice wants.
fn missing_in(alloc: Global, choice: &Choice, listed: &Listed) -> Result<Option<Wanted>, AllocError>
    ensures { IfOk result (ReportsMissing choice.now listed.now) }
{
    if has_nothing(alloc, &all_of(alloc, &choice.target)?, listed)? {
        return Ok(Some(Wanted::All));
    }
    if has_nothing(alloc, &of_all_packages(alloc, choice)?, listed)? {
        return Ok(Some(Wanted::OfProfile));
    }
    if has_nothing(alloc, choice, listed)? {
        return Ok(Some(Wanted::OfPackages));
    }
    Ok(None)
}

/// Returns the choice, if something that was listed is chosen.
///
/// Errors: `Nothing`, with the folder in which the choice looks; `OutOfMemory`.
fn require_listed(alloc: Global, choice: Choice, listed: &Listed) -> Result<Choice, CleanFault>
    ensures { RequiresListed choice listed.now result }
{
    match missing_in(alloc, &choice, listed) {
        Ok(None) => Ok(choice),
        Ok(Some(Wanted::All)) => Err(CleanFault::Nothing(Wanted::All, choice.target)),
        Ok(Some(wanted)) => Err(CleanFault::Nothing(wanted, looked_in(choice))),
        Err(_) => Err(CleanFault::OutOfMemory),
    }
}

/// Returns the folder of a profile in a target folder.
///
/// Errors:
///
/// - `NoSuchProfile`, if the profile's name cannot name a folder there.
/// - `OutOfMemory`.
fn folder_in(alloc: Global, target: &PathText, profile: &str) -> Result<PathText, CleanFault>
    ensures ok { IfOk result (λ folder. (is_relative (profile_folder profile.now) ≡ true)
        × (folder ≡ below target.now (profile_folder profile.now))) }
    ensures refused { IfErr result (λ e. (e ≡ OutOfMemory)
        ⊎ ((e ≡ NoSuchProfile) × (is_relative (profile_folder profile.now) ≡ false))) }
{
    let name = match Text::from_str(alloc, folder_of(profile)) {
        Ok(name) => name,
        Err(_) => return Err(CleanFault::OutOfMemory),
    };
    let Some(name) = RelativePath::of(name) else {
        return Err(CleanFault::NoSuchProfile);
    };
    match target.below(alloc, &name) {
        Ok(folder) => Ok(folder),
        Err(_) => Err(CleanFault::OutOfMemory),
    }
}

/// Returns the folder of the profile, if a profile is named.
fn profile_of(
    alloc: Global,
    target: &PathText,
    options: &Options,
    one_profile: bool,
) -> Result<Option<PathText>, CleanFault>
    ensures ok { IfOk result (IsProfile target.now options.now.profile one_profile) }
    ensures refused { IfErr result (RefusesChoice options.now one_profile) }
{
    if !one_profile {
        return Ok(None);
    }
    match folder_in(alloc, target, options.profile.as_str()) {
        Ok(folder) => Ok(Some(folder)),
        Err(fault) => Err(fault),
    }
}

/// Returns which part of a target folder is chosen.
fn choice_in(
    alloc: Global,
    target: PathText,
    options: &Options,
    one_profile: bool,
) -> Result<Choice, CleanFault>
    ensures target { IfOk result (λ choice. choice.target ≡ target) }
    ensures packages { IfOk result (λ choice. choice.packages ≡ options.now.packages) }
    ensures profile { IfOk result
        (λ choice. IsProfile choice.target options.now.profile one_profile choice.profile) }
    ensures refused { IfErr result (RefusesChoice options.now one_profile) }
{
    let profile = match profile_of(alloc, &target, options, one_profile) {
        Ok(profile) => profile,
        Err(fault) => return Err(fault),
    };
    match options.packages.copy(alloc) {
        Ok(packages) => Ok(Choice {
            target,
            packages,
            profile,
        }),
        Err(_) => Err(CleanFault::OutOfMemory),
    }
}

/// Returns what the options of a removal choose: the target folder, the named packages or all
/// packages, and the named profile's folder, if any. At least one chosen record or unit's folder
/// exists. The function changes nothing.
///
/// Errors:
///
/// - `Nothing`, if no record and no unit's folder is chosen, with the folder that was looked at.
/// - `NoSuchProfile`, if the profile's name cannot name a folder in the target folder.
/// - `Call`, with the path of the folder that could not be listed, or with `CARGO_TARGET_DIR`.
/// - `OutOfMemory`.
pub fn find<P: Place>(
    alloc: Global,
    place: &mut P,
    options: &Options,
    one_profile: bool,
) -> Result<Choice, CleanFault>
    ensures { Finds P.is_modelled options.now one_profile result
        (moment_of (P.at place.old)) (moment_of (P.at place.new)) }
{
    let target = match target_of(alloc, place, options) {
        Ok(target) => target,
        Err(fault) => return Err(fault),
    };
    let choice = match choice_in(alloc, target, options, one_profile) {
        Ok(choice) => choice,
        Err(fault) => return Err(fault),
    };
    match look(alloc, place, &choice.target) {
        Ok(listed) => require_listed(alloc, choice, &listed),
        Err(fault) => {
            drop(choice);
            Err(fault)
        }
    }
}
