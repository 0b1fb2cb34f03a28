//! Which part of a target folder is chosen.

ghost use Rattle.std.specs.Prelude.{◌≡◌, ◌++◌, ◌&&◌, IfOk, OnOk, map, option_copied};
ghost use Rattle.pb_tool_clean.specs.Cleaning.{chosen_of, is_whole};
ghost use Rattle.pb_tool_clean.specs.Names.{is_within, is_chosen, is_chosen_record, is_chosen_folder, records_among, folders_among};

use crate::looking::Listed;
use crate::names::{is_named, is_record, is_unit, package_in, words_in};
use pb_data::{Items, Text, TryCopy};
use pb_place_types::PathText;
use std::alloc::{AllocError, Global};

/// Which part of a target folder is chosen.
#[derive(Drop)]
pub struct Choice {
    /// The target folder.
    pub target: PathText,
    /// The names of the chosen packages; if there are no names, all packages are chosen.
    pub packages: Items<Text>,
    /// The folder of the chosen profile; `None` if all profiles are chosen.
    pub profile: Option<PathText>,
}

/// Returns whether a path is below a folder. Returns true if there is no folder.
fn is_within(folder: &Option<PathText>, path: &PathText) -> bool
    ensures { result ≡ is_within folder.now path.now }
{
    match folder {
        Some(folder) => path.is_below(folder),
        None => true,
    }
}

/// Returns whether a path whose last part has these words is chosen.
fn is_chosen(choice: &Choice, words: &[&str], path: &PathText) -> bool
    ensures { result ≡ is_chosen choice.now (map (λ word. word.now) words.now) path.now }
{
    path.is_below(&choice.target)
        && is_named(choice.packages.as_slice(), package_in(words))
        && is_within(&choice.profile, path)
}

/// Returns whether a path is the path of a chosen record.
fn is_chosen_record(alloc: Global, choice: &Choice, path: &PathText) -> Result<bool, AllocError>
    ensures { IfOk result (λ is. is ≡ is_chosen_record choice.now path.now) }
{
    let words = words_in(alloc, path.last_part())?;
    Ok(is_record(words.as_slice()) && is_chosen(choice, words.as_slice(), path))
}

/// Returns whether a path is the path of a chosen unit's folder.
fn is_chosen_folder(alloc: Global, choice: &Choice, path: &PathText) -> Result<bool, AllocError>
    ensures { IfOk result (λ is. is ≡ is_chosen_folder choice.now path.now) }
{
    let words = words_in(alloc, path.last_part())?;
    Ok(is_unit(words.as_slice()) && is_chosen(choice, words.as_slice(), path))
}

/// Returns the chosen records among some paths.
fn records_among(
    alloc: Global,
    choice: &Choice,
    paths: &[PathText],
) -> Result<Items<PathText>, AllocError>
    ensures { IfOk result (λ records. records ≡ records_among choice.now paths.now) }
{
    let mut records = Items::new(alloc);
    for path in paths {
        if is_chosen_record(alloc, choice, path)? {
            records.push(path.copy(alloc)?)?;
        }
    }
    Ok(records)
}

/// Adds the chosen folders among some paths.
fn push_folders(
    alloc: Global,
    chosen: &mut Items<PathText>,
    choice: &Choice,
    paths: &[PathText],
) -> Result<(), AllocError>
    ensures { OnOk result (chosen.new ≡ chosen.old ++ folders_among choice.now paths.now) }
{
    for path in paths {
        if is_chosen_folder(alloc, choice, path)? {
            chosen.push(path.copy(alloc)?)?;
        }
    }
    Ok(())
}

/// Returns the chosen part of what was listed: records first, then the folders of units.
///
/// Errors: out of memory.
pub fn choose(
    alloc: Global,
    choice: &Choice,
    listed: &Listed,
) -> Result<Items<PathText>, AllocError>
    ensures { IfOk result (λ chosen. chosen ≡ chosen_of choice.now listed.now) }
{
    let mut chosen = records_among(alloc, choice, listed.files.as_slice())?;
    push_folders(alloc, &mut chosen, choice, listed.folders.as_slice())?;
    Ok(chosen)
}

/// Returns whether everything is chosen.
pub(crate) fn is_whole(choice: &Choice) -> bool
    ensures { result ≡ is_whole choice.now }
{
    choice.packages.is_empty() && choice.profile.is_none()
}
