//! The target folder, as a build finds it.

ghost use Rattle.std.specs.Prelude.{◌≡◌, IfOk, IfErr, IsTrue, codes};
ghost use Rattle.std.specs.FinMap as finite;
ghost use Rattle.pb_place_types.specs.Paths.{below, folder_of};
ghost use Rattle.pb_tool_clean.specs.Calls.{Looks, moment_of};
ghost use Rattle.pb_tool_clean.specs.Cleaning.{set_text, told_or, target_of};

use crate::fault::{CleanFault, fault_of};
use pb_data::Text;
use pb_place_types::{PathFault, PathText, Place, RelativePath};
use pb_workspace_types::Options;
use std::alloc::{AllocError, Global};

/// The variable that may name the target folder.
const VARIABLE: &str = "CARGO_TARGET_DIR";

/// Returns a text, unless it is empty.
fn unless_empty(found: Option<Text>) -> Option<Text>
    ensures { result ≡ set_text found }
{
    match found {
        Some(text) => {
            if text.as_str().is_empty() {
                None
            } else {
                Some(text)
            }
        }
        None => None,
    }
}

/// Returns the value of `CARGO_TARGET_DIR`, by one call.
fn variable<P: Place>(alloc: Global, place: &mut P) -> Result<Option<Text>, CleanFault>
    ensures ok { IsTrue P.is_modelled → IfOk result (λ found. found ≡ set_text
        (finite.get (P.at place.old).world.variables (codes "CARGO_TARGET_DIR"))) }
    ensures looks { Looks result (moment_of (P.at place.old)) (moment_of (P.at place.new)) }
{
    let name = match Text::from_str(alloc, VARIABLE) {
        Ok(name) => name,
        Err(_) => return Err(CleanFault::OutOfMemory),
    };
    match place.variable(alloc, VARIABLE) {
        Ok(found) => Ok(unless_empty(found)),
        Err(fault) => Err(fault_of(name, fault)),
    }
}

/// Returns the path that a text means. A relative text starts at the root. If there is no text, or
/// if the text contains byte 0, returns `other`.
fn told_or(
    alloc: Global,
    root: &PathText,
    other: PathText,
    text: &Option<Text>,
) -> Result<PathText, AllocError>
    ensures { IfOk result (λ path. path ≡ told_or root.now other text.now) }
{
    match text {
        None => Ok(other),
        Some(text) => match root.join(alloc, text.as_str()) {
            Ok(path) => Ok(path),
            Err(PathFault::OutOfMemory) => Err(AllocError),
            Err(_) => Ok(other),
        },
    }
}

/// Returns the standard target folder: `target` in the root.
fn standard(alloc: Global, root: &PathText) -> Result<PathText, AllocError>
    ensures { IfOk result (λ path. path ≡ below root.now (codes "target")) }
{
    let name = RelativePath::name(alloc, "target")?;
    root.below(alloc, &name)
}

/// Returns the target folder, from the options and the value of `CARGO_TARGET_DIR`.
fn target_by(
    alloc: Global,
    options: &Options,
    variable: &Option<Text>,
) -> Result<PathText, AllocError>
    ensures { IfOk result (λ path. path ≡ told_or (folder_of options.now.manifest)
        (told_or (folder_of options.now.manifest)
        (below (folder_of options.now.manifest) (codes "target")) variable.now)
        options.now.target_dir) }
{
    let root = options.manifest.folder(alloc)?;
    let standard = standard(alloc, &root)?;
    let other = told_or(alloc, &root, standard, variable)?;
    told_or(alloc, &root, other, &options.target_dir)
}

/// Returns the target folder of a build with these options. The folder is the value of
/// `--target-dir`, else the value of the variable `CARGO_TARGET_DIR`, else `target` in the folder
/// of the manifest.
///
/// Errors: `Call`, with the variable's name; `OutOfMemory`.
pub fn target_of<P: Place>(
    alloc: Global,
    place: &mut P,
    options: &Options,
) -> Result<PathText, CleanFault>
    ensures ok { IsTrue P.is_modelled → IfOk result (λ target.
        target ≡ target_of options.now (P.at place.old).world.variables) }
    ensures looks { Looks result (moment_of (P.at place.old)) (moment_of (P.at place.new)) }
{
    let variable = match variable(alloc, place) {
        Ok(variable) => variable,
        Err(fault) => return Err(fault),
    };
    match target_by(alloc, options, &variable) {
        Ok(target) => Ok(target),
        Err(_) => Err(CleanFault::OutOfMemory),
    }
}
