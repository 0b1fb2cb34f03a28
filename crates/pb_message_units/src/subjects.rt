//! What lines are about: the package and the target of a unit.

ghost use Rattle.std.specs.Prelude.{◌≡◌, IfOk, find};
ghost use Rattle.std.specs.Str.{bytes_eq};
ghost use Rattle.pb_message_units.specs.Telling.{library_of, binary_of, script_of, target_of, subject_with, subject_in, subject_of, lines_by, unit_lines};

use pb_command_types::Project;
use pb_data::{Text, TryCopy, with_next};
use pb_message::{Message, Subject, Target, lines_of};
use pb_place_types::PathText;
use pb_unit::{Planned, What};
use pb_workspace_types::{Library, Package};
use std::alloc::{AllocError, Global};

/// Returns the target of a package's library, if the package has a library.
fn library_of(
    alloc: Global,
    owner: &Package,
    library: &Option<Library>,
) -> Result<Option<Target>, AllocError>
    ensures { IfOk result (λ made. made ≡ library_of owner.now library.now) }
{
    match library {
        None => Ok(None),
        Some(library) => {
            let target = Target::library(
                alloc,
                library.crate_types.as_slice(),
                library.name.copy(alloc)?,
                library.source.copy(alloc)?,
                owner.edition,
            )?;
            Ok(Some(target))
        }
    }
}

/// Returns the target of the binary of this name, if there is one.
fn binary_of(alloc: Global, name: &Text, owner: &Package) -> Result<Option<Target>, AllocError>
    ensures { IfOk result (λ made. made
        ≡ binary_of owner.now (find (λ b. bytes_eq name.now b.name) owner.now.binaries)) }
{
    match owner.binaries.get_named(name) {
        None => Ok(None),
        Some(binary) => {
            let target = Target::binary(
                alloc,
                binary.name.copy(alloc)?,
                binary.source.copy(alloc)?,
                owner.edition,
                binary.required_features.copy(alloc)?,
            )?;
            Ok(Some(target))
        }
    }
}

/// Returns the target of a build script, if there is one.
fn script_of(
    alloc: Global,
    owner: &Package,
    script: &Option<PathText>,
) -> Result<Option<Target>, AllocError>
    ensures { IfOk result (λ made. made ≡ script_of owner.now script.now) }
{
    match script {
        None => Ok(None),
        Some(source) => {
            let target = Target::script(alloc, source.copy(alloc)?, owner.edition)?;
            Ok(Some(target))
        }
    }
}

/// Returns the target that a unit compiles or runs, if its package has this target.
fn target_of(alloc: Global, owner: &Package, what: &What) -> Result<Option<Target>, AllocError>
    ensures { IfOk result (λ made. made ≡ target_of owner.now what.now) }
{
    match what {
        What::Lib => library_of(alloc, owner, &owner.library),
        What::Bin(name) => binary_of(alloc, name, owner),
        What::Script => script_of(alloc, owner, &owner.script),
        What::Run => script_of(alloc, owner, &owner.script),
    }
}

/// Returns copies of a package's name, version, folder and manifest.
fn copied_of(alloc: Global, owner: &Package) -> Result<(Text, Text, PathText, PathText), AllocError>
    ensures { IfOk result (λ copied. copied
        ≡ (owner.now.name, owner.now.version, owner.now.folder, owner.now.manifest)) }
{
    let name = owner.name.copy(alloc)?;
    let version = owner.version.text().copy(alloc)?;
    let folder = owner.folder.copy(alloc)?;
    let manifest = owner.manifest.copy(alloc)?;
    Ok((name, version, folder, manifest))
}

/// Returns the package and this target as lines show them.
fn subject_with(
    alloc: Global,
    owner: &Package,
    target: Option<Target>,
) -> Result<Option<Subject>, AllocError>
    ensures { IfOk result (λ made. made ≡ subject_with owner.now target) }
{
    match target {
        None => Ok(None),
        Some(target) => {
            let copied = copied_of(alloc, owner);
            let (target, (name, version, folder, manifest)) = with_next(target, copied)?;
            Ok(Some(Subject {
                name,
                version,
                folder,
                manifest,
                target,
            }))
        }
    }
}

/// Returns the package and the target of a unit.
fn subject_of(
    alloc: Global,
    project: &Project,
    unit: &Planned,
) -> Result<Option<Subject>, AllocError>
    ensures { IfOk result (λ made. made ≡ subject_of project.now unit.now) }
{
    match project.workspace.packages.as_slice().get(unit.unit.package) {
        None => Ok(None),
        Some(owner) => {
            let target = target_of(alloc, owner, &unit.unit.what)?;
            subject_with(alloc, owner, target)
        }
    }
}

/// Returns the message lines of a unit, one after another. `started` says whether a child was
/// started for the unit.
///
/// Errors: out of memory.
pub fn lines_of_unit(
    alloc: Global,
    project: &Project,
    unit: &Planned,
    started: bool,
    messages: &[Message],
) -> Result<Text, AllocError>
    ensures { IfOk result (λ lines. lines ≡ unit_lines project.now unit.now started messages.now) }
{
    match subject_of(alloc, project, unit)? {
        None => Ok(Text::new(String::new(alloc))),
        Some(subject) => lines_of(alloc, &subject, !started, messages),
    }
}
