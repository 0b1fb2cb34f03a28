//! Looks up the units that a unit needs, by their packages, and the directives of runs.

ghost use Rattle.std.specs.Prelude.{◌≡◌, IfOk, option_map};
ghost use Rattle.pb_command_types.specs.Targets.{unit_at, is_library, is_script, is_run, is_one_of, needed, own_run, file_at, library_file, script_file, said_at, own_said};

use crate::project::Project;
use crate::targets::made_file;
use pb_directive::{Directive, Directives};
use pb_place_types::PathText;
use pb_unit::{Planned, What};
use std::alloc::{AllocError, Global};

/// Returns the unit at an index of the plan.
pub fn unit_at(project: &Project, index: usize) -> Option<&Planned>
    ensures { option_map (λ unit. unit.now) result ≡ unit_at project.now index }
{
    project.plan.planned.as_slice().get(index)
}

/// Returns whether a unit is a library.
pub fn is_library(what: &What) -> bool
    ensures { result ≡ is_library what.now }
{
    matches!(what, What::Lib)
}

/// Returns whether a unit is a script.
fn is_script(what: &What) -> bool
    ensures { result ≡ is_script what.now }
{
    matches!(what, What::Script)
}

/// Returns whether a unit is the run of a script.
pub fn is_run(what: &What) -> bool
    ensures { result ≡ is_run what.now }
{
    matches!(what, What::Run)
}

/// Returns whether the unit at an index is the library of a package.
fn is_library_of(project: &Project, index: usize, owner: usize) -> bool
    ensures { result ≡ is_one_of is_library owner (unit_at project.now index) }
{
    match unit_at(project, index) {
        Some(unit) => is_library(&unit.unit.what) && unit.unit.package == owner,
        None => false,
    }
}

/// Returns whether the unit at an index is a script of a package.
fn is_script_of(project: &Project, index: usize, owner: usize) -> bool
    ensures { result ≡ is_one_of is_script owner (unit_at project.now index) }
{
    match unit_at(project, index) {
        Some(unit) => is_script(&unit.unit.what) && unit.unit.package == owner,
        None => false,
    }
}

/// Returns whether the unit at an index is a run of a package's script.
fn is_run_of(project: &Project, index: usize, owner: usize) -> bool
    ensures { result ≡ is_one_of is_run owner (unit_at project.now index) }
{
    match unit_at(project, index) {
        Some(unit) => is_run(&unit.unit.what) && unit.unit.package == owner,
        None => false,
    }
}

/// Returns the index of the library of a package, if a unit needs this library.
fn needed_library(project: &Project, unit: &Planned, owner: usize) -> Option<usize>
    ensures { result ≡ needed is_library project.now unit.now owner }
{
    unit.needs
        .as_slice()
        .iter()
        .copied()
        .find(|index| is_library_of(project, *index, owner))
}

/// Returns the index of the script of a package, if a unit needs this script.
fn needed_script(project: &Project, unit: &Planned, owner: usize) -> Option<usize>
    ensures { result ≡ needed is_script project.now unit.now owner }
{
    unit.needs
        .as_slice()
        .iter()
        .copied()
        .find(|index| is_script_of(project, *index, owner))
}

/// Returns the index of the run of a unit's own package, if the unit needs this run.
pub fn own_run(project: &Project, unit: &Planned) -> Option<usize>
    ensures { result ≡ own_run project.now unit.now }
{
    let owner = unit.unit.package;
    unit.needs
        .as_slice()
        .iter()
        .copied()
        .find(|index| is_run_of(project, *index, owner))
}

/// Returns the file that the unit at an index of the plan produces.
fn file_at(
    alloc: Global,
    project: &Project,
    index: Option<usize>,
) -> Result<Option<PathText>, AllocError>
    ensures { IfOk result (λ file. file ≡ file_at project.now index) }
{
    match index {
        Some(index) => match unit_at(project, index) {
            Some(unit) => made_file(alloc, project, unit),
            None => Ok(None),
        },
        None => Ok(None),
    }
}

/// Returns the file of the library of a package, if a unit needs this library.
///
/// Errors: only out of memory.
pub fn library_file(
    alloc: Global,
    project: &Project,
    unit: &Planned,
    owner: usize,
) -> Result<Option<PathText>, AllocError>
    ensures { IfOk result (λ file. file ≡ library_file project.now unit.now owner) }
{
    file_at(alloc, project, needed_library(project, unit, owner))
}

/// Returns the file of the script of a unit's own package, if the unit needs this script.
///
/// Errors: only out of memory.
pub fn script_file(
    alloc: Global,
    project: &Project,
    unit: &Planned,
) -> Result<Option<PathText>, AllocError>
    ensures { IfOk result (λ file. file ≡ script_file project.now unit.now) }
{
    let index = needed_script(project, unit, unit.unit.package);
    file_at(alloc, project, index)
}

/// Returns the directives of the run at an index of the plan.
pub fn said_at(done: &[Option<Directives>], index: usize) -> &[Directive]
    ensures { result.now ≡ said_at done.now index }
{
    match done.get(index) {
        Some(Some(directives)) => directives.as_slice(),
        _ => &[],
    }
}

/// Returns the directives of the run of a unit's own package.
pub fn own_said<'a>(
    project: &Project,
    unit: &Planned,
    done: &'a [Option<Directives>],
) -> &'a [Directive]
    ensures { result.now ≡ own_said project.now unit.now done.now }
{
    match own_run(project, unit) {
        Some(index) => said_at(done, index),
        None => &[],
    }
}
