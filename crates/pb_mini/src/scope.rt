//! What the lines of a source can name.

ghost use Rattle.std.specs.Prelude.{◌≡◌, IfOk, OnOk, map};
ghost use Rattle.pb_data.specs.OrderedSet.{mentioned_all, once};
ghost use Rattle.pb_place_types.specs.Paths.{folder_of};
ghost use Rattle.pb_mini.specs.Scope.{library_of, with_first, with_firsts, libraries_of, scope_of};

use crate::command_line::CommandLine;
use crate::lines::name_and_value;
use pb_data::{OrderedSet, Table, Text, TryCopy, with_next};
use pb_place_types::PathText;
use std::alloc::{AllocError, Global};

/// What the lines of a source can name: libraries, conditions and variables, and the folder at
/// which paths begin.
#[derive(Drop)]
pub struct Scope {
    /// The folder of the source.
    pub folder: PathText,
    /// The file of each library by its name, from the arguments.
    pub libraries: Table<Text>,
    /// The conditions that `--cfg` sets.
    pub conditions: OrderedSet,
    /// The values that override the values of inherited variables.
    pub pairs: Table<Text>,
}

/// Adds a library with its file, unless there is already a library with this name.
fn add_library(alloc: Global, libraries: &mut Table<Text>, written: &str) -> Result<(), AllocError>
    ensures { OnOk result (libraries.new ≡ with_first libraries.old (library_of written.now)) }
{
    let (name, path) = name_and_value(written);
    let name = Text::from_str(alloc, name)?;
    if libraries.contains(&name) {
        return Ok(());
    }
    libraries.insert(name, Text::from_str(alloc, path)?)?;
    Ok(())
}

/// Returns the libraries with their files. If several libraries have the same name, the first one
/// counts.
fn libraries_of(alloc: Global, externs: &[Text]) -> Result<Table<Text>, AllocError>
    ensures { IfOk result (λ libraries. libraries ≡ libraries_of externs.now) }
{
    let mut libraries = Table::new(alloc);
    for written in externs {
        add_library(alloc, &mut libraries, written.as_str())?;
    }
    Ok(libraries)
}

/// Returns the conditions, without repeats.
#[tactic(auto, using(crate::proofs::MentionLemmas::mention_laws))]
fn conditions_of(alloc: Global, given: &[Text]) -> Result<OrderedSet, AllocError>
    ensures { IfOk result (λ conditions. conditions ≡ once given.now) }
{
    let mut conditions = OrderedSet::new(alloc);
    for condition in given {
        conditions.insert(condition.copy(alloc)?)?;
    }
    Ok(conditions)
}

/// Returns the folder of a source, and the libraries and conditions that its lines can name.
fn parts_of(
    alloc: Global,
    line: &CommandLine,
    source: &PathText,
) -> Result<(PathText, Table<Text>, OrderedSet), AllocError>
    ensures { IfOk result (λ parts. parts
        ≡ (folder_of source.now, libraries_of line.now.externs, once line.now.conditions)) }
{
    let folder = source.folder(alloc)?;
    let libraries = libraries_of(alloc, line.externs.as_slice())?;
    let conditions = conditions_of(alloc, line.conditions.as_slice())?;
    Ok((folder, libraries, conditions))
}

impl Scope {
    /// Returns the scope of a source at this path.
    pub(crate) fn new(
        alloc: Global,
        line: &CommandLine,
        pairs: Table<Text>,
        source: &PathText,
    ) -> Result<Scope, AllocError>
        ensures { IfOk result (λ scope. scope ≡ scope_of line.now pairs source.now) }
    {
        let parts = parts_of(alloc, line, source);
        let (pairs, (folder, libraries, conditions)) = with_next(pairs, parts)?;
        Ok(Scope {
            folder,
            libraries,
            conditions,
            pairs,
        })
    }
}
