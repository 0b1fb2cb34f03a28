//! The inputs of a unit: paths and variables, without repeats.

ghost use Rattle.std.specs.Prelude.{◌≡◌, ◌++◌, ◌∷◌, [], not, IsTrue, IfOk, OnOk, map, filter, option_map, List, ℕ};
ghost use Rattle.std.specs.List.{flat_map, find};
ghost use Rattle.pb_data.specs.UnlessOom.{UnlessOom};
ghost use Rattle.pb_data.specs.OrderedSet.{is_mentioned, mentioned, mentioned_all, once};
ghost use Rattle.pb_command_reply.specs.Answers.{path_said, paths_from, is_covered, is_foreign, is_source, inputs_of, inherited};
ghost use Rattle.pb_record.specs.declared.record.InputName.TheVariants.{Path, Variable};
ghost use Rattle.pb_command_types.specs.declared.fault.UnitFault.TheVariants as unit_fault;

use crate::meaning::Meaning;
use pb_command_types::UnitFault;
use pb_data::{Items, OrderedSet, Text, TryCopy};
use pb_place_types::{Command, PathFault, PathText};
use pb_record::InputName;
use std::alloc::{AllocError, Global};

/// Adds a path, unless it has been seen. `seen` contains the texts of all paths that have been
/// seen.
fn mention(
    alloc: Global,
    paths: &mut Items<PathText>,
    seen: &mut OrderedSet,
    path: PathText,
) -> Result<(), AllocError>
    requires { seen.old ≡ paths.old }
    ensures paths { OnOk result (paths.new ≡ mentioned paths.old path) }
    ensures seen { OnOk result (seen.new ≡ paths.new) }
{
    let text = Text::from_str(alloc, path.as_str())?;
    if seen.contains(&text) {
        return Ok(());
    }
    seen.insert(text)?;
    paths.push(path)?;
    Ok(())
}

/// Adds paths, one after another, except paths that have been seen.
fn mention_all(
    alloc: Global,
    paths: &mut Items<PathText>,
    seen: &mut OrderedSet,
    said: Items<PathText>,
) -> Result<(), AllocError>
    requires { seen.old ≡ paths.old }
    ensures { OnOk result (paths.new ≡ mentioned_all paths.old said) }
{
    for path in said.into_vec() {
        mention(alloc, paths, seen, path)?;
    }
    Ok(())
}

/// Returns paths without repeats, in order of first mention.
#[tactic(auto, using(crate::proofs::Naming::naming_laws))]
fn paths_once(alloc: Global, said: Items<PathText>) -> Result<Items<PathText>, AllocError>
    ensures { IfOk result (λ paths. paths ≡ once said) }
{
    let mut paths = Items::new(alloc);
    let mut seen = OrderedSet::new(alloc);
    mention_all(alloc, &mut paths, &mut seen, said)?;
    Ok(paths)
}

/// Adds the path of a text relative to a folder, if the text has a path.
#[tactic(auto, unfolding(crate::specs::Answers::path_said))]
fn push_said<M: Meaning>(
    alloc: Global,
    meaning: &M,
    paths: &mut Items<PathText>,
    folder: &PathText,
    text: &Text,
) -> Result<(), AllocError>
    ensures { IsTrue M.joins →
        OnOk result (paths.new ≡ paths.old ++ path_said folder.now text.now) }
{
    match meaning.path_from(alloc, folder, text.as_str()) {
        Ok(path) => {
            paths.push(path)?;
            Ok(())
        }
        Err(PathFault::OutOfMemory) => Err(AllocError),
        Err(_) => Ok(()),
    }
}

/// Returns the paths of some texts relative to a folder, one after another.
fn paths_said<M: Meaning>(
    alloc: Global,
    meaning: &M,
    folder: &PathText,
    texts: &[Text],
) -> Result<Items<PathText>, AllocError>
    ensures { IsTrue M.joins →
        IfOk result (λ paths. paths ≡ flat_map (path_said folder.now) texts.now) }
{
    let mut paths = Items::new(alloc);
    for text in texts {
        push_said(alloc, meaning, &mut paths, folder, text)?;
    }
    Ok(paths)
}

/// Returns the paths of some texts relative to a folder, without repeats, in order of first
/// mention.
pub(crate) fn paths_from<M: Meaning>(
    alloc: Global,
    meaning: &M,
    folder: &PathText,
    texts: &[Text],
) -> Result<Items<PathText>, AllocError>
    ensures { IsTrue M.joins → IfOk result (λ paths. paths ≡ paths_from folder.now texts.now) }
{
    let said = paths_said(alloc, meaning, folder, texts)?;
    paths_once(alloc, said)
}

/// Returns the set of these names, inserted one after another.
fn all_mentioned(alloc: Global, names: &[Text]) -> Result<OrderedSet, AllocError>
    ensures { IfOk result (λ made. made ≡ mentioned_all [] names.now) }
{
    let mut made = OrderedSet::new(alloc);
    for name in names {
        made.insert(name.copy(alloc)?)?;
    }
    Ok(made)
}

/// Returns names without repeats, in order of first mention.
#[tactic(auto, using(crate::proofs::Naming::naming_laws))]
pub(crate) fn once(alloc: Global, names: &[Text]) -> Result<Items<Text>, AllocError>
    ensures { IfOk result (λ made. made ≡ once names.now) }
{
    let made = all_mentioned(alloc, names)?;
    let items = made.into_items(alloc)?;
    Ok(items)
}

/// Returns whether a path is in the folder of a reached unit.
#[tactic(auto, unfolding(crate::specs::Answers::is_covered))]
fn is_covered(command: &Command, path: &PathText) -> bool
    ensures { result ≡ is_covered command.now path.now }
{
    command
        .reads
        .as_slice()
        .iter()
        .any(|folder| path.starts_with(folder))
}

/// Returns whether a path is in the target folder, but in no folder of a reached unit.
#[tactic(auto, unfolding(crate::specs::Answers::is_foreign))]
fn is_foreign(command: &Command, path: &PathText) -> bool
    ensures { result ≡ is_foreign command.now path.now }
{
    path.starts_with(&command.target) && !is_covered(command, path)
}

/// Returns whether a path is outside the target folder.
#[tactic(auto, unfolding(crate::specs::Answers::is_source))]
fn is_source(command: &Command, path: &PathText) -> bool
    ensures { result ≡ is_source command.now path.now }
{
    !path.starts_with(&command.target)
}

/// Returns the first path that is in the target folder but in no folder of a reached unit, if there
/// is such a path.
fn first_foreign<'a>(command: &Command, paths: &'a [PathText]) -> Option<&'a PathText>
    ensures { option_map (λ path. path.now) result ≡ find (is_foreign command.now) paths.now }
{
    paths.iter().find(|path| is_foreign(command, *path))
}

/// Adds the paths outside the target folder.
fn push_sources(
    inputs: &mut Items<InputName>,
    command: &Command,
    paths: Items<PathText>,
) -> Result<(), AllocError>
    ensures { OnOk result (inputs.new ≡ inputs.old
        ++ map Path (filter (is_source command.now) paths)) }
{
    for path in paths.into_vec() {
        if is_source(command, &path) {
            inputs.push(InputName::Path(path))?;
        }
    }
    Ok(())
}

/// Adds variables.
fn push_variables(inputs: &mut Items<InputName>, names: Items<Text>) -> Result<(), AllocError>
    ensures { OnOk result (inputs.new ≡ inputs.old ++ map Variable names) }
{
    for name in names.into_vec() {
        inputs.push(InputName::Variable(name))?;
    }
    Ok(())
}

/// Returns the inputs: the paths outside the target folder, and the variables.
///
/// Errors:
///
/// - `ForeignInput`, if a path is in the target folder but in no folder of a reached unit.
/// - `OutOfMemory`.
pub(crate) fn inputs_of(
    alloc: Global,
    command: &Command,
    paths: Items<PathText>,
    names: Items<Text>,
) -> Result<Items<InputName>, UnitFault>
    ensures { UnlessOom unit_fault.OutOfMemory (λ inputs.
        inputs) result (inputs_of command.now paths names) }
{
    if let Some(path) = first_foreign(command, paths.as_slice()) {
        return Err(UnitFault::ForeignInput(path.copy(alloc)?));
    }
    let mut inputs = Items::new(alloc);
    push_sources(&mut inputs, command, paths)?;
    push_variables(&mut inputs, names)?;
    Ok(inputs)
}

/// Returns the names that pairs set.
fn names_set(alloc: Global, pairs: &[(Text, Text)]) -> Result<OrderedSet, AllocError>
    ensures { IfOk result (λ names. names ≡ mentioned_all [] (map (λ pair. pair.0) pairs.now)) }
{
    let mut names = OrderedSet::new(alloc);
    for pair in pairs {
        names.insert(pair.0.copy(alloc)?)?;
    }
    Ok(names)
}

/// Returns the names that a command sets.
fn names_of(alloc: Global, command: &Command) -> Result<OrderedSet, AllocError>
    ensures { IfOk result (λ names. names
        ≡ mentioned_all [] (map (λ (pair : List ℕ × List ℕ). pair.0) command.now.pairs)) }
{
    names_set(alloc, command.pairs.as_slice())
}

/// Returns the names that are not among `others`.
fn names_but(alloc: Global, names: &[Text], others: &OrderedSet) -> Result<Items<Text>, AllocError>
    ensures { IfOk result (λ left. left
        ≡ filter (λ name. not (is_mentioned others.now name)) names.now) }
{
    let mut left = Items::new(alloc);
    for name in names {
        if !others.contains(name) {
            left.push(name.copy(alloc)?)?;
        }
    }
    Ok(left)
}

/// Returns the variables that a command does not set.
pub(crate) fn variables_not_set(
    alloc: Global,
    command: &Command,
    names: &[Text],
) -> Result<Items<Text>, AllocError>
    ensures { IfOk result (λ left. left ≡ inherited command.now names.now) }
{
    let others = names_of(alloc, command)?;
    let left = names_but(alloc, names, &others)?;
    Ok(left)
}
