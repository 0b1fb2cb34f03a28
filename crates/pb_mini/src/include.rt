//! The line `include PATH`.

ghost use Rattle.std.specs.Prelude.{◌≡◌, ◌≢◌, ◌==◌, ℕ, List, MatchOption, ◌∷◌, ◌++◌, [], codes, IfOk, OnOk, IfErr, IsTrue, string_bytes};
ghost use Rattle.std.specs.List.{before_first};
ghost use Rattle.std.specs.Option.{option_map, option_map_or};
ghost use Rattle.pb_mini.specs.Effects.{AddsEffect, diagnosed};
ghost use Rattle.pb_mini.specs.Lookups.{path_from, file_at};
ghost use Rattle.pb_mini.specs.Verbs.{from_slash, variable_in, variable_of, expanded, asks_for, included_lines, included, include_effect};

use crate::diagnostic::Level;
use crate::effects::{Effects, add_diagnostic, add_file, add_path, add_variable};
use crate::lookups::{file_at, path_from, value_of};
use crate::scope::Scope;
use pb_data::{Bytes, Table, Text, with_next};
use pb_place_types::{PathText, View, ViewFault};
use std::alloc::{AllocError, Global};

/// Returns the text before the first slash and, if there is a slash, the text after it.
#[tactic(auto, using(crate::proofs::SlashLemmas::slash_laws))]
fn first_part(text: &str) -> (&str, Option<&str>)
    ensures part { result.0.now ≡ before_first (λ b. b == 47) text.now }
    ensures rest { from_slash text.now ≡ option_map_or (λ rest. 47 ∷ rest.now) result.1 [] }
{
    match text.split_once('/') {
        Some((part, rest)) => (part, Some(rest)),
        None => (text, None),
    }
}

/// Returns the text after a leading `$`, if there is one.
fn after_dollar(path: &str) -> Option<&str>
    ensures { MatchOption result ((rest : List ℕ) → path.now ≢ 36 ∷ rest) (λ rest. path.now
        ≡ 36 ∷ rest.now) }
{
    path.strip_prefix('$')
}

/// Returns the name of the variable in the first part of a path, as in `$NAME/x`.
#[tactic(auto, using(crate::proofs::SlashLemmas::variable_laws))]
fn variable_in(path: &str) -> Option<&str>
    ensures { option_map (λ name. name.now) result ≡ variable_in path.now }
{
    match after_dollar(path) {
        Some(rest) => Some(first_part(rest).0),
        None => None,
    }
}

/// Returns the variable in the first part of a path, with its value.
fn variable_of<V: View>(
    alloc: Global,
    pairs: &Table<Text>,
    view: &V,
    path: &str,
) -> Result<Option<(Text, Option<Text>)>, ViewFault>
    ensures variable { IsTrue V.is_modelled →
        IfOk result (λ variable. variable ≡ variable_of pairs.now (V.shown view.now) path.now) }
    ensures failed { IfErr result (λ e. e ≡ ViewFault.Failed → V.fails view.now) }
{
    match variable_in(path) {
        Some(name) => {
            let value = value_of(alloc, pairs, view, name)?;
            let name = Text::from_str(alloc, name)?;
            Ok(Some((name, value)))
        }
        None => Ok(None),
    }
}

/// Returns a path in which a value replaces the first part.
fn with_first_part(alloc: Global, value: &str, path: &str) -> Result<String, AllocError>
    ensures { IfOk result (λ text. string_bytes text ≡ value.now ++ from_slash path.now) }
{
    let mut text = String::from_str(alloc, value)?;
    if let Some(rest) = first_part(path).1 {
        text.push_str("/")?;
        text.push_str(rest)?;
    }
    Ok(text)
}

/// Returns a path in which the variable's value replaces the first part. The value is empty if the
/// variable is not set.
fn expand_path(
    alloc: Global,
    path: &str,
    variable: &Option<(Text, Option<Text>)>,
) -> Result<String, AllocError>
    ensures { IfOk result (λ text. string_bytes text ≡ expanded path.now variable.now) }
{
    match variable {
        None => String::from_str(alloc, path),
        Some((_, None)) => with_first_part(alloc, "", path),
        Some((_, Some(value))) => with_first_part(alloc, value.as_str(), path),
    }
}

/// Adds the variable of a path to the names of what is read, if the path has a variable.
fn add_variable_of(
    effects: &mut Effects,
    variable: Option<(Text, Option<Text>)>,
) -> Result<(), AllocError>
    ensures { OnOk result (AddsEffect effects.new effects.old (asks_for variable)) }
{
    if let Some((name, value)) = variable {
        add_variable(effects, name, value)?;
    }
    Ok(())
}

/// Returns the message that there is no file.
fn no_file(alloc: Global, written: &str) -> Result<Text, AllocError>
    ensures { IfOk result (λ message. message ≡ codes "no file " ++ written.now) }
{
    let message = format!(in alloc; "no file {written}")?;
    Ok(Text::new(message))
}

/// Reports that there is no file.
fn add_no_file(
    alloc: Global,
    effects: &mut Effects,
    number: u64,
    written: &str,
) -> Result<(), AllocError>
    ensures { OnOk result (AddsEffect effects.new effects.old
        (diagnosed Level.Error (codes "no file " ++ written.now) number)) }
{
    let message = no_file(alloc, written)?;
    add_diagnostic(effects, Level::Error, message, number)
}

/// Adds each line of the included file to the image, or reports that there is no file.
fn add_lines_of(
    alloc: Global,
    effects: &mut Effects,
    number: u64,
    written: &str,
    found: &Option<Bytes>,
) -> Result<(), AllocError>
    ensures { OnOk result (AddsEffect effects.new effects.old
        (included_lines number written.now found.now)) }
{
    match found {
        Some(bytes) => add_file(alloc, effects, b"| ", bytes.as_slice()),
        None => add_no_file(alloc, effects, number, written),
    }
}

/// Adds the variable and the file to the names of what is read, and the file's lines to the image.
fn add_included(
    alloc: Global,
    effects: &mut Effects,
    number: u64,
    written: &str,
    variable: Option<(Text, Option<Text>)>,
    path: Option<PathText>,
    found: &Option<Bytes>,
) -> Result<(), AllocError>
    ensures { OnOk result (AddsEffect effects.new effects.old
        (included number written.now variable path found.now)) }
{
    add_variable_of(effects, variable)?;
    add_path(effects, path)?;
    add_lines_of(alloc, effects, number, written, found)?;
    Ok(())
}

/// Returns the path of the file that a line includes, or none if the text contains byte 0.
fn path_included(
    alloc: Global,
    folder: &PathText,
    written: &str,
    variable: &Option<(Text, Option<Text>)>,
) -> Result<Option<PathText>, AllocError>
    ensures { IfOk result (λ path. path
        ≡ path_from folder.now (expanded written.now variable.now)) }
{
    let text = expand_path(alloc, written, variable)?;
    path_from(alloc, folder, text.as_str())
}

/// Returns the path of the file that a line includes, and the file, if it exists.
fn file_included<V: View>(
    alloc: Global,
    folder: &PathText,
    view: &V,
    written: &str,
    variable: &Option<(Text, Option<Text>)>,
) -> Result<(Option<PathText>, Option<Bytes>), ViewFault>
    ensures file { IsTrue V.is_modelled →
        IfOk result (λ found. found
        ≡ (
          path_from folder.now (expanded written.now variable.now),
          file_at (V.shown view.now)
              (path_from folder.now (expanded written.now variable.now)),
        )) }
    ensures failed { IfErr result (λ e. e ≡ ViewFault.Failed → V.fails view.now) }
{
    let path = path_included(alloc, folder, written, variable)?;
    let found = file_at(alloc, view, &path);
    with_next(path, found)
}

/// Carries out the line `include PATH`.
pub(crate) fn add_include<V: View>(
    alloc: Global,
    effects: &mut Effects,
    scope: &Scope,
    view: &V,
    number: u64,
    written: &str,
) -> Result<(), ViewFault>
    ensures done { IsTrue V.is_modelled →
        OnOk result (AddsEffect effects.new effects.old
        (include_effect scope.now (V.shown view.now) number written.now)) }
    ensures failed { IfErr result (λ e. e ≡ ViewFault.Failed → V.fails view.now) }
{
    let variable = variable_of(alloc, &scope.pairs, view, written)?;
    let found = file_included(alloc, &scope.folder, view, written, &variable);
    let (variable, (path, found)) = with_next(variable, found)?;
    add_included(alloc, effects, number, written, variable, path, &found)?;
    Ok(())
}
