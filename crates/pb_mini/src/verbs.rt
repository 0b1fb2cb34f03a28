//! The effect of each line of a source.

ghost use Rattle.std.specs.Prelude.{◌≡◌, ◌<◌, ◌++◌, codes, map, IfOk, OnOk, IfErr, IfSome, IsTrue, length, ℕ, List};
ghost use Rattle.std.specs.Option.{option_map};
ghost use Rattle.pb_data.specs.OrderedSet.{is_mentioned};
ghost use Rattle.pb_mini.specs.Effects.{AddsEffect, followed_by, joined, copied, copied_file, diagnosed};
ghost use Rattle.pb_mini.specs.Lines.{word_in};
ghost use Rattle.pb_mini.specs.Verbs.{line_meant, meant_at, library_path, used, use_effect, env_line, told, env_effect, verb_of, is_passed_over, effect_by, effect_of, effects_from};

use crate::diagnostic::Level;
use crate::effects::{Effects, add_copied, add_diagnostic, add_file, add_said, add_variable};
use crate::include::add_include;
use crate::lines::word_and_rest;
use crate::lookups::{file_at, path_of, value_of};
use crate::scope::Scope;
use pb_data::{Bytes, OrderedSet, Text};
use pb_place_types::{PathText, View, ViewFault};
use std::alloc::{AllocError, Global};

/// The first word of a line.
#[derive(Clone, Copy)]
pub enum Verb {
    /// The lines of a library are added to the image.
    Use,
    /// The lines of a file are added to the image.
    Include,
    /// The value of a variable is added to the image.
    Env,
    /// A warning is reported. The rest of the line is its message.
    Warn,
    /// An error is reported. The rest of the line is its message.
    Fail,
    /// The line is added to the image unchanged. A run of the image carries it out.
    Copied,
    /// The word is not a verb of the language.
    Unknown,
}

/// Returns the verb of a word.
fn verb_of(word: &str) -> Verb
    ensures { result ≡ verb_of word.now }
{
    if word == "use" {
        return Verb::Use;
    }
    if word == "include" {
        return Verb::Include;
    }
    if word == "env" {
        return Verb::Env;
    }
    if word == "warn" {
        return Verb::Warn;
    }
    if word == "fail" {
        return Verb::Fail;
    }
    if word == "print" || word == "show" || word == "read" || word == "put" || word == "exit" {
        return Verb::Copied;
    }
    Verb::Unknown
}

/// Returns whether a line is empty or a comment.
fn is_passed_over(line: &str) -> bool
    ensures { result ≡ is_passed_over line.now }
{
    match line.as_bytes() {
        [] => true,
        [first, ..] => *first == b'#',
    }
}

/// Returns whether a condition is given.
fn is_given(alloc: Global, given: &OrderedSet, condition: &str) -> Result<bool, AllocError>
    ensures { IfOk result (λ is. is ≡ is_mentioned given.now condition.now) }
{
    let condition = Text::from_str(alloc, condition)?;
    Ok(given.contains(&condition))
}

/// Returns COND and LINE of a line `when COND LINE`, or none for any other line.

fn condition_of(line: &str) -> Option<(&str, &str)>
    ensures line { (given : List (List ℕ)) → line_meant given line.now
        ≡ meant_at given line.now (option_map (λ p. (p.0.now, p.1.now)) result) }
    ensures shorter { IfSome result (λ p. length p.1.now < length line.now) }
{
    let (word, rest) = word_and_rest(line);
    if word != "when" {
        return None;
    }
    Some(word_and_rest(rest))
}

/// Returns a line without each leading `when COND`. If one of these conditions is not given, the
/// result is empty.
fn line_meant<'a>(alloc: Global, given: &OrderedSet, line: &'a str) -> Result<&'a str, AllocError>
    ensures { IfOk result (λ meant. meant.now ≡ line_meant given.now line.now) }
{
    let mut left = line;
    while let Some((condition, rest)) = condition_of(left) {
        if !is_given(alloc, given, condition)? {
            return Ok("");
        }
        left = rest;
    }
    Ok(left)
}

/// Returns the path of a library's file, from the command line.
fn library_path(alloc: Global, scope: &Scope, name: &str) -> Result<Option<PathText>, AllocError>
    ensures { IfOk result (λ path. path ≡ library_path scope.now name.now) }
{
    let name = Text::from_str(alloc, name)?;
    match scope.libraries.get(&name) {
        Some(path) => path_of(alloc, path.as_str()),
        None => Ok(None),
    }
}

/// Returns the message that there is no library.
fn no_library(alloc: Global, name: &str) -> Result<Text, AllocError>
    ensures { IfOk result (λ message. message ≡ codes "no library " ++ name.now) }
{
    let message = format!(in alloc; "no library {name}")?;
    Ok(Text::new(message))
}

/// Reports that there is no library.
fn add_no_library(
    alloc: Global,
    effects: &mut Effects,
    number: u64,
    name: &str,
) -> Result<(), AllocError>
    ensures { OnOk result (AddsEffect effects.new effects.old
        (diagnosed Level.Error (codes "no library " ++ name.now) number)) }
{
    let message = no_library(alloc, name)?;
    add_diagnostic(effects, Level::Error, message, number)
}

/// Adds the line and each line of the library's file.
fn add_library(
    alloc: Global,
    effects: &mut Effects,
    line: &str,
    file: &[u8],
) -> Result<(), AllocError>
    ensures { OnOk result (AddsEffect effects.new effects.old
        (joined (copied line.now) (copied_file (codes "> ") file.now))) }
{
    add_copied(effects, line)?;
    add_file(alloc, effects, b"> ", file)?;
    Ok(())
}

/// Adds the line and each line of the library's file, or reports that there is no library.

fn add_used(
    alloc: Global,
    effects: &mut Effects,
    number: u64,
    line: &str,
    name: &str,
    file: &Option<Bytes>,
) -> Result<(), AllocError>
    ensures { OnOk result
        (AddsEffect effects.new effects.old (used number line.now name.now file.now)) }
{
    match file {
        Some(bytes) => add_library(alloc, effects, line, bytes.as_slice()),
        None => add_no_library(alloc, effects, number, name),
    }
}

/// Carries out the line `use NAME`.
fn add_use<V: View>(
    alloc: Global,
    effects: &mut Effects,
    scope: &Scope,
    view: &V,
    number: u64,
    line: &str,
    name: &str,
) -> Result<(), ViewFault>
    ensures done { IsTrue V.is_modelled →
        OnOk result (AddsEffect effects.new effects.old
        (use_effect scope.now (V.shown view.now) number line.now name.now)) }
    ensures failed { IfErr result (λ e. e ≡ ViewFault.Failed → V.fails view.now) }
{
    let path = library_path(alloc, scope, name)?;
    let file = file_at(alloc, view, &path)?;
    add_used(alloc, effects, number, line, name, &file)?;
    Ok(())
}

/// Returns the line `env NAME=VALUE`, or `env NAME` if the variable is not set.
fn env_line(alloc: Global, name: &str, value: &Option<Text>) -> Result<Text, AllocError>
    ensures { IfOk result (λ line. line ≡ env_line name.now value.now) }
{
    let mut line = String::from_str(alloc, "env ")?;
    line.push_str(name)?;
    if let Some(value) = value {
        line.push_str("=")?;
        line.push_str(value.as_str())?;
    }
    Ok(Text::new(line))
}

/// Adds a variable to the names of what is read, and a line with its value to the image.

fn add_told(
    alloc: Global,
    effects: &mut Effects,
    name: &str,
    value: Option<Text>,
) -> Result<(), AllocError>
    ensures { OnOk result (AddsEffect effects.new effects.old (told name.now value)) }
{
    let line = env_line(alloc, name, &value)?;
    let name = Text::from_str(alloc, name)?;
    add_variable(effects, name, value)?;
    add_copied(effects, line.as_str())?;
    Ok(())
}

/// Carries out the line `env NAME`.
fn add_env<V: View>(
    alloc: Global,
    effects: &mut Effects,
    scope: &Scope,
    view: &V,
    name: &str,
) -> Result<(), ViewFault>
    ensures done { IsTrue V.is_modelled →
        OnOk result (AddsEffect effects.new effects.old
        (env_effect scope.now (V.shown view.now) name.now)) }
    ensures failed { IfErr result (λ e. e ≡ ViewFault.Failed → V.fails view.now) }
{
    let value = value_of(alloc, &scope.pairs, view, name)?;
    add_told(alloc, effects, name, value)?;
    Ok(())
}

/// Carries out a line by its verb and its rest.
fn add_by<V: View>(
    alloc: Global,
    effects: &mut Effects,
    scope: &Scope,
    view: &V,
    verb: Verb,
    number: u64,
    line: &str,
    rest: &str,
) -> Result<(), ViewFault>
    ensures done { IsTrue V.is_modelled →
        OnOk result (AddsEffect effects.new effects.old
        (effect_by verb scope.now (V.shown view.now) number line.now rest.now)) }
    ensures failed { IfErr result (λ e. e ≡ ViewFault.Failed → V.fails view.now) }
{
    match verb {
        Verb::Use => add_use(alloc, effects, scope, view, number, line, rest)?,
        Verb::Include => add_include(alloc, effects, scope, view, number, rest)?,
        Verb::Env => add_env(alloc, effects, scope, view, rest)?,
        Verb::Warn => add_said(alloc, effects, Level::Warning, rest, number)?,
        Verb::Fail => add_said(alloc, effects, Level::Error, rest, number)?,
        Verb::Copied => add_copied(effects, line)?,
        Verb::Unknown => add_said(alloc, effects, Level::Error, "unknown line", number)?,
    }
    Ok(())
}

/// Carries out one line with this number, counted from 1.
fn add_line<V: View>(
    alloc: Global,
    effects: &mut Effects,
    scope: &Scope,
    view: &V,
    number: u64,
    line: &str,
) -> Result<(), ViewFault>
    ensures done { IsTrue V.is_modelled →
        OnOk result (AddsEffect effects.new effects.old
        (effect_of scope.now (V.shown view.now) number line.now)) }
    ensures failed { IfErr result (λ e. e ≡ ViewFault.Failed → V.fails view.now) }
{
    let meant = line_meant(alloc, &scope.conditions, line)?;
    if is_passed_over(meant) {
        return Ok(());
    }
    let (word, rest) = word_and_rest(meant);
    let verb = verb_of(word);
    add_by(alloc, effects, scope, view, verb, number, meant, rest)?;
    Ok(())
}

/// Carries out lines, one after another. The first line has the number 1.
#[tactic(auto, using(crate::proofs::DoingLemmas::followed_nothing))]
pub(crate) fn add_lines<V: View>(
    alloc: Global,
    effects: &mut Effects,
    scope: &Scope,
    view: &V,
    lines: &[&str],
) -> Result<(), ViewFault>
    ensures done { IsTrue V.is_modelled →
        OnOk result (effects.new ≡ followed_by effects.old
        (effects_from scope.now (V.shown view.now) 0 (map (λ line. line.now) lines.now))) }
    ensures failed { IfErr result (λ e. e ≡ ViewFault.Failed → V.fails view.now) }
{
    for (index, line) in lines.iter().enumerate() {
        add_line(alloc, effects, scope, view, index as u64 + 1, *line)?;
    }
    Ok(())
}
