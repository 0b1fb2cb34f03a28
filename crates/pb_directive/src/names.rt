//! Reads the dep-info of a compiler.

ghost use Rattle.std.specs.Prelude.{◌≡◌, ◌==◌};
ghost use Rattle.std.specs.List.{before_first};
ghost use Rattle.std.specs.Str.Lines.{strip_carriage_return};
ghost use Rattle.pb_directive.specs.Faults.{TextGives};
ghost use Rattle.pb_directive.specs.DepInfo.{variable_info, full_line, rule_info, line_info, dep_info_of, AddsInfo, after_outputs};

use crate::dep_info::DepInfo;
use crate::fault::{LineFault, Problem};
use crate::lines::lines_of;
use crate::rules::{add_words, after_outputs};
use crate::texts::{after_prefix, has_nul, split_at_equals, text_of};
use pb_data::Text;
use std::alloc::Global;

/// Returns a line without a carriage return at its end.
fn without_return(line: &[u8]) -> &[u8]
    ensures { result.now ≡ strip_carriage_return line.now }
{
    match line {
        [front @ .., b'\r'] => front,
        _ => line,
    }
}

/// Returns the name of a variable, from `NAME` or `NAME=VALUE`.
#[tactic(auto, using(crate::proofs::NameLemmas::name_laws))]
fn name_of(text: &str) -> &str
    ensures { result.now ≡ before_first (λ b. b == 61) text.now }
{
    match split_at_equals(text) {
        Some((name, _)) => name,
        None => text,
    }
}

/// Adds a variable to the names of dep-info.
fn add_variable(alloc: Global, text: &str, info: &mut DepInfo) -> Result<(), Problem>
    ensures { AddsInfo result info.old info.new (variable_info text.now) }
{
    let name = name_of(text);
    if name.is_empty() || has_nul(name) {
        return Err(Problem::BadValue);
    }
    let name = Text::from_str(alloc, name)?;
    info.variables.insert(name)?;
    Ok(())
}

/// Adds to `info` the words that a rule has after its outputs.
fn add_rule(alloc: Global, text: &str, info: &mut DepInfo) -> Result<(), Problem>
    ensures { AddsInfo result info.old info.new (rule_info (after_outputs text.now)) }
{
    let Some(rest) = after_outputs(text) else {
        return Err(Problem::BadValue);
    };
    if has_nul(rest) {
        return Err(Problem::BadValue);
    }
    add_words(alloc, rest, &mut info.words)?;
    Ok(())
}

/// Adds the names in a line that is not empty.
fn add_full_line(alloc: Global, text: &str, info: &mut DepInfo) -> Result<(), Problem>
    ensures { AddsInfo result info.old info.new (full_line text.now) }
{
    if after_prefix("#", text).is_none() {
        return add_rule(alloc, text, info);
    }
    if let Some(variable) = after_prefix("# env-dep:", text) {
        return add_variable(alloc, variable, info);
    }
    Ok(())
}

/// Adds the names in a line.
fn add_line(alloc: Global, line: &[u8], info: &mut DepInfo) -> Result<(), Problem>
    ensures { AddsInfo result info.old info.new (line_info line.now) }
{
    let Some(text) = text_of(without_return(line)) else {
        return Err(Problem::NotText);
    };
    if text.is_empty() {
        return Ok(());
    }
    add_full_line(alloc, text, info)
}

/// Reads the dep-info of a compiler (The Cargo Book, "Build Cache").
///
/// The text is read line by line. What follows the last line feed is a line too, and a carriage
/// return at the end of a line is ignored. A line is one of these:
///
/// - An empty line names nothing.
/// - A line `# env-dep:NAME` or `# env-dep:NAME=VALUE` names a variable, whatever the value. Other
///   lines that begin with `#` name nothing.
/// - Any other line is a rule. The outputs of the rule end at the first `:` that is followed by a
///   space or ends the line. After this `:` come the rule's words, separated by spaces. In a word,
///   `\ ` means a space, and any other `\` means itself.
///
/// Errors: the error of the first faulty line, with the line's number, counted from 1:
///
/// - `NotText`, if the line is not UTF-8.
/// - `BadValue`, if a rule has no such `:`, if a word or a variable's name contains byte 0, or if a
///   name is empty.
/// - `OutOfMemory`.
pub fn read_dep_info(alloc: Global, bytes: &[u8]) -> Result<DepInfo, LineFault>
    ensures { TextGives result (dep_info_of bytes.now) }
{
    let mut info = DepInfo::new(alloc);
    let mut number: u64 = 1;
    for line in lines_of(bytes) {
        match add_line(alloc, line, &mut info) {
            Ok(()) => number += 1,
            Err(problem) => return Err(problem.at(number)),
        }
    }
    Ok(info)
}
