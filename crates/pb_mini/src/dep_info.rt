//! The dep-info file, which lists what a compile read.

ghost use Rattle.std.specs.Prelude.{◌≡◌, ◌++◌, IfOk, OnOk, ℕ, List};
ghost use Rattle.pb_mini.specs.DepInfo.{rule_text, spelled, paths_text, value_text, variable_text, variables_text, dep_info_text};

use pb_data::{Items, OrderedSet, Table, Text, with_next};
use pb_place_types::PathText;
use std::alloc::{AllocError, Global};

/// The names of all that a compile read, without repeats, in order of first mention. Apart from
/// these files and variables, only the files of other units may change the reply.
#[derive(Drop)]
pub struct Names {
    /// Files, including those that do not exist.
    pub paths: OrderedSet,
    /// Variables, each with the value that the compile saw, or none if it was not set.
    pub variables: Table<Option<Text>>,
}

/// Appends a path, with `\ ` for each space.
fn push_spelled(text: &mut Vec<u8>, path: &str) -> Result<(), AllocError>
    ensures { OnOk result (text.new.items ≡ text.old.items ++ spelled path.now) }
{
    for byte in path.as_bytes() {
        if *byte == b' ' {
            text.push(b'\\')?;
        }
        text.push(*byte)?;
    }
    Ok(())
}

/// Appends paths, each after a space.
fn push_paths(text: &mut Vec<u8>, paths: &[Text]) -> Result<(), AllocError>
    ensures { OnOk result (text.new.items ≡ text.old.items ++ paths_text paths.now) }
{
    for path in paths {
        text.push(b' ')?;
        push_spelled(text, path.as_str())?;
    }
    Ok(())
}

/// Appends the line of a variable.
fn push_variable(text: &mut Vec<u8>, variable: &(Text, Option<Text>)) -> Result<(), AllocError>
    ensures { OnOk result (text.new.items ≡ text.old.items ++ variable_text variable.now) }
{
    text.extend_from_slice(b"# env-dep:")?;
    text.extend_from_slice(variable.0.as_bytes())?;
    if let Some(value) = &variable.1 {
        text.push(b'=')?;
        text.extend_from_slice(value.as_bytes())?;
    }
    text.push(b'\n')?;
    Ok(())
}

/// Appends the lines of variables.
fn push_variables(text: &mut Vec<u8>, variables: &[(Text, Option<Text>)]) -> Result<(), AllocError>
    ensures { OnOk result (text.new.items ≡ text.old.items ++ variables_text variables.now) }
{
    for variable in variables {
        push_variable(text, variable)?;
    }
    Ok(())
}

/// Returns the rule: the output, a colon, and the paths.
fn rule_text(alloc: Global, output: &PathText, paths: &[Text]) -> Result<Vec<u8>, AllocError>
    ensures { IfOk result (λ text. text.items ≡ rule_text output.now paths.now) }
{
    let mut text = Vec::new(alloc);
    push_spelled(&mut text, output.as_str())?;
    text.push(b':')?;
    push_paths(&mut text, paths)?;
    text.push(b'\n')?;
    Ok(text)
}

/// Returns the variables in `names`.
fn variables_of(alloc: Global, names: Names) -> Result<Items<(Text, Option<Text>)>, AllocError>
    ensures { IfOk result (λ variables. variables ≡ names.variables) }
{
    names.variables.into_items(alloc)
}

/// Returns a text followed by the lines of the variables in `names`.
fn with_variables(alloc: Global, text: Vec<u8>, names: Names) -> Result<Vec<u8>, AllocError>
    ensures { IfOk result (λ whole. whole.items ≡ text.items ++ variables_text names.variables) }
{
    let variables = variables_of(alloc, names);
    let (mut text, variables) = with_next(text, variables)?;
    push_variables(&mut text, variables.as_slice())?;
    Ok(text)
}

/// Returns the dep-info of a compile. The first line contains the output, a colon, and the paths,
/// with `\ ` for each space. The Cargo Book ("Build Cache") compares this form to a makefile. As in
/// the dep-info of real compilers, each variable follows on a line `# env-dep:NAME=VALUE`. If a
/// variable is not set, its line has no `=VALUE`.
pub(crate) fn dep_info_text(
    alloc: Global,
    output: &PathText,
    names: Names,
) -> Result<Vec<u8>, AllocError>
    ensures { IfOk result (λ text. text.items ≡ dep_info_text output.now names) }
{
    let text = rule_text(alloc, output, names.paths.as_slice())?;
    let text = with_variables(alloc, text, names)?;
    Ok(text)
}
