//! The effects of lines. Lines add bytes to the image, report diagnostics, and read files and
//! variables.

ghost use Rattle.std.specs.Prelude.{◌≡◌, IfOk, OnOk, Some};
ghost use Rattle.pb_mini.specs.Effects.{no_effects, joined, followed_by, AddsEffect, copied, copied_file, diagnosed, reads, asks};

use crate::buffer::Buffer;
use crate::dep_info::Names;
use crate::diagnostic::{Diagnostic, Level};
use crate::lines::{push_line, push_quoted};
use pb_data::{Items, OrderedSet, Table, Text};
use pb_place_types::PathText;
use std::alloc::{AllocError, Global};

/// The effects of the lines of a source, together.
#[derive(Drop)]
pub struct Effects {
    /// The lines of the image after the first line, each with its line feed.
    pub image: Buffer,
    /// The diagnostics about the lines.
    pub diagnostics: Items<Diagnostic>,
    /// The names of what the lines read.
    pub names: Names,
}

impl Effects {
    /// Returns no effects. No memory is used.
    pub(crate) fn new(alloc: Global) -> Effects
        ensures { result ≡ no_effects }
    {
        Effects {
            image: Buffer::new(alloc),
            diagnostics: Items::new(alloc),
            names: Names {
                paths: OrderedSet::new(alloc),
                variables: Table::new(alloc),
            },
        }
    }
}

/// Adds a diagnostic.
pub(crate) fn add_diagnostic(
    effects: &mut Effects,
    level: Level,
    message: Text,
    number: u64,
) -> Result<(), AllocError>
    ensures { OnOk result (AddsEffect effects.new effects.old (diagnosed level message number)) }
{
    effects.diagnostics.push(Diagnostic {
        level,
        message,
        line: number,
    })?;
    Ok(())
}

/// Adds a diagnostic with a copy of its message.
pub(crate) fn add_said(
    alloc: Global,
    effects: &mut Effects,
    level: Level,
    message: &str,
    number: u64,
) -> Result<(), AllocError>
    ensures { OnOk result
        (AddsEffect effects.new effects.old (diagnosed level message.now number)) }
{
    add_diagnostic(effects, level, Text::from_str(alloc, message)?, number)
}

/// Adds a line of the image.
pub(crate) fn add_copied(effects: &mut Effects, line: &str) -> Result<(), AllocError>
    ensures { OnOk result (AddsEffect effects.new effects.old (copied line.now)) }
{
    push_line(&mut effects.image, line.as_bytes())?;
    Ok(())
}

/// Adds the lines of a file to the image, each after a mark.
pub(crate) fn add_file(
    alloc: Global,
    effects: &mut Effects,
    mark: &[u8],
    bytes: &[u8],
) -> Result<(), AllocError>
    ensures { OnOk result (AddsEffect effects.new effects.old (copied_file mark.now bytes.now)) }
{
    push_quoted(alloc, &mut effects.image, mark, bytes)?;
    Ok(())
}

/// Adds the path of a file to the names of what is read, if there is a path.
pub(crate) fn add_path(effects: &mut Effects, path: Option<PathText>) -> Result<(), AllocError>
    ensures { OnOk result (AddsEffect effects.new effects.old (reads path)) }
{
    if let Some(path) = path {
        effects.names.paths.insert(path.into_text())?;
    }
    Ok(())
}

/// Adds a variable and its value to the names of what is read.
pub(crate) fn add_variable(
    effects: &mut Effects,
    name: Text,
    value: Option<Text>,
) -> Result<(), AllocError>
    ensures { OnOk result (AddsEffect effects.new effects.old (asks name value)) }
{
    effects.names.variables.insert(name, value)?;
    Ok(())
}
