//! Diagnostics, and how they are written.

ghost use Rattle.std.specs.Prelude.{◌≡◌, ◌++◌, IfOk, OnOk, string_bytes, ℕ, List};
ghost use Rattle.pb_mini.specs.Diagnostics.{level_name, diagnostic_text, diagnostics_text, has_error, is_error};

use pb_data::{Items, Text};
use pb_json::json_string;
use std::alloc::{AllocError, Global};

/// The level of a diagnostic.
#[derive(Clone, Copy)]
pub enum Level {
    /// The compile continues, and succeeds if nothing else is wrong.
    Warning,
    /// The compile fails.
    Error,
}

/// A message of the compiler about a line.
#[derive(Drop)]
pub struct Diagnostic {
    /// Its level.
    pub level: Level,
    /// Its message.
    pub message: Text,
    /// The line of the source, counted from 1; 0 for the whole source.
    pub line: u64,
}

/// Returns the name of a level.
fn level_name(level: Level) -> &'static str
    ensures { result.now ≡ level_name level }
{
    match level {
        Level::Warning => "warning",
        Level::Error => "error",
    }
}

/// Returns whether this level makes a compile fail.
fn is_error(level: Level) -> bool
    ensures { result ≡ is_error level }
{
    match level {
        Level::Warning => false,
        Level::Error => true,
    }
}

/// Returns a diagnostic as a line of JSON. The line is an object with the keys `level`, `message`
/// and `line`, in this order and without spaces, and a line feed.
pub(crate) fn diagnostic_text(alloc: Global, diagnostic: &Diagnostic) -> Result<String, AllocError>
    ensures { IfOk result (λ text. string_bytes text ≡ diagnostic_text diagnostic.now) }
{
    let level = level_name(diagnostic.level);
    let message = json_string(alloc, diagnostic.message.as_str())?;
    let line = diagnostic.line;
    let text = format!(in alloc;
        "{{\"level\":\"{level}\",\"message\":{message},\"line\":{line}}}\n"
    )?;
    Ok(text)
}

/// Returns diagnostics as lines, in the same order.
pub(crate) fn diagnostics_text(
    alloc: Global,
    diagnostics: &[Diagnostic],
) -> Result<String, AllocError>
    ensures { IfOk result (λ text. string_bytes text ≡ diagnostics_text diagnostics.now) }
{
    let mut text = String::new(alloc);
    for diagnostic in diagnostics {
        text.push_str(diagnostic_text(alloc, diagnostic)?.as_str())?;
    }
    Ok(text)
}

/// Returns whether one of the diagnostics is an error.
pub(crate) fn has_error(diagnostics: &[Diagnostic]) -> bool
    ensures { result ≡ has_error diagnostics.now }
{
    diagnostics
        .iter()
        .any(|diagnostic| is_error(diagnostic.level))
}
