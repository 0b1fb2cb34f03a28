//! The text that is shown for a message line.

ghost use Rattle.std.specs.Prelude.{◌≡◌, ◌++◌, IfOk, codes, option_map, string_bytes};
ghost use Rattle.serde_json.specs.View.{view};
ghost use Rattle.pb_tool_screen.specs.Rendering.{text_at, text_or_none, told, told_at, diagnostic_shown, value_shown, line_shown};

use serde_json::Value;
use std::alloc::{AllocError, Global};

/// Returns the text at a path of a message line.
fn text_at<'v>(value: &'v Value, path: &str) -> Option<&'v str>
    ensures { option_map (λ text. text.now) result ≡ text_at path.now (view value.now) }
{
    match value.pointer(path) {
        Some(found) => found.as_str(),
        None => None,
    }
}

/// Returns the text at a path of a message line, or an empty text if there is no text.
fn text_or_none<'v>(value: &'v Value, path: &str) -> &'v str
    ensures { result.now ≡ text_or_none path.now (view value.now) }
{
    match text_at(value, path) {
        Some(text) => text,
        None => "",
    }
}

/// Returns a line with a level and a text.
fn level_line(alloc: Global, level: &str, text: &str) -> Result<String, AllocError>
    ensures { IfOk result (λ line. string_bytes line ≡ told level.now text.now) }
{
    let mut line = String::from_str(alloc, level)?;
    line.push_str(": ")?;
    line.push_str(text)?;
    line.push_str("\n")?;
    Ok(line)
}

/// Returns a line with the level and the text that are at these paths of a message line.
fn told_at(alloc: Global, value: &Value, level: &str, text: &str) -> Result<String, AllocError>
    ensures { IfOk result
        (λ line. string_bytes line ≡ told_at level.now text.now (view value.now)) }
{
    level_line(alloc, text_or_none(value, level), text_or_none(value, text))
}

/// Returns the text of a diagnostic. The text is the compiler's own or, if there is none, the
/// diagnostic's level and message.
fn diagnostic_shown(alloc: Global, value: &Value) -> Result<String, AllocError>
    ensures { IfOk result (λ text. string_bytes text ≡ diagnostic_shown (view value.now)) }
{
    match text_at(value, "/message/rendered") {
        Some(rendered) => String::from_str(alloc, rendered),
        None => told_at(alloc, value, "/message/level", "/message/message"),
    }
}

/// Returns the text of a message line for a diagnostic, or for a script's warning or error. For any
/// other line, returns an empty text.
fn value_shown(alloc: Global, value: &Value) -> Result<String, AllocError>
    ensures { IfOk result (λ text. string_bytes text ≡ value_shown (view value.now)) }
{
    let reason = text_or_none(value, "/reason");
    if reason == "compiler-message" {
        return diagnostic_shown(alloc, value);
    }
    if reason == "build-script-note" {
        return told_at(alloc, value, "/level", "/text");
    }
    Ok(String::new(alloc))
}

/// Returns the text that is shown for a message line. The line has no line feed at its end. If the
/// line is not JSON, returns an empty text.
///
/// Errors: only out of memory.
pub fn line_shown(alloc: Global, line: &str) -> Result<String, AllocError>
    ensures { IfOk result (λ text. string_bytes text ≡ line_shown line.now) }
{
    match Value::from_str(alloc, line) {
        Ok(value) => value_shown(alloc, &value),
        Err(error) if error.is_memory() => Err(AllocError),
        Err(_) => Ok(String::new(alloc)),
    }
}
