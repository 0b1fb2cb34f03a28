//! The diagnostics of a compiler.

ghost use Rattle.std.specs.Prelude.{◌≡◌, ◌++◌, [], IfOk, OnOk};
ghost use Rattle.std.specs.Option.{option_map};
ghost use Rattle.serde_json.specs.Read.{read};
ghost use Rattle.pb_message.specs.Diagnostics.{reads_as_object, diagnostic_in, and_more, diagnostics_of, plain_in, plain_lines_of};

use pb_data::{Bytes, Items, Text};
use pb_directive::lines::{lines_of, trim_line};
use pb_directive::texts::text_of;
use serde_json::Value;
use std::alloc::{AllocError, Global};

/// Returns whether a text is a JSON object. The empty text is not a JSON object, and is not parsed.
fn reads_as_object(alloc: Global, text: &str) -> Result<bool, AllocError>
    ensures { IfOk result (λ answer. answer ≡ reads_as_object (read text.now)) }
{
    if text.is_empty() {
        return Ok(false);
    }
    match Value::from_str(alloc, text) {
        Ok(value) => Ok(value.is_object()),
        Err(fault) => {
            if fault.is_memory() {
                Err(AllocError)
            } else {
                Ok(false)
            }
        }
    }
}

/// Returns a line of standard error as a diagnostic, or none if the line is not a JSON object.
fn diagnostic_in(alloc: Global, line: &[u8]) -> Result<Option<&str>, AllocError>
    ensures { IfOk result (λ found. option_map (λ text. text.now) found ≡ diagnostic_in line.now) }
{
    match text_of(trim_line(line)) {
        Some(text) => {
            if reads_as_object(alloc, text)? {
                Ok(Some(text))
            } else {
                Ok(None)
            }
        }
        None => Ok(None),
    }
}

/// Adds the diagnostic in a line, if the line contains a diagnostic.
fn add_diagnostic(alloc: Global, found: &mut Items<Text>, line: &[u8]) -> Result<(), AllocError>
    ensures { OnOk result (found.new ≡ found.old ++ and_more (diagnostic_in line.now) []) }
{
    if let Some(text) = diagnostic_in(alloc, line)? {
        found.push(Text::from_str(alloc, text)?)?;
    }
    Ok(())
}

/// Returns the diagnostics of a compiler: the lines of its standard error that are JSON objects
/// (The Cargo Book, External Tools). Spaces, tabs and carriage returns at both ends of a diagnostic
/// are removed, and nothing else is changed. Other lines are ignored.
///
/// Errors: out of memory only.
pub fn diagnostics(alloc: Global, stderr: &[u8]) -> Result<Items<Text>, AllocError>
    ensures { IfOk result (λ found. found ≡ diagnostics_of stderr.now) }
{
    let mut found = Items::new(alloc);
    for line in lines_of(stderr) {
        add_diagnostic(alloc, &mut found, line)?;
    }
    Ok(found)
}

/// Adds a line and a line feed, unless the line is blank or a diagnostic.
fn add_plain(alloc: Global, plain: &mut Vec<u8>, line: &[u8]) -> Result<(), AllocError>
    ensures { OnOk result (plain.new.items ≡ plain.old.items ++ plain_in line.now) }
{
    match trim_line(line) {
        [] => return Ok(()),
        [_, ..] => {}
    }
    match diagnostic_in(alloc, line)? {
        Some(_) => Ok(()),
        None => {
            plain.extend_from_slice(line)?;
            plain.push(b'\n')?;
            Ok(())
        }
    }
}

/// Returns the lines of a compiler's standard error that are neither blank nor diagnostics, each
/// with a line feed.
///
/// Errors: out of memory only.
pub fn plain_lines(alloc: Global, stderr: &[u8]) -> Result<Bytes, AllocError>
    ensures { IfOk result (λ plain. plain ≡ plain_lines_of stderr.now) }
{
    let mut plain = Vec::new(alloc);
    for line in lines_of(stderr) {
        add_plain(alloc, &mut plain, line)?;
    }
    Ok(Bytes::new(plain))
}
