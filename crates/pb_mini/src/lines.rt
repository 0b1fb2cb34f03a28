//! The lines of a text, and the words at the front of a line.

ghost use Rattle.std.specs.Prelude.{◌≡◌, ◌≢◌, ◌==◌, ℕ, List, [], ◌∷◌, ◌++◌, map, IfOk, OnOk, MatchOption};
ghost use Rattle.std.specs.List.{slice_split};
ghost use Rattle.pb_mini.specs.Lines.{lines_of, word_in, rest_of, name_in, value_in, ended, marked, quoted, without_feed};

use crate::buffer::Buffer;
use std::alloc::{AllocError, Global};

/// Returns a line's first word and the rest. The word ends at the first space. If there is no
/// space, the whole line is the word, and the rest is empty.
pub(crate) fn word_and_rest(line: &str) -> (&str, &str)
    ensures word { result.0.now ≡ word_in line.now }
    ensures rest { result.1.now ≡ rest_of line.now }
{
    match line.split_once(' ') {
        Some((word, rest)) => (word, rest),
        None => (line, ""),
    }
}

/// Returns the texts before and after the first `=`. If there is no `=`, the whole text is the
/// name, and the value is empty.
pub(crate) fn name_and_value(text: &str) -> (&str, &str)
    ensures name { result.0.now ≡ name_in text.now }
    ensures value { result.1.now ≡ value_in text.now }
{
    match text.split_once('=') {
        Some((name, value)) => (name, value),
        None => (text, ""),
    }
}

/// Returns the parts between the line feeds of some bytes.
fn byte_parts(alloc: Global, bytes: &[u8]) -> Result<Vec<&[u8]>, AllocError>
    ensures { IfOk result (λ parts. map (λ part. part.now) parts.items
        ≡ slice_split (λ b. b == 10) bytes.now) }
{
    bytes.split(|byte| *byte == b'\n').collect(alloc)
}

/// Returns bytes without the line feed at their end, if there is one.
fn without_feed(bytes: &[u8]) -> &[u8]
    ensures { result.now ≡ without_feed bytes.now }
{
    match bytes {
        [front @ .., b'\n'] => front,
        _ => bytes,
    }
}

/// Returns the lines of bytes.
pub(crate) fn byte_lines(alloc: Global, bytes: &[u8]) -> Result<Vec<&[u8]>, AllocError>
    ensures { IfOk result (λ lines. map (λ line. line.now) lines.items ≡ lines_of bytes.now) }
{
    if bytes.is_empty() {
        return Ok(Vec::new(alloc));
    }
    byte_parts(alloc, without_feed(bytes))
}

/// Returns the parts between the line feeds of a text.
fn text_parts(alloc: Global, text: &str) -> Result<Vec<&str>, AllocError>
    ensures { IfOk result (λ parts. map (λ part. part.now) parts.items
        ≡ slice_split (λ b. b == 10) text.now) }
{
    text.split('\n').collect(alloc)
}

/// Returns a text without the line feed at its end, if there is one.
fn before_line_feed(text: &str) -> Option<&str>
    ensures { MatchOption result ((front : List ℕ) → text.now ≢ front ++ 10 ∷ []) (λ front. text.now
        ≡ front.now ++ 10 ∷ []) }
{
    text.strip_suffix('\n')
}

/// Returns the lines of a text.
pub(crate) fn text_lines(alloc: Global, text: &str) -> Result<Vec<&str>, AllocError>
    ensures { IfOk result (λ lines. map (λ line. line.now) lines.items ≡ lines_of text.now) }
{
    if text.is_empty() {
        return Ok(Vec::new(alloc));
    }
    match before_line_feed(text) {
        Some(front) => text_parts(alloc, front),
        None => text_parts(alloc, text),
    }
}

/// Adds a line with its line feed.
pub(crate) fn push_line(buffer: &mut Buffer, line: &[u8]) -> Result<(), AllocError>
    ensures { OnOk result (buffer.new ≡ buffer.old ++ ended line.now) }
{
    buffer.push(line)?;
    buffer.push(b"\n")?;
    Ok(())
}

/// Adds lines, each after a mark and with a line feed.
fn push_marked(buffer: &mut Buffer, mark: &[u8], lines: &[&[u8]]) -> Result<(), AllocError>
    ensures { OnOk result (buffer.new ≡ buffer.old
        ++ marked mark.now (map (λ line. line.now) lines.now)) }
{
    for line in lines {
        buffer.push(mark)?;
        push_line(buffer, *line)?;
    }
    Ok(())
}

/// Adds each line of a file after a mark, with a line feed.
pub(crate) fn push_quoted(
    alloc: Global,
    buffer: &mut Buffer,
    mark: &[u8],
    bytes: &[u8],
) -> Result<(), AllocError>
    ensures { OnOk result (buffer.new ≡ buffer.old ++ quoted mark.now bytes.now) }
{
    let lines = byte_lines(alloc, bytes)?;
    push_marked(buffer, mark, lines.as_slice())?;
    Ok(())
}
