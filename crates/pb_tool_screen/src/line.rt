//! The text of a status line.

use std::alloc::{AllocError, Global};

/// The bytes that erase the current line of a terminal.
pub const ERASE: &[u8] = b"\r\x1b[K";

/// The greatest number of letters of a status line. A line of this length fits into one row of a
/// terminal.
const LONGEST: usize = 79;

/// Returns a number, padded with blanks to the width of another number.
fn pad_number(alloc: Global, number: usize, widest: usize) -> Result<String, AllocError> {
    let digits = format!(in alloc; "{number}")?;
    let wide = format!(in alloc; "{widest}")?;
    let mut text = String::new(alloc);
    for _ in digits.len()..wide.len() {
        text.push_str(" ")?;
    }
    text.push_str(digits.as_str())?;
    Ok(text)
}

/// Returns the line of a unit that begins, as `[ 66/300] util.target.lib`. The text erases the
/// previous status line, and is cut after 79 letters.
pub(crate) fn status_line(
    alloc: Global,
    number: usize,
    units: usize,
    key: &str,
) -> Result<String, AllocError> {
    let number = pad_number(alloc, number, units)?;
    let mut text = format!(in alloc; "[{number}/{units}] {key}")?;
    text = cut(alloc, text)?;
    let mut line = String::from_str(alloc, "\r\x1b[K")?;
    line.push_str(text.as_str())?;
    Ok(line)
}

/// Returns the first letters of a text.
fn cut(alloc: Global, text: String) -> Result<String, AllocError> {
    if text.len() <= LONGEST {
        return Ok(text);
    }
    let mut short = String::new(alloc);
    for letter in text.as_str().chars().take(LONGEST) {
        short.push(letter)?;
    }
    Ok(short)
}
