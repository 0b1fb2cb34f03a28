//! The line of a manifest in which a key is written.

use std::alloc::{AllocError, Global};

/// How far a text has been read, line by line.
#[derive(Drop)]
struct Reading {
    /// The key path of the last header, as `bin[2]`.
    header: String,
    /// How many headers `[[bin]]` have been read.
    binaries: usize,
    /// The quotation marks that end a text of several lines, if the next line begins inside such a
    /// text; else empty.
    quotes: &'static str,
}

/// Adds the parts of a written key, without blanks and quotation marks, with dots between them.
fn push_key(way: &mut String, key: &str) -> Result<(), AllocError> {
    for part in key.split('.') {
        if !way.is_empty() {
            way.push_str(".")?;
        }
        let part = part.trim();
        let part = part.trim_matches('"');
        way.push_str(part.trim_matches('\''))?;
    }
    Ok(())
}

/// Notes a header.
fn read_header(alloc: Global, reading: &mut Reading, line: &str) -> Result<(), AllocError> {
    let mut way = String::new(alloc);
    if let Some(rest) = line.strip_prefix("[[") {
        push_key(&mut way, rest.split(']').next().unwrap_or(""))?;
        if way.as_str() == "bin" {
            reading.binaries = reading.binaries.saturating_add(1);
            let number = reading.binaries;
            way.push_str(format!(in alloc; "[{number}]")?.as_str())?;
        }
    } else if let Some(rest) = line.strip_prefix('[') {
        push_key(&mut way, rest.split(']').next().unwrap_or(""))?;
    }
    reading.header = way;
    Ok(())
}

/// Returns the quotation marks of a text that begins in a line and does not end in the same line.
fn left_open(line: &str) -> &'static str {
    for quotes in ["\"\"\"", "'''"] {
        if line.matches(quotes).count() % 2 == 1 {
            return quotes;
        }
    }
    ""
}

/// Returns the key path of a line. For a header, this is the path of the table; for a key, the path
/// of the value. For any other line, the function returns an empty text.
fn way_of_line(alloc: Global, reading: &mut Reading, line: &str) -> Result<String, AllocError> {
    if !reading.quotes.is_empty() {
        if line.contains(reading.quotes) {
            reading.quotes = "";
        }
        return Ok(String::new(alloc));
    }
    let line = line.trim();
    if line.starts_with('[') {
        read_header(alloc, reading, line)?;
        return reading.header.clone();
    }
    let mut way = String::new(alloc);
    if line.starts_with('#') {
        return Ok(way);
    }
    if let Some((key, value)) = line.split_once('=') {
        reading.quotes = left_open(value);
        way.push_str(reading.header.as_str())?;
        push_key(&mut way, key)?;
    }
    Ok(way)
}

/// Returns whether a long key path begins with a short key path.
fn begins(short: &str, long: &str) -> bool {
    match long.strip_prefix(short) {
        Some(rest) => rest.starts_with('.') || rest.starts_with('['),
        None => false,
    }
}

/// Returns the line, counted from 1, that writes the value at a key path or a part of this value.
/// If there is no such line, returns the line of the table or list that contains the value. If
/// there is no such line either, returns 0.
pub(crate) fn line_of(alloc: Global, text: &str, way: &str) -> Result<usize, AllocError> {
    let mut reading = Reading {
        header: String::new(alloc),
        binaries: 0,
        quotes: "",
    };
    let mut number = 0usize;
    let mut found = 0usize;
    let mut length = 0usize;
    for line in text.split('\n') {
        number = number.saturating_add(1);
        let here = way_of_line(alloc, &mut reading, line)?;
        if here.as_str() == way || begins(way, here.as_str()) {
            return Ok(number);
        }
        if here.len() > length && begins(here.as_str(), way) {
            found = number;
            length = here.len();
        }
    }
    Ok(found)
}
