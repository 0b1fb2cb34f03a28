//! Notes on a manifest that is not TOML, or too large.

use pb_data::MAX_MANIFEST_BYTES;
use pb_tool_notes_pages::{Note, Notes, Page, tell_page};
use std::alloc::{AllocError, Global};

/// Returns the line and the column, both from 1, after some bytes. A column counts characters.
fn position(before: &[u8]) -> (usize, usize) {
    let mut line = 1usize;
    let mut column = 1usize;
    for byte in before {
        if *byte == b'\n' {
            line = line.saturating_add(1);
            column = 1;
        } else if *byte & 0xC0 != 0x80 {
            column = column.saturating_add(1);
        }
    }
    (line, column)
}

/// Returns how many bytes come before the fault that the reader finds.
fn start_of(fault: &toml::de::Error) -> usize {
    match fault.span() {
        Some(range) => range.start,
        None => 0,
    }
}

/// Adds a note with the position at which TOML's reader stops, and with the reader's message.
fn tell_reader(alloc: Global, notes: &mut Notes, page: &Page) -> Result<(), AllocError> {
    let text = page.text();
    let fault = match toml::table_from_str(alloc, text) {
        Ok(_) => return Ok(()),
        Err(fault) => fault,
    };
    if fault.is_memory() {
        return Err(AllocError);
    }
    let start = start_of(&fault).min(text.len());
    let (line, column) = position(&text.as_bytes()[..start]);
    notes.add(
        alloc,
        &Note {
            path: page.path.as_str(),
            line,
            column,
            key: "",
            text: fault.message(),
        },
    )
}

/// Adds a note with the position at which a manifest is not TOML.
pub fn tell_not_toml(alloc: Global, notes: &mut Notes, page: &Page) -> Result<(), AllocError> {
    match str::from_utf8(page.bytes.as_slice()) {
        Ok(_) => tell_reader(alloc, notes, page),
        Err(fault) => {
            let before = fault.valid_up_to().min(page.bytes.as_slice().len());
            let (line, column) = position(&page.bytes.as_slice()[..before]);
            notes.add(
                alloc,
                &Note {
                    path: page.path.as_str(),
                    line,
                    column,
                    key: "",
                    text: "this byte is not UTF-8",
                },
            )
        }
    }
}

/// Adds a note that says how large a manifest is.
pub fn tell_too_large(alloc: Global, notes: &mut Notes, page: &Page) -> Result<(), AllocError> {
    let text = format!(in alloc; "it has more than {MAX_MANIFEST_BYTES} bytes")?;
    tell_page(alloc, notes, page, text.as_str())
}
