//! A manifest that was read again.

use pb_data::{Bytes, MAX_MANIFEST_BYTES};
use pb_place_types::PathText;
use std::alloc::{AllocError, Global};
use toml::{Table, Value};

/// A manifest that was read again.
#[derive(Drop)]
pub struct Page {
    /// Its path.
    pub path: PathText,
    /// Its bytes.
    pub bytes: Bytes,
    /// The document that the bytes contain; `None` if the bytes are not TOML, or are too many.
    pub table: Option<Table>,
}

/// Returns the text of some bytes, or an empty text if the bytes are not UTF-8.
fn text_in(bytes: &[u8]) -> &str {
    match str::from_utf8(bytes) {
        Ok(text) => text,
        Err(_) => "",
    }
}

/// Returns the document of some bytes, if the bytes are TOML.
fn table_in(alloc: Global, bytes: &[u8]) -> Result<Option<Table>, AllocError> {
    if bytes.len() > MAX_MANIFEST_BYTES {
        return Ok(None);
    }
    match toml::table_from_str(alloc, text_in(bytes)) {
        Ok(table) => Ok(Some(table)),
        Err(fault) => {
            if fault.is_memory() {
                Err(AllocError)
            } else {
                Ok(None)
            }
        }
    }
}

impl Page {
    /// Returns the manifest of some bytes.
    pub(crate) fn new(alloc: Global, path: PathText, bytes: Bytes) -> Result<Page, AllocError> {
        let table = table_in(alloc, bytes.as_slice())?;
        Ok(Page { path, bytes, table })
    }

    /// Returns the manifest's text, or an empty text if the bytes are not UTF-8.
    pub fn text(&self) -> &str {
        text_in(self.bytes.as_slice())
    }

    /// Returns the table at a key, if there is one.
    pub fn table_at(&self, key: &str) -> Option<&Table> {
        match &self.table {
            Some(table) => table.get(key).and_then(Value::as_table),
            None => None,
        }
    }

    /// Returns the text at a key of `[package]`, or an empty text if there is none.
    pub fn package_text(&self, key: &str) -> &str {
        match self.table_at("package") {
            Some(table) => text_at(table, key),
            None => "",
        }
    }
}

/// Returns the text at a key, or an empty text if there is none.
pub fn text_at<'a>(table: &'a Table, key: &str) -> &'a str {
    match table.get(key).and_then(Value::as_str) {
        Some(text) => text,
        None => "",
    }
}
