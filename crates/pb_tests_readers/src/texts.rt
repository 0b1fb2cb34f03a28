//! Texts and bytes for tests.

use pb_data::{Items, Text};
use std::alloc::{AllocError, Global};

/// Returns the texts in another text, which are separated by spaces.
pub fn texts_of(alloc: Global, words: &str) -> Result<Items<Text>, AllocError> {
    let mut texts = Items::new(alloc);
    for word in words.split_whitespace() {
        texts.push(Text::from_str(alloc, word)?)?;
    }
    Ok(texts)
}

/// Adds a name and a value.
pub fn add_pair(
    alloc: Global,
    pairs: &mut Items<(Text, Text)>,
    name: &str,
    value: &str,
) -> Result<(), AllocError> {
    let name = Text::from_str(alloc, name)?;
    let value = Text::from_str(alloc, value)?;
    pairs.push((name, value))
}

/// Returns some bytes, followed by this number of equal bytes.
pub fn of_bytes(
    alloc: Global,
    start: &[u8],
    byte: u8,
    count: usize,
) -> Result<Vec<u8>, AllocError> {
    let mut made = Vec::from_slice(alloc, start)?;
    for _ in 0..count {
        made.push(byte)?;
    }
    Ok(made)
}
