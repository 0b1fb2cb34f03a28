//! Values as people read them, on one line.

use pb_data::Text;
use pb_tool_reasons::Detail;
use std::alloc::{AllocError, Global};

/// The greatest number of bytes that are shown of a value.
const LONGEST: usize = 200;

/// How many letters are shown of the common start of two long values.
const SAME: usize = 20;

/// Adds a text in which `?` replaces each control character. If the text exceeds the greatest
/// length, `..` replaces the rest.
pub(crate) fn push_plain(out: &mut String, letters: std::str::Chars<'_>) -> Result<(), AllocError> {
    let mut length: usize = 0;
    for letter in letters {
        length = length.saturating_add(letter.len_utf8());
        if length > LONGEST {
            out.push_str("..")?;
            break;
        }
        out.push(if letter.is_control() { '?' } else { letter })?;
    }
    Ok(())
}

/// Returns how many letters are left out at the start of two values. If no value is long, no letter
/// is left out. Otherwise the letters with which both values begin are left out, except the last
/// `SAME` of these letters.
fn count_left_out(old: &str, new: &str) -> usize {
    if old.len() <= LONGEST && new.len() <= LONGEST {
        return 0;
    }
    let mut same: usize = 0;
    for (letter, other) in old.chars().zip(new.chars()) {
        if letter != other {
            break;
        }
        same = same.saturating_add(1);
    }
    same.saturating_sub(SAME)
}

/// Adds a value in quotation marks, without its first `left_out` letters. If there is no value,
/// adds `unset`.
fn push_value(out: &mut String, value: Option<&str>, left_out: usize) -> Result<(), AllocError> {
    let value = match value {
        Some(value) => value,
        None => {
            out.push_str("unset")?;
            return Ok(());
        }
    };
    out.push_str("\"")?;
    let mut letters = value.chars();
    if left_out > 0 {
        out.push_str("..")?;
        for _ in 0..left_out {
            letters.next();
        }
    }
    push_plain(out, letters)?;
    out.push_str("\"")?;
    Ok(())
}

/// Returns the detail of a value that has changed: `was OLD, is NEW`. Each of the two values may be
/// unset.
pub(crate) fn values_detail(
    alloc: Global,
    old: Option<&str>,
    new: Option<&str>,
) -> Result<Detail, AllocError> {
    let left_out = count_left_out(old.unwrap_or(""), new.unwrap_or(""));
    let mut text = String::from_str(alloc, "was ")?;
    push_value(&mut text, old, left_out)?;
    text.push_str(", is ")?;
    push_value(&mut text, new, left_out)?;
    Ok(Detail::Became(Text::new(text)))
}

/// Returns the detail that consists of these words.
pub(crate) fn words_only(alloc: Global, words: &str) -> Result<Detail, AllocError> {
    Ok(Detail::Became(Text::from_str(alloc, words)?))
}

/// Returns the detail that consists of these words and a name after them.
pub(crate) fn words_and_name(alloc: Global, words: &str, name: &str) -> Result<Detail, AllocError> {
    let mut text = String::from_str(alloc, words)?;
    push_plain(&mut text, name.chars())?;
    Ok(Detail::Became(Text::new(text)))
}
