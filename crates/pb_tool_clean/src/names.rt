//! The names of records and of units' folders.

ghost use Rattle.std.specs.Prelude.{◌≡◌, IfOk, map, take, codes};
ghost use Rattle.std.specs.Str.{bytes_eq};
ghost use Rattle.pb_tool_clean.specs.Names.{words_in, is_side, is_binary, is_what, is_unit, is_record, is_named, package_in};

use pb_data::Text;
use std::alloc::{AllocError, Global};

/// Returns the words of a name, separated by dots.
pub(crate) fn words_in(alloc: Global, name: &str) -> Result<Vec<&str>, AllocError>
    ensures { IfOk result (λ words. map (λ word. word.now) words.items ≡ words_in name.now) }
{
    name.split('.').collect(alloc)
}

/// Returns whether a word is a side.
fn is_side(word: &str) -> bool
    ensures { result ≡ is_side word.now }
{
    word == "host" || word == "target"
}

/// Returns whether a word is `bin-NAME`.
fn is_binary(word: &str) -> bool
    ensures { result ≡ is_binary word.now }
{
    let bytes = word.as_bytes();
    let first = &bytes[..bytes.len().min(4)];
    first == b"bin-".as_slice()
}

/// Returns whether a word says what a unit is.
fn is_what(word: &str) -> bool
    ensures { result ≡ is_what word.now }
{
    word == "lib" || word == "script" || word == "run" || is_binary(word)
}

/// Returns whether words are the words of a unit's key.
pub(crate) fn is_unit(words: &[&str]) -> bool
    ensures { result ≡ is_unit (map (λ word. word.now) words.now) }
{
    match words {
        [_, side, what] => is_side(*side) && is_what(*what),
        _ => false,
    }
}

/// Returns whether words are the words of the name of a unit's record.
pub(crate) fn is_record(words: &[&str]) -> bool
    ensures { result ≡ is_record (map (λ word. word.now) words.now) }
{
    match words {
        [_, side, what, ending] => is_side(*side) && is_what(*what) && *ending == "record",
        _ => false,
    }
}

/// Returns the first word, or an empty text if there is no word.
pub(crate) fn package_in<'a>(words: &[&'a str]) -> &'a str
    ensures { result.now ≡ package_in (map (λ word. word.now) words.now) }
{
    match words {
        [first, ..] => *first,
        [] => "",
    }
}

/// Returns whether a word is among the named packages. Returns true if no package is named.
pub(crate) fn is_named(packages: &[Text], word: &str) -> bool
    ensures { result ≡ is_named packages.now word.now }
{
    if packages.is_empty() {
        return true;
    }
    for name in packages {
        if word == name.as_str() {
            return true;
        }
    }
    false
}
