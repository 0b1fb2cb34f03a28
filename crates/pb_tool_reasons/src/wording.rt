//! The words for a difference.

ghost use Rattle.std.specs.Prelude.{◌≡◌, ◌++◌, IfOk, codes, nat_lt, string_bytes};
ghost use Rattle.pb_tool_reasons.specs.Reasons.{is_plain, changed_reason, if_some, part, reason, reason_with, word_reason};

use crate::detail::Detail;
use pb_data::Text;
use pb_record::InputName;
use pb_store::{CommandPart, Difference};
use std::alloc::{AllocError, Global};

/// Returns the words for a part of a command.
fn part(changed: CommandPart) -> &'static str
    ensures { result.now ≡ part changed }
{
    match changed {
        CommandPart::Program => "the program of its command",
        CommandPart::Words => "an argument of its command",
        CommandPart::Folder => "the folder in which its command starts",
        CommandPart::Out => "its output folder",
        CommandPart::Target => "the target folder",
        CommandPart::Toolchain => "the version of the compiler",
        CommandPart::Reads => "the list of folders that it may read",
    }
}

/// Returns two texts, one after the other.
fn both(alloc: Global, first: &str, second: &str) -> Result<String, AllocError>
    ensures { IfOk result (λ text. string_bytes text ≡ first.now ++ second.now) }
{
    let mut text = String::from_str(alloc, first)?;
    text.push_str(second)?;
    Ok(text)
}

/// Returns why a unit's child was started.
///
/// Errors: out of memory.
pub fn reason(alloc: Global, difference: &Difference) -> Result<String, AllocError>
    ensures { IfOk result (λ text. string_bytes text ≡ reason difference.now) }
{
    match difference {
        Difference::NoRecord => String::from_str(alloc, "nothing is kept of it"),
        Difference::Command(changed) => both(alloc, part(*changed), " has changed"),
        Difference::Pair(name) => both(alloc, name.as_str(), " has changed"),
        Difference::Input(InputName::Path(path)) => both(alloc, path.as_str(), " has changed"),
        Difference::Input(InputName::Variable(name)) => both(alloc, name.as_str(), " has changed"),
        Difference::Dependency(key) => both(alloc, key.as_str(), " was built again"),
    }
}

/// Returns the name of something, and what has become of it.
fn with_name(alloc: Global, name: &str, text: &Text) -> Result<String, AllocError>
    ensures { IfOk result (λ said. string_bytes said ≡ name.now ++ codes " " ++ text.now) }
{
    let mut said = String::from_str(alloc, name)?;
    said.push_str(" ")?;
    said.push_str(text.as_str())?;
    Ok(said)
}

/// Returns whether a byte is greater than 31. The bytes up to 31 are control characters of ASCII.
fn is_plain_byte(byte: u8) -> bool
    ensures { result ≡ nat_lt 31 byte }
{
    31 < byte
}

/// Returns whether all bytes of a text are greater than 31. A text of such bytes has no line feed.
fn is_plain(text: &Text) -> bool
    ensures { result ≡ is_plain text.now }
{
    text.as_bytes().iter().all(|byte| is_plain_byte(*byte))
}

/// Returns why a unit's child was started, with what has become of the thing that differs.
fn changed_reason(alloc: Global, difference: &Difference, text: &Text) -> Result<String, AllocError>
    ensures { IfOk result (λ said. string_bytes said ≡ changed_reason difference.now text.now) }
{
    match difference {
        Difference::Command(changed) => with_name(alloc, part(*changed), text),
        Difference::Pair(name) => with_name(alloc, name.as_str(), text),
        Difference::Input(InputName::Path(path)) => with_name(alloc, path.as_str(), text),
        Difference::Input(InputName::Variable(name)) => with_name(alloc, name.as_str(), text),
        Difference::NoRecord => reason(alloc, difference),
        Difference::Dependency(_) => reason(alloc, difference),
    }
}

/// Returns why a unit's child was started, with the word of the unit's command that differs.
fn word_reason(alloc: Global, difference: &Difference, text: &Text) -> Result<String, AllocError>
    ensures { IfOk result (λ said. string_bytes said ≡ word_reason difference.now text.now) }
{
    match difference {
        Difference::Command(CommandPart::Words) => String::from_str(alloc, text.as_str()),
        _ => reason(alloc, difference),
    }
}

/// Returns why a unit's child was started. If the detail has a text of one line, the result
/// contains this text.
///
/// Errors: out of memory.
pub fn reason_with(
    alloc: Global,
    difference: &Difference,
    detail: &Detail,
) -> Result<String, AllocError>
    ensures { IfOk result (λ text. string_bytes text ≡ reason_with difference.now detail.now) }
{
    match detail {
        Detail::Nothing => reason(alloc, difference),
        Detail::Unseen => String::from_str(alloc, "something differs from its record"),
        Detail::BadAnswer => String::from_str(
            alloc,
            "its last child gave no answer that could be kept",
        ),
        Detail::Word(text) => {
            if is_plain(text) {
                word_reason(alloc, difference, text)
            } else {
                reason(alloc, difference)
            }
        }
        Detail::Became(text) => {
            if is_plain(text) {
                changed_reason(alloc, difference, text)
            } else {
                reason(alloc, difference)
            }
        }
    }
}

/// Returns a comma, a number, and words for what is counted. Returns an empty text for 0.
///
/// Errors: out of memory.
pub fn if_some(alloc: Global, count: usize, words: &str) -> Result<String, AllocError>
    ensures { IfOk result (λ text. string_bytes text ≡ if_some count words.now) }
{
    if count == 0 {
        return Ok(String::new(alloc));
    }
    let mut text = format!(in alloc; ", {count}")?;
    text.push_str(words)?;
    Ok(text)
}
