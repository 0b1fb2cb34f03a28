//! How a command differs from the recorded command.

use crate::values::values_detail;
use crate::variables::variable_detail;
use crate::words::words_detail;
use pb_data::Text;
use pb_place_types::Command;
use pb_record::RecordedCommand;
use pb_store::{CommandPart, Difference, first_part, first_variable};
use pb_tool_reasons::Detail;
use std::alloc::{AllocError, Global};

/// Returns the detail of the first line in which two outputs about the compiler's version differ.
fn toolchain_detail(alloc: Global, old: &[u8], new: &[u8]) -> Result<Detail, AllocError> {
    let (old, new) = match (std::str::from_utf8(old), std::str::from_utf8(new)) {
        (Ok(old), Ok(new)) => (old, new),
        _ => return Ok(Detail::Nothing),
    };
    for (line, other) in old.split('\n').zip(new.split('\n')) {
        if line != other {
            return values_detail(alloc, Some(line), Some(other));
        }
    }
    Ok(Detail::Nothing)
}

/// Returns how a part of a command differs.
fn part_detail(
    alloc: Global,
    asked: &RecordedCommand,
    command: &Command,
    part: CommandPart,
) -> Result<Detail, AllocError> {
    let (old, new) = match part {
        CommandPart::Program => (asked.program.as_str(), command.program.as_str()),
        CommandPart::Words => {
            return words_detail(alloc, asked.words.as_slice(), command.words.as_slice());
        }
        CommandPart::Folder => (asked.folder.as_str(), command.folder.as_str()),
        CommandPart::Target => (asked.target.as_str(), command.target.as_str()),
        CommandPart::Toolchain => {
            let old = asked.toolchain.as_slice();
            return toolchain_detail(alloc, old, command.toolchain.as_slice());
        }
        CommandPart::Out | CommandPart::Reads => return Ok(Detail::Nothing),
    };
    values_detail(alloc, Some(old), Some(new))
}

/// Returns the text of a variable in a list, or none if the variable is not in the list.
fn text_in<'a>(pairs: &'a [(Text, Text)], name: &Text) -> Option<&'a str> {
    pairs
        .iter()
        .find(|pair| pair.0.as_str() == name.as_str())
        .map(|pair| pair.1.as_str())
}

/// Returns how the variables of a command differ from the recorded variables: the first name, in
/// byte order, whose text differs. Both lists are sorted by name.
fn variables_differ(
    alloc: Global,
    pairs: &[(Text, Text)],
    others: &[(Text, Text)],
    values: bool,
) -> Result<Option<(Difference, Detail)>, AllocError> {
    let Some(name) = first_variable(alloc, pairs, others)? else {
        return Ok(None);
    };
    let old = text_in(pairs, &name);
    let new = text_in(others, &name);
    let detail = variable_detail(alloc, name.as_str(), values, old, new)?;
    Ok(Some((Difference::Pair(name), detail)))
}

/// Returns the first difference of a command from the recorded command, if there is a difference.
/// `values` says whether the values of all variables are shown.
pub(crate) fn command_differs(
    alloc: Global,
    asked: &RecordedCommand,
    command: &Command,
    values: bool,
) -> Result<Option<(Difference, Detail)>, AllocError> {
    if let Some(part) = first_part(asked, command) {
        let detail = part_detail(alloc, asked, command, part)?;
        return Ok(Some((Difference::Command(part), detail)));
    }
    variables_differ(
        alloc,
        asked.pairs.as_slice(),
        command.pairs.as_slice(),
        values,
    )
}
