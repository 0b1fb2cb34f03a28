//! Finds the first part and the first variable in which a command differs from the recorded
//! command.

ghost use Rattle.std.specs.Prelude.{◌≡◌, ◌&&◌, Decides, IfOk, MatchOption, Some, option_map};
ghost use Rattle.std.specs.Str.{bytes_eq};
ghost use Rattle.pb_record.specs.Commands.{AsksAs};
ghost use Rattle.pb_store.specs.Asking.{IsFirstName, SamePart, first_name, lesser, parts};
ghost use Rattle.pb_store.specs.Differences.{IsFirst};

use crate::difference::CommandPart;
use pb_data::{Text, TryCopy};
use pb_place_types::{Command, PathText};
use pb_record::RecordedCommand;
use std::alloc::{AllocError, Global};

/// The parts of a command, without its variables, in order.
const PARTS: &[CommandPart] = &[
    CommandPart::Program,
    CommandPart::Words,
    CommandPart::Folder,
    CommandPart::Out,
    CommandPart::Target,
    CommandPart::Toolchain,
    CommandPart::Reads,
];

/// Returns whether two lists of texts are equal.
#[tactic(auto, using(pb_record::proofs::CommandLemmas::texts_same))]
fn are_same_texts(texts: &[Text], others: &[Text]) -> bool
    ensures { Decides result (texts.now ≡ others.now) }
{
    texts == others
}

/// Returns whether two lists of paths are equal.
#[tactic(auto, using(pb_record::proofs::CommandLemmas::texts_same))]
fn are_same_paths(paths: &[PathText], others: &[PathText]) -> bool
    ensures { Decides result (paths.now ≡ others.now) }
{
    paths == others
}

/// Returns whether a command has this output folder.
fn has_out(out: &PathText, other: &Option<PathText>) -> bool
    ensures { Decides result (Some out.now ≡ other.now) }
{
    match other {
        Some(other) => out == other,
        None => false,
    }
}

/// Returns whether a part of a command is equal to the recorded part.
fn is_same_part(asked: &RecordedCommand, command: &Command, part: CommandPart) -> bool
    ensures { Decides result (SamePart asked.now command.now part) }
{
    match part {
        CommandPart::Program => asked.program == command.program,
        CommandPart::Words => are_same_texts(asked.words.as_slice(), command.words.as_slice()),
        CommandPart::Folder => asked.folder == command.folder,
        CommandPart::Out => has_out(&asked.out, &command.out),
        CommandPart::Target => asked.target == command.target,
        CommandPart::Toolchain => asked.toolchain == command.toolchain,
        CommandPart::Reads => are_same_paths(asked.reads.as_slice(), command.reads.as_slice()),
    }
}

/// Returns the first part of a command, apart from its variables, that differs from the recorded
/// part. No memory is used.
pub fn first_part(asked: &RecordedCommand, command: &Command) -> Option<CommandPart>
    ensures { MatchOption result (AsksAs asked.now command.now)
        (IsFirst (SamePart asked.now command.now) (λ part. part) parts) }
{
    for part in PARTS {
        if !is_same_part(asked, command, *part) {
            return Some(*part);
        }
    }
    None
}

/// Returns the lesser of two names in byte order.
fn lesser<'a>(name: &'a Text, other: &'a Text) -> &'a Text
    ensures { result.now ≡ lesser name.now other.now }
{
    if other.cmp(name).is_lt() { other } else { name }
}

/// Returns whether two variables are equal, by name and by text.
fn is_same_variable(pair: &(Text, Text), other: &(Text, Text)) -> bool
    ensures { result ≡ bytes_eq pair.now.0 other.now.0 && bytes_eq pair.now.1 other.now.1 }
{
    pair.0.as_bytes() == other.0.as_bytes() && pair.1.as_bytes() == other.1.as_bytes()
}

/// Returns the first name at which two rows of variables differ. No memory is used.
fn first_name<'a>(pairs: &'a [(Text, Text)], others: &'a [(Text, Text)]) -> Option<&'a Text>
    ensures { option_map (λ name. name.now) result ≡ first_name pairs.now others.now }
{
    let mut left = pairs;
    let mut right = others;
    while let [pair, after @ ..] = left {
        match right {
            [other, others_after @ ..] => {
                if !is_same_variable(pair, other) {
                    return Some(lesser(&pair.0, &other.0));
                }
                left = after;
                right = others_after;
            }
            [] => return Some(&pair.0),
        }
    }
    match right {
        [] => None,
        [other, ..] => Some(&other.0),
    }
}

/// Returns the first name, in byte order, at which two rows of variables differ: only one row has
/// the name, or the texts differ. Both rows are sorted by name.
#[tactic(auto, using(crate::proofs::Names::name_laws))]
pub fn first_variable(
    alloc: Global,
    pairs: &[(Text, Text)],
    others: &[(Text, Text)],
) -> Result<Option<Text>, AllocError>
    ensures { IfOk result (λ found. MatchOption found (pairs.now ≡ others.now)
        (IsFirstName pairs.now others.now)) }
{
    match first_name(pairs, others) {
        None => Ok(None),
        Some(name) => Ok(Some(name.copy(alloc)?)),
    }
}
