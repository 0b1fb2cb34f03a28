//! Commands for children, and what comes of them.

use crate::told::{answer_of, path_in};
use pb_data::{Bytes, Items, Text};
use pb_place_host::HostPlace;
use pb_place_types::{Command, PathText};
use std::alloc::{AllocError, Global};
use std::test::Fail;

/// A child: its program, the script for the shell (no words if the field is empty), the folder in
/// which it starts, its output folder (none if the field is empty), and its pairs.
pub(crate) type Asked<'a> = (&'a str, &'a str, &'a str, &'a str, &'a [(&'a str, &'a str)]);

/// Returns the shell in a test's folder, with this script.
pub(crate) fn shell(told: &str) -> Asked {
    ("/bin/sh", told, "", "", &[])
}

/// Adds a word.
fn add_word(alloc: Global, words: &mut Items<Text>, word: &str) -> Result<(), AllocError> {
    let word = Text::from_str(alloc, word)?;
    words.push(word)
}

/// Adds the arguments of the shell for this script.
fn add_words(alloc: Global, words: &mut Items<Text>, told: &str) -> Result<(), AllocError> {
    if told.is_empty() {
        return Ok(());
    }
    add_word(alloc, words, "-c")?;
    add_word(alloc, words, told)
}

/// Adds a pair.
fn add_pair(
    alloc: Global,
    pairs: &mut Items<(Text, Text)>,
    name: &str,
    value: &str,
) -> Result<(), AllocError> {
    let name = Text::from_str(alloc, name)?;
    let value = Text::from_str(alloc, value)?;
    pairs.push((name, value))
}

/// Adds pairs.
fn add_pairs(
    alloc: Global,
    made: &mut Items<(Text, Text)>,
    pairs: &[(&str, &str)],
) -> Result<(), AllocError> {
    for pair in pairs {
        let (name, value) = *pair;
        add_pair(alloc, made, name, value)?;
    }
    Ok(())
}

/// Returns the output folder of this name, or none.
fn out_of(alloc: Global, root: &PathText, name: &str) -> Result<Option<PathText>, Fail> {
    if name.is_empty() {
        return Ok(None);
    }
    let out = path_in(alloc, root, name)?;
    Ok(Some(out))
}

/// Returns the command of a program without words, pairs and an output folder. It sees nothing of a
/// target folder.
fn plain_command(
    alloc: Global,
    root: &PathText,
    program: &str,
    folder: &str,
) -> Result<Command, Fail> {
    let program = Text::from_str(alloc, program)?;
    let folder = path_in(alloc, root, folder)?;
    let target = path_in(alloc, root, "no/target")?;
    Ok(Command {
        program,
        words: Items::new(alloc),
        folder,
        pairs: Items::new(alloc),
        out: None,
        target,
        toolchain: Bytes::new(Vec::new(alloc)),
        reads: Items::new(alloc),
    })
}

/// Sets the words, the pairs and the output folder of a command to those of a child.
fn fill(alloc: Global, root: &PathText, asked: &Asked, command: &mut Command) -> Result<(), Fail> {
    command.out = out_of(alloc, root, asked.3)?;
    add_words(alloc, &mut command.words, asked.1)?;
    Ok(add_pairs(alloc, &mut command.pairs, asked.4)?)
}

/// Returns the command of a child whose folders are in a test's folder.
pub(crate) fn command(alloc: Global, root: &PathText, asked: &Asked) -> Result<Command, Fail> {
    let mut command = plain_command(alloc, root, asked.0, asked.2)?;
    match fill(alloc, root, asked, &mut command) {
        Ok(()) => Ok(command),
        Err(fault) => {
            drop(command);
            Err(fault)
        }
    }
}

/// Returns how the child of a command ended at a new place on the machine.
fn said_of(rt: &HostRuntime, command: &Command) -> Result<String, Fail> {
    let mut place = HostPlace::new(rt.alloc(), rt);
    let said = answer_of(rt.alloc(), &mut place, command);
    drop(place);
    said
}

/// Returns how a child ended at a new place on the machine.
pub(crate) fn said_here(rt: &HostRuntime, root: &PathText, asked: &Asked) -> Result<String, Fail> {
    let command = command(rt.alloc(), root, asked)?;
    let said = said_of(rt, &command);
    drop(command);
    said
}
