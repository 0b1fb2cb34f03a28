//! Subjects and messages for tests.

use crate::texts::{add_pair, texts_of};
use pb_data::{Items, Text, with_next};
use pb_manifest_types::{CrateType, Edition, ProfileKey, Setting, Word};
use pb_message::{Artifact, Executed, Message, Target};
use pb_place_types::PathText;
use pb_profile::Settings;
use pb_profile_keys::COUNT;
use std::alloc::{AllocError, Global};
use std::test::Fail;

/// Returns a text.
pub fn text(alloc: Global, text: &str) -> Result<Text, Fail> {
    Ok(Text::from_str(alloc, text)?)
}

/// Returns the library at `/w/src/lib.rs`.
pub fn library(alloc: Global, types: &[CrateType]) -> Result<Target, Fail> {
    let name = text(alloc, "a")?;
    let source = PathText::parse(alloc, "/w/src/lib.rs")?;
    Ok(Target::library(alloc, types, name, source, Edition::E2021)?)
}

/// Returns the built-in settings of `dev`, with this level and this much for debuggers.
pub fn settings(opt_level: Word, debug: Word) -> Settings {
    let mut values = [Setting::Truth(false); COUNT];
    for key in &ProfileKey::ALL {
        values[key.index()] = key.row().dev;
    }
    values[ProfileKey::OptLevel.index()] = Setting::Word(opt_level);
    values[ProfileKey::Debug.index()] = Setting::Word(debug);
    Settings::along_keys(values)
}

/// Returns a file that was made.
pub fn artifact(
    alloc: Global,
    settings: Settings,
    features: &str,
    file: &str,
    is_executable: bool,
) -> Result<Message, Fail> {
    let features = texts_of(alloc, features)?;
    let (features, file) = with_next(features, PathText::parse(alloc, file))?;
    Ok(Message::CompilerArtifact(Artifact {
        settings,
        features,
        file,
        is_executable,
    }))
}

/// Returns the variable `A` with a value and an empty variable `B`. If the value is empty, returns
/// no variable.
fn variables(alloc: Global, value: &str) -> Result<Items<(Text, Text)>, AllocError> {
    let mut made = Items::new(alloc);
    if !value.is_empty() {
        add_pair(alloc, &mut made, "A", value)?;
        add_pair(alloc, &mut made, "B", "")?;
    }
    Ok(made)
}

/// Returns three lists of the same words.
fn three_lists(
    alloc: Global,
    words: &str,
) -> Result<((Items<Text>, Items<Text>), Items<Text>), AllocError> {
    let first = texts_of(alloc, words)?;
    let two = with_next(first, texts_of(alloc, words))?;
    with_next(two, texts_of(alloc, words))
}

/// Returns what a script passes to the compiler: libraries, folders and conditions, one variable
/// and an empty one, and its folder.
pub fn script_message(alloc: Global, lists: &str, value: &str) -> Result<Message, Fail> {
    let lists = three_lists(alloc, lists)?;
    let given = with_next(lists, variables(alloc, value))?;
    let out_folder = PathText::parse(alloc, "/w/target/debug/a.target.run");
    let ((lists, variables), out_folder) = with_next(given, out_folder)?;
    let ((linked_libraries, linked_paths), conditions) = lists;
    Ok(Message::BuildScriptExecuted(Executed {
        linked_libraries,
        linked_paths,
        conditions,
        variables,
        out_folder,
    }))
}
