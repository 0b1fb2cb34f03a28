//! Lines, compared with those that are written out in `wanted`.

use crate::messages::made::{artifact, library, script_message, settings, text};
use crate::messages::wanted::WANTED;
use crate::texts::texts_of;
use pb_data::{Items, Text, with_next};
use pb_manifest_types::{CrateType, Edition, Word};
use pb_message::{Level, Message, Subject, Target, finish_line, line_of, lines_of, write_lines};
use pb_place_types::{Over, PathFault, PathText};
use std::alloc::Global;
use std::test::Fail;

/// Returns whether a text is one line, and is the wanted line with this number.
fn is_line(text: &str, number: usize) -> bool {
    text.ends_with('\n')
        && text.lines().count() == 1
        && text.lines().next() == WANTED.lines().nth(number)
}

/// Returns whether the line of a message is the wanted line with this number.
fn says(
    alloc: Global,
    subject: &Subject,
    fresh: bool,
    message: &Message,
    number: usize,
) -> Result<bool, Fail> {
    let line = line_of(alloc, subject, fresh, message)?;
    Ok(is_line(line.as_str(), number))
}

/// What a line is about: a target of the package a.
#[derive(Clone, Copy)]
enum About {
    /// The library in `/w`, for which no crate type is written.
    Own,
    /// The library in `/w/a`, of two types.
    OfTwoTypes,
    /// The binary in `/w/x-a`, which requires a feature.
    Binary,
    /// The build script in `/w`.
    Script,
}

/// Returns a binary that requires a feature.
fn binary(alloc: Global) -> Result<Target, Fail> {
    let name = text(alloc, "go-on")?;
    let source = PathText::parse(alloc, "/w/src/bin/go-on.rs")?;
    let required = texts_of(alloc, "f")?;
    Ok(Target::binary(alloc, name, source, Edition::E2018, required)?)
}

/// Returns a build script.
fn script(alloc: Global) -> Result<Target, Fail> {
    let source = PathText::parse(alloc, "/w/build.rs")?;
    Ok(Target::script(alloc, source, Edition::E2015)?)
}

/// Returns the target that a line is about.
fn target(alloc: Global, about: About) -> Result<Target, Fail> {
    match about {
        About::Own => library(alloc, &[]),
        About::OfTwoTypes => library(alloc, &[CrateType::Rlib, CrateType::Lib]),
        About::Binary => binary(alloc),
        About::Script => script(alloc),
    }
}

/// Returns the folder of its package.
fn folder_of(about: About) -> &'static str {
    match about {
        About::Own | About::Script => "/w",
        About::OfTwoTypes => "/w/a",
        About::Binary => "/w/x-a",
    }
}

/// Returns the folder and the manifest of its package.
fn paths_of(alloc: Global, about: About) -> Result<(PathText, PathText), PathFault> {
    let folder = PathText::parse(alloc, folder_of(about))?;
    let manifest = folder.join(alloc, "Cargo.toml")?;
    Ok((folder, manifest))
}

/// Returns the package of version 0.1.0 with this target, in its folder.
fn package(alloc: Global, about: About) -> Result<Subject, Fail> {
    let target = target(alloc, about)?;
    let named = with_next(target, Text::from_str(alloc, "a"))?;
    let named = with_next(named, Text::from_str(alloc, "0.1.0"))?;
    let (((target, name), version), paths) = with_next(named, paths_of(alloc, about))?;
    let (folder, manifest) = paths;
    Ok(Subject {
        name,
        version,
        folder,
        manifest,
        target,
    })
}

/// What a line reports.
#[derive(Clone, Copy)]
enum Told {
    /// The level, what there is for debuggers, the features, the file, and whether it can be
    /// executed.
    Artifact(Word, Word, &'static str, &'static str, bool),
    /// A diagnostic of the compiler.
    Diagnostic(&'static str),
    /// What a script passes to the compiler: lists, and the value of a variable.
    Executed(&'static str, &'static str),
    /// A note of a script.
    Note(Level, &'static str),
}

/// Returns the message that reports this.
fn message(alloc: Global, told: Told) -> Result<Message, Fail> {
    match told {
        Told::Artifact(level, debug, features, file, is_executable) => {
            artifact(alloc, settings(level, debug), features, file, is_executable)
        }
        Told::Diagnostic(diagnostic) => { Ok(Message::CompilerMessage(text(alloc, diagnostic)?)) }
        Told::Executed(lists, value) => script_message(alloc, lists, value),
        Told::Note(level, note) => Ok(Message::BuildScriptNote(level, text(alloc, note)?)),
    }
}

/// Returns whether the line about a target, with this message, is the wanted line with this number.
fn is_told(
    alloc: Global,
    about: About,
    fresh: bool,
    message: &Message,
    number: usize,
) -> Result<bool, Fail> {
    let subject = package(alloc, about)?;
    let says = says(alloc, &subject, fresh, message, number);
    drop(subject);
    says
}

/// Returns whether the line that reports this about a target is the wanted line with this number.
fn is_modelled(
    alloc: Global,
    about: About,
    fresh: bool,
    told: Told,
    number: usize,
) -> Result<bool, Fail> {
    let message = message(alloc, told)?;
    let is_modelled = is_told(alloc, about, fresh, &message, number);
    drop(message);
    is_modelled
}

/// For each wanted line: its target, whether it is fresh, and what it reports.
static LINES: &[(About, bool, Told)] = &[
    (
        About::Own,
        false,
        Told::Artifact(
            Word::Zero,
            Word::Two,
            "",
            "/w/target/debug/a.target.lib/liba.rlib",
            false,
        ),
    ),
    (
        About::OfTwoTypes,
        true,
        Told::Artifact(
            Word::SmallestSize,
            Word::LineTablesOnly,
            "f g",
            "/t/liba.rlib",
            false,
        ),
    ),
    (
        About::OfTwoTypes,
        true,
        Told::Diagnostic(r#"{"level": "warning"}"#),
    ),
    (
        About::Binary,
        false,
        Told::Artifact(Word::Three, Word::One, "", "/t/go_on", true),
    ),
    (
        About::Script,
        false,
        Told::Artifact(Word::Size, Word::Zero, "", "/t/build_script_build", false),
    ),
    (About::Own, false, Told::Executed("", "")),
    (
        About::Own,
        true,
        Told::Executed("z y", "\"\\/\u{8}\u{c}\n\r\t\u{1}é"),
    ),
    (About::Own, false, Told::Note(Level::Warning, "w")),
    (About::Own, false, Told::Note(Level::Error, "e \"q\"")),
];

/// Adds a warning, and what a script passes to the compiler.
fn add_two(alloc: Global, messages: &mut Items<Message>) -> Result<(), Fail> {
    messages.push(message(alloc, Told::Note(Level::Warning, "w"))?)?;
    messages.push(message(alloc, Told::Executed("", ""))?)?;
    Ok(())
}

/// Returns the lines of messages about the library in `/w`.
fn own_lines(alloc: Global, messages: &[Message]) -> Result<Text, Fail> {
    let subject = package(alloc, About::Own)?;
    let lines = lines_of(alloc, &subject, false, messages);
    drop(subject);
    Ok(lines?)
}

/// Returns the lines of both.
fn two_lines(alloc: Global) -> Result<Text, Fail> {
    let mut messages = Items::new(alloc);
    let lines = match add_two(alloc, &mut messages) {
        Ok(()) => own_lines(alloc, messages.as_slice()),
        Err(fault) => Err(fault),
    };
    drop(messages);
    lines
}

/// Returns whether a sink that takes all takes these lines.
fn are_written(alloc: Global, lines: &str) -> bool {
    let mut taken: Vec<u8> = Vec::new(alloc);
    let mut sink = Over::new(&mut taken);
    let wrote = write_lines(&mut sink, lines);
    wrote.is_ok() && taken.as_slice() == lines.as_bytes()
}

/// Returns whether a sink that takes everything takes both lines.
fn both_are_written(alloc: Global) -> Result<bool, Fail> {
    let lines = two_lines(alloc)?;
    Ok(are_written(alloc, lines.as_str()))
}

/// Returns whether a last line is the wanted line with this number.
fn ends(success: bool, number: usize) -> bool {
    let line = finish_line(success);
    line.ends_with('\n') && line.lines().next() == WANTED.lines().nth(number)
}

/// Rules: `messages.lines`.
#[test]
fn lines(rt: HostRuntime) -> Result<(), Fail> {
    for (number, case) in LINES.iter().enumerate() {
        let (about, fresh, told) = *case;
        assert!(rt;
            is_modelled(rt.alloc(), about, fresh, told, number)?,
            "line {number}"
        );
    }
    assert!(rt; both_are_written(rt.alloc())? && ends(true, 9) && ends(false, 10));
    Ok(())
}
