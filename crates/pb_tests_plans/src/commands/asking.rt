//! Questions about the units of a project, and their answers.

use crate::commands::making::file_of;
use crate::commands::show::{put_answer, put_part, put_path};
use pb_command::{check_reply, command};
use pb_command_types::{Project, Setup, crate_name_of, dep_info_path, made_file};
use pb_data::{Bytes, Items, Text};
use pb_directive::Directives;
use pb_place::Memory;
use pb_place_types::{Command, Ended};
use pb_tests_files::{Shown, Silent};
use pb_unit::Planned;
use std::alloc::{AllocError, Global};
use std::test::Fail;

/// What a case has besides its questions.
#[derive(Drop)]
pub struct ProjectCase<'a> {
    /// What the words of the case request.
    pub setup: &'a Setup,
    /// The project.
    pub project: &'a Project,
    /// What the runs of the case have printed.
    pub done: &'a [Option<Directives>],
    /// Its files.
    pub memory: &'a Memory<Silent>,
}

/// Returns the words that begin with a mark; `%` is taken off.
fn words_with(alloc: Global, words: &str, mark: &str) -> Result<Items<Text>, AllocError> {
    let mut found = Items::new(alloc);
    for word in words.split(' ') {
        if word.starts_with(mark) {
            let word = word.strip_prefix("%").unwrap_or(word);
            found.push(Text::from_str(alloc, word)?)?;
        }
    }
    Ok(found)
}

/// Returns a setup with these flags of the compiler and this runner.
fn setup_with(alloc: Global, flags: Items<Text>, runner: Items<Text>) -> Result<Setup, AllocError> {
    let tool = Text::from_str(alloc, "tool")?;
    let rustc = Text::from_str(alloc, "rustc")?;
    let toolchain = Bytes::from_slice(alloc, b"rustc 1\nhost: \nhost: mini-os\nhost: other\n")?;
    Ok(Setup {
        tool,
        rustc,
        flags,
        runner,
        toolchain,
    })
}

/// Returns the setup that words request: `-FLAG` is a flag of the compiler, and `%WORD` is a word
/// of the runner.
pub fn setup_of(alloc: Global, words: &str) -> Result<Setup, AllocError> {
    let flags = words_with(alloc, words, "-")?;
    let runner = words_with(alloc, words, "%")?;
    setup_with(alloc, flags, runner)
}

/// Returns the command of a unit.
fn command_in(alloc: Global, case: &ProjectCase, unit: &Planned) -> Result<Command, AllocError> {
    command(alloc, case.setup, case.project, unit, case.done)
}

/// Returns what a unit has printed, by its file in `/said`.
fn output_of(alloc: Global, case: &ProjectCase, unit: &Planned) -> Result<Bytes, Fail> {
    match file_of(alloc, case.memory, "/said", unit)? {
        Some(bytes) => Ok(bytes),
        None => Ok(Bytes::from_slice(alloc, b"")?),
    }
}

/// Returns the end of a unit's child with this status and its output.
fn end_of(alloc: Global, case: &ProjectCase, unit: &Planned, status: i32) -> Result<Ended, Fail> {
    let stdout = output_of(alloc, case, unit)?;
    let stderr = Bytes::from_slice(alloc, b"")?;
    Ok(Ended {
        status,
        stdout,
        stderr,
    })
}

/// Puts what such an end results in, with this dep-info.
fn put_judged(
    alloc: Global,
    case: &ProjectCase,
    unit: &Planned,
    end: &Ended,
    info: Option<&Bytes>,
    out: &mut Shown,
) -> Result<(), AllocError> {
    let command = command_in(alloc, case, unit)?;
    let answer = check_reply(alloc, case.project, unit, &command, end, info);
    drop(command);
    put_answer(out, &answer);
    drop(answer);
    Ok(())
}

/// Puts what a reply with this status results in. The dep-info is the unit's file in `/info`.
fn put_end(
    alloc: Global,
    case: &ProjectCase,
    unit: &Planned,
    status: i32,
    out: &mut Shown,
) -> Result<(), Fail> {
    let info = file_of(alloc, case.memory, "/info", unit)?;
    let end = end_of(alloc, case, unit, status)?;
    let put = put_judged(alloc, case, unit, &end, info.as_ref(), out);
    drop(end);
    Ok(put?)
}

/// Puts a part of the command of a unit.
fn put_part_of(
    alloc: Global,
    case: &ProjectCase,
    unit: &Planned,
    what: &str,
    out: &mut Shown,
) -> Result<(), AllocError> {
    let command = command_in(alloc, case, unit)?;
    put_part(out, &command, what);
    drop(command);
    Ok(())
}

/// Puts the answer to a question about a unit: also the file that it makes, its dep-info, and the
/// name of its crate.
pub fn put_asked(
    alloc: Global,
    case: &ProjectCase,
    unit: &Planned,
    what: &str,
    out: &mut Shown,
) -> Result<(), Fail> {
    match what {
        "good" => return put_end(alloc, case, unit, 0, out),
        "bad" => return put_end(alloc, case, unit, 1, out),
        "file" => put_path(out, &made_file(alloc, case.project, unit)?),
        "info" => put_path(out, &dep_info_path(alloc, case.project, unit)?),
        "crate" => out.put(&[crate_name_of(alloc, case.project, unit)?.as_str()]),
        _ => put_part_of(alloc, case, unit, what, out)?,
    }
    Ok(())
}
