//! How children end, dep-info that is too long, and the query.

use crate::commands::making::{options_of, project_of};
use crate::commands::show::{put_answer, put_rest};
use crate::show::put_texts;
use pb_command::{check_reply, ended_fault, query};
use pb_command_types::{Project, UnitFault};
use pb_data::{Bytes, Text};
use pb_place::Memory;
use pb_place_types::{Command, Ended};
use pb_tests_files::{Shown, Silent, put_files};
use pb_unit::Planned;
use std::alloc::{AllocError, Global};
use std::test::Fail;

/// Returns some bytes, followed by this number of equal bytes.
fn of_bytes(alloc: Global, start: &[u8], byte: u8, count: usize) -> Result<Bytes, AllocError> {
    let mut made = Vec::from_slice(alloc, start)?;
    for _ in 0..count {
        made.push(byte)?;
    }
    Ok(Bytes::new(made))
}

/// Returns an end with streams of these lengths.
fn end_with(alloc: Global, status: i32, stdout: usize, stderr: usize) -> Result<Ended, AllocError> {
    let stdout = of_bytes(alloc, b"", b'x', stdout)?;
    let stderr = of_bytes(alloc, b"", b'x', stderr)?;
    Ok(Ended {
        status,
        stdout,
        stderr,
    })
}

/// Returns whether an end with streams of these lengths is reported as too long.
fn is_too_long(alloc: Global, stdout: usize, stderr: usize) -> Result<bool, AllocError> {
    let end = end_with(alloc, 1, stdout, stderr)?;
    let fault = ended_fault(&end);
    drop(end);
    let is_too_long = matches!(fault, Some(UnitFault::OutputTooLong));
    drop(fault);
    Ok(is_too_long)
}

/// Returns whether an end with two streams of this length is good.
fn is_good(alloc: Global, length: usize) -> Result<bool, AllocError> {
    let end = end_with(alloc, 0, length, length)?;
    let fault = ended_fault(&end);
    drop(end);
    let is_good = fault.is_none();
    drop(fault);
    Ok(is_good)
}

/// Returns whether the fault of an end with this status contains the status.
fn has_status(alloc: Global, status: i32) -> Result<bool, AllocError> {
    let end = end_with(alloc, status, 0, 0)?;
    let fault = ended_fault(&end);
    drop(end);
    let has_status = match &fault {
        Some(UnitFault::Status(told)) => *told == status,
        _ => false,
    };
    drop(fault);
    Ok(has_status)
}

/// Rules: `answers.bad`.
#[test]
fn long_streams(rt: HostRuntime) -> Result<(), Fail> {
    assert!(rt; is_good(rt.alloc(), 4_194_304)?);
    assert!(rt; is_too_long(rt.alloc(), 4_194_305, 0)?);
    assert!(rt; is_too_long(rt.alloc(), 0, 4_194_305)?);
    assert!(rt; has_status(rt.alloc(), -1)?);
    Ok(())
}

/// A library.
const LIBRARY: &str = "@ /w/Cargo.toml\npackage.name = \"a\"\n@ /w/src/lib.rs\n";

/// Returns the project of one library that is put at a place, or none.
fn library_at(alloc: Global, memory: &mut Memory<Silent>) -> Result<Option<Project>, Fail> {
    put_files(alloc, memory, LIBRARY)?;
    let options = options_of(alloc, "")?;
    let project = project_of(alloc, memory, &options);
    drop(options);
    project
}

/// Returns the query of a compiler in that project.
fn query_of(alloc: Global, project: &Project) -> Result<Command, AllocError> {
    let rustc = Text::from_str(alloc, "my rustc")?;
    query(alloc, &rustc, &project.workspace)
}

/// Returns whether a command requests the version and nothing else.
fn is_query(alloc: Global, command: &Command) -> bool {
    let mut shown = Shown::new(alloc);
    put_texts(&mut shown, command.words.as_slice());
    shown.put(&[" | "]);
    put_rest(&mut shown, command);
    shown.says("-vV | my rustc /w - /w/target | ")
        && command.pairs.is_empty()
        && command.toolchain.as_slice().is_empty()
}

/// Returns whether the query requests the version and nothing else.
fn asks_version(alloc: Global, project: &Project) -> Result<bool, AllocError> {
    let command = query_of(alloc, project)?;
    let is_query = is_query(alloc, &command);
    drop(command);
    Ok(is_query)
}

/// Returns what dep-info results in, for the command of a unit whose child ended well.
fn informed_by(
    alloc: Global,
    project: &Project,
    unit: &Planned,
    command: &Command,
    info: &Bytes,
) -> Result<String, AllocError> {
    let end = end_with(alloc, 0, 0, 0)?;
    let answer = check_reply(alloc, project, unit, command, &end, Some(info));
    drop(end);
    let mut shown = Shown::new(alloc);
    put_answer(&mut shown, &answer);
    drop(answer);
    shown.whole()
}

/// Returns what dep-info results in for a unit, if the dep-info has a rule with a word of this
/// number of bytes.
fn informed_of(
    alloc: Global,
    project: &Project,
    unit: &Planned,
    count: usize,
) -> Result<String, AllocError> {
    let info = of_bytes(alloc, b"o: /", b'w', count)?;
    let command = query_of(alloc, project)?;
    let told = informed_by(alloc, project, unit, &command, &info);
    drop(command);
    told
}

/// Returns the same for the first unit of a project.
fn first_unit_info(alloc: Global, project: &Project, count: usize) -> Result<String, AllocError> {
    match project.plan.units().first() {
        Some(unit) => informed_of(alloc, project, unit, count),
        None => String::from_str(alloc, "no unit"),
    }
}

/// Returns whether the longest dep-info is read.
fn reads_the_longest(alloc: Global, project: &Project) -> Result<bool, AllocError> {
    let told = first_unit_info(alloc, project, 4_194_300)?;
    Ok(told.as_str().len() == 4_194_303)
}

/// Returns whether dep-info that is longer is refused.
fn refuses_longer(alloc: Global, project: &Project) -> Result<bool, AllocError> {
    let told = first_unit_info(alloc, project, 4_194_301)?;
    Ok(told.as_str() == "NoDepInfo")
}

/// Returns what is wrong in a project of one library: the query, the longest dep-info, or one that
/// is longer.
fn wrong_in(alloc: Global, project: &Project) -> Result<&'static str, AllocError> {
    if !asks_version(alloc, project)? {
        return Ok("query");
    }
    if !reads_the_longest(alloc, project)? {
        return Ok("longest");
    }
    Ok(if refuses_longer(alloc, project)? {
        ""
    } else {
        "longer"
    })
}

/// Returns the same for a project whose files are put at a place.
fn wrong_at(alloc: Global, memory: &mut Memory<Silent>) -> Result<&'static str, Fail> {
    match library_at(alloc, memory)? {
        Some(project) => {
            let wrong = wrong_in(alloc, &project);
            drop(project);
            Ok(wrong?)
        }
        None => Ok("no project"),
    }
}

/// Returns the same at a fresh place.
fn wrong(alloc: Global) -> Result<&'static str, Fail> {
    let mut memory = Memory::new(alloc, Silent);
    let wrong = wrong_at(alloc, &mut memory);
    drop(memory);
    wrong
}

/// Rules: `build.query`, `commands.query`, `answers.bad`.
#[test]
fn queries_and_long_dep_info(rt: HostRuntime) -> Result<(), Fail> {
    assert_eq!(rt; wrong(rt.alloc())?, "");
    Ok(())
}
