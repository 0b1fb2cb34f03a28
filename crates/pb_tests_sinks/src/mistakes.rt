//! What `pb_tool build` writes on standard error after mistakes, by tables of files.

mod manifests;
mod plans;
mod unused;
mod workspaces;

ghost use Rattle.std.specs.Prelude.{◌≡◌, [], IfOk};

use pb_mini::Mini;
use pb_place::Memory;
use pb_place_types::{Out, Over, PathText, Place};
use pb_tests_files::{Case, Shown, Trial, put_files, try_cases};
use pb_tool_program::{
    Colored, Guard, Here, Rendered, Spoken, StatusLine, Witness, page_of_errors, run,
};
use std::alloc::{AllocError, Global};
use std::process::Abort;
use std::test::Fail;

/// A guard that locks no folder.
#[derive(Drop)]
struct Unguarded {}

impl<P: Place, E: Out> Guard<P, E> for Unguarded {
    ghost use Rattle.std.specs.Prelude.{⊤};

    ghost asks = { λ old folder counts heard taken new. ⊤ };

    ghost waits = { λ old counts heard new. ⊤ };

    fn is_taken(&mut self, _place: &P, _err: &E, _folder: &PathText) -> bool {
        false
    }

    fn wait(&mut self, _place: &P, _err: &E) {}
}

/// Returns the words of a command line.
fn words_of(alloc: Global, words: &str) -> Result<Vec<&str>, AllocError> {
    let mut all = Vec::new(alloc);
    all.push("pb_tool")?;
    all.push("build")?;
    for word in words.split(' ') {
        if !word.is_empty() {
            all.push(word)?;
        }
    }
    Ok(all)
}

/// Returns what a build in the folder `/w` writes on standard error.
fn said_at(alloc: Global, memory: Memory<Mini>, words: &str) -> Result<Vec<u8>, Fail>
    requires { memory.flying ≡ [] }
{
    let words = words_of(alloc, words)?;
    let here = Here {
        folder: PathText::parse(alloc, "/w")?,
        processors: 1,
        is_terminal: false,
        shows_colors: false,
    };
    let mut said = Vec::new(alloc);
    let mut place = Witness::new(alloc, Spoken::new(memory, Over::new(Vec::new(alloc))));
    run(
        alloc,
        words.as_slice(),
        &here,
        &page_of_errors(),
        &mut place,
        &mut Unguarded {},
        &mut Rendered::new(
            alloc,
            Over::new(Vec::new(alloc)),
            Over::new(Vec::new(alloc)),
        ),
        &mut Colored::new(Over::new(&mut said)),
        &mut StatusLine::new(alloc, Over::new(Vec::new(alloc))),
    );
    drop(place);
    Ok(said)
}

/// Returns a place in memory with these files.
fn memory_of(alloc: Global, files: &str) -> Result<Memory<Mini>, Fail>
    ensures { IfOk result (λ memory. memory.flying ≡ []) }
{
    let mut memory = Memory::new(alloc, Mini);
    match put_files(alloc, &mut memory, files) {
        Ok(()) => Ok(memory),
        Err(fault) => {
            drop(memory);
            Err(fault.into())
        }
    }
}

/// Returns what a build of files writes on standard error.
fn said_alone(alloc: Global, words: &str, files: &str) -> Result<Vec<u8>, Fail> {
    let memory = memory_of(alloc, files)?;
    said_at(alloc, memory, words)
}

/// Cases of files, with the words of a command line after their names, and what standard error then
/// is.
struct MistakeCases {}

impl Trial for MistakeCases {
    fn put_result(&self, alloc: Global, case: &Case<'_>, out: &mut Shown) -> Result<(), Fail> {
        let (_, words) = case.name.split_once(": ").unwrap_or((case.name, ""));
        let said = said_alone(alloc, words, case.given)?;
        out.put(&[str::from_utf8(said.as_slice()).unwrap_or("no text")]);
        drop(said);
        Ok(())
    }
}

/// Asserts each case of a table, and how many there are.
fn assert_cases<T: Trial>(
    rt: &impl Abort,
    alloc: Global,
    table: &str,
    trial: &T,
    count: usize,
) -> Result<(), Fail> {
    let tried = try_cases(alloc, table, trial)?;
    assert!(rt; tried.wrong.says(""), "{}", tried.wrong.as_str());
    assert_eq!(rt; tried.count, count);
    drop(tried);
    Ok(())
}

/// Rules: `tool.notes`.
#[test]
fn mistakes_in_a_manifest(rt: HostRuntime) -> Result<(), Fail> {
    assert_cases(&rt, rt.alloc(), manifests::CASES, &MistakeCases {}, 19)?;
    Ok(())
}

/// Rules: `tool.notes`.
#[test]
fn mistakes_in_a_workspace(rt: HostRuntime) -> Result<(), Fail> {
    assert_cases(&rt, rt.alloc(), workspaces::CASES, &MistakeCases {}, 14)?;
    Ok(())
}

/// Rules: `tool.notes`.
#[test]
fn mistakes_in_a_plan(rt: HostRuntime) -> Result<(), Fail> {
    assert_cases(&rt, rt.alloc(), plans::CASES, &MistakeCases {}, 15)?;
    Ok(())
}

/// Rules: `tool.notes`, `manifest.ignored`.
#[test]
fn keys_that_nothing_reads(rt: HostRuntime) -> Result<(), Fail> {
    assert_cases(&rt, rt.alloc(), unused::CASES, &MistakeCases {}, 5)?;
    Ok(())
}

/// Returns a place in memory with one manifest of these bytes.
fn memory_with(alloc: Global, manifest: &[u8]) -> Result<Memory<Mini>, Fail>
    ensures { IfOk result (λ memory. memory.flying ≡ []) }
{
    let path = PathText::parse(alloc, "/w/Cargo.toml")?;
    let mut memory = Memory::new(alloc, Mini);
    match memory.put(alloc, &path, manifest) {
        Ok(()) => Ok(memory),
        Err(fault) => {
            drop(memory);
            Err(fault.into())
        }
    }
}

/// Returns how many lines a build of one manifest of these bytes writes on standard error, and the
/// bytes of the longest.
fn lines_said(alloc: Global, manifest: &[u8]) -> Result<(usize, usize), Fail> {
    let memory = memory_with(alloc, manifest)?;
    let said = said_at(alloc, memory, "")?;
    let text = str::from_utf8(said.as_slice()).unwrap_or("");
    let longest = text.lines().map(|line| line.len()).max().unwrap_or(0);
    Ok((text.lines().count(), longest))
}

/// Returns a manifest with this number of keys that nothing reads, and with a name that is not
/// allowed.
fn many_keys(alloc: Global, count: usize) -> Result<String, AllocError> {
    let mut text = String::from_str(alloc, "[package]\nname = \"a b\"\n")?;
    for number in 0..count {
        text.push_str(format!(in alloc; "key{number} = 1\n")?.as_str())?;
    }
    Ok(text)
}

/// Returns a manifest whose name has this number of words.
fn long_name(alloc: Global, count: usize) -> Result<String, AllocError> {
    let mut text = String::from_str(alloc, "[package]\nname = \"")?;
    for _word in 0..count {
        text.push_str("a ")?;
    }
    text.push_str("\"\n")?;
    Ok(text)
}

/// Rules: `tool.notes`.
#[test]
fn ten_thousand_bad_keys(rt: HostRuntime) -> Result<(), Fail> {
    let alloc = rt.alloc();
    let (count, longest) = lines_said(alloc, many_keys(alloc, 10_000)?.as_bytes())?;
    assert_eq!(rt; count, 11);
    assert!(rt; longest < 500);
    Ok(())
}

/// Rules: `tool.notes`.
#[test]
fn a_line_of_a_mebibyte(rt: HostRuntime) -> Result<(), Fail> {
    let alloc = rt.alloc();
    let (count, longest) = lines_said(alloc, long_name(alloc, 524_000)?.as_bytes())?;
    assert_eq!(rt; count, 3);
    assert!(rt; longest < 500);
    Ok(())
}

/// Rules: `tool.notes`.
#[test]
fn a_manifest_that_is_no_text(rt: HostRuntime) -> Result<(), Fail> {
    let (count, longest) = lines_said(rt.alloc(), b"[package]\nname = \"\xff\xfe\"\n")?;
    assert_eq!(rt; count, 3);
    assert!(rt; longest < 500);
    Ok(())
}
