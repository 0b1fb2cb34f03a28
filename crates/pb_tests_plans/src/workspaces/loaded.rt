//! Workspaces, by a table of files with the packages that are loaded or the refusal.

use crate::asking::{assert_cases, options_of};
use crate::workspaces::cases::CASES;
use crate::workspaces::show::{put_answer, put_indices};
use pb_place::Memory;
use pb_place_types::{PathFault, PathText, Place};
use pb_tests_files::{Case, Shown, Silent, Trial, put_files, workspace_in};
use pb_workspace::{load, selected};
use pb_workspace_types::{LoadFault, SelectedWorkspace, SettledWorkspace};
use std::alloc::Global;
use std::test::Fail;

/// Puts what is selected: the indices, or the refusal.
fn put_selected(out: &mut Shown, answer: &Result<SelectedWorkspace<'_>, LoadFault>) {
    match answer {
        Ok(chosen) => put_indices(out, "", chosen.selection().packages.as_slice()),
        Err(fault) => {
            out.put(&[" "]);
            out.put_value(fault);
            out.put(&["\n"]);
        }
    }
}

/// Puts the selection that a word requests.
fn put_selection(
    alloc: Global,
    workspace: &SettledWorkspace,
    word: &str,
    out: &mut Shown,
) -> Result<(), Fail> {
    let options = options_of(alloc, word, " ")?;
    let answer = selected(alloc, workspace, &options);
    drop(options);
    put_selected(out, &answer);
    drop(answer);
    Ok(())
}

/// Puts a line for each word that requests a selection: `WORD =` and what is selected.
fn put_selections(
    alloc: Global,
    workspace: &SettledWorkspace,
    words: &str,
    out: &mut Shown,
) -> Result<(), Fail> {
    for word in words.split(' ') {
        if !word.is_empty() {
            out.put(&[word, " ="]);
            put_selection(alloc, workspace, word, out)?;
        }
    }
    Ok(())
}

/// Puts an answer, with a line for each selection that the words request.
fn put_loaded(
    alloc: Global,
    answer: &Result<SettledWorkspace, LoadFault>,
    words: &str,
    out: &mut Shown,
) -> Result<(), Fail> {
    put_answer(out, answer);
    match answer {
        Ok(workspace) => put_selections(alloc, workspace, words, out),
        Err(_) => Ok(()),
    }
}

/// Puts the answer to files that are put at a place.
fn put_loaded_at(
    alloc: Global,
    memory: &mut Memory<Silent>,
    case: &Case<'_>,
    out: &mut Shown,
) -> Result<(), Fail> {
    put_files(alloc, memory, case.given)?;
    let answer = workspace_in(alloc, memory)?;
    let (_, words) = case.name.split_once(": ").unwrap_or((case.name, ""));
    let put = put_loaded(alloc, &answer, words, out);
    drop(answer);
    put
}

/// Cases of files, with words of selections after their names.
struct WorkspaceCases {}

impl Trial for WorkspaceCases {
    fn put_result(&self, alloc: Global, case: &Case<'_>, out: &mut Shown) -> Result<(), Fail> {
        let mut memory = Memory::new(alloc, Silent);
        let put = put_loaded_at(alloc, &mut memory, case, out);
        drop(memory);
        put
    }
}

/// Puts the shortest manifest of a member.
fn put_member(alloc: Global, memory: &mut Memory<Silent>, number: usize) -> Result<(), Fail> {
    let path = format!(in alloc; "/w/m{number}/Cargo.toml")?;
    let path = PathText::parse(alloc, path.as_str())?;
    let text = format!(in alloc; "package.name = \"p{number}\"\n")?;
    memory.put(alloc, &path, text.as_bytes())?;
    Ok(())
}

/// Puts a root manifest, and this number of members.
fn put_many(alloc: Global, memory: &mut Memory<Silent>, count: usize) -> Result<(), Fail> {
    put_files(
        alloc,
        memory,
        "@ /w/Cargo.toml\n[workspace]\nmembers = [\"m*\"]\n",
    )?;
    for number in 0..count {
        put_member(alloc, memory, number)?;
    }
    Ok(())
}

/// Returns how many packages an answer has, or 0 if there are too many.
fn count_in(answer: &Result<SettledWorkspace, LoadFault>) -> usize {
    match answer {
        Ok(found) => found.get().packages.len(),
        Err(LoadFault::TooMany) => 0,
        Err(_) => usize::MAX,
    }
}

/// Puts a root and this number of members at a place, and loads the workspace. Returns how many
/// packages were loaded, how many calls of the place failed, and how many children were started.
fn count_loaded_at(
    alloc: Global,
    memory: &mut Memory<Silent>,
    count: usize,
) -> Result<(usize, u64, u64), Fail> {
    put_many(alloc, memory, count)?;
    let answer = workspace_in(alloc, memory)?;
    let count = count_in(&answer);
    drop(answer);
    Ok((count, memory.failures(), memory.starts()))
}

/// Returns the same at a fresh place.
fn count_loaded(alloc: Global, count: usize) -> Result<(usize, u64, u64), Fail> {
    let mut memory = Memory::new(alloc, Silent);
    let counted = count_loaded_at(alloc, &mut memory, count);
    drop(memory);
    counted
}

/// A package whose manifests `/w/Cargo.toml` and `/w/other.toml` are.
const TWO_MANIFESTS: &str =
    "@ /w/Cargo.toml\npackage.name = \"a\"\n@ /w/other.toml\npackage.name = \"a\"\n";

/// Returns whether the loader finds no manifest at a path.
fn finds_none(
    alloc: Global,
    memory: &mut Memory<Silent>,
    manifest: &str,
    target: &str,
) -> Result<bool, PathFault> {
    let manifest = PathText::parse(alloc, manifest)?;
    let target = PathText::parse(alloc, target)?;
    let answer = load(alloc, memory, &manifest, &target);
    let is_none = matches!(answer, Err(LoadFault::NoManifest(_)));
    drop(answer);
    Ok(is_none)
}

/// Paths of manifests with target folders, and whether the loader finds no manifest there in the
/// files of `TWO_MANIFESTS`.
static ROOTS: &[(&str, &str, bool)] = &[
    ("/w/Cargo.toml", "/w/target", false),
    ("/w/other.toml", "/w/target", true),
    ("/w/Cargo.toml", "/w", true),
    ("/w/Cargo.toml", "/w/Cargo.toml", true),
    ("/v/Cargo.toml", "/w/target", true),
];

/// Returns how many of these cases are right, up to the first that is wrong.
fn count_roots(alloc: Global, memory: &mut Memory<Silent>) -> Result<usize, PathFault> {
    put_files(alloc, memory, TWO_MANIFESTS)?;
    for (count, case) in ROOTS.iter().enumerate() {
        let (manifest, target, is_none) = *case;
        if finds_none(alloc, memory, manifest, target)? != is_none {
            return Ok(count);
        }
    }
    Ok(ROOTS.len())
}

/// Returns the same at a fresh place.
fn count_own_roots(alloc: Global) -> Result<usize, PathFault> {
    let mut memory = Memory::new(alloc, Silent);
    let count = count_roots(alloc, &mut memory);
    drop(memory);
    count
}

/// Rules: `load.end`, `load.root`.
#[test]
fn workspaces(rt: HostRuntime) -> Result<(), Fail> {
    for table in CASES {
        let (cases, count) = *table;
        assert_cases(&rt, rt.alloc(), cases, &WorkspaceCases {}, count)?;
    }
    assert!(rt; count_loaded(rt.alloc(), 256)? == (256, 0, 0));
    assert!(rt; count_loaded(rt.alloc(), 257)? == (0, 0, 0));
    assert_eq!(rt; count_own_roots(rt.alloc())?, 5);
    Ok(())
}
