//! Which packages lack a library, and sessions.

use crate::world::{options, put_files};
use pb_build::{
    BadSession, BuildFault, SessionStep, Summary, missing_libraries, read_session, result_line,
    session,
};
use pb_data::{Items, Text};
use pb_mini::Mini;
use pb_place::{Memory, Over, Place};
use std::alloc::{AllocError, Global};
use std::process::Abort;
use std::test::Fail;

/// A line for each workspace: the rule that it is about, what is in the manifest of the member `m`
/// (`~` is the end of a line), and the packages without a library, or the result line. `Z`, `a_b`
/// and `a-b` have a binary and no library; `m` and `n` have a library.
const CASES: &str = "\
no dependency||
a library|dependencies.n.path = '../n'|
in byte order, each once|dependencies = { a_b.path = '../a_b', Z.path = '../Z' }~build-dependencies = { a_b.path = '../a_b', a-b.path = '../a-b' }|Z a-b a_b
the package's name, not the key|dependencies.k = { path = '../a-b', package = 'a-b' }|a-b
an optional dependency that is off|dependencies.Z = { path = '../Z', optional = true }|
an optional dependency that is on|dependencies.Z = { path = '../Z', optional = true }~features.default = ['Z']|Z
a refusal|dependencies.no.path = '../no'|refused NoManifest
";

/// The workspace without the manifest of `m`.
const FILES: &str = "@ /w/Cargo.toml
workspace.members = ['m']
@ /w/m/src/lib.rs
@ /w/m/build.rs
@ /w/n/Cargo.toml
package.name = 'n'
@ /w/n/src/lib.rs
@ /w/Z/Cargo.toml
package.name = 'Z'
@ /w/Z/src/main.rs
@ /w/a_b/Cargo.toml
package.name = 'a_b'
@ /w/a_b/src/main.rs
@ /w/a-b/Cargo.toml
package.name = 'a-b'
@ /w/a-b/src/main.rs
";

/// Returns the names of the libraries that a build lacks, or its result line.
fn names_in(alloc: Global, missing: Result<Items<Text>, BuildFault>) -> Result<String, AllocError> {
    let names = match missing {
        Ok(names) => names,
        Err(fault) => {
            let result: Result<Summary, BuildFault> = Err(fault);
            return result_line(alloc, &result);
        }
    };
    let mut out = String::new(alloc);
    for name in names.as_slice() {
        out.push_str(if out.is_empty() { "" } else { " " })?;
        out.push_str(name.as_str())?;
    }
    Ok(out)
}

/// Returns the libraries that a build of the workspace lacks, if `m` has this manifest.
fn missing_in(alloc: Global, place: &mut Memory<Mini>, manifest: &str) -> Result<String, Fail> {
    let manifest = manifest.replace(alloc, "~", "\n")?;
    let manifest = format!(in alloc;
        "@ /w/m/Cargo.toml\npackage.name = 'm'\n{}\n",
        manifest.as_str()
    )?;
    put_files(alloc, place, FILES)?;
    put_files(alloc, place, manifest.as_str())?;
    let options = options(alloc, 1)?;
    let missing = missing_libraries(alloc, place, &options);
    drop(options);
    Ok(names_in(alloc, missing)?)
}

/// Returns the libraries that a build with this manifest lacks, and the number of children that
/// were started to find them.
fn missing(alloc: Global, manifest: &str) -> Result<(String, u64), Fail> {
    let mut place = Memory::new(alloc, Mini);
    let missing = missing_in(alloc, &mut place, manifest);
    let starts = place.starts();
    drop(place);
    Ok((missing?, starts))
}

/// Asserts that a build lacks what is wanted, and that no child is started to find it.
fn assert_case(rt: &impl Abort, alloc: Global, case: &str) -> Result<(), Fail> {
    let mut parts = case.split('|');
    let name = parts.next().unwrap_or("");
    let (missing, starts) = missing(alloc, parts.next().unwrap_or(""))?;
    assert_eq!(rt; missing.as_str(), parts.next().unwrap_or("none"), "{name}");
    assert_eq!(rt; starts, 0, "{name}");
    Ok(())
}

/// Rules: `plan.without-library`, `build.refusals`.
#[test]
fn missing_libraries_are_named(rt: HostRuntime) -> Result<(), Fail> {
    for case in CASES.lines() {
        assert_case(&rt, rt.alloc(), case)?;
    }
    Ok(())
}

/// A session: edits, a death, a call that fails, and builds after each of them.
const SESSION: &str = r#"[
{"write":["/w/Cargo.toml","package.name = 'a'"]},
{"write":["/w/src/lib.rs","env V"]},
{"die":["a.target.lib","Died"]},
{"build":{}},
{"build":{"jobs":2,"pick":"last"}},
{"build":{}},
{"set":["V","v"]},
{"fuse":3},
{"build":{}},
{"build":{}},
{"unset":"V"},
{"remove":"/w/src"},
{"build":{}}
]"#;

/// The result lines of its builds.
const RESULTS: &str = "fault a.target.lib Died
ok started=a.target.lib
ok started=-
fault CARGO_TARGET_DIR Device
ok started=a.target.lib
refused NothingToBuild
";

/// Returns the result lines of builds.
fn result_lines(
    alloc: Global,
    results: &[Result<Summary, BuildFault>],
) -> Result<String, AllocError> {
    let mut out = String::new(alloc);
    for result in results {
        let line = result_line(alloc, result)?;
        out.push_str(line.as_str())?;
        out.push_str("\n")?;
    }
    Ok(out)
}

/// Returns the result lines of a session.
fn results_of(alloc: Global, steps: &[SessionStep]) -> Result<String, AllocError> {
    let mut place = Memory::new(alloc, Mini);
    let mut written = Vec::new(alloc);
    let results = session(alloc, &mut place, &mut Over::new(&mut written), steps);
    drop(place);
    let results = results?;
    let lines = result_lines(alloc, results.as_slice());
    drop(results);
    lines
}

/// Returns the result lines of a session file.
fn results_in(alloc: Global, file: &str) -> Result<String, Fail> {
    let steps = read_session(alloc, file.as_bytes())?;
    let lines = results_of(alloc, steps.as_slice());
    drop(steps);
    Ok(lines?)
}

/// Rules: `sessions.files`, `results.line`.
#[test]
fn sessions_build(rt: HostRuntime) -> Result<(), Fail> {
    let results = results_in(rt.alloc(), SESSION)?;
    assert_eq!(rt; results.as_str(), RESULTS);
    let refused = read_session(rt.alloc(), b"[{\"build\":1}]").err();
    assert!(rt; matches!(refused, Some(BadSession::BadForm)));
    Ok(())
}
