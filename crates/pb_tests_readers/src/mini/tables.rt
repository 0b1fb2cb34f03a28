//! All sources and images, with the wanted replies.

use super::compiles::{BUILD_WORDS, ODD_SOURCES, SOURCES};
use super::runs::{ODD_RUNS, RUNS};
use super::variables::{ENVS, WHENS};
use super::verbs::{INCLUDES, ODD_INCLUDES, USES};
use super::worlds::{Case, WORDS, answer_in, answers, case_of, text_of};
use pb_tests_files::holds;
use std::alloc::{AllocError, Global};
use std::process::Abort;

/// Returns whether the compile of a case does this.
fn compiles_so(alloc: Global, words: &str, path: &str, case: &Case) -> bool {
    let (source, status, stderr, files) = *case;
    let reply = answer_in(alloc, words, path, source);
    answers(alloc, reply, status, b"", stderr, files)
}

/// Returns the same for the case in a line.
fn line_compiles_so(
    alloc: Global,
    words: &str,
    path: &str,
    line: &str,
) -> Result<bool, AllocError> {
    let text = text_of(alloc, line)?;
    Ok(compiles_so(alloc, words, path, &case_of(text.as_str())))
}

/// Asserts what each compile of a table does. A compile writes only to standard error.
fn assert_compiles(
    rt: &impl Abort,
    alloc: Global,
    words: &str,
    path: &str,
    lines: &str,
    cases: &[Case],
) {
    for line in lines.lines() {
        assert!(rt; holds(line_compiles_so(alloc, words, path, line)), "{line}");
    }
    for (place, case) in cases.iter().enumerate() {
        assert!(rt; compiles_so(alloc, words, path, case), "case {place}");
    }
}

/// Returns whether the run of a case does this: it speaks on standard output.
fn runs_so(alloc: Global, case: &Case) -> bool {
    let (image, status, stdout, files) = *case;
    let reply = answer_in(alloc, "--run|/i", "/i", image);
    answers(alloc, reply, status, stdout, b"", files)
}

/// Returns the same for the case in a line.
fn line_runs_so(alloc: Global, line: &str) -> Result<bool, AllocError> {
    let text = text_of(alloc, line)?;
    Ok(runs_so(alloc, &case_of(text.as_str())))
}

/// Asserts what the run of each image does.
fn assert_runs(rt: &impl Abort, alloc: Global) {
    for line in RUNS.lines() {
        assert!(rt; holds(line_runs_so(alloc, line)), "{line}");
    }
    for (place, case) in ODD_RUNS.iter().enumerate() {
        assert!(rt; runs_so(alloc, case), "case {place}");
    }
}

/// Rules: `mini.language`.
#[test]
fn compiles_and_runs(rt: HostRuntime) {
    assert_compiles(&rt, rt.alloc(), WORDS, "/w/s", USES, &[]);
    assert_compiles(&rt, rt.alloc(), WORDS, "/w/s", INCLUDES, ODD_INCLUDES);
    assert_compiles(&rt, rt.alloc(), WORDS, "/w/s", ENVS, &[]);
    assert_compiles(&rt, rt.alloc(), WORDS, "/w/s", WHENS, &[]);
    assert_compiles(
        &rt,
        rt.alloc(),
        BUILD_WORDS,
        "/w/src/lib.rs",
        SOURCES,
        ODD_SOURCES,
    );
    assert_runs(&rt, rt.alloc());
}
