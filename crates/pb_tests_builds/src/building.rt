//! Builds of the workspace at `/w`, with the small compiler.

ghost use Rattle.std.specs.Prelude.{◌≡◌, []};

use pb_build::build;
use pb_build_result::result_line;
use pb_data::{Items, Text};
use pb_place_types::{Over, Place};
use pb_tests_files::{Shown, no_options};
use pb_workspace_types::Options;
use std::alloc::{AllocError, Global};
use std::test::Fail;

/// Returns the small compiler, as a runner.
fn runner(alloc: Global) -> Result<Items<Text>, AllocError> {
    let mut runner = Items::new(alloc);
    runner.push(Text::from_str(alloc, "mini")?)?;
    runner.push(Text::from_str(alloc, "--run")?)?;
    Ok(runner)
}

/// Returns a build of the workspace at `/w` with this number of jobs.
pub fn options(alloc: Global, jobs: u64) -> Result<Options, Fail> {
    let runner = runner(alloc)?;
    let options = no_options(alloc)?;
    Ok(Options {
        runner,
        jobs,
        ..options
    })
}

/// Returns the result line of a build that writes to `out`.
fn result_of<P: Place>(
    alloc: Global,
    place: &mut P,
    out: &mut Vec<u8>,
    options: &Options,
) -> Result<String, AllocError>
    requires none { (P.at place.old).counts.starts.flying ≡ [] }
    ensures landed { (P.at place.new).counts.starts.flying ≡ [] }
{
    let mut sink = Over::new(out);
    result_line(alloc, &build(alloc, place, &mut sink, options))
}

/// Returns lines, and after them one last line.
pub fn join_lines(alloc: Global, lines: &[u8], last: &str) -> Result<String, AllocError> {
    let mut said = Shown::new(alloc);
    said.put(&[str::from_utf8(lines).unwrap_or(""), last]);
    said.whole()
}

/// Returns what a build writes, and then its result line.
fn said_by<P: Place>(alloc: Global, place: &mut P, options: &Options) -> Result<String, AllocError>
    requires none { (P.at place.old).counts.starts.flying ≡ [] }
    ensures landed { (P.at place.new).counts.starts.flying ≡ [] }
{
    let mut out = Vec::new(alloc);
    let line = result_of(alloc, place, &mut out, options)?;
    join_lines(alloc, out.as_slice(), line.as_str())
}

/// Returns what a build with this number of jobs writes, and then its result line.
pub fn build_text<P: Place>(alloc: Global, place: &mut P, jobs: u64) -> Result<String, Fail>
    requires none { (P.at place.old).counts.starts.flying ≡ [] }
    ensures landed { (P.at place.new).counts.starts.flying ≡ [] }
{
    let options = options(alloc, jobs)?;
    let said = said_by(alloc, place, &options);
    drop(options);
    Ok(said?)
}

/// Returns the last line of a text.
pub fn last_line(said: &str) -> &str {
    match said.rsplit_once('\n') {
        Some((_, last)) => last,
        None => said,
    }
}

/// Returns the lines of a text but the last.
pub fn lines_but_last(said: &str) -> &str {
    match said.rsplit_once('\n') {
        Some((lines, _)) => lines,
        None => "",
    }
}

/// Returns the lines of a build, as if no unit had been fresh.
pub fn afresh(alloc: Global, said: &str) -> Result<String, AllocError> {
    said.replace(alloc, r#""fresh":true"#, r#""fresh":false"#)
}
