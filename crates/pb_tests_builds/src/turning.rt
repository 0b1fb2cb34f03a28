//! Builds by turns that the tests define. In these turns the unit that began last answers first,
//! which is not so with any number of jobs.

ghost use Rattle.std.specs.Prelude.{◌≡◌, []};
ghost use Rattle.pb_place.specs.Memory.{counts_in};

use crate::building::{afresh, build_text, join_lines, last_line, lines_but_last, options};
use pb_build::build_turns;
use pb_build_result::result_line;
use pb_mini::Mini;
use pb_place::Memory;
use pb_place_types::{Over, Place};
use pb_run_flight::{Step, Turn};
use pb_tests_files::put_files;
use pb_workspace_types::Options;
use std::alloc::{AllocError, Global};
use std::test::Fail;

/// Begins each unit that may begin, the last in plan order first. If none may begin, a unit in
/// flight answers.
#[derive(Drop)]
struct LastBegins {
    /// Whether the unit that began last answers first.
    is_last_answered: bool,
}

impl Turn for LastBegins {
    ghost turns = { λ _ _ _ _ _. Unit {0} };

    fn turn(&mut self, ready: &[usize], flying: &[usize]) -> Step {
        if !ready.is_empty() {
            return Step::Begin(ready.len() - 1);
        }
        if self.is_last_answered {
            Step::Answer(flying.len() - 1)
        } else {
            Step::Answer(0)
        }
    }
}

/// Returns the result line of a build by turns of this kind. The build writes its lines to `out`.
fn result_in_turn(
    alloc: Global,
    place: &mut Memory<Mini>,
    out: &mut Vec<u8>,
    options: &Options,
    turn: &mut LastBegins,
) -> Result<String, AllocError>
    requires none { (counts_in place.old).starts.flying ≡ [] }
    ensures landed { (counts_in place.new).starts.flying ≡ [] }
{
    let mut sink = Over::new(out);
    result_line(alloc, &build_turns(alloc, place, &mut sink, options, turn))
}

/// Returns what a build by turns of this kind writes, and then its result line.
fn said_in_turn(
    alloc: Global,
    place: &mut Memory<Mini>,
    options: &Options,
    turn: &mut LastBegins,
) -> Result<String, AllocError>
    requires none { (counts_in place.old).starts.flying ≡ [] }
    ensures landed { (counts_in place.new).starts.flying ≡ [] }
{
    let mut out = Vec::new(alloc);
    let line = result_in_turn(alloc, place, &mut out, options, turn)?;
    join_lines(alloc, out.as_slice(), line.as_str())
}

/// Returns what such a build of the workspace at `/w` writes, and then its result line.
fn built_in_turn(
    alloc: Global,
    place: &mut Memory<Mini>,
    is_last_answered: bool,
) -> Result<String, Fail>
    requires none { (counts_in place.old).starts.flying ≡ [] }
    ensures landed { (counts_in place.new).starts.flying ≡ [] }
{
    let options = options(alloc, 1)?;
    let mut turn = LastBegins { is_last_answered };
    let said = said_in_turn(alloc, place, &options, &mut turn);
    drop(options);
    Ok(said?)
}

/// Two libraries; neither needs the other.
const GOOD: &str =
    "@ /w/Cargo.toml\nworkspace.members = ['a', 'b']\n@ /w/a/Cargo.toml\npackage.name = 'a'\n@ /w/a/src/lib.rs\nwarn one\n@ /w/b/Cargo.toml\npackage.name = 'b'\n@ /w/b/src/lib.rs\nwarn two\n";

/// Two libraries, both of which are bad. Neither needs the other.
const BAD: &str =
    "@ /w/Cargo.toml\nworkspace.members = ['a', 'b']\n@ /w/a/Cargo.toml\npackage.name = 'a'\n@ /w/a/src/lib.rs\nfail one\n@ /w/b/Cargo.toml\npackage.name = 'b'\n@ /w/b/src/lib.rs\nfail two\n";

/// The files of a build that succeeds, and of a build that fails.
static BOTH: &[&str] = &[GOOD, BAD];

/// Returns what a build of these files writes if it runs one unit after another, in a place without
/// files.
fn whole_in(alloc: Global, place: &mut Memory<Mini>, files: &str) -> Result<String, Fail>
    requires none { (counts_in place.old).starts.flying ≡ [] }
{
    put_files(alloc, place, files)?;
    build_text(alloc, place, 1)
}

/// Returns what `whole_in` returns, for a fresh place.
fn whole_of(alloc: Global, files: &str) -> Result<String, Fail> {
    whole_in(alloc, &mut Memory::new(alloc, Mini), files)
}

/// Returns whether a build of these files by turns, in a place without files, writes the lines that
/// a build of one unit after another writes, with both children in flight at one moment.
fn is_same(
    alloc: Global,
    place: &mut Memory<Mini>,
    files: &str,
    whole: &str,
    is_last_answered: bool,
) -> Result<bool, Fail>
    requires none { (counts_in place.old).starts.flying ≡ [] }
{
    put_files(alloc, place, files)?;
    let said = built_in_turn(alloc, place, is_last_answered)?;
    Ok(lines_but_last(said.as_str()) == lines_but_last(whole) && place.most() == 2)
}

/// Returns what `is_same` returns, for a fresh place.
fn is_right(alloc: Global, files: &str, is_last_answered: bool) -> Result<bool, Fail> {
    let whole = whole_of(alloc, files)?;
    let mut place = Memory::new(alloc, Mini);
    let is_right = is_same(alloc, &mut place, files, whole.as_str(), is_last_answered);
    drop(place);
    is_right
}

/// Rules: `next.begin`, `next.reported`.
#[test]
fn the_last_that_began_is_answered_first(rt: HostRuntime) -> Result<(), Fail> {
    for files in BOTH {
        assert!(rt; is_right(rt.alloc(), *files, true)?, "{files}");
    }
    Ok(())
}

/// Rules: `next.begin`, `next.jobs`.
#[test]
fn the_first_that_began_is_answered_first(rt: HostRuntime) -> Result<(), Fail> {
    for files in BOTH {
        assert!(rt; is_right(rt.alloc(), *files, false)?, "{files}");
    }
    Ok(())
}

/// Builds by turns while this call fails, in a place without files, and then builds again. Returns
/// what was wrong, in words, or none if no call failed. The build must end at the failed call, and
/// the next build must report what a clean build reports.
fn fail_at(
    alloc: Global,
    place: &mut Memory<Mini>,
    number: u64,
    whole: &str,
) -> Result<Option<&'static str>, Fail>
    requires none { (counts_in place.old).starts.flying ≡ [] }
{
    put_files(alloc, place, GOOD)?;
    place.fuse(number);
    let failed = built_in_turn(alloc, place, true)?;
    place.fuse(0);
    if place.failures() == 0 {
        return Ok(None);
    }
    if place.late() > 0 || !last_line(failed.as_str()).starts_with("fault ") {
        return Ok(Some("the build did not end at the call that failed"));
    }
    let again = built_in_turn(alloc, place, true)?;
    let lines = afresh(alloc, again.as_str())?;
    if lines_but_last(lines.as_str()) != lines_but_last(whole) {
        return Ok(Some("the next build does not say what one from nothing says"));
    }
    Ok(Some(""))
}

/// Does what `fail_at` does, in a fresh place.
fn try_at(alloc: Global, number: u64, whole: &str) -> Result<Option<&'static str>, Fail> {
    fail_at(alloc, &mut Memory::new(alloc, Mini), number, whole)
}

/// Rules: `build.faults`.
#[test]
fn each_call_fails_in_turn(rt: HostRuntime) -> Result<(), Fail> {
    let whole = whole_of(rt.alloc(), GOOD)?;
    for number in 1..200u64 {
        match try_at(rt.alloc(), number, whole.as_str())? {
            Some(wrong) => {
                assert!(rt; wrong.is_empty(), "call {number}: {wrong}");
            }
            None => {
                assert!(rt; number > 20, "{number} calls");
                return Ok(());
            }
        }
    }
    Err(Fail::from("it does not end"))
}
