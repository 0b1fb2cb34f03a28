//! Runs of units in which one call of the place fails, each call in turn.

ghost use Rattle.std.specs.Prelude.{◌≡◌};
ghost use Rattle.pb_run.specs.Invariants.{records_folder};

use crate::units::ready::{Bench, bench_of, project_in};
use crate::units::steps::{assert_cases, call, make_steps, reopen, words_of};
use crate::units::trials::FILES;
use pb_mini::Mini;
use pb_place::Memory;
use pb_place_types::Place;
use pb_run::OrderedProject;
use pb_tests_files::{Case, Shown, Trial, Untold, put_files};
use std::alloc::Global;
use std::test::Fail;

/// Returns the report on calls that came after the failed call.
fn late_told(place: &Untold<Mini>) -> &'static str {
    if place.late() > 0 {
        return " (wrong: a call came after it)";
    }
    ""
}

/// Makes a call, in words, while the call of the place with this number fails. Reports the fault,
/// and what the same call reports afterwards with a store that is opened again. Reports nothing if
/// no call failed.
fn fail_at(
    alloc: Global,
    place: &mut Untold<Mini>,
    project: &OrderedProject,
    bench: &mut Bench,
    line: &str,
    number: u64,
) -> Result<String, Fail>
    requires folder { bench.old.store.folder ≡ records_folder project.now }
{
    let (verb, first, _) = words_of(line);
    place.inside.fuse(number);
    let told = call(alloc, place, project, bench, verb, first)?;
    place.inside.fuse(0);
    if place.failures() == 0 {
        return Ok(String::new(alloc));
    }
    let late = late_told(place);
    reopen(alloc, place, project, bench)?;
    let again = call(alloc, place, project, bench, verb, first)?;
    let mut said = Shown::new(alloc);
    said.put(&[told.as_str(), late, ": ", again.as_str(), "\n"]);
    Ok(said.whole()?)
}

/// Does what `fail_at` does with the last of these steps, after the steps before it.
fn fail_after(
    alloc: Global,
    place: &mut Untold<Mini>,
    project: &OrderedProject,
    steps: &str,
    number: u64,
) -> Result<String, Fail> {
    let (before, last) = steps.rsplit_once('\n').unwrap_or(("", steps));
    let mut bench = bench_of(alloc, place, project)?;
    make_steps(alloc, place, project, &mut bench, before)?;
    fail_at(alloc, place, project, &mut bench, last, number)
}

/// Does the same, if the project was not refused.
fn fail_if(
    alloc: Global,
    place: &mut Untold<Mini>,
    project: &Option<OrderedProject>,
    steps: &str,
    number: u64,
) -> Result<String, Fail> {
    match project {
        Some(project) => fail_after(alloc, place, project, steps, number),
        None => Ok(String::from_str(alloc, "no project")?),
    }
}

/// Does the same on the project of the files, in a place without files.
fn fail_in(
    alloc: Global,
    place: &mut Untold<Mini>,
    steps: &str,
    number: u64,
) -> Result<String, Fail> {
    put_files(alloc, &mut place.inside, FILES)?;
    let project = project_in(alloc, &mut place.inside)?;
    fail_if(alloc, place, &project, steps, number)
}

/// Does the same in a fresh place.
fn try_at(alloc: Global, steps: &str, number: u64) -> Result<String, Fail> {
    let inside = Memory::new(alloc, Mini);
    fail_in(alloc, &mut Untold { inside }, steps, number)
}

/// Lets each call of the place fail in turn, until none does.
fn each_fails(alloc: Global, steps: &str) -> Result<String, Fail> {
    let mut told = Shown::new(alloc);
    for number in 1..100u64 {
        let said = try_at(alloc, steps, number)?;
        if said.is_empty() {
            return Ok(told.whole()?);
        }
        told.put(&[said.as_str()]);
    }
    told.put(&["wrong: it does not end"]);
    Ok(told.whole()?)
}

/// Trials: a line `=== [RULE] NAME` and steps, a line each; the last step is the call that fails.
/// After a line `---` come its faults, and what the same call reports after each fault.
const TRIALS: &str = r#"=== [build.faults] each call for a unit that was never built
run 0
---
fault a.target.lib Device: nothing is kept of it
fault a.target.lib Device: nothing is kept of it
fault a.target.lib Device: nothing is kept of it
fault a.target.lib CannotStart: nothing is kept of it
fault a.target.lib Died: nothing is kept of it
fault a.target.lib Device: nothing is kept of it
fault a.target.lib Device: nothing is kept of it
fault a.target.lib Device: nothing is kept of it
fault a.target.lib Device: nothing is kept of it
fault a.target.lib Device: nothing is kept of it
=== [build.faults] each call for a unit that has not changed
run 0
run 0
---
fault a.target.lib Device: same
fault a.target.lib Device: same
fault a.target.lib Device: same
fault a.target.lib Device: same
fault a.target.lib Device: same
=== [build.faults] each call for a unit whose source has changed
run 0
file /w/a/src/n two
run 0
---
fault a.target.lib Device: `/w/a/src/n` has changed
fault a.target.lib Device: `/w/a/src/n` has changed
fault a.target.lib Device: `/w/a/src/n` has changed
fault a.target.lib Device: `/w/a/src/n` has changed
fault a.target.lib Device: nothing is kept of it
fault a.target.lib CannotStart: nothing is kept of it
fault a.target.lib Died: nothing is kept of it
fault a.target.lib Device: nothing is kept of it
fault a.target.lib Device: nothing is kept of it
fault a.target.lib Device: nothing is kept of it
fault a.target.lib Device: nothing is kept of it
fault a.target.lib Device: nothing is kept of it
=== [build.faults] each call for a script's run
run 1
run 2
---
fault b.target.run Device: nothing is kept of it
fault b.target.run Device: nothing is kept of it
fault b.target.run Device: nothing is kept of it
fault b.target.run CannotStart: nothing is kept of it
fault b.target.run Died: nothing is kept of it
fault b.target.run Device: nothing is kept of it
fault b.target.run Device: nothing is kept of it
fault b.target.run Device: nothing is kept of it
fault b.target.run Device: nothing is kept of it
fault b.target.run Device: nothing is kept of it
fault b.target.run Device: nothing is kept of it
"#;

/// Cases of steps whose last step fails at each call in turn, and what it reports after each
/// failure.
struct FailingCases {}

impl Trial for FailingCases {
    fn put_result(&self, alloc: Global, case: &Case<'_>, out: &mut Shown) -> Result<(), Fail> {
        let told = each_fails(alloc, case.given.trim_end())?;
        out.put(&[told.as_str()]);
        drop(told);
        Ok(())
    }
}

/// Rules: `build.units`, `build.faults`.
#[test]
fn calls_of_units_fail(rt: HostRuntime) -> Result<(), Fail> {
    assert_cases(&rt, rt.alloc(), TRIALS, &FailingCases {}, 4)?;
    Ok(())
}
