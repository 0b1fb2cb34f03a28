//! Trials: steps on a project, and what they report.

use crate::units::ready::{bench_of, project_in};
use crate::units::steps::{assert_cases, make_steps};
use pb_mini::Mini;
use pb_place::Memory;
use pb_run::OrderedProject;
use pb_tests_files::{Case, Shown, Trial, Untold, put_files};
use std::alloc::Global;
use std::test::Fail;

/// The library of `a` warns, and reads a file and a variable. The package `b` has a script and a
/// library. The units are a's library, b's script, the run of the script, and b's library.
pub const FILES: &str =
    "@ /w/Cargo.toml\nworkspace.members = ['a', 'b']\n@ /w/a/Cargo.toml\npackage.name = 'a'\n@ /w/a/src/lib.rs\nwarn w\ninclude n\nenv V\n@ /w/a/src/n\none\n@ /w/b/Cargo.toml\npackage.name = 'b'\ndependencies.a.path = '../a'\n@ /w/b/src/lib.rs\nuse a\n@ /w/b/build.rs\nput f g\n";

/// Returns what steps on a project report.
fn told_by(
    alloc: Global,
    place: &mut Untold<Mini>,
    project: &OrderedProject,
    steps: &str,
) -> Result<String, Fail> {
    let mut bench = bench_of(alloc, place, project)?;
    make_steps(alloc, place, project, &mut bench, steps)
}

/// Returns what steps on a project report, if the project was not refused.
fn told_if(
    alloc: Global,
    place: &mut Untold<Mini>,
    project: &Option<OrderedProject>,
    steps: &str,
) -> Result<String, Fail> {
    match project {
        Some(project) => told_by(alloc, place, project, steps),
        None => Ok(String::from_str(alloc, "no project")?),
    }
}

/// Returns what steps on the project of these files report, in a place without files.
fn told_in(alloc: Global, place: &mut Untold<Mini>, steps: &str) -> Result<String, Fail> {
    put_files(alloc, &mut place.inside, FILES)?;
    let project = project_in(alloc, &mut place.inside)?;
    told_if(alloc, place, &project, steps)
}

/// Returns what steps on this project report, in a fresh place.
fn report_afresh(alloc: Global, steps: &str) -> Result<String, Fail> {
    let inside = Memory::new(alloc, Mini);
    told_in(alloc, &mut Untold { inside }, steps)
}

/// Trials. A trial is a line `=== [RULE] NAME`, its steps, a line `---`, and what the steps report.
/// Each step and each report has a line.
const TRIALS: &str = r#"=== [build.units] a second run starts nothing, and prints its lines again
run 0
lines
starts
run 0
lines
starts
---
nothing is kept of it
{"reason":"compiler-message","package_id":"path+file:///w/a#0.0.0","manifest_path":"/w/a/Cargo.toml","target":{"kind":["lib"],"crate_types":["lib"],"name":"a","src_path":"/w/a/src/lib.rs","edition":"2015"},"message":{"level":"warning","message":"w","line":1}}
{"reason":"compiler-artifact","package_id":"path+file:///w/a#0.0.0","manifest_path":"/w/a/Cargo.toml","target":{"kind":["lib"],"crate_types":["lib"],"name":"a","src_path":"/w/a/src/lib.rs","edition":"2015"},"profile":{"opt_level":"0","debuginfo":2,"debug_assertions":true,"overflow_checks":true,"test":false},"features":[],"filenames":["/w/target/debug/a.target.lib/liba.rlib"],"executable":null,"fresh":false}

1 starts
same
{"reason":"compiler-message","package_id":"path+file:///w/a#0.0.0","manifest_path":"/w/a/Cargo.toml","target":{"kind":["lib"],"crate_types":["lib"],"name":"a","src_path":"/w/a/src/lib.rs","edition":"2015"},"message":{"level":"warning","message":"w","line":1}}
{"reason":"compiler-artifact","package_id":"path+file:///w/a#0.0.0","manifest_path":"/w/a/Cargo.toml","target":{"kind":["lib"],"crate_types":["lib"],"name":"a","src_path":"/w/a/src/lib.rs","edition":"2015"},"profile":{"opt_level":"0","debuginfo":2,"debug_assertions":true,"overflow_checks":true,"test":false},"features":[],"filenames":["/w/target/debug/a.target.lib/liba.rlib"],"executable":null,"fresh":true}

1 starts
=== [records.differs] four units, again, and with a store that is opened again
run 0
run 1
run 2
run 3
run 0
run 1
run 2
run 3
open
run 0
run 1
run 2
run 3
---
nothing is kept of it
nothing is kept of it
nothing is kept of it
nothing is kept of it
same
same
same
same
same
same
same
same
=== [records.differs] an argument
run 0
flag --edition=2018
run 0
run 0
---
nothing is kept of it
its words have changed
same
=== [records.differs] the program
run 0
compiler mini
run 0
---
nothing is kept of it
its program has changed
=== [records.differs] the version of the compiler
run 0
version v
run 0
---
nothing is kept of it
its compiler has changed
=== [records.differs] a variable that the command sets
run 0
tool t
run 0
---
nothing is kept of it
the variable `CARGO` that its command sets has changed
=== [records.differs] a file
run 0
file /w/a/src/n two
run 0
run 0
---
nothing is kept of it
`/w/a/src/n` has changed
same
=== [records.differs] a file that is gone and comes back
run 0
gone /w/a/src/n
run 0
run 0
file /w/a/src/n one
run 0
---
nothing is kept of it
`/w/a/src/n` has changed, but the child process ended with status 1
nothing is kept of it, but the child process ended with status 1
nothing is kept of it
=== [records.differs] an inherited variable
run 0
set V v
run 0
set V
run 0
unset V
run 0
---
nothing is kept of it
`V` has changed
`V` has changed
`V` has changed
=== [records.differs] a needed unit that was built again
run 0
run 1
run 2
run 3
file /w/a/src/n two
run 0
run 1
run 2
run 3
---
nothing is kept of it
nothing is kept of it
nothing is kept of it
nothing is kept of it
`/w/a/src/n` has changed
same
same
`a.target.lib` was built again
=== [records.differs] a folder that a script has as its input
run 0
run 1
run 2
run 3
file /w/b/x
run 0
run 1
run 2
run 3
---
nothing is kept of it
nothing is kept of it
nothing is kept of it
nothing is kept of it
same
same
`/w/b` has changed
`b.target.run` was built again
=== [records.text] a record that is gone
run 0
gone /w/target/debug/a.target.lib.record
run 0
---
nothing is kept of it
nothing is kept of it
=== [records.text] a text that is no record
run 0
file /w/target/debug/a.target.lib.record record 2
run 0
---
nothing is kept of it
nothing is kept of it
=== [build.units] a child that cannot be started leaves no record and no files
die a.target.lib CannotStart
run 0
there /w/target/debug/a.target.lib.record
there /w/target/debug/a.target.lib/a.d
open
run 0
---
fault a.target.lib CannotStart
gone
gone
nothing is kept of it
=== [build.units] a child that dies leaves no record
die a.target.lib Died
run 0
there /w/target/debug/a.target.lib.record
there /w/target/debug/a.target.lib/a.d
open
run 0
---
fault a.target.lib Died
gone
there
nothing is kept of it
=== [build.units] a child whose output is lost leaves no record
die a.target.lib Capture
run 0
there /w/target/debug/a.target.lib.record
there /w/target/debug/a.target.lib/a.d
open
run 0
---
fault a.target.lib Capture
gone
there
nothing is kept of it
=== [build.units] a child that cannot be started after an edit, which is undone
run 0
file /w/a/src/n two
die a.target.lib CannotStart
run 0
there /w/target/debug/a.target.lib.record
file /w/a/src/n one
open
run 0
run 0
---
nothing is kept of it
fault a.target.lib CannotStart
gone
nothing is kept of it
same
=== [build.units] a child whose answer is dropped
drop 0
there /w/target/debug/a.target.lib.record
starts
run 0
drop 0
starts
run 0
---
nothing is kept of it
gone
1 starts
nothing is kept of it
same
2 starts
same
=== [build.units] a child whose answer is dropped after an edit
run 0
file /w/a/src/n two
drop 0
there /w/target/debug/a.target.lib.record
file /w/a/src/n one
run 0
---
nothing is kept of it
`/w/a/src/n` has changed
gone
nothing is kept of it
=== [answers.bad] a compile that fails leaves no record
file /w/a/src/lib.rs fail no
run 0
lines
there /w/target/debug/a.target.lib.record
run 0
---
nothing is kept of it, but the child process ended with status 1
{"reason":"compiler-message","package_id":"path+file:///w/a#0.0.0","manifest_path":"/w/a/Cargo.toml","target":{"kind":["lib"],"crate_types":["lib"],"name":"a","src_path":"/w/a/src/lib.rs","edition":"2015"},"message":{"level":"error","message":"no","line":1}}

gone
nothing is kept of it, but the child process ended with status 1
=== [answers.bad] a script that fails leaves no record
file /w/b/build.rs exit 3
run 1
run 2
there /w/target/debug/b.target.run.record
run 2
---
nothing is kept of it
nothing is kept of it, but the child process ended with status 3
gone
nothing is kept of it, but the child process ended with status 3
=== [answers.bad] a script with a line that is refused
file /w/b/build.rs print cargo::nope
run 1
run 2
---
nothing is kept of it
nothing is kept of it, but the script's output is refused: line 1 has a bad value
=== [build.faults] a call that fails, and no call after it
fuse 1
run 0
late
fuse 0
open
run 0
---
fault a.target.lib Device
0 late
nothing is kept of it
=== [build.units] a unit that is not there
run 9
---
no unit
"#;

/// Cases of steps, and what each step reports.
struct StepCases {}

impl Trial for StepCases {
    fn put_result(&self, alloc: Global, case: &Case<'_>, out: &mut Shown) -> Result<(), Fail> {
        let told = report_afresh(alloc, case.given)?;
        out.put(&[told.as_str()]);
        drop(told);
        Ok(())
    }
}

/// Rules: `build.units`, `records.differs`.
#[test]
fn units_tell(rt: HostRuntime) -> Result<(), Fail> {
    assert_cases(&rt, rt.alloc(), TRIALS, &StepCases {}, 24)?;
    Ok(())
}
