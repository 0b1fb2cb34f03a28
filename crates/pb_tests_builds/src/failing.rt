//! Builds in which one call of the place fails, each call in turn, and the builds after them.

ghost use Rattle.std.specs.Prelude.{◌≡◌, []};
ghost use Rattle.pb_place.specs.Memory.{counts_in};

use crate::building::{afresh, build_text, last_line, lines_but_last};
use crate::old::OLD_FOLDER;
use pb_mini::Mini;
use pb_place::Memory;
use pb_place_types::Place;
use pb_tests_files::{Shown, put_files};
use std::alloc::{AllocError, Global};
use std::test::Fail;

/// A library.
const LIBRARY: &str = "@ /w/Cargo.toml\npackage.name = 'a'\n@ /w/src/lib.rs\nwarn w\n";

/// A package `r` with a library and a script. Both need the package `x`, which has a library and a
/// script, too.
const SIDES: &str =
    "@ /w/Cargo.toml\npackage.name = 'r'\ndependencies.x.path = 'x'\nbuild-dependencies.x.path = 'x'\n@ /w/src/lib.rs\nuse x\n@ /w/build.rs\nput a b\n@ /w/x/Cargo.toml\npackage.name = 'x'\n@ /w/x/src/lib.rs\ninclude $OUT_DIR/f\n@ /w/x/build.rs\nput f g\nput h i\n";

/// Two libraries; one needs the other.
const PAIR: &str =
    "@ /w/Cargo.toml\nworkspace.members = ['a', 'b']\n@ /w/a/Cargo.toml\n[package]\nname = 'a'\nversion = '0.1.0'\nedition = '2021'\n@ /w/a/src/lib.rs\n@ /w/b/Cargo.toml\n[package]\nname = 'b'\nversion = '0.1.0'\nedition = '2021'\n[dependencies]\na = { path = '../a' }\n@ /w/b/src/lib.rs\nuse a\n";

/// An edit of the library of `/w`.
const EDIT: &str = "@ /w/src/lib.rs\nprint edited\n";

/// An edit of `a`, the first of two libraries, that changes what is made from `a`.
const EDIT_OF_A: &str = "@ /w/a/src/lib.rs\nprint edited\n";

/// An edit of `a` that changes only its source.
const REMARK_IN_A: &str = "@ /w/a/src/lib.rs\n# c\n";

/// A build in which each call fails in turn.
struct Trial {
    /// The files.
    files: &'static str,
    /// What exists in the target folder before the build.
    target: &'static str,
    /// Whether they are built once before they are edited.
    is_built: bool,
    /// The edit.
    edit: &'static str,
    /// How many units are in flight at one time.
    jobs: u64,
    /// The last faults, after those with which all trials begin.
    last: &'static str,
}

/// Puts the files of a trial, builds them once if the trial requests it, and edits them.
fn prepare(alloc: Global, place: &mut Memory<Mini>, trial: &Trial) -> Result<(), Fail>
    requires none { (counts_in place.old).starts.flying ≡ [] }
    ensures landed { (counts_in place.new).starts.flying ≡ [] }
{
    put_files(alloc, place, trial.files)?;
    put_files(alloc, place, trial.target)?;
    if trial.is_built {
        build_text(alloc, place, trial.jobs)?;
    }
    put_files(alloc, place, trial.edit)?;
    Ok(())
}

/// Returns the text before the line that first contains this part, or an empty text if no line
/// contains it.
fn lines_before<'a>(lines: &'a str, part: &str) -> &'a str {
    match lines.split_once(part) {
        Some((front, _)) => match front.rsplit_once('\n') {
            Some((front, _)) => front,
            None => "",
        },
        None => "",
    }
}

/// The failing finish line.
const FINISH: &str = r#"{"reason":"build-finished","success":false}"#;

/// Returns the folder of the unit that a fault names, as lines name it.
fn folder_named(alloc: Global, fault: &str) -> Result<String, AllocError> {
    let mut folder = String::from_str(alloc, "/debug/")?;
    folder.push_str(fault.split(' ').nth(1).unwrap_or(""))?;
    Ok(folder)
}

/// Returns whether these are the lines of a build that a fault ends. Such a build has lines of
/// units, as a whole build has them, and then the failing finish line. With one job, the lines are
/// those of all units before the unit that the fault names. With more jobs, they are the lines of
/// the first n units, for some n.
fn is_stopped(lines: &str, before: &str, jobs: u64) -> bool {
    if lines == FINISH {
        return before.is_empty() || jobs > 1;
    }
    match lines.strip_suffix(FINISH) {
        Some(front) => match front.strip_suffix("\n") {
            Some(front) => front == before || jobs > 1 && is_front(front, before),
            None => false,
        },
        None => false,
    }
}

/// Returns whether lines are the first of others.
fn is_front(front: &str, lines: &str) -> bool {
    match lines.strip_prefix(front) {
        Some(rest) => rest.starts_with("\n"),
        None => false,
    }
}

/// Returns whether a build in which a call failed reports what it must report, and makes no call
/// after the failed call.
fn is_said(
    alloc: Global,
    place: &Memory<Mini>,
    whole: &str,
    said: &str,
    jobs: u64,
) -> Result<bool, AllocError> {
    let folder = folder_named(alloc, last_line(said))?;
    let lines = afresh(alloc, lines_but_last(said))?;
    let before = lines_before(whole, folder.as_str());
    Ok(is_stopped(lines.as_str(), before, jobs) && place.failures() == 1 && place.late() == 0)
}

/// Adds the fault of a build in which a call failed to `told`. If something was wrong, adds what
/// was wrong.
fn tell(
    alloc: Global,
    place: &Memory<Mini>,
    whole: &str,
    said: &str,
    jobs: u64,
    told: &mut Shown,
) -> Result<(), AllocError> {
    if !is_said(alloc, place, whole, said, jobs)? {
        told.put(&["wrong: "]);
    }
    told.put(&[last_line(said), ", "]);
    Ok(())
}

/// Builds while this call fails, and reports how the build ended. Returns whether a call failed at
/// all.
fn fail_at(
    alloc: Global,
    place: &mut Memory<Mini>,
    number: u64,
    whole: &str,
    jobs: u64,
    told: &mut Shown,
) -> Result<bool, Fail>
    requires none { (counts_in place.old).starts.flying ≡ [] }
    ensures landed { (counts_in place.new).starts.flying ≡ [] }
{
    place.fuse(number);
    let said = build_text(alloc, place, jobs)?;
    place.fuse(0);
    let is_failed = place.failures() > 0;
    if is_failed {
        tell(alloc, place, whole, said.as_str(), jobs, told)?;
    }
    Ok(is_failed)
}

/// Returns whether a build went well and had the lines of a clean build, except for `fresh`.
fn is_whole(alloc: Global, whole: &str, said: &str) -> Result<bool, AllocError> {
    let lines = afresh(alloc, lines_but_last(said))?;
    Ok(lines.as_str() == lines_but_last(whole) && last_line(said).starts_with("ok started="))
}

/// Builds once more, and reports a difference from a clean build. Then builds again, and reports if
/// this build starts something.
fn build_again(
    alloc: Global,
    place: &mut Memory<Mini>,
    whole: &str,
    jobs: u64,
    told: &mut Shown,
) -> Result<(), Fail>
    requires none { (counts_in place.old).starts.flying ≡ [] }
    ensures landed { (counts_in place.new).starts.flying ≡ [] }
{
    let next = build_text(alloc, place, jobs)?;
    if !is_whole(alloc, whole, next.as_str())? {
        told.put(&["wrong afterwards, "]);
    }
    let last = build_text(alloc, place, jobs)?;
    if !is_whole(alloc, whole, last.as_str())? || last_line(last.as_str()) != "ok started=-" {
        told.put(&["wrong at last, "]);
    }
    Ok(())
}

/// Tries a trial in a place without files while this call fails, and then once more. Returns
/// whether a call failed at all.
fn try_at(
    alloc: Global,
    place: &mut Memory<Mini>,
    trial: &Trial,
    number: u64,
    whole: &str,
    told: &mut Shown,
) -> Result<bool, Fail>
    requires none { (counts_in place.old).starts.flying ≡ [] }
    ensures landed { (counts_in place.new).starts.flying ≡ [] }
{
    prepare(alloc, place, trial)?;
    let is_failed = fail_at(alloc, place, number, whole, trial.jobs, told)?;
    build_again(alloc, place, whole, trial.jobs, told)?;
    Ok(is_failed)
}

/// Returns what a clean build reports about the edited files of a trial, in a place without files.
fn whole_in(alloc: Global, place: &mut Memory<Mini>, trial: &Trial) -> Result<String, Fail>
    requires none { (counts_in place.old).starts.flying ≡ [] }
{
    put_files(alloc, place, trial.files)?;
    put_files(alloc, place, trial.edit)?;
    build_text(alloc, place, 1)
}

/// Returns what a clean build reports about the edited files of a trial, in a fresh place.
fn whole_of(alloc: Global, trial: &Trial) -> Result<String, Fail> {
    whole_in(alloc, &mut Memory::new(alloc, Mini), trial)
}

/// Tries a trial in a fresh place while this call fails, and then once more. Returns whether a call
/// failed at all.
fn try_afresh(
    alloc: Global,
    trial: &Trial,
    number: u64,
    whole: &str,
    told: &mut Shown,
) -> Result<bool, Fail> {
    try_at(
        alloc,
        &mut Memory::new(alloc, Mini),
        trial,
        number,
        whole,
        told,
    )
}

/// Lets each call fail in turn, until none does. Returns the faults, and what was wrong. Three
/// things must be right:
///
/// - The build reports the failure, and makes no call after the failed call.
/// - The same build, made again, produces what a clean build produces.
/// - The build after that starts nothing.
fn each_fails(alloc: Global, trial: &Trial) -> Result<String, Fail> {
    let mut told = Shown::new(alloc);
    let whole = whole_of(alloc, trial)?;
    for number in 1..1000u64 {
        if !try_afresh(alloc, trial, number, whole.as_str(), &mut told)? {
            return Ok(told.whole()?);
        }
    }
    told.put(&["wrong: it does not end"]);
    Ok(told.whole()?)
}

/// The faults with which all trials begin.
const FIRST: &str =
    "fault RUSTC Device, fault RUSTFLAGS Device, fault CARGO_TARGET_DIR Device, fault /w/Cargo.toml Device, ";

/// The last faults of a library: a start that fails at its spawn, and at the end of its child; a
/// dep-info that cannot be read; an input that cannot be read; and a record that cannot be written.
const LAST_OF_LIBRARY: &str =
    "fault a.target.lib CannotStart, fault a.target.lib Died, fault a.target.lib Device, fault a.target.lib Device, fault a.target.lib Device, ";

/// The last faults of a package on both sides: the dep-info, what the dep-info names, and the
/// record.
const LAST_OF_SIDES: &str =
    "fault r.target.lib CannotStart, fault r.target.lib Died, fault r.target.lib Device, fault r.target.lib Device, fault r.target.lib Device, ";

/// The last faults of two libraries, if the second is made: its dep-info, what the dep-info names,
/// and its record.
const LAST_OF_PAIR: &str =
    "fault b.target.lib CannotStart, fault b.target.lib Died, fault b.target.lib Device, fault b.target.lib Device, fault b.target.lib Device, ";

/// The last faults of two libraries of an earlier version, if the first is made. For the second,
/// the build looks at what its record contains, and writes the record again.
const LAST_OF_OLD: &str =
    "fault a.target.lib CannotStart, fault a.target.lib Died, fault a.target.lib Device, fault a.target.lib Device, fault a.target.lib Device, fault b.target.lib Device, fault b.target.lib Device, fault b.target.lib Device, fault b.target.lib Device, fault b.target.lib Device, fault b.target.lib Device, fault b.target.lib Device, fault b.target.lib Device, ";

/// The trials.
static TRIALS: &[Trial] = &[
    Trial {
        files: LIBRARY,
        target: "",
        is_built: true,
        edit: EDIT,
        jobs: 1,
        last: LAST_OF_LIBRARY,
    },
    Trial {
        files: LIBRARY,
        target: "",
        is_built: false,
        edit: EDIT,
        jobs: 1,
        last: LAST_OF_LIBRARY,
    },
    Trial {
        files: SIDES,
        target: "",
        is_built: true,
        edit: EDIT,
        jobs: 1,
        last: LAST_OF_SIDES,
    },
    Trial {
        files: SIDES,
        target: "",
        is_built: false,
        edit: EDIT,
        jobs: 1,
        last: LAST_OF_SIDES,
    },
    Trial {
        files: SIDES,
        target: "",
        is_built: true,
        edit: EDIT,
        jobs: 2,
        last: LAST_OF_SIDES,
    },
    Trial {
        files: SIDES,
        target: "",
        is_built: false,
        edit: EDIT,
        jobs: 2,
        last: LAST_OF_SIDES,
    },
    Trial {
        files: PAIR,
        target: "",
        is_built: true,
        edit: EDIT_OF_A,
        jobs: 1,
        last: LAST_OF_PAIR,
    },
    Trial {
        files: PAIR,
        target: "",
        is_built: false,
        edit: EDIT_OF_A,
        jobs: 1,
        last: LAST_OF_PAIR,
    },
    Trial {
        files: PAIR,
        target: OLD_FOLDER,
        is_built: false,
        edit: REMARK_IN_A,
        jobs: 1,
        last: LAST_OF_OLD,
    },
];

/// Returns whether nothing was wrong, and the faults begin with those of all trials and end with
/// these.
fn is_right(told: &str, last: &str) -> bool {
    !told.contains("wrong") && told.starts_with(FIRST) && told.ends_with(last)
}

/// Rules: `build.faults`.
#[test]
fn each_call_fails(rt: HostRuntime) -> Result<(), Fail> {
    for trial in TRIALS {
        let told = each_fails(rt.alloc(), trial)?;
        assert!(rt; is_right(told.as_str(), trial.last), "{}", told.as_str());
    }
    Ok(())
}
