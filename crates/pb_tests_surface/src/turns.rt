//! Builds whose steps are decided in three ways.

ghost use Rattle.std.specs.Prelude.{◌≡◌, []};
ghost use Rattle.pb_place.specs.Memory.{counts_in};

use crate::world::{options, put_files};
use pb_build::{Options, build, build_turns, build_with, result_line};
use pb_mini::Mini;
use pb_place::{Memory, Over, Place};
use pb_run::{Last, Step, Turn};
use std::alloc::{AllocError, Global};
use std::test::Fail;

/// Two libraries `a` and `b` that warn. Neither needs the other.
const FILES: &str = "@ /w/Cargo.toml
workspace.members = ['a', 'b']
@ /w/a/Cargo.toml
package.name = 'a'
@ /w/a/src/lib.rs
warn one
@ /w/b/Cargo.toml
package.name = 'b'
@ /w/b/src/lib.rs
warn two
";

/// Steps, each after the units that may begin and the units in flight: `b` begins, `a` begins, `a`
/// answers, `b` answers.
static CROSSED: &[(&[usize], &[usize], Step)] = &[
    (&[0, 1], &[], Step::Begin(1)),
    (&[0], &[1], Step::Begin(0)),
    (&[], &[1, 0], Step::Answer(1)),
    (&[], &[1], Step::Answer(0)),
];

/// Takes steps in order, as long as the two lists are those of the step.
#[derive(Drop)]
struct InOrder {
    /// The steps that are left.
    left: &'static [(&'static [usize], &'static [usize], Step)],
}

impl InOrder {
    /// Returns the next step, if the two lists are those of the step.
    fn next(&mut self, ready: &[usize], flying: &[usize]) -> Option<Step> {
        match self.left {
            [next, left @ ..] if next.0 == ready && next.1 == flying => {
                self.left = left;
                Some(next.2)
            }
            _ => None,
        }
    }
}

impl Turn for InOrder {
    ghost turns = { λ _ _ _ _ _. Unit {0} };

    fn turn(&mut self, ready: &[usize], flying: &[usize]) -> Step {
        match self.next(ready, flying) {
            Some(Step::Begin(index)) if index < ready.len() => Step::Begin(index),
            Some(Step::Answer(index)) if index < flying.len() => Step::Answer(index),
            _ if flying.is_empty() => Step::Begin(0),
            _ => Step::Answer(0),
        }
    }
}

/// Who decides the steps of a build.
#[derive(Clone, Copy)]
enum Way {
    /// `build`: the first unit in plan order begins.
    First,
    /// `build_with`: the last unit in plan order begins.
    Last,
    /// `build_turns`: the crossed steps.
    Crossed,
}

/// Returns the result line of a build by the crossed steps, or that some of them were not taken.
fn result_of_crossed(
    alloc: Global,
    place: &mut Memory<Mini>,
    out: &mut Vec<u8>,
    options: &Options,
) -> Result<String, AllocError>
    requires none { (counts_in place.old).starts.flying ≡ [] }
{
    let mut sink = Over::new(out);
    let mut turn = InOrder { left: CROSSED };
    let line = result_line(
        alloc,
        &build_turns(alloc, place, &mut sink, options, &mut turn),
    );
    if turn.left.is_empty() {
        line
    } else {
        String::from_str(alloc, "some steps were not taken")
    }
}

/// Returns the result line of a build whose steps are decided in this way.
fn result_of(
    alloc: Global,
    place: &mut Memory<Mini>,
    out: &mut Vec<u8>,
    options: &Options,
    way: Way,
) -> Result<String, AllocError>
    requires none { (counts_in place.old).starts.flying ≡ [] }
{
    match way {
        Way::First => {
            let mut sink = Over::new(out);
            result_line(alloc, &build(alloc, place, &mut sink, options))
        }
        Way::Last => {
            let mut sink = Over::new(out);
            result_line(
                alloc,
                &build_with(alloc, place, &mut sink, options, &mut Last {}),
            )
        }
        Way::Crossed => result_of_crossed(alloc, place, out, options),
    }
}

/// Builds with a number of jobs. Returns what was written; and the result line, in which a unit has
/// its package's name, with the most children in flight at one moment.
fn built_in(
    alloc: Global,
    place: &mut Memory<Mini>,
    way: Way,
    jobs: u64,
) -> Result<(Vec<u8>, String), Fail>
    requires none { (counts_in place.old).starts.flying ≡ [] }
{
    put_files(alloc, place, FILES)?;
    let options = options(alloc, jobs)?;
    let mut out = Vec::new(alloc);
    let line = result_of(alloc, place, &mut out, &options, way);
    drop(options);
    let line = line?.replace(alloc, ".target.lib", "")?;
    let said = format!(in alloc; "{}, most {}", line.as_str(), place.most())?;
    Ok((out, said))
}

/// Builds in a fresh place, as `built_in` does.
fn built(alloc: Global, way: Way, jobs: u64) -> Result<(Vec<u8>, String), Fail> {
    let mut place = Memory::new(alloc, Mini);
    let built = built_in(alloc, &mut place, way, jobs);
    drop(place);
    built
}

/// Ways with their numbers of jobs, and what comes of each.
static WAYS: &[(Way, u64, &str)] = &[
    (Way::First, 2, "ok started=a,b, most 2"),
    (Way::Last, 1, "ok started=b,a, most 1"),
    (Way::Crossed, 1, "ok started=b,a, most 2"),
];

/// Rules: `next.begin`, `next.reported`, `next.jobs`.
#[test]
fn all_ways_write_the_same_lines(rt: HostRuntime) -> Result<(), Fail> {
    let (wanted, _) = built(rt.alloc(), Way::First, 1)?;
    let count = str::from_utf8(wanted.as_slice())?.lines().count();
    assert_eq!(rt; count, 5);
    for (way, jobs, result) in WAYS {
        let (lines, said) = built(rt.alloc(), *way, *jobs)?;
        assert_eq!(rt; said.as_str(), *result);
        assert!(rt; lines.as_slice() == wanted.as_slice(), "{result}");
    }
    Ok(())
}
