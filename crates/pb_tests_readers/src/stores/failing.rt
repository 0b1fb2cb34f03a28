//! Calls of the store in which one call of the place fails, each call in turn.

use crate::stores::steps::{begin, call, open_again, step, tell_difference};
use pb_mini::Mini;
use pb_place::Memory;
use pb_place_types::Place;
use pb_store::Store;
use pb_tests_files::{Shown, Untold};
use std::alloc::Global;
use std::test::Fail;

/// Makes a call of the store in which the call of the place with this number fails. Adds the fault,
/// and what differs then for a store that is opened again. Returns whether a call failed.
fn fail_at(
    alloc: Global,
    place: &mut Untold<Mini>,
    store: &mut Store,
    verb: &str,
    number: u64,
    out: &mut Shown,
) -> Result<bool, Fail> {
    let mut told = Shown::new(alloc);
    place.inside.fuse(number);
    call(alloc, place, store, verb, ("8", "8"), &mut told)?;
    place.inside.fuse(0);
    if place.failures() == 0 {
        return Ok(false);
    }
    if place.late() > 0 {
        told.put(&[" (wrong: a call came after it)"]);
    }
    told.put(&[": "]);
    open_again(alloc, place, store)?;
    tell_difference(alloc, place, store, ("", ""), &mut told)?;
    out.put(&[told.whole()?.as_str(), ", "]);
    Ok(true)
}

/// Does the same after a first step in a fresh place.
fn try_at(
    alloc: Global,
    first: &str,
    verb: &str,
    number: u64,
    out: &mut Shown,
) -> Result<bool, Fail> {
    let mut place = Untold {
        inside: Memory::new(alloc, Mini),
    };
    let is_failed = match begin(alloc, &mut place) {
        Ok(mut store) => {
            let made = step(alloc, &mut place, &mut store, first, &mut Shown::new(alloc));
            let is_failed = match made {
                Ok(()) => fail_at(alloc, &mut place, &mut store, verb, number, out),
                Err(fault) => Err(fault),
            };
            drop(store);
            is_failed
        }
        Err(fault) => Err(fault),
    };
    drop(place);
    is_failed
}

/// A first step, the call that is then made, and what its faults are and what differs after each.
static TRIALS: &[(&str, &str, &str)] = &[
    (
        "",
        "open",
        "a folder could not be listed: same, a file could not be read: same, a file could not be read: same, ",
    ),
    (
        "",
        "differs",
        "a file could not be read: same, a file could not be read: same, a file could not be read: same, a folder could not be listed: same, a file could not be read: same, a variable could not be read: same, a variable could not be read: same, ",
    ),
    (
        "first",
        "differs",
        "a file could not be read: same, a file could not be read: same, a file could not be read: same, a folder could not be listed: same, a file could not be read: same, a variable could not be read: same, a variable could not be read: same, a folder could not be listed: same, a file could not be read: same, ",
    ),
    ("", "replay", "a file could not be read: same, "),
    ("", "drop", "a file or folder could not be removed: same, "),
    (
        "file /t/debug/a.target.lib.record/x",
        "drop",
        "a file or folder could not be removed: nothing is kept of it, ",
    ),
    (
        "",
        "keep",
        "a file could not be read: same, a file could not be read: same, a folder could not be listed: same, a file could not be read: same, a variable could not be read: same, a variable could not be read: same, a file could not be written: nothing is kept of it, ",
    ),
    (
        "first",
        "migrate",
        "a file could not be read: same, a file could not be written: nothing is kept of it, ",
    ),
];

/// Returns whether the faults are these, if each call of the place fails in turn, until none does.
fn fails_so(alloc: Global, first: &str, verb: &str, told: &str) -> Result<bool, Fail> {
    let mut out = Shown::new(alloc);
    for number in 1..100u64 {
        if !try_at(alloc, first, verb, number, &mut out)? {
            return Ok(out.says(told));
        }
    }
    Err(Fail::from("it does not end"))
}

/// Rules: `build.faults`.
#[test]
fn failing_calls_are_told(rt: HostRuntime) -> Result<(), Fail> {
    for case in TRIALS {
        let (first, verb, told) = *case;
        assert!(rt;
            fails_so(rt.alloc(), first, verb, told)?,
            "{verb} after {first}"
        );
    }
    Ok(())
}
