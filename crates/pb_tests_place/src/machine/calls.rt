//! Steps at a place of real files.

use crate::machine::folders::{finish, fresh};
use crate::told::{Step, answer, compare, path_in, step_of};
use pb_place_host::HostPlace;
use pb_place_types::{PathText, Place};
use std::alloc::Global;
use std::os::unix::fs::symlink;
use std::test::Fail;

/// Makes a link that leads to the path in the text of a step.
fn link(rt: &HostRuntime, root: &PathText, step: &Step) -> Result<(), Fail> {
    let path = path_in(rt.alloc(), root, step.name)?;
    Ok(symlink(rt, step.text, path.as_str())?)
}

/// Makes the call of a step, and compares the answer.
fn call<P: Place>(alloc: Global, place: &mut P, root: &PathText, step: &Step) -> Result<(), Fail> {
    let path = path_in(alloc, root, step.name)?;
    let other = path_in(alloc, root, step.text)?;
    compare(
        step,
        answer(alloc, place, root.as_str(), step, (&path, &other)),
    )
}

/// Carries a step out: `link` makes a link, and each other word is a call.
fn try_step<P: Place>(
    rt: &HostRuntime,
    place: &mut P,
    root: &PathText,
    step: &Step,
) -> Result<(), Fail> {
    if step.call == "link" {
        return link(rt, root, step);
    }
    call(rt.alloc(), place, root, step)
}

/// Carries steps out, one a line, and compares the answers.
pub(crate) fn carry_out<P: Place>(
    rt: &HostRuntime,
    place: &mut P,
    root: &PathText,
    steps: &str,
) -> Result<(), Fail> {
    for line in steps.lines() {
        try_step(rt, place, root, &step_of(line))?;
    }
    Ok(())
}

/// Carries steps out at a place of real files.
pub(crate) fn carry_out_here(rt: &HostRuntime, root: &PathText, steps: &str) -> Result<(), Fail> {
    let mut place = HostPlace::new(rt.alloc(), rt);
    let went = carry_out(rt, &mut place, root, steps);
    drop(place);
    went
}

/// Carries steps out in a folder, and removes the folder.
fn try_in(rt: &HostRuntime, root: &PathText, steps: &str) -> Result<(), Fail> {
    carry_out_here(rt, root, steps)?;
    finish(rt, root)
}

/// Carries steps out in a folder of their own.
pub(crate) fn try_steps(rt: &HostRuntime, name: &str, steps: &str) -> Result<(), Fail> {
    let root = fresh(rt, name)?;
    try_in(rt, &root, steps)
}
