//! The inputs that the answer of a unit's child names.

use crate::world::{FILES, first_command, project_in};
use pb_build::UnitFault;
use pb_command::{InputName, Project, inputs};
use pb_data::{Bytes, Items};
use pb_mini::Mini;
use pb_place::{Ended, Memory};
use pb_unit::Planned;
use std::alloc::{AllocError, Global};
use std::fmt::Write;
use std::process::Abort;
use std::test::Fail;

/// A line for each answer: the rule that it is about, the unit, the child's status, its dep-info or
/// what it printed (`~` is the end of a line), and the inputs (`$` before a variable) or the fault.
const CASES: &str = "\
each input once, and no variable that the command sets|a.target.lib|0|o: /w/a/src/lib.rs /w/x a/../x~# env-dep:V=1~# env-dep:CARGO_PKG_NAME=a~|/w/a/src/lib.rs /w/x $V
no file of a unit that it reaches|a.target.lib|0|o: /w/target/debug/b.target.lib/x /y~|/y
no dep-info|a.target.lib|0||NoDepInfo
a status|a.target.lib|3||Status(3)
what a run names|b.target.run|0|cargo::rerun-if-changed=x~cargo::rerun-if-env-changed=V~|/w/b/x $V
a run that names nothing|b.target.run|0|cargo::rustc-cfg=c~|/w/b
";

/// Returns the names of inputs, or the fault.
fn names_in(alloc: Global, found: &Result<Items<InputName>, UnitFault>) -> Result<String, Fail> {
    let mut out = String::new(alloc);
    let names = match found {
        Ok(names) => names.as_slice(),
        Err(fault) => {
            write!(out, "{fault:?}")?;
            return Ok(out);
        }
    };
    for name in names {
        out.push_str(if out.is_empty() { "" } else { " " })?;
        match name {
            InputName::Path(path) => out.push_str(path.as_str())?,
            InputName::Variable(name) => write!(out, "${}", name.as_str())?,
        }
    }
    Ok(out)
}

/// Returns the end of a child that printed this.
fn end_of(alloc: Global, status: i32, printed: &str) -> Result<Ended, AllocError> {
    let stdout = Bytes::from_slice(alloc, printed.as_bytes())?;
    let stderr = Bytes::from_slice(alloc, b"")?;
    Ok(Ended {
        status,
        stdout,
        stderr,
    })
}

/// Returns the inputs that an answer names, if its text is both what the child printed and the
/// dep-info.
fn inputs_named(
    alloc: Global,
    project: &Project,
    unit: &Planned,
    status: i32,
    text: &str,
) -> Result<String, Fail> {
    let ended = end_of(alloc, status, text)?;
    let command = first_command(alloc, project, unit)?;
    let info = if text.is_empty() {
        None
    } else {
        Some(&ended.stdout)
    };
    let found = inputs(alloc, project, unit, &command, &ended, info);
    drop(command);
    let names = names_in(alloc, &found);
    drop(found);
    names
}

/// Returns the unit with a key.
fn unit_of<'a>(project: &'a Project, key: &str) -> Result<&'a Planned, Fail> {
    let mut units = project.plan.units().iter();
    let unit = units.find(|unit| unit.key.as_str() == key);
    Ok(unit.ok_or("no unit")?)
}

/// Asserts that the answer of a case names what is wanted.
fn assert_case(rt: &impl Abort, alloc: Global, project: &Project, case: &str) -> Result<(), Fail> {
    let mut parts = case.split('|');
    let name = parts.next().unwrap_or("");
    let unit = unit_of(project, parts.next().unwrap_or(""))?;
    let status = parts.next().unwrap_or("").parse::<i32>()?;
    let text = parts.next().unwrap_or("").replace(alloc, "~", "\n")?;
    let found = inputs_named(alloc, project, unit, status, text.as_str())?;
    assert_eq!(rt; found.as_str(), parts.next().unwrap_or(""), "{name}");
    Ok(())
}

/// Asserts that the answers of all cases name what is wanted.
fn assert_cases(rt: &impl Abort, alloc: Global, project: &Project) -> Result<(), Fail> {
    for case in CASES.lines() {
        assert_case(rt, alloc, project, case)?;
    }
    Ok(())
}

/// Rules: `answers.inputs`, `answers.bad`.
#[test]
fn answers_name_inputs(rt: HostRuntime) -> Result<(), Fail> {
    let mut place = Memory::new(rt.alloc(), Mini);
    let project = project_in(rt.alloc(), &mut place, FILES);
    drop(place);
    let project = project?;
    let done = assert_cases(&rt, rt.alloc(), project.get());
    drop(project);
    done
}
