//! Calls that fail: each answers the fault of its own kind, and is counted.

use crate::machine::broken::Broken;
use crate::machine::calls::{carry_out, carry_out_here};
use crate::machine::commands::{command, said_here, shell};
use crate::machine::folders::{finish, fresh};
use crate::told::{answer_of, path_in, try_said};
use pb_place_host::{HostPlace, HostView};
use pb_place_types::{Command, PathText, View, ViewFault};
use std::alloc::Global;
use std::fs;
use std::io::ErrorKind;
use std::test::Fail;

/// Carries steps out on a machine on which every call fails in this way.
fn try_broken(rt: &HostRuntime, root: &PathText, kind: ErrorKind, steps: &str) -> Result<(), Fail> {
    let machine = Broken::new(rt.alloc(), kind);
    let mut place = HostPlace::new(rt.alloc(), &machine);
    let went = carry_out(rt, &mut place, root, steps);
    drop(place);
    went
}

const OWN_FAULTS: &str = "read b -> Read\n\
     list b -> List\n\
     write b -> Write\n\
     pieces b c|d -> Write\n\
     remove b -> Remove\n\
     counts -> 5 0";

const WANT_OF_MEMORY: &str = "read b -> OutOfMemory\n\
     list b -> OutOfMemory\n\
     write b -> OutOfMemory\n\
     pieces b c|d -> OutOfMemory\n\
     remove b -> OutOfMemory\n\
     counts -> 0 0";

const ABSENT: &str = "read b -> none\n\
     list b -> \n\
     remove b -> done\n\
     write b -> Write\n\
     counts -> 1 0";

/// How each call of a machine fails, and what the place answers.
static ERRORS: &[(ErrorKind, &str)] = &[
    (ErrorKind::PermissionDenied, OWN_FAULTS),
    (ErrorKind::ReadOnlyFilesystem, OWN_FAULTS),
    (ErrorKind::InvalidFilename, OWN_FAULTS),
    (ErrorKind::OutOfMemory, WANT_OF_MEMORY),
    (ErrorKind::NotFound, ABSENT),
    (ErrorKind::NotADirectory, ABSENT),
];

/// Returns what the start of a child results in on a machine.
fn said_on(alloc: Global, machine: &Broken, command: &Command) -> Result<String, Fail> {
    let mut place = HostPlace::new(alloc, machine);
    let said = answer_of(alloc, &mut place, command);
    drop(place);
    said
}

/// Tries the start of a child that ends well, on a machine that fails in this way, and compares the
/// result.
fn try_start(
    alloc: Global,
    root: &PathText,
    starts: bool,
    kind: ErrorKind,
    wanted: &str,
) -> Result<(), Fail> {
    let command = command(alloc, root, &shell("exit 0"))?;
    let machine = Broken::with_start(alloc, kind, starts);
    let said = said_on(alloc, &machine, &command);
    drop(command);
    try_said(said, wanted)
}

/// For each machine: whether it starts children, whose output then cannot be read; how it fails;
/// and what a start results in.
static STARTS: &[(bool, ErrorKind, &str)] = &[
    (false, ErrorKind::NotFound, "CannotStart 1 1"),
    (false, ErrorKind::OutOfMemory, "OutOfMemory 1 0"),
    (true, ErrorKind::Other, "Capture 1 1"),
    (true, ErrorKind::OutOfMemory, "OutOfMemory 1 0"),
];

/// Tries all broken machines.
fn try_machines(rt: &HostRuntime, root: &PathText) -> Result<(), Fail> {
    for case in ERRORS {
        let (kind, steps) = *case;
        try_broken(rt, root, kind, steps)?;
    }
    for case in STARTS {
        let (starts, kind, wanted) = *case;
        try_start(rt.alloc(), root, starts, kind, wanted)?;
    }
    Ok(())
}

/// Rules: `machine.failures`.
#[test]
fn broken_machines(rt: HostRuntime) -> Result<(), Fail> {
    let root = PathText::parse(rt.alloc(), "/a")?;
    try_machines(&rt, &root)
}

/// A variable that is not UTF-8 is a fault, and is counted.
const NO_TEXT: &str = "variable V -> Variable\n\
     counts -> 1 0";

/// A variable that is not there.
const UNSET: &str = "variable NO_SUCH_VARIABLE -> none\n\
     counts -> 0 0";

/// Returns whether a view of a machine shows no file and no variable, because it fails.
fn hides_all(alloc: Global, machine: &Broken, path: &PathText) -> bool {
    let view = HostView::new(machine);
    let file = view.file(alloc, path);
    let hides_files = matches!(file, Err(ViewFault::Failed));
    drop(file);
    let variable = view.variable(alloc, "V");
    let hides_variables = matches!(variable, Err(ViewFault::Failed));
    drop(variable);
    hides_files && hides_variables
}

/// Rules: `machine.failures`.
#[test]
fn variables_and_views(rt: HostRuntime) -> Result<(), Fail> {
    let machine = Broken::new(rt.alloc(), ErrorKind::PermissionDenied);
    let path = PathText::parse(rt.alloc(), "/a/b")?;
    try_broken(&rt, &path, ErrorKind::PermissionDenied, NO_TEXT)?;
    carry_out_here(&rt, &path, UNSET)?;
    assert!(rt; hides_all(rt.alloc(), &machine, &path));
    Ok(())
}

const SHUT: &str = "write f x -> Write\n\
     read f -> none";

const NOT_SHUT: &str = "write f x -> done\n\
     read f -> x";

/// Returns whether no file can be written into a folder. For some users, a file can be written into
/// every folder.
fn is_shut(rt: &HostRuntime, folder: &PathText) -> Result<bool, Fail> {
    let path = path_in(rt.alloc(), folder, "g")?;
    Ok(fs::write(rt, path.as_str(), "").is_err())
}

/// Runs a script of the shell in a test's folder.
fn tell(rt: &HostRuntime, root: &PathText, told: &str) -> Result<(), Fail> {
    said_here(rt, root, &shell(told))?;
    Ok(())
}

/// Tries a folder that is read only, whoever runs the test.
fn try_shut(rt: &HostRuntime, root: &PathText) -> Result<(), Fail> {
    tell(rt, root, "chmod 555 .")?;
    let steps = if is_shut(rt, root)? { SHUT } else { NOT_SHUT };
    carry_out_here(rt, root, steps)?;
    tell(rt, root, "chmod 755 .")
}

const NO_TEXTS: &str = "list -> List\n\
     counts -> 1 0";

/// Tries a folder that is read only, and then a name in it that is not UTF-8.
fn try_odd_folder(rt: &HostRuntime, root: &PathText) -> Result<(), Fail> {
    try_shut(rt, root)?;
    tell(rt, root, "touch \"$(printf 'a\\377')\"")?;
    carry_out_here(rt, root, NO_TEXTS)?;
    finish(rt, root)
}

/// Rules: `machine.failures`, `machine.removal`.
#[test]
fn a_read_only_folder_and_names_that_are_no_texts(rt: HostRuntime) -> Result<(), Fail> {
    let root = fresh(&rt, "shut")?;
    try_odd_folder(&rt, &root)
}
