//! What the machine reports of what failed.

use crate::machine::broken::Broken;
use crate::machine::calls::carry_out;
use crate::machine::commands::{Asked, command, shell};
use crate::machine::folders::{finish, fresh};
use crate::told::{answer_of, path_in};
use pb_data::Text;
use pb_place_host::{HostPlace, Reporting};
use pb_place_types::PathText;
use std::alloc::{AllocError, Global};
use std::io::ErrorKind;
use std::test::Fail;

/// Returns texts without a test's folder, each with a `;` after it.
fn join_texts(alloc: Global, root: &PathText, texts: &[Text]) -> Result<String, AllocError> {
    let mut all = String::new(alloc);
    for text in texts {
        all.push_str(text.as_str())?;
        all.push_str(";")?;
    }
    all.as_str().replace(alloc, root.as_str(), "")
}

/// Tries that texts are these.
fn try_texts(
    alloc: Global,
    root: &PathText,
    name: &str,
    texts: &[Text],
    wanted: &str,
) -> Result<(), Fail> {
    let came = join_texts(alloc, root, texts)?;
    if came.as_str() != wanted {
        return Err(Fail::new(format_args!("{name}: {}", came.as_str())));
    }
    Ok(())
}

/// For each child: the program, the script for the shell, the folder in which the child starts, and
/// its output folder, which may be missing. Then what is reported about the child, without the
/// test's folder.
const CHILDREN: &str = "/bin/sh|exit 3|.|out/a -> ~\
     /bin/sh|kill -9 $$|.|out/a -> the child of a was ended by signal 9;~\
     /bin/sh|kill $$ -> the child of -vV was ended by signal 15;~\
     /no/such/program -> cannot start /no/such/program in : No such file or directory;~\
     /no/such/program|.|.|out/a -> cannot start /no/such/program in : No such file or directory;its output folder is /out/a;~\
     no_such_program||out/a -> cannot start no_such_program in /out/a: no folder of PATH has it;~\
     /bin/sh|echo x > out/a/f|.|out/a -> ~\
     /bin/sh|exit 0|.|out/a/f -> cannot make the folder /out/a/f: File exists;~\
     /bin/sh|exit 0|.|out/a/f/g -> cannot make the folder /out/a/f/g: Not a directory;";

/// Returns the child that a text requests.
fn asked_of(text: &str) -> Asked {
    let (program, rest) = text.split_once('|').unwrap_or((text, ""));
    let (told, folders) = rest.split_once('|').unwrap_or((rest, ""));
    let (folder, out) = folders.split_once('|').unwrap_or((folders, ""));
    (program, told, folder, out, &[])
}

/// Returns the key of a child: the name of its output folder, or `-vV` if it has none.
fn key_of<'a>(asked: &Asked<'a>) -> &'a str {
    if asked.3.is_empty() {
        return "-vV";
    }
    asked.3.rsplit_once('/').unwrap_or(("", asked.3)).1
}

/// Starts a child, and tries what is reported of it.
fn try_child(rt: &HostRuntime, root: &PathText, asked: &Asked, wanted: &str) -> Result<(), Fail> {
    let alloc = rt.alloc();
    let command = command(alloc, root, asked)?;
    let mut place = HostPlace::new(alloc, rt);
    let went = match answer_of(alloc, &mut place, &command) {
        Ok(_) => try_texts(
            alloc,
            root,
            asked.0,
            place.failed_child(key_of(asked)),
            wanted,
        ),
        Err(fault) => Err(fault),
    };
    drop(command);
    drop(place);
    went
}

/// Tries all children.
fn try_children(rt: &HostRuntime, root: &PathText) -> Result<(), Fail> {
    for case in CHILDREN.split('~') {
        let (asked, wanted) = case.split_once(" -> ").unwrap_or((case, "no answer"));
        try_child(rt, root, &asked_of(asked), wanted)?;
    }
    finish(rt, root)
}

/// Rules: `machine.output-folder`, `machine.program`, `tool.notes`.
#[test]
fn children_that_fail(rt: HostRuntime) -> Result<(), Fail> {
    let root = fresh(&rt, "failed")?;
    try_children(&rt, &root)
}

/// The script for a shell without an output folder, and what is reported about its answer.
const QUERIES: &[(&str, &str)] = &[
    ("exit 0", "/bin/sh -c exit 0 ended with status 0;"),
    (
        "echo a; echo b >&2; echo c >&2; exit 3",
        "/bin/sh -c echo a; echo b >&2; echo c >&2; exit 3 ended with status 3;it wrote: b;it wrote: c;",
    ),
    (
        "printf 'a\\tb\\n\\377\\n' >&2",
        "/bin/sh -c printf 'a\\tb\\n\\377\\n' >&2 ended with status 0;it wrote: a?b;",
    ),
    (
        "seq 100 >&2",
        "/bin/sh -c seq 100 >&2 ended with status 0;it wrote: 1;it wrote: 2;it wrote: 3;it wrote: 4;it wrote: 5;it wrote: 6;it wrote: 7;it wrote: 8;it wrote: 9;",
    ),
];

/// Queries a shell, and tries what is reported about its answer.
fn try_query(rt: &HostRuntime, root: &PathText, told: &str, wanted: &str) -> Result<(), Fail> {
    let alloc = rt.alloc();
    let command = command(alloc, root, &shell(told))?;
    let mut place = HostPlace::new(alloc, rt);
    let went = match answer_of(alloc, &mut place, &command) {
        Ok(_) => try_texts(alloc, root, told, place.answered_query(), wanted),
        Err(fault) => Err(fault),
    };
    drop(command);
    drop(place);
    went
}

/// Rules: `build.query`, `tool.notes`.
#[test]
fn answers_without_an_output_folder(rt: HostRuntime) -> Result<(), Fail> {
    let root = PathText::parse(rt.alloc(), "/tmp")?;
    for case in QUERIES {
        let (told, wanted) = *case;
        try_query(&rt, &root, told, wanted)?;
    }
    Ok(())
}

/// For each child: an output folder in the target folder `t`, the script for the shell, and what is
/// reported about the links that the child leaves there.
const LINKS: &[(&str, &str, &str)] = &[
    (
        "t/a.run",
        ": > x; mkdir t/a.run/f; ln -s ../../../x t/a.run/f/x",
        "in /t/a.run/f/x: this link leads to /x, out of the target folder; unless its script names that as an input (cargo::rerun-if-changed=/x), a change there may not be noticed;",
    ),
    (
        "t/a.run",
        ": > x; ln -s ../../x t/a.run/x; echo cargo::rerun-if-changed=$PWD/x",
        "",
    ),
    ("t/a.run", "ln -s .. t/a.run/up; ln -s x t/a.run/none", ""),
    ("t/a.lib", ": > x; ln -s ../../x t/a.lib/x", ""),
    ("t/a.run", ": > x; ln -s ../../x t/a.run/x; kill $$", ""),
];

/// Starts a child in the target folder `t`, and tries what is reported of the links that it leaves.
fn try_links(
    rt: &HostRuntime,
    root: &PathText,
    out: &str,
    told: &str,
    wanted: &str,
) -> Result<(), Fail> {
    let alloc = rt.alloc();
    let target = path_in(alloc, root, "t")?;
    let mut command = command(alloc, root, &("/bin/sh", told, "", out, &[]))?;
    command.target = target;
    let mut place = HostPlace::new(alloc, rt);
    let went = match answer_of(alloc, &mut place, &command) {
        Ok(_) => try_texts(alloc, root, told, place.links_out(), wanted),
        Err(fault) => Err(fault),
    };
    drop(command);
    drop(place);
    went
}

/// Rules: `machine.links`, `tool.notes`.
#[test]
fn links_out_of_the_target_folder(rt: HostRuntime) -> Result<(), Fail> {
    for case in LINKS {
        let root = fresh(&rt, "links-out")?;
        let (out, told, wanted) = *case;
        try_links(&rt, &root, out, told, wanted)?;
        finish(&rt, &root)?;
    }
    Ok(())
}

/// Steps, the last of which fails, and the report on it.
const CALLS: &[(&str, &str)] = &[
    ("write f x -> done\nread f -> x", ""),
    ("write f/g x -> Write", "cannot write /f/g: File exists;"),
    (
        "write d/g x -> done\nwrite d x -> Write",
        "cannot write /d: Is a directory;",
    ),
    (
        "write l/f x -> done\nlink l/up .\nlist l -> List",
        "cannot list /l/up/up/up/up/up/up/up/up/up/up/up/up/up/up/up/up/up/up/up/up/up/up/up/up/up/up/up/up/up/up/up/up/up/up/up/up/up/up/up/up: filesystem loop or indirection limit (e.g. symlink loop);",
    ),
];

/// Carries steps out, and tries what is reported of the last call that failed.
fn try_calls(rt: &HostRuntime, root: &PathText, steps: &str, wanted: &str) -> Result<(), Fail> {
    let mut place = HostPlace::new(rt.alloc(), rt);
    let went = match carry_out(rt, &mut place, root, steps) {
        Ok(()) => try_texts(rt.alloc(), root, steps, place.failed_call(), wanted),
        Err(fault) => Err(fault),
    };
    drop(place);
    went
}

/// Rules: `machine.failures`, `tool.notes`.
#[test]
fn calls_that_fail(rt: HostRuntime) -> Result<(), Fail> {
    let root = fresh(&rt, "calls")?;
    for case in CALLS {
        let (steps, wanted) = *case;
        try_calls(&rt, &root, steps, wanted)?;
    }
    finish(&rt, &root)
}

/// Steps on a machine on which nothing is allowed, and what is reported of the last.
const REFUSED: &[(&str, &str)] = &[
    ("read b -> Read", "cannot read /a/b: permission denied;"),
    ("list b -> List", "cannot list /a/b: permission denied;"),
    ("write b -> Write", "cannot write /a/b: permission denied;"),
    (
        "remove b -> Remove",
        "cannot remove /a/b: permission denied;",
    ),
    (
        "variable V -> Variable",
        "cannot read the variable V: its value is not UTF-8;",
    ),
];

/// Carries steps out on a machine on which nothing is allowed, and tries what is reported.
fn try_refused(rt: &HostRuntime, root: &PathText, steps: &str, wanted: &str) -> Result<(), Fail> {
    let nowhere = PathText::parse(rt.alloc(), "/nowhere")?;
    let machine = Broken::new(rt.alloc(), ErrorKind::PermissionDenied);
    let mut place = HostPlace::new(rt.alloc(), &machine);
    let went = match carry_out(rt, &mut place, root, steps) {
        Ok(()) => try_texts(rt.alloc(), &nowhere, steps, place.failed_call(), wanted),
        Err(fault) => Err(fault),
    };
    drop(place);
    went
}

/// Rules: `machine.failures`, `tool.notes`.
#[test]
fn calls_that_are_refused(rt: HostRuntime) -> Result<(), Fail> {
    let root = PathText::parse(rt.alloc(), "/a")?;
    for case in REFUSED {
        let (steps, wanted) = *case;
        try_refused(&rt, &root, steps, wanted)?;
    }
    Ok(())
}
