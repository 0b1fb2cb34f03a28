//! Children: how they end, and what they get.

use crate::machine::calls::carry_out_here;
use crate::machine::commands::{Asked, said_here};
use crate::machine::folders::{finish, fresh};
use pb_data::Text;
use pb_place_host::HostPlace;
use pb_place_types::{PathText, Place, PlaceFault};
use std::test::Fail;

/// Children in a test's folder. For each child: the program, the script for the shell, the folder
/// in which the child starts, and its output folder, which may be missing. Then how the child ends,
/// with the numbers of starts and failures. Some children write line feeds, so `~` separates two
/// children.
const CHILDREN: &str = "/bin/sh|exit 0 -> 0()() 1 0~\
     /bin/sh|exit 3 -> 3()() 1 0~\
     /bin/sh|exit 255 -> 255()() 1 0~\
     /bin/sh|echo a; echo b >&2; exit 1 -> 1(a\n)(b\n) 1 0~\
     /bin/sh|cat -> 0()() 1 0~\
     /bin/sh|pwd|/ -> 0(/\n)() 1 0~\
     /bin/sh|kill -9 $$ -> Died 1 1~\
     /bin/sh|kill $$ -> Died 1 1~\
     /no/such/program -> CannotStart 1 1~\
     no_such_program -> CannotStart 1 1~\
     / -> CannotStart 1 1~\
     | -> CannotStart 1 1~\
     /bin/sh|echo x > out/made/f|.|out/made -> 0()() 1 0~\
     /bin/sh|echo x > out/made/f|.|out/made/f/g -> CannotStart 1 1~\
     /bin/sh|echo x > out/made/f|none|out/made -> CannotStart 1 1";

/// Pairs that go over inherited variables.
static PAIRS: &[(&str, &str)] = &[("A", "x y"), ("PATH", "/p")];

/// What all have left.
const LEFT: &str = "list -> /out/made/f ";

/// Tries how a child ends.
fn ends(rt: &HostRuntime, root: &PathText, asked: &Asked, wanted: &str) -> Result<(), Fail> {
    let said = said_here(rt, root, asked)?;
    if said.as_str() != wanted {
        return Err(Fail::new(format_args!("{} {}: {}", asked.0, asked.1, said.as_str())));
    }
    Ok(())
}

/// Returns the child that a text requests.
fn asked_of(text: &str) -> Asked {
    let (program, rest) = text.split_once('|').unwrap_or((text, ""));
    let (told, folders) = rest.split_once('|').unwrap_or((rest, ""));
    let (folder, out) = folders.split_once('|').unwrap_or((folders, ""));
    (program, told, folder, out, &[])
}

/// Tries how all children end.
fn all_end(rt: &HostRuntime, root: &PathText) -> Result<(), Fail> {
    for case in CHILDREN.split('~') {
        let (asked, wanted) = case.split_once(" -> ").unwrap_or((case, "no answer"));
        ends(rt, root, &asked_of(asked), wanted)?;
    }
    let paired = ("/bin/sh", "echo $A $PATH", "", "", PAIRS);
    ends(rt, root, &paired, "0(x y /p\n)() 1 0")?;
    carry_out_here(rt, root, LEFT)
}

/// Returns the value of a variable at a new place.
fn variable(rt: &HostRuntime, name: &str) -> Result<Option<Text>, PlaceFault> {
    let mut place = HostPlace::new(rt.alloc(), rt);
    let value = place.variable(rt.alloc(), name);
    drop(place);
    value
}

/// Tries that a child inherits `PATH`, if it is set.
fn inherits(rt: &HostRuntime, root: &PathText) -> Result<(), Fail> {
    match variable(rt, "PATH")? {
        Some(path) => {
            let pairs: &[(&str, &str)] = &[("A", path.as_str())];
            let asked = ("/bin/sh", "[ \"$A\" = \"$PATH\" ]", "", "", pairs);
            ends(rt, root, &asked, "0()() 1 0")
        }
        None => Ok(()),
    }
}

/// Tries all children in a folder, and removes the folder.
fn try_children(rt: &HostRuntime, root: &PathText) -> Result<(), Fail> {
    all_end(rt, root)?;
    inherits(rt, root)?;
    finish(rt, root)
}

/// Rules: `places.children`, `machine.input`, `machine.output-folder`.
#[test]
fn children(rt: HostRuntime) -> Result<(), Fail> {
    let root = fresh(&rt, "child")?;
    try_children(&rt, &root)
}
