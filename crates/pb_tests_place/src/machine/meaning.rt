//! Which paths texts mean on the machine.

use crate::machine::commands::{command, shell};
use crate::machine::folders::{finish, fresh};
use crate::told::path_in;
use pb_place_host::HostPlace;
use pb_place_types::{PathText, Place};
use std::alloc::Global;
use std::test::Fail;

/// The links. `ws/src` leads to `real/src`, `root` to `ws`, `ws/lost` nowhere, and `ws/here` to its
/// own folder.
const BEFORE: &str = "mkdir -p ws/deep real/src/sub; ln -s ../real/src ws/src; ln -s ws root; \
     ln -s none ws/lost; ln -s . ws/here";

/// A folder, a text, and the path that it means, in a test's folder.
static MEANINGS: &[(&str, &str, &str)] = &[
    ("ws", "src/main.rs", "/ws/src/main.rs"),
    ("ws", "./src//a", "/ws/src/a"),
    ("ws", "src/../x", "/real/x"),
    ("ws", "src/../../x", "/x"),
    ("ws", "src/sub/../x", "/ws/src/x"),
    ("ws", "src/sub/../../x", "/real/x"),
    ("ws", "deep/../x", "/ws/x"),
    ("ws", "../x", "/x"),
    ("ws/src", "../x", "/real/x"),
    ("root", "../x", "/x"),
    ("root", "src/../x", "/real/x"),
    ("root", "deep/../../x", "/x"),
    ("ws", "none/../x", "/ws/x"),
    ("ws", "lost/../x", "/ws/x"),
    ("ws", "here/../x", "/x"),
    ("ws", "here/here/deep/../x", "/ws/here/here/x"),
];

/// Returns what a text means from a folder.
fn meaning_of<P: Place>(
    alloc: Global,
    place: &P,
    root: &PathText,
    folder: &str,
    text: &str,
) -> Result<PathText, Fail> {
    let folder = path_in(alloc, root, folder)?;
    Ok(place.path_from(alloc, &folder, text)?)
}

/// Tries what a text means.
fn try_meaning<P: Place>(
    alloc: Global,
    place: &P,
    root: &PathText,
    meaning: &(&str, &str, &str),
) -> Result<(), Fail> {
    let (folder, text, wanted) = *meaning;
    let path = meaning_of(alloc, place, root, folder, text)?;
    let said = path.as_str().strip_prefix(root.as_str()).unwrap_or("?");
    if said != wanted {
        return Err(Fail::new(format_args!("{folder}, {text}: {said}")));
    }
    Ok(())
}

/// Tries all meanings in a folder, and one from the root of all paths.
fn try_all<P: Place>(alloc: Global, place: &P, root: &PathText) -> Result<(), Fail> {
    for meaning in MEANINGS {
        try_meaning(alloc, place, root, meaning)?;
    }
    let top = PathText::parse(alloc, "/")?;
    let text = format!(in alloc; "{}/ws/src/../x", root.as_str())?;
    let wanted = format!(in alloc; "{}/real/x", root.as_str())?;
    let path = place.path_from(alloc, &top, text.as_str())?;
    if path.as_str() != wanted.as_str() {
        return Err(Fail::new(format_args!("{}", path.as_str())));
    }
    Ok(())
}

/// Makes the files and links, and tries all meanings.
fn try_here<P: Place>(alloc: Global, place: &mut P, root: &PathText) -> Result<(), Fail> {
    let command = command(alloc, root, &shell(BEFORE))?;
    let ended = place.start(alloc, &command);
    drop(command);
    let ended = ended?;
    drop(ended);
    try_all(alloc, place, root)
}

/// Rules: `machine.dotdot`.
#[test]
fn meanings(rt: HostRuntime) -> Result<(), Fail> {
    let root = fresh(&rt, "meaning")?;
    let mut place = HostPlace::new(rt.alloc(), &rt);
    let tried = try_here(rt.alloc(), &mut place, &root);
    drop(place);
    tried?;
    finish(&rt, &root)
}
