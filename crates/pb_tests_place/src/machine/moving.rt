//! What has moved while a child was running, as the machine reports it.

use crate::machine::commands::{Asked, command, shell};
use crate::machine::folders::{finish, fresh};
use crate::told::path_in;
use pb_place_host::HostPlace;
use pb_place_types::{Command, PathText, Place};
use std::alloc::{AllocError, Global};
use std::test::Fail;

/// What exists before a child is spawned. `no/target` is the target folder of each command, and
/// `other` has the tag of a target folder.
const BEFORE: &str = "mkdir -p src/deep no/target other; echo old > src/a; echo old > b; \
     ln -s b to_b; ln -s src to_src; echo '# This is a target folder of pb_tool.' > other/CACHEDIR.TAG";

/// What a child does, the path that is watched, and what has moved then. Each name is a path
/// relative to the test's folder.
static SCENES: &[(&str, &str, &str)] = &[
    ("true", "src/a", "still"),
    ("true", "", "still"),
    ("true", "none/such", "still"),
    ("cat src/a to_b", "", "still"),
    ("echo new > src/a", "src/a", "moved /src/a"),
    ("echo new > src/a", "b", "still"),
    ("echo new > src/a", "src", "moved /src/a"),
    ("echo old > src/a", "src/a", "moved /src/a"),
    (
        "echo new > src/a; echo old > src/a",
        "src/a",
        "moved /src/a",
    ),
    ("mv b src/a", "src/a", "moved /src/a"),
    ("touch -d 2001-01-01 src/a", "src/a", "moved /src/a"),
    ("chmod 600 src/a", "src/a", "moved /src/a"),
    ("rm src/a", "src/a", "moved /src/a"),
    ("rm -r src", "src/a", "moved /src/a"),
    ("echo new > src/new", "src/a", "still"),
    ("echo new > src/new", "src", "moved /src"),
    ("mkdir src/deep/new", "src", "moved /src/deep"),
    ("echo new > src/deep/new", "src", "moved /src/deep"),
    (
        "echo new > src/deep/new; rm src/deep/new",
        "src",
        "moved /src/deep",
    ),
    ("echo new > none", "none/such", "moved /none/such"),
    ("echo new > b", "to_b", "moved /to_b"),
    ("ln -sfn src/a to_b", "to_b", "moved /to_b"),
    ("echo new > src/a", "to_src/a", "moved /to_src/a"),
    ("echo new > no/target/new", "", "still"),
    ("echo new > no/target/new", "no/target", "still"),
    ("echo new > other/new", "", "still"),
    ("echo new > other/new", "other", "moved /other"),
];

/// Runs a command at a place.
fn run<P: Place>(alloc: Global, place: &mut P, command: &Command) -> Result<(), Fail> {
    let ended = place.start(alloc, command)?;
    drop(ended);
    Ok(())
}

/// Runs a child.
fn run_asked<P: Place>(
    alloc: Global,
    place: &mut P,
    root: &PathText,
    asked: &Asked,
) -> Result<(), Fail> {
    let command = command(alloc, root, asked)?;
    let ran = run(alloc, place, &command);
    drop(command);
    ran
}

/// Returns what has moved: its first path in a test's folder.
fn moved_text<P: Place>(
    alloc: Global,
    place: &P,
    root: &PathText,
    still: bool,
) -> Result<String, AllocError> {
    match place.moved_paths() {
        [] if still => String::from_str(alloc, "still"),
        [moved] if !still => {
            let path = moved
                .path
                .as_str()
                .strip_prefix(root.as_str())
                .unwrap_or("?");
            format!(in alloc; "moved {path}")
        }
        _ => String::from_str(alloc, "not told alike"),
    }
}

/// Runs a command, watches a path, and returns what has moved.
fn watch<P: Place>(
    alloc: Global,
    place: &mut P,
    root: &PathText,
    command: &Command,
    watched: &PathText,
) -> Result<String, Fail> {
    run(alloc, place, command)?;
    place.watch(alloc, command, watched)?;
    let still = place.stood_still(command);
    Ok(moved_text(alloc, place, root, still)?)
}

/// Runs a child that does something, watches a path, and returns what has moved.
fn watch_asked<P: Place>(
    alloc: Global,
    place: &mut P,
    root: &PathText,
    does: &str,
    name: &str,
) -> Result<String, Fail> {
    // The pause is long enough that the clock of a file system can tell the change from the spawn.
    let told = format!(in alloc; "sleep 0.05; {does}")?;
    let asked: Asked = ("/bin/sh", told.as_str(), "", "no/target/out", &[]);
    let command = command(alloc, root, &asked)?;
    let watched = path_in(alloc, root, name)?;
    let said = watch(alloc, place, root, &command, &watched);
    drop(command);
    said
}

/// Returns what has moved in a scene.
fn moved_in_scene<P: Place>(
    alloc: Global,
    place: &mut P,
    root: &PathText,
    does: &str,
    name: &str,
) -> Result<String, Fail> {
    run_asked(alloc, place, root, &shell(BEFORE))?;
    watch_asked(alloc, place, root, does, name)
}

/// Tries a scene in a folder of its own.
fn try_scene(rt: &HostRuntime, scene: &(&str, &str, &str)) -> Result<(), Fail> {
    let (does, name, wanted) = *scene;
    let root = fresh(rt, "moving")?;
    let mut place = HostPlace::new(rt.alloc(), rt);
    let said = moved_in_scene(rt.alloc(), &mut place, &root, does, name);
    drop(place);
    let said = said?;
    if said.as_str() != wanted {
        return Err(Fail::new(format_args!("{does}, {name}: {}", said.as_str())));
    }
    finish(rt, &root)
}

/// Rules: `machine.moved`.
#[test]
fn moved_paths_are_named(rt: HostRuntime) -> Result<(), Fail> {
    for scene in SCENES {
        try_scene(&rt, scene)?;
    }
    Ok(())
}
