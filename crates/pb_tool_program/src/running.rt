//! The whole program over any place.

ghost use Rattle.std.specs.Prelude.{◌≡◌, [], map};
ghost use Rattle.pb_build_turns.specs.Executor.{moment};
ghost use Rattle.pb_tool_program.specs.Guarding.{Guarded};
ghost use Rattle.pb_tool_program.specs.Building.{BuildsTold};
ghost use Rattle.pb_tool_program.specs.Running.{RunsFile, Explains, IsShownAs, Runs};

use crate::building::build_options;
use crate::cleaning::clean_options;
use crate::guard::Guard;
use crate::names::mean;
use crate::planning::plan_options;
use crate::previewing::preview_options;
use crate::session::{refuse, run_session};
use pb_place_types::{Out, PathText, Place, write_all};
use pb_tool_arguments::{ArgumentsError, Here, Invocation, Shown, read_command_line};
use pb_tool_explain::Page;
use pb_tool_notes::Remembering;
use pb_tool_screen::{Coloring, Screen, Speaking, StatusLine};
use pb_tool_witness::Noting;
use pb_workspace_types::Options;
use std::alloc::Global;
use std::convert::AsStr;

/// The status if memory runs out, or the current folder is unknown, before a build.
pub(crate) const FAILED: u8 = 101;

/// The status of a bad command line.
pub(crate) const BAD_COMMAND_LINE: u8 = 1;

/// Runs the session of a file. A file that cannot be read is a bad session.
fn run_file<P: Place, O: Out, E: Out>(
    alloc: Global,
    place: &mut P,
    path: &PathText,
    out: &mut O,
    err: &mut E,
) -> u8
    ensures { RunsFile P.is_modelled path.now result
        (moment (P.at place.old) (O.heard out.old)) (moment (P.at place.new) (O.heard out.new))
        (E.heard err.old) (E.heard err.new) }
{
    match place.read(alloc, path) {
        Ok(Some(bytes)) => run_session(alloc, bytes.as_slice(), out, err),
        _ => refuse(err),
    }
}

/// Prints the text for a command line that requests nothing. Help goes to `out`, and what is wrong
/// goes to `err`.
fn explain<O: Out, E: Out>(unasked: &ArgumentsError, out: &mut O, err: &mut E) -> u8
    ensures { Explains unasked.now result
        (O.heard out.old) (O.heard out.new)
        (E.heard err.old) (E.heard err.new) }
{
    match unasked {
        ArgumentsError::Help(text) => {
            if write_all(out, text.as_str().as_bytes()) {
                0
            } else {
                BAD_COMMAND_LINE
            }
        }
        ArgumentsError::Wrong(text) => {
            let _ = write_all(err, text.as_str().as_bytes());
            BAD_COMMAND_LINE
        }
        ArgumentsError::OutOfMemory => {
            let _ = write_all(err, b"error: fault memory OutOfMemory\n");
            FAILED
        }
    }
}

/// Sets what the place and the sinks show of a build, and builds.
fn build<P: Speaking + Noting + Remembering, G: Guard<P, E>, O: Screen, E: Coloring, L: Out>(
    alloc: Global,
    place: &mut P,
    guard: &mut G,
    out: &mut O,
    err: &mut E,
    line: &mut StatusLine<L>,
    options: &Options,
    shown: Shown,
) -> u8
    requires none { (P.at place.old).counts.starts.flying ≡ [] }
    ensures told { IsShownAs P.speaks P.notes O.shows E.colors place.old out.old err.old shown }
    ensures builds { BuildsTold P.is_modelled P.child (Guarded G.asks G.waits guard.old guard.new)
        (P.at place.new).moved options.now shown.explain shown.render result
        (moment (P.at place.old) (O.heard out.old)) (moment (P.at place.new) (O.heard out.new))
        (E.heard err.old) (E.heard err.new) }
{
    place.speak(shown.verbose, shown.progress);
    place.note_units(alloc, shown.explain, shown.verbose);
    out.show(shown.render, shown.progress, shown.colors);
    err.color(shown.colors);
    line.switch(shown.progress, shown.counts);
    build_options(
        alloc,
        place,
        guard,
        out,
        err,
        line,
        options,
        shown.explain,
        shown.render,
    )
}

/// Does what the arguments of the command line request, and returns the exit status. This is the
/// whole program. The first argument is the program's own name.
///
/// A build requests its target folder from the guard once the build is planned. A removal requests
/// its target folder once the folder is listed. Four parameters decide what a build shows besides
/// its message lines. `place` names the children that it starts, `out` shows lines as text, `err`
/// has colours, and `line` shows which unit begins. The page contains the meanings of the names of
/// result lines.
///
/// The status is:
///
/// - that of `build_options`, `plan_options`, `clean_options` or `run_session`;
/// - 1 for a bad command line, and for a name that the page does not have;
/// - 0 if help or a name's meaning was requested, and 1 if this text cannot be written;
/// - 101 if memory runs out before any of this.
pub fn run<
    S: AsStr,
    P: Speaking + Noting + Remembering,
    G: Guard<P, E>,
    O: Screen,
    E: Coloring,
    L: Out,
>(
    alloc: Global,
    words: &[S],
    here: &Here,
    page: &Page,
    place: &mut P,
    guard: &mut G,
    out: &mut O,
    err: &mut E,
    line: &mut StatusLine<L>,
) -> u8
    requires none { (P.at place.old).counts.starts.flying ≡ [] }
    ensures { Runs P.is_modelled P.child (Guarded G.asks G.waits guard.old guard.new)
        (IsShownAs P.speaks P.notes O.shows E.colors place.old out.old err.old)
        page.now (P.at place.new).moved
        (map S.text words.now) here.now result
        (moment (P.at place.old) (O.heard out.old)) (moment (P.at place.new) (O.heard out.new))
        (E.heard err.old) (E.heard err.new) }
{
    match read_command_line(alloc, words, here) {
        Ok(Invocation::Build { options, shown }) => {
            build(alloc, place, guard, out, err, line, &options, shown)
        }
        Ok(Invocation::Preview(options)) => preview_options(alloc, place, err, &options),
        Ok(Invocation::Plan { options, form }) => {
            plan_options(alloc, place, out, err, &options, form)
        }
        Ok(
            Invocation::Clean {
                options,
                one_profile,
            },
        ) => clean_options(alloc, place, guard, err, &options, one_profile),
        Ok(Invocation::Session(path)) => run_file(alloc, place, &path, out, err),
        Ok(Invocation::Explain(name)) => mean(alloc, page, name.as_str(), out, err),
        Err(unasked) => explain(&unasked, out, err),
    }
}
