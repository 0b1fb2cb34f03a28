//! A turn that shows each unit that begins.

ghost use Rattle.std.specs.Prelude.{◌≡◌};
ghost use Rattle.pb_build.specs.Ending.{PicksFirstOf};
ghost use Rattle.pb_tool_progress.specs.Watching.{TurnsWatched};

use pb_data::{Items, Text};
use pb_place_types::Out;
use pb_run_flight::{First, Jobs, Step, Turn};
use pb_tool_screen::StatusLine;

/// A turn that decides as another turn does, and shows each unit that begins.
#[derive(Drop)]
pub(crate) struct Watched<'a, S> {
    /// The turn that decides.
    pub(crate) jobs: Jobs<First>,
    /// The keys of the units, in plan order.
    pub(crate) keys: Items<Text>,
    /// The status line that shows each unit.
    pub(crate) line: &'a mut StatusLine<S>,
}

impl<'a, S: Out> Watched<'a, S> {
    /// Shows that the unit at an index begins, if there is a key for this unit. The turn that
    /// decides does not change.
    fn show(&mut self, index: usize)
        ensures { self.new.jobs ≡ self.old.jobs }
    {
        let keys = self.keys.as_slice();
        if let Some(key) = keys.get(index) {
            self.line.begins(keys.len(), key.as_str());
        }
    }
}

impl<'a, S: Out> Turn for Watched<'a, S> {
    ghost turns = { TurnsWatched };

    fn turn(&mut self, ready: &[usize], flying: &[usize]) -> Step {
        let step = self.jobs.turn(ready, flying);
        if let Step::Begin(index) = step {
            self.show(ready[index]);
        }
        step
    }
}
