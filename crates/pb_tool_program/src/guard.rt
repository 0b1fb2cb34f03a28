//! What prevents two builds from using one target folder at the same time.

ghost use Rattle.std.specs.Prelude.{ℕ, List, Bool};
ghost use Rattle.pb_place_types.specs.Counts.{Counts};
ghost use Rattle.pb_place_types.specs.Sinks.{SinkState};

use pb_place_types::{Out, PathText, Place};

/// Reserves target folders for one build at a time, if possible. At each call, the contracts see
/// the counters of the place and what `err` has received. So the contracts can say at which moment
/// of a build the call comes.
pub trait Guard<P: Place, E: Out> {
    /// How a folder is requested. The relation is between these values, in order:
    ///
    /// - the guard before;
    /// - the folder;
    /// - the place's counters;
    /// - what `err` has received;
    /// - whether another build has the folder;
    /// - the guard after.
    ghost asks: { Self → List ℕ → Counts → SinkState → Bool → Self → Type 0 };

    /// How the guard waits for a folder. The relation is between the guard before, the place's
    /// counters, what `err` has received, and the guard after.
    ghost waits: { Self → Counts → SinkState → Self → Type 0 };

    /// Requests a folder, takes it if it is free, and returns whether another build has the folder.
    /// A folder that cannot be guarded counts as free.
    fn is_taken(&mut self, place: &P, err: &E, folder: &PathText) -> bool
        ensures { asks self.old folder.now (P.at place.now).counts
            (E.heard err.now) result self.new };

    /// Waits until the folder that was requested last is free, and takes it.
    fn wait(&mut self, place: &P, err: &E)
        ensures { waits self.old (P.at place.now).counts (E.heard err.now) self.new };
}
