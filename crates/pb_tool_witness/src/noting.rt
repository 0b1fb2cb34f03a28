//! Places that can note what a build starts.

ghost use Rattle.std.specs.Prelude.{Bool};
ghost use Rattle.pb_place_types.specs.At.{IsUnchanged};

use pb_place_types::Place;
use pb_tool_reasons::Noted;
use std::alloc::Global;

/// A place that can also note which units a build starts, and how they differ from their records.
/// Contracts promise nothing about the notes: they are words for people.
pub trait Noting: Place {
    /// How noting is switched. The relation is between the place before, whether it notes units,
    /// and the place after.
    ghost notes: { Self → Bool → Self → Type 0 };

    /// Drops what was noted, and sets whether units are noted from now on. If `values` is true, the
    /// notes have the values of all variables. Otherwise the notes have only the values of
    /// variables that the builder itself sets. Nothing else of the place changes.
    fn note_units(&mut self, alloc: Global, on: bool, values: bool)
        ensures notes { notes self.old on self.new }
        ensures at { IsUnchanged (Self.at self.old) (Self.at self.new) };

    /// Returns what was noted. This takes no memory.
    fn notes(&self) -> &Noted;
}
