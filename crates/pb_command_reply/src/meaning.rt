//! The path of a text relative to a folder.

ghost use Rattle.std.specs.Prelude.{Bool, IsTrue};
ghost use Rattle.pb_data.specs.UnlessOom.{UnlessOom};
ghost use Rattle.pb_place_types.specs.Paths.{joined};
ghost use Rattle.pb_place_types.specs.declared.path.PathFault.TheVariants as path_fault;

use pb_place_types::{PathFault, PathText, Place};
use std::alloc::Global;

/// Determines the path of a text relative to a folder.
pub(crate) trait Meaning {
    /// Whether the result is the normalised path, as `PathText::join` returns it. On a machine with
    /// links the result may be another path. Contracts promise nothing about such a path.
    ghost joins: { Bool };

    /// Returns the path of a text relative to a folder.
    ///
    /// Errors: those of `PathText::join`.
    fn path_from(&self, alloc: Global, folder: &PathText, text: &str) -> Result<PathText, PathFault>
        ensures { IsTrue joins →
            UnlessOom path_fault.OutOfMemory (λ path. path) result (joined folder.now text.now) };
}

/// The text alone determines the path.
#[derive(Drop)]
pub(crate) struct ByText {}

impl Meaning for ByText {
    ghost use Rattle.std.specs.Prelude.{true};

    ghost joins = { true };

    fn path_from(
        &self,
        alloc: Global,
        folder: &PathText,
        text: &str,
    ) -> Result<PathText, PathFault> {
        folder.join(alloc, text)
    }
}

/// A place determines the path.
#[derive(Drop)]
pub(crate) struct ByPlace<'a, P> {
    /// The place that determines the path.
    pub(crate) place: &'a P,
}

impl<'a, P: Place> Meaning for ByPlace<'a, P> {
    ghost joins = { P.is_modelled };

    fn path_from(
        &self,
        alloc: Global,
        folder: &PathText,
        text: &str,
    ) -> Result<PathText, PathFault> {
        self.place.path_from(alloc, folder, text)
    }
}
