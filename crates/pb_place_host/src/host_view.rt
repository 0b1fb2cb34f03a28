//! What a child sees of real files and variables.

use crate::reading::{fault_of, file_at, variable_of};
use pb_data::{Bytes, Text};
use pb_place_types::{PathText, View, ViewFault};
use std::alloc::Global;
use std::rt::{Env, Files};

/// A view of real files and variables, by a runtime. No contract says what the view shows, since no
/// contract can say what a disk contains. The user of the view assumes that nothing changes while
/// the child answers.
///
/// Links are followed. A path has no file if nothing is there, if its link leads nowhere, or if
/// something else is there, such as a folder. A look fails for a file of more than 4,294,967,296
/// bytes, a file that cannot be read, and a variable whose value is not UTF-8. These rules and
/// limits are our own choice.
#[derive(Drop)]
pub struct HostView<'a, R> {
    runtime: &'a R,
}

impl<'a, R> HostView<'a, R> {
    /// Returns the view of a runtime.
    pub fn new(runtime: &'a R) -> HostView<'a, R> {
        HostView { runtime }
    }
}

impl<'a, R: Files + Env + AllocGlobal> View for HostView<'a, R> {
    ghost use Rattle.std.specs.Prelude.{false};
    ghost use Rattle.std.specs.FinMap as map;

    ghost is_modelled = { false };

    ghost shown = { λ _. record { files = map.empty; variables = map.empty } };

    ghost fails = { λ _. Unit {0} };

    fn file(&self, _alloc: Global, path: &PathText) -> Result<Option<Bytes>, ViewFault> {
        match file_at(self.runtime, path.as_str()) {
            Ok(found) => Ok(found),
            Err(failed) => Err(fault_of(failed)),
        }
    }

    fn variable(&self, _alloc: Global, name: &str) -> Result<Option<Text>, ViewFault> {
        variable_of(self.runtime, name)
    }
}
