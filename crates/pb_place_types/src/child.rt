//! A child, and what it sees of the world.

ghost use Rattle.std.specs.Prelude.{◌≡◌, Bool, true, IfOk, IfErr, IsTrue};
ghost use Rattle.std.specs.FinMap as map;
ghost use Rattle.pb_place_types.specs.World.{World, Answers};
ghost use Rattle.pb_place_types.specs.declared.child.ViewFault.TheVariants as view_fault;

use crate::command::Command;
use crate::path::PathText;
use crate::relative::RelativePath;
use pb_data::{Bytes, Items, Text};
use std::alloc::{AllocError, AllocFailed, Global};
use thiserror::Error;

/// The reply of a child to a command.
#[derive(Debug, Drop)]
pub struct Reply {
    /// The exit status; 0 is success.
    pub status: i32,
    /// All that the child writes to standard output.
    pub stdout: Bytes,
    /// All that the child writes to standard error.
    pub stderr: Bytes,
    /// The files that the child leaves in the command's `out`, by their paths inside `out`. If two
    /// files have the same path, the later file counts.
    pub files: Items<(RelativePath, Bytes)>,
}

/// Why a view returned no answer.
#[derive(Clone, Copy, Debug, PartialEq, Eq, Error)]
pub enum ViewFault {
    /// The file or the variable could not be read.
    #[error("the view failed")]
    Failed,
    /// Out of memory.
    #[error("out of memory")]
    OutOfMemory,
}

impl From<AllocError> for ViewFault {
    ghost from_gives = { λ _ e. e ≡ view_fault.OutOfMemory };

    fn from(_: AllocError) -> Self {
        ViewFault::OutOfMemory
    }
}

impl<T: Drop> From<AllocFailed<T>> for ViewFault {
    ghost from_gives = { λ _ e. e ≡ view_fault.OutOfMemory };

    fn from(_: AllocFailed<T>) -> Self {
        ViewFault::OutOfMemory
    }
}

/// What a child sees: files and variables.
///
/// The clauses about answers apply only to a view that reports what it shows. A view of real files
/// and variables cannot report that.
pub trait View {
    /// Whether the view reports what it shows.
    ghost is_modelled: { Bool } = { true };

    /// The world that is shown, if the view reports it.
    ghost shown: { Self → World };

    /// Whether a call may fail for a reason other than running out of memory.
    ghost fails: { Self → Type 0 };

    /// Returns the bytes of a file, or `None` if no file is shown there.
    ///
    /// Errors: `Failed`, if the file cannot be read; `OutOfMemory`.
    fn file(&self, alloc: Global, path: &PathText) -> Result<Option<Bytes>, ViewFault>
        ensures found { IsTrue is_modelled
            → IfOk result (λ found. found ≡ map.get (shown self.now).files path.now) }
        ensures failed { IfErr result (λ e. e ≡ ViewFault.Failed → fails self.now) };

    /// Returns the value of an inherited variable, or `None` if the variable is not set.
    ///
    /// Errors: `Failed`, if the variable cannot be read; `OutOfMemory`.
    fn variable(&self, alloc: Global, name: &str) -> Result<Option<Text>, ViewFault>
        ensures found { IsTrue is_modelled
            → IfOk result (λ found. found ≡ map.get (shown self.now).variables name.now) }
        ensures failed { IfErr result (λ e. e ≡ ViewFault.Failed → fails self.now) };
}

/// A child: a function that maps a command, and what the child sees, to a reply. A child has no
/// state, so no call can change the function.
pub trait Child {
    /// The function from a command, and what the child sees, to the reply.
    ghost answers: { Answers };

    /// Returns the reply to a command. The contract determines the reply only if the view reports
    /// what it shows.
    ///
    /// Errors: `Failed`, only if the view fails; `OutOfMemory`.
    fn reply<V: View>(&self, alloc: Global, command: &Command, view: &V) -> Result<Reply, ViewFault>
        ensures reply { IsTrue V.is_modelled
            → IfOk result (λ reply. reply ≡ answers command.now (V.shown view.now)) }
        ensures failed { IfErr result (λ e. e ≡ ViewFault.Failed → V.fails view.now) };
}
