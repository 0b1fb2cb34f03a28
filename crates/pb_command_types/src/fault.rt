//! Why the answer of a unit is bad.

ghost use Rattle.std.specs.Prelude.{◌≡◌};
ghost use Rattle.pb_command_types.specs.declared.fault.UnitFault.TheVariants as unit_fault;

use pb_data::TryCopy;
use pb_directive::LineFault;
use pb_place_types::PathText;
use std::alloc::{AllocError, AllocFailed, Global};
use thiserror::Error;

/// Why the answer of a unit's child is bad.
#[derive(Debug, Drop, Error)]
pub enum UnitFault {
    /// The child ended with this status, which is not 0.
    #[error("the child process ended with status {}", .0)]
    Status(i32),
    /// A line of a build script's output has a fault.
    #[error("the script's output is refused: {}", .0)]
    Directive(LineFault),
    /// The compiler wrote no dep-info, or its dep-info cannot be read or is over 4,194,304 bytes.
    #[error("the compiler left no readable dep-info")]
    NoDepInfo,
    /// A path at or below the target folder is named as an input. The path is in no folder of a
    /// unit that the bad unit reaches.
    #[error("the input `{}` is in the target folder", .0.as_str())]
    ForeignInput(PathText),
    /// A stream of the child is over 4,194,304 bytes (our own choice).
    #[error("the child process wrote too much to a stream")]
    OutputTooLong,
    /// A build script ended with status 0 and printed a line `cargo::error` (The Cargo Book, Build
    /// Scripts).
    #[error("the build script reported an error")]
    ScriptError,
    /// Memory ran out.
    #[error("out of memory")]
    OutOfMemory,
}

impl From<AllocError> for UnitFault {
    ghost from_gives = { λ _ e. e ≡ unit_fault.OutOfMemory };

    fn from(_: AllocError) -> Self {
        UnitFault::OutOfMemory
    }
}

impl<T: Drop> From<AllocFailed<T>> for UnitFault {
    ghost from_gives = { λ _ e. e ≡ unit_fault.OutOfMemory };

    fn from(_: AllocFailed<T>) -> Self {
        UnitFault::OutOfMemory
    }
}

impl TryCopy for UnitFault {
    fn copy(&self, alloc: Global) -> Result<UnitFault, AllocError> {
        Ok(match self {
            UnitFault::Status(status) => UnitFault::Status(*status),
            UnitFault::Directive(fault) => UnitFault::Directive(*fault),
            UnitFault::NoDepInfo => UnitFault::NoDepInfo,
            UnitFault::ForeignInput(path) => UnitFault::ForeignInput(path.copy(alloc)?),
            UnitFault::OutputTooLong => UnitFault::OutputTooLong,
            UnitFault::ScriptError => UnitFault::ScriptError,
            UnitFault::OutOfMemory => UnitFault::OutOfMemory,
        })
    }
}
