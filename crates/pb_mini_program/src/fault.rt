//! Why the program could not do its work.

ghost use Rattle.std.specs.Prelude.{◌≡◌};
ghost use Rattle.pb_mini_program.specs.Faults.{of_view, of_place};
ghost use Rattle.pb_mini_program.specs.declared.fault.Fault.TheVariants as fault;

use pb_place_types::{PlaceFault, ViewFault};
use std::alloc::{AllocError, AllocFailed};
use thiserror::Error;

/// Why the program could not do its work.
#[derive(Clone, Copy, Debug, PartialEq, Eq, Error)]
pub enum Fault {
    /// A file or a variable could not be read.
    #[error("a file or a variable could not be read")]
    Read,
    /// A file or a stream could not be written.
    #[error("a file or a stream could not be written")]
    Write,
    /// Out of memory.
    #[error("out of memory")]
    OutOfMemory,
}

impl From<AllocError> for Fault {
    ghost from_gives = { λ _ e. e ≡ fault.OutOfMemory };

    fn from(_: AllocError) -> Self {
        Fault::OutOfMemory
    }
}

impl<T: Drop> From<AllocFailed<T>> for Fault {
    ghost from_gives = { λ _ e. e ≡ fault.OutOfMemory };

    fn from(_: AllocFailed<T>) -> Self {
        Fault::OutOfMemory
    }
}

impl From<ViewFault> for Fault {
    ghost from_gives = { λ e f. f ≡ of_view e };

    fn from(fault: ViewFault) -> Self {
        match fault {
            ViewFault::Failed => Fault::Read,
            ViewFault::OutOfMemory => Fault::OutOfMemory,
        }
    }
}

impl From<PlaceFault> for Fault {
    ghost from_gives = { λ e f. f ≡ of_place e };

    fn from(fault: PlaceFault) -> Self {
        match fault {
            PlaceFault::OutOfMemory => Fault::OutOfMemory,
            _ => Fault::Write,
        }
    }
}
