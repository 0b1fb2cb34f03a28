//! Why a session file is refused.

ghost use Rattle.std.specs.Prelude.{◌≡◌};
ghost use Rattle.pb_build_session.specs.declared.fault.BadSession.TheVariants as bad;
ghost use Rattle.pb_build_session.specs.Faults.{of_path_fault};

use pb_place_types::PathFault;
use std::alloc::{AllocError, AllocFailed};
use thiserror::Error;

/// Why a session file is refused.
#[derive(Clone, Copy, Debug, PartialEq, Eq, Error)]
pub enum BadSession {
    /// The bytes are not UTF-8 or not JSON, or the JSON is not a session, or a path in it is
    /// invalid.
    #[error("bad session")]
    BadForm,
    /// Memory ran out.
    #[error("out of memory")]
    OutOfMemory,
}

impl From<AllocError> for BadSession {
    ghost from_gives = { λ _ e. e ≡ bad.OutOfMemory };

    fn from(_: AllocError) -> Self {
        BadSession::OutOfMemory
    }
}

impl<T: Drop> From<AllocFailed<T>> for BadSession {
    ghost from_gives = { λ _ e. e ≡ bad.OutOfMemory };

    fn from(_: AllocFailed<T>) -> Self {
        BadSession::OutOfMemory
    }
}

impl From<PathFault> for BadSession {
    ghost from_gives = { λ f e. e ≡ of_path_fault f };

    fn from(fault: PathFault) -> Self {
        match fault {
            PathFault::OutOfMemory => BadSession::OutOfMemory,
            _ => BadSession::BadForm,
        }
    }
}
