//! Why a call on real files failed.

ghost use Rattle.std.specs.Prelude.{◌≡◌, ◌≢◌, IsTrue, ◌↔◌};
ghost use Rattle.std.specs.IoError.{error_kind};

use std::alloc::{AllocError, AllocFailed, Global};
use std::io;
use std::io::ErrorKind;

/// The error of a call on real files, and the path at which the error occurred.
#[derive(Drop)]
pub(crate) struct Failed {
    /// The system's error, or an error of our own.
    pub(crate) error: io::Error,
    /// The path at which the call failed, if this is not the path that was passed to the call.
    pub(crate) path: Option<String>,
}

impl Failed {
    /// Returns this failure with the path at which it occurred, or without a path if memory runs
    /// out for the path.
    pub(crate) fn at(self, alloc: Global, path: &str) -> Failed {
        Failed {
            error: self.error,
            path: String::from_str(alloc, path).ok(),
        }
    }

    /// Returns whether memory ran out.
    pub(crate) fn is_memory(&self) -> bool
        ensures { IsTrue result ↔ (error_kind self.now.error ≡ ErrorKind.OutOfMemory) }
    {
        self.error.kind() == ErrorKind::OutOfMemory
    }
}

impl From<io::Error> for Failed {
    fn from(error: io::Error) -> Self {
        Failed { error, path: None }
    }
}

impl From<AllocError> for Failed {
    fn from(_: AllocError) -> Self {
        Failed::from(io::Error::from(ErrorKind::OutOfMemory))
    }
}

impl<T: Drop> From<AllocFailed<T>> for Failed {
    fn from(_: AllocFailed<T>) -> Self {
        Failed::from(io::Error::from(ErrorKind::OutOfMemory))
    }
}

/// Returns the system's text for an error, without the number of the error.
///
/// Errors: out of memory.
pub(crate) fn reason_of(alloc: Global, error: &io::Error) -> Result<String, AllocError> {
    let text = format!(in alloc; "{error}")?;
    match text.as_str().split_once(" (os error ") {
        Some((reason, _)) => String::from_str(alloc, reason),
        None => Ok(text),
    }
}
