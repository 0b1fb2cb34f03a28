//! What can be wrong with a line.

ghost use Rattle.std.specs.Prelude.{◌≡◌};
ghost use Rattle.pb_directive.specs.Faults.{fault_at};

use std::alloc::{AllocError, AllocFailed};
use thiserror::Error;

/// The first fault of a text, with the number of the faulty line. Lines are counted from 1.
#[derive(Clone, Copy, Debug, PartialEq, Eq, Error)]
pub enum LineFault {
    /// A line of dep-info is not UTF-8.
    #[error("line {0} is not UTF-8")]
    NotText(u64),
    /// The key after `cargo::` is unknown.
    #[error("line {0} has an unknown key")]
    UnknownKey(u64),
    /// A line has one of these faults:
    ///
    /// - A key has a value that is not allowed.
    /// - `=` is missing after `cargo::`.
    /// - A name is empty.
    /// - A name or a word contains byte 0.
    /// - No colon ends the outputs of a rule of dep-info.
    #[error("line {0} has a bad value")]
    BadValue(u64),
    /// A word of `rustc-flags` is neither a library nor a folder of libraries.
    #[error("line {0} has a bad flag")]
    BadFlag(u64),
    /// Out of memory.
    #[error("out of memory")]
    OutOfMemory,
}

/// What is wrong with one line.
#[derive(Clone, Copy, Debug, PartialEq, Eq, Error)]
pub enum Problem {
    /// The line is not UTF-8.
    #[error("not UTF-8")]
    NotText,
    /// The key after `cargo::` is unknown.
    #[error("an unknown key")]
    UnknownKey,
    /// The line has one of these faults:
    ///
    /// - A key has a value that is not allowed.
    /// - `=` is missing after `cargo::`.
    /// - A name is empty.
    /// - A name or a word contains byte 0.
    /// - No colon ends the outputs of a rule of dep-info.
    #[error("a bad value")]
    BadValue,
    /// A word of `rustc-flags` is neither a library nor a folder of libraries.
    #[error("a bad flag")]
    BadFlag,
    /// Out of memory.
    #[error("out of memory")]
    OutOfMemory,
}

impl Problem {
    /// Returns the fault of a text in which the line with this number has the problem.
    pub fn at(self, line: u64) -> LineFault
        ensures { result ≡ fault_at line self }
    {
        match self {
            Problem::NotText => LineFault::NotText(line),
            Problem::UnknownKey => LineFault::UnknownKey(line),
            Problem::BadValue => LineFault::BadValue(line),
            Problem::BadFlag => LineFault::BadFlag(line),
            Problem::OutOfMemory => LineFault::OutOfMemory,
        }
    }
}

impl From<AllocError> for Problem {
    ghost use Rattle.std.specs.Prelude.{◌≡◌};
    ghost use Rattle.pb_directive.specs.declared.fault.Problem.TheVariants as problem;

    ghost from_gives = { λ _ e. e ≡ problem.OutOfMemory };

    fn from(_fault: AllocError) -> Problem {
        Problem::OutOfMemory
    }
}

impl<T: Drop> From<AllocFailed<T>> for Problem {
    ghost use Rattle.std.specs.Prelude.{◌≡◌};
    ghost use Rattle.pb_directive.specs.declared.fault.Problem.TheVariants as problem;

    ghost from_gives = { λ _ e. e ≡ problem.OutOfMemory };

    fn from(_fault: AllocFailed<T>) -> Problem {
        Problem::OutOfMemory
    }
}
