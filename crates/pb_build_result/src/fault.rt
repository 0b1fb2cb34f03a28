//! Why a build ends without a summary.

ghost use Rattle.std.specs.Prelude.{◌≡◌};
ghost use Rattle.pb_build_result.specs.declared.fault.BuildFault.TheVariants as build_fault;

use pb_data::Text;
use pb_feature::FeatureFault;
use pb_place_types::{PlaceFault, StartFault};
use pb_unit::PlanFault;
use pb_workspace_types::LoadFault;
use std::alloc::{AllocError, AllocFailed};
use thiserror::Error;

/// Why a build is refused before a child is started, a line is written or a file is changed.
#[derive(Debug, Drop, Error)]
pub enum Refusal {
    /// The workspace cannot be read, or nothing in it can be selected.
    #[error("{0}")]
    Load(LoadFault),
    /// The features are not resolved.
    #[error("{0}")]
    Feature(FeatureFault),
    /// There is no plan.
    #[error("{0}")]
    Plan(PlanFault),
}

/// Why a call failed. The call was about files, variables or a unit's record.
#[derive(Clone, Copy, Debug, PartialEq, Eq, Error)]
pub enum DeviceFault {
    /// A call of the place failed.
    #[error("{}", .0)]
    Place(PlaceFault),
    /// No run number is left for a unit's record: a record of the profile's folder names
    /// 18446744073709551615, or this number was taken. Nothing was removed.
    #[error("no run number is left")]
    NumbersSpent,
}

/// Why a build ends without a summary.
#[derive(Debug, Drop, Error)]
pub enum BuildFault {
    /// The build is refused. No child was started, no line was written and no file was changed.
    #[error("{0}")]
    Plan(Refusal),
    /// The compiler does not report its version. The query `-vV` ended in one of these ways:
    ///
    /// - Its status is not 0.
    /// - A stream is over 4,194,304 bytes.
    /// - Standard output is not UTF-8.
    /// - Standard output has no line `host: TRIPLE`.
    #[error("the compiler did not report its version and host")]
    Toolchain,
    /// A child did not answer. The name is `-vV` for the query, and the unit's key for a unit.
    #[error("`{}` gave no answer: {}", .unit.as_str(), .fault)]
    Child { unit: Text, fault: StartFault },
    /// A call on files or variables failed, or no run number is left. The name is the unit's key,
    /// the variable's name, or the path that was passed to the call.
    #[error("a call for `{}` failed: {}", .unit.as_str(), .fault)]
    Device { unit: Text, fault: DeviceFault },
    /// The sink of the message lines failed.
    #[error("the message lines cannot be written")]
    Sink,
    /// Memory ran out.
    #[error("out of memory")]
    OutOfMemory,
}

impl From<AllocError> for BuildFault {
    ghost from_gives = { λ _ e. e ≡ build_fault.OutOfMemory };

    fn from(_: AllocError) -> Self {
        BuildFault::OutOfMemory
    }
}

impl<T: Drop> From<AllocFailed<T>> for BuildFault {
    ghost from_gives = { λ _ e. e ≡ build_fault.OutOfMemory };

    fn from(_: AllocFailed<T>) -> Self {
        BuildFault::OutOfMemory
    }
}
