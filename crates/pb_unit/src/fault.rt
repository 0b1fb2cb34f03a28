//! Why there is no plan.

ghost use Rattle.std.specs.Prelude.{◌≡◌};
ghost use Rattle.pb_unit.specs.declared.fault.PlanFault.TheVariants as plan_fault;

use pb_data::{Items, Text};
use pb_profile::ProfileFault;
use std::alloc::{AllocError, AllocFailed};
use thiserror::Error;

/// Why there is no plan.
#[derive(Debug, Drop, Error)]
pub enum PlanFault {
    /// Units need one another. The fault contains the names of the packages whose units reach
    /// themselves, in byte order.
    #[error("packages depend on one another")]
    Cycle(Items<Text>),
    /// There are more than 4,096 units.
    #[error("there are more than 4,096 units")]
    TooManyUnits,
    /// There is no unit.
    #[error("there is nothing to build")]
    NothingToBuild,
    /// The profile has no settings.
    #[error("{}", .0)]
    Profile(ProfileFault),
    /// Memory ran out.
    #[error("out of memory")]
    OutOfMemory,
}

impl From<AllocError> for PlanFault {
    ghost from_gives = { λ _ e. e ≡ plan_fault.OutOfMemory };

    fn from(_: AllocError) -> Self {
        PlanFault::OutOfMemory
    }
}

impl<T: Drop> From<AllocFailed<T>> for PlanFault {
    ghost from_gives = { λ _ e. e ≡ plan_fault.OutOfMemory };

    fn from(_: AllocFailed<T>) -> Self {
        PlanFault::OutOfMemory
    }
}
