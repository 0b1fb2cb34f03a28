//! Why a call of the store fails.

ghost use Rattle.std.specs.Prelude.{◌≡◌};
ghost use Rattle.pb_store.specs.Calls.{fault_in_store, fault_in_opening};

use pb_place_types::{PathText, PlaceFault};
use thiserror::Error;

/// Why a call of the store fails.
#[derive(Clone, Copy, Debug, PartialEq, Eq, Error)]
pub enum StoreFault {
    /// A call of the place failed.
    #[error("{}", .0)]
    Place(PlaceFault),
    /// No run number is left: a record of the folder names 18446744073709551615, or this number was
    /// taken. Nothing was removed.
    #[error("no run number is left")]
    NumbersSpent,
    /// Memory ran out.
    #[error("out of memory")]
    OutOfMemory,
}

/// Returns the fault of a call of the place as a fault of the store. `OutOfMemory` stays
/// `OutOfMemory`.
pub(crate) fn store_error(fault: PlaceFault) -> StoreFault
    ensures { result ≡ fault_in_store fault }
{
    match fault {
        PlaceFault::OutOfMemory => StoreFault::OutOfMemory,
        fault => StoreFault::Place(fault),
    }
}

/// Why a store cannot be opened.
#[derive(Debug, Drop, Error)]
pub enum OpenFault {
    /// The call of the place on this path failed: the folder could not be listed, or a record could
    /// not be read.
    #[error("{}", .1)]
    Place(PathText, PlaceFault),
    /// Memory ran out.
    #[error("out of memory")]
    OutOfMemory,
}

/// Returns the fault of a call of the place on this path as a fault of opening. `OutOfMemory` stays
/// `OutOfMemory`.
pub(crate) fn open_error(path: PathText, fault: PlaceFault) -> OpenFault
    ensures { result ≡ fault_in_opening path fault }
{
    match fault {
        PlaceFault::OutOfMemory => OpenFault::OutOfMemory,
        fault => OpenFault::Place(path, fault),
    }
}
