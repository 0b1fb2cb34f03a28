//! Why nothing, or not all, was removed.

ghost use Rattle.std.specs.Prelude.{◌≡◌};
ghost use Rattle.pb_tool_clean.specs.Calls.{fault_of};
ghost use Rattle.pb_tool_clean.specs.declared.fault.CleanFault.TheVariants as clean_fault;

use pb_data::Text;
use pb_place_types::{PathText, PlaceFault};
use std::alloc::AllocError;

/// What a removal looks for in a target folder: any record or unit's folder, or those that the
/// options name.
#[derive(Clone, Copy, PartialEq, Eq)]
pub enum Wanted {
    /// Any record or unit's folder.
    All,
    /// A record or a unit's folder of the named profile.
    OfProfile,
    /// A record or a unit's folder of the named packages, and of the named profile if there is one.
    OfPackages,
}

/// Why nothing, or not all, was removed.
#[derive(Drop)]
pub enum CleanFault {
    /// Nothing that the options choose is in this folder.
    Nothing(Wanted, PathText),
    /// The profile's name cannot name a folder in the target folder.
    NoSuchProfile,
    /// A call of the place failed. The fault has the path or the name that was passed to the call,
    /// and the reason.
    Call(Text, PlaceFault),
    /// Memory ran out.
    OutOfMemory,
}

impl From<AllocError> for CleanFault {
    ghost from_gives = { λ _ e. e ≡ clean_fault.OutOfMemory };

    fn from(_: AllocError) -> Self {
        CleanFault::OutOfMemory
    }
}

/// Returns the fault of a call that was given this name or path.
pub(crate) fn fault_of(name: Text, fault: PlaceFault) -> CleanFault
    ensures { result ≡ fault_of name fault }
{
    if fault == PlaceFault::OutOfMemory {
        return CleanFault::OutOfMemory;
    }
    CleanFault::Call(name, fault)
}
