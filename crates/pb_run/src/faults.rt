//! The faults of a step of a unit, without and with the unit's name.

ghost use Rattle.std.specs.Prelude.{◌≡◌};
ghost use Rattle.pb_run.specs.Steps.{device_fault, named, started};
ghost use Rattle.pb_run.specs.declared.faults.StepFault.TheVariants as step_fault;
ghost use Rattle.pb_store.specs.Calls.{fault_in_store};

use pb_build_result::{BuildFault, DeviceFault};
use pb_data::Text;
use pb_place_types::{PlaceFault, StartFault};
use pb_store::StoreFault;

/// Why a step of a unit failed, without the unit's name.
#[derive(Clone, Copy)]
pub enum StepFault {
    /// A call of the store, or a call on files or variables, failed. Or memory ran out.
    Store(StoreFault),
    /// The unit's child could not be started, or did not answer.
    Start(StartFault),
}

/// Returns the fault of a call on files or variables as a step's fault.
pub(crate) fn store_fault(fault: PlaceFault) -> StepFault
    ensures { result ≡ step_fault.Store (fault_in_store fault) }
{
    match fault {
        PlaceFault::OutOfMemory => StepFault::Store(StoreFault::OutOfMemory),
        fault => StepFault::Store(StoreFault::Place(fault)),
    }
}

/// Returns the fault of a child as a step's fault.
pub(crate) fn start_fault(fault: StartFault) -> StepFault
    ensures { result ≡ started fault }
{
    match fault {
        StartFault::OutOfMemory => StepFault::Store(StoreFault::OutOfMemory),
        fault => StepFault::Start(fault),
    }
}

/// Returns a step's fault as the build's fault, with the unit's key. The fault `OutOfMemory`
/// contains no key.
pub(crate) fn unit_fault(unit: Text, fault: StepFault) -> BuildFault
    ensures { result ≡ named unit fault }
{
    match fault {
        StepFault::Store(StoreFault::Place(fault)) => BuildFault::Device {
            unit,
            fault: DeviceFault::Place(fault),
        },
        StepFault::Store(StoreFault::NumbersSpent) => BuildFault::Device {
            unit,
            fault: DeviceFault::NumbersSpent,
        },
        StepFault::Store(StoreFault::OutOfMemory) => BuildFault::OutOfMemory,
        StepFault::Start(fault) => BuildFault::Child { unit, fault },
    }
}

/// Returns the fault of a call on files or variables as the build's fault. `unit` is the unit's
/// key, or else the path or the variable's name. The fault `OutOfMemory` contains no name.
pub fn device_fault(unit: Text, fault: PlaceFault) -> BuildFault
    ensures { result ≡ device_fault unit fault }
{
    match fault {
        PlaceFault::OutOfMemory => BuildFault::OutOfMemory,
        fault => BuildFault::Device {
            unit,
            fault: DeviceFault::Place(fault),
        },
    }
}
