//! A unit that is bad.

use pb_command_types::UnitFault;
use pb_data::Bytes;

/// A unit that is bad.
#[derive(Debug, Drop)]
pub struct BadUnit {
    /// Why it is bad.
    pub fault: UnitFault,
    /// The output of the unit's child, except what message lines contain.
    pub said: Bytes,
}
