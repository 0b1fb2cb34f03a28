//! What a build would do with a unit.

use pb_store::Difference;

/// What a build would do with a unit, as far as the present records say.
#[derive(Drop)]
pub enum Fate {
    /// The unit's child would be started. The field is the first difference from the unit's record.
    Starts(Difference),
    /// Nothing differs from the unit's record, and what the record replays is good.
    Kept,
    /// Nothing differs from the unit's record, and what the record replays is bad.
    Bad,
    /// The unit reaches the unit at this index. A build would first start the child of that unit,
    /// and could compare this unit only then.
    Waits(usize),
    /// The unit reaches the unit at this index, and that unit would be bad.
    Unreached(usize),
}
