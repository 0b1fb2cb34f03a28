//! Laws of a build's units. Each function does nothing; its contract is the law.

ghost use Rattle.pb_build_turns.specs.Ends.{SaysFirstRows, StartsNothing, LeavesRecords, StartsNoneAgain};

use pb_run_flight::Turn;

/// Suppose that the outcome of each answered unit is the unit's outcome in a clean build. Then the
/// lines that are due are the lines of a clean build's first rows. After all units up to and
/// including the first bad unit have answered, all lines of all rows are due. The order in which
/// units begin and answer does not matter, nor who decides this order.
pub fn answers_say_rows()
    ensures { SaysFirstRows }
{}

/// If each unit has its record before any unit begins, and nothing differs from the record, no
/// child is started. The order in which the units begin and answer does not matter.
pub fn nothing_differs_again()
    ensures { StartsNothing }
{}

/// If a build over true records succeeds, each unit has its record afterwards, and nothing differs
/// from the record.
pub fn success_leaves_records<T: Turn>()
    ensures { LeavesRecords T.turns }
{}

/// Take a run of units that ended without a fault. If each unit had its record before this run, and
/// nothing differed, no child was started, and no unit is reported as started. By the law above,
/// the repetition of a successful build is such a run.
pub fn same_build_starts_none<T: Turn>()
    ensures { StartsNoneAgain T.turns }
{}
