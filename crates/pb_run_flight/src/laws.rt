//! Laws of flights. Each function does nothing; its contract is the law.

ghost use Rattle.pb_run_flight.specs.Laws.{ReadyIsExact, ReachedIsGood, HandsOutAllDue, DueIsStart, FinishedIsAll, FlyingIsBegun, SomethingIsLeft, StepsAreLawful, StartedDiffers, JobsBoundFlying, OneJobIsOneByOne};

use crate::turn::{Pick, Turn};

/// The ready units are exactly the units that may begin. Each unit occurs once, in plan order.
pub fn ready_is_exact<F>()
    ensures { ReadyIsExact F }
{}

/// After lawful events, a unit that may begin or has begun reaches only units that have answered
/// and are good. So the unit reads nothing that a unit in flight writes.
pub fn reached_is_good<F>()
    ensures { ReachedIsGood F }
{}

/// After each call that hands out lines, all due lines have been handed out. The lines of a unit
/// are due if the unit and all earlier units in plan order have answered, and no earlier unit is
/// bad.
pub fn hands_out_all_due<F>()
    ensures { HandsOutAllDue F }
{}

/// The lines that are due now are a prefix of the lines that are due at the end.
pub fn due_is_start<F>()
    ensures { DueIsStart F }
{}

/// Once all units up to and including the first bad unit have answered, no further lines will be
/// due at the end. The first bad unit of that moment is still the first bad unit at the end.
pub fn finished_is_all<F>()
    ensures { FinishedIsAll F }
{}

/// After lawful events, the units in flight are exactly the units that have begun and not answered.
/// Each occurs once.
pub fn flying_is_begun<F>()
    ensures { FlyingIsBegun F }
{}

/// If a flight is not finished after lawful events, a unit may begin or a unit is in flight.
pub fn something_is_left<F>()
    ensures { SomethingIsLeft F }
{}

/// The events of steps are lawful, whoever decides the steps.
pub fn steps_are_lawful<F, T: Turn>()
    ensures { StepsAreLawful F T.turns }
{}

/// Suppose that a unit has a child if and only if the unit differs. Then the started units are
/// exactly the units that have begun and differ.
pub fn started_differs<F, T: Turn>()
    ensures { StartedDiffers F T.turns }
{}

/// At no point are more units in flight than there are jobs.
pub fn jobs_bound_flying<F, P: Pick>()
    ensures { JobsBoundFlying F P.picks }
{}

/// With one job, each unit answers right after it has begun.
pub fn one_job_is_one_by_one<F, P: Pick>()
    ensures { OneJobIsOneByOne F P.picks }
{}
