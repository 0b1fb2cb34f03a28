//! Turns, picks and jobs; and each law called once.

use pb_run_flight::{First, Jobs, Last, Pick, Step, Turn, laws};

/// Returns whether the first and the last of three are picked.
fn pick_ends() -> bool {
    let ready: &[usize] = &[4, 6, 9];
    First {}.pick(ready) == 0 && Last {}.pick(ready) == 2
}

/// Returns whether a step is this one.
fn is_step(step: Step, begins: bool, wanted: usize) -> bool {
    match step {
        Step::Begin(index) => begins && index == wanted,
        Step::Answer(index) => !begins && index == wanted,
    }
}

/// Returns whether a turn makes the expected steps with two jobs and a pick of the last unit.
fn two_jobs() -> bool {
    let ready: &[usize] = &[4, 6];
    let mut two = Jobs {
        pick: Last {},
        jobs: 2,
    };
    is_step(two.turn(ready, &[]), true, 1)
        && is_step(two.turn(ready, &[1]), true, 1)
        && is_step(two.turn(ready, &[1, 0]), false, 0)
        && is_step(two.turn(&[], &[1]), false, 0)
}

/// Returns whether no job is one.
fn no_job() -> bool {
    let ready: &[usize] = &[4, 6];
    let mut none = Jobs {
        pick: First {},
        jobs: 0,
    };
    is_step(none.turn(ready, &[]), true, 0) && is_step(none.turn(ready, &[1]), false, 0)
}

/// Calls each law once.
fn laws_hold() {
    laws::ready_is_exact::<u8>();
    laws::reached_is_good::<u8>();
    laws::hands_out_all_due::<u8>();
    laws::due_is_start::<u8>();
    laws::finished_is_all::<u8>();
    laws::flying_is_begun::<u8>();
    laws::something_is_left::<u8>();
    laws::steps_are_lawful::<u8, Jobs<First>>();
    laws::started_differs::<u8, Jobs<First>>();
    laws::jobs_bound_flying::<u8, First>();
    laws::one_job_is_one_by_one::<u8, First>();
}

/// Rules: `next.jobs`.
#[test]
fn picks_and_jobs(rt: HostRuntime) {
    assert!(rt; pick_ends());
    assert!(rt; two_jobs() && no_job());
    laws_hold();
}
