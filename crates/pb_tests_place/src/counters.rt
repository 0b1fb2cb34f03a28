//! How the calls of a place are counted, by worked cases.

ghost use Rattle.std.specs.Prelude.{◌≡◌, ◌==◌, [], Some, if◌then◌else◌};
ghost use Rattle.pb_place_types.specs.declared.call.Call.TheVariants as call;
ghost use Rattle.pb_place_types.specs.Counts.{up, counted, counted_start};
ghost use Rattle.pb_tests_place.specs.Counting.{counts_of};

use pb_place_types::{Failure, PlaceFault, StartFault};

/// The counters of a place, and its last fault.
#[derive(Clone, Copy, PartialEq, Eq)]
struct Counters {
    calls: u64,
    failures: u64,
    starts: u64,
    late: u64,
    last: Option<Failure>,
}

/// Returns the counters after a call that did not fail.
fn past_call(before: Counters) -> Counters
    ensures calls { result.calls ≡ up before.calls }
    ensures failures { result.failures ≡ before.failures }
    ensures starts { result.starts ≡ before.starts }
    ensures late { result.late ≡ (if before.failures == 0 then 0 else up before.late) }
    ensures last { result.last ≡ before.last }
{
    let late = if before.failures == 0 {
        0
    } else {
        before.late.saturating_add(1)
    };
    Counters {
        calls: before.calls.saturating_add(1),
        late,
        ..before
    }
}

/// Returns the counters after a call that failed.
fn past_fault(failure: Failure, before: Counters) -> Counters
    ensures calls { result.calls ≡ up before.calls }
    ensures failures { result.failures ≡ up before.failures }
    ensures starts { result.starts ≡ before.starts }
    ensures late { result.late ≡ 0 }
    ensures last { result.last ≡ Some failure }
{
    Counters {
        calls: before.calls.saturating_add(1),
        failures: before.failures.saturating_add(1),
        late: 0,
        last: Some(failure),
        ..before
    }
}

/// Returns the counters after a call on files or variables.
fn after_call(answer: Result<(), PlaceFault>, before: Counters) -> Counters
    ensures calls { result.calls ≡ (counted (call.Read []) answer
        (counts_of before.calls before.failures before.starts before.late before.last)).calls }
    ensures failures { result.failures ≡ (counted (call.Read []) answer
        (counts_of before.calls before.failures before.starts before.late before.last)).failures }
    ensures starts { result.starts ≡ (counted (call.Read []) answer
        (counts_of before.calls before.failures before.starts before.late before.last)).starts.count }
    ensures late { result.late ≡ (counted (call.Read []) answer
        (counts_of before.calls before.failures before.starts before.late before.last)).late }
    ensures last { result.last ≡ (counted (call.Read []) answer
        (counts_of before.calls before.failures before.starts before.late before.last)).last }
{
    match answer {
        Ok(()) => past_call(before),
        Err(PlaceFault::OutOfMemory) => past_call(before),
        Err(fault) => past_fault(Failure::Called(fault), before),
    }
}

/// Returns the counters after a start.
fn after_start(answer: Result<(), StartFault>, before: Counters) -> Counters
    ensures calls { result.calls ≡ (counted_start answer
        (counts_of before.calls before.failures before.starts before.late before.last)).calls }
    ensures failures { result.failures ≡ (counted_start answer
        (counts_of before.calls before.failures before.starts before.late before.last)).failures }
    ensures starts { result.starts ≡ (counted_start answer
        (counts_of before.calls before.failures before.starts before.late before.last)).starts.count }
    ensures late { result.late ≡ (counted_start answer
        (counts_of before.calls before.failures before.starts before.late before.last)).late }
    ensures last { result.last ≡ (counted_start answer
        (counts_of before.calls before.failures before.starts before.late before.last)).last }
{
    let begun = Counters {
        starts: before.starts.saturating_add(1),
        ..before
    };
    match answer {
        Ok(()) => past_call(begun),
        Err(StartFault::OutOfMemory) => past_call(begun),
        Err(fault) => past_fault(Failure::Started(fault), begun),
    }
}

/// Returns the counters with these numbers.
fn of_numbers(calls: u64, failures: u64, starts: u64, late: u64) -> Counters {
    Counters {
        calls,
        failures,
        starts,
        late,
        last: None,
    }
}

/// Returns these counters with this fault as the last one.
fn after_fault(failure: Failure, counters: Counters) -> Counters {
    Counters {
        last: Some(failure),
        ..counters
    }
}

/// The late calls and the failures before a call, and the late calls after it.
static LATE: &[(u64, u64, u64)] = &[(0, 0, 0), (0, 1, 1), (4, 2, 5), (u64::MAX, 1, u64::MAX)];

/// Returns whether calls and starts that do not fail, or that run out of memory, lead to these
/// counters.
fn pass(late: u64, failures: u64, want: u64) -> bool {
    let before = of_numbers(7, failures, 3, late);
    let after = of_numbers(8, failures, 3, want);
    let begun = of_numbers(8, failures, 4, want);
    after_call(Ok(()), before) == after
        && after_call(Err(PlaceFault::OutOfMemory), before) == after
        && after_start(Ok(()), before) == begun
        && after_start(Err(StartFault::OutOfMemory), before) == begun
}

/// Faults of calls.
static CALLED: &[PlaceFault] = &[
    PlaceFault::Read,
    PlaceFault::List,
    PlaceFault::Write,
    PlaceFault::Remove,
    PlaceFault::Variable,
];

/// Returns whether a call that fails with this fault is counted.
fn is_counted(fault: PlaceFault) -> bool {
    after_call(Err(fault), of_numbers(7, 1, 3, 9))
        == after_fault(Failure::Called(fault), of_numbers(8, 2, 3, 0))
}

/// Faults of starts.
static STARTED: &[StartFault] = &[
    StartFault::CannotStart,
    StartFault::Died,
    StartFault::Capture,
];

/// Returns whether a start that fails with this fault is counted.
fn start_is_counted(fault: StartFault) -> bool {
    after_start(Err(fault), of_numbers(0, 0, 3, 0))
        == after_fault(Failure::Started(fault), of_numbers(1, 1, 4, 0))
}

/// Returns whether counters at their maximum stay there after a call and a start that fail.
fn full_stay() -> bool {
    let full = of_numbers(u64::MAX, u64::MAX, u64::MAX, 9);
    let failed = of_numbers(u64::MAX, u64::MAX, u64::MAX, 0);
    let read = Failure::Called(PlaceFault::Read);
    let died = Failure::Started(StartFault::Died);
    after_call(Err(PlaceFault::Read), full) == after_fault(read, failed)
        && after_start(Err(StartFault::Died), full) == after_fault(died, failed)
}

/// Returns whether the last fault stays after a call that passes, and after a call that runs out of
/// memory.
fn last_stays() -> bool {
    let read = Failure::Called(PlaceFault::Read);
    let before = after_fault(read, of_numbers(4, 1, 0, 0));
    let after = after_fault(read, of_numbers(5, 1, 0, 1));
    after_call(Ok(()), before) == after && after_call(Err(PlaceFault::OutOfMemory), before) == after
}

/// Rules: `places.counters`.
#[test]
fn calls_are_counted(rt: HostRuntime) {
    for case in LATE {
        let (late, failures, want) = *case;
        assert!(rt; pass(late, failures, want), "{late} {failures}");
    }
    for fault in CALLED {
        assert!(rt; is_counted(*fault), "{fault:?}");
    }
    for fault in STARTED {
        assert!(rt; start_is_counted(*fault), "{fault:?}");
    }
    assert!(rt; full_stay() && last_stays());
}
