//! Steps on a plan by hand.

use pb_data::{Bytes, Items};
use pb_run_flight::{Answer, Flight};
use pb_tests_files::Shown;
use std::alloc::{AllocError, Global};

/// A step.
#[derive(Clone, Copy)]
enum Act {
    Begin(usize),
    Good(usize),
    Bad(usize),
}

/// The plan of a package r with a library and a script, which needs a package x as a dependency and
/// as a build dependency; x has a library and a script. In plan order: the script of x for the host
/// and for the target, its runs, its libraries, the script of r, its run, its library. Each entry
/// is what the unit needs.
static PLAN: &[&[usize]] = &[&[], &[], &[0], &[1], &[2], &[3], &[4], &[6], &[5, 7]];

/// Steps, with what may begin after each and what is handed out then. The script of r may begin
/// only once the library of x for the host is good.
static STEPS: &[(Act, &str, &str)] = &[
    (Act::Begin(0), "1 ", ""),
    (Act::Begin(1), "", ""),
    (Act::Good(1), "3 ", ""),
    (Act::Good(0), "2 3 ", "0 1 "),
    (Act::Begin(3), "2 ", ""),
    (Act::Begin(2), "", ""),
    (Act::Good(2), "4 ", "2 "),
    (Act::Good(3), "4 5 ", "3 "),
    (Act::Begin(4), "5 ", ""),
    (Act::Good(4), "5 6 ", "4 "),
    (Act::Begin(6), "5 ", ""),
    (Act::Good(6), "5 7 ", ""),
    (Act::Begin(5), "7 ", ""),
    (Act::Begin(7), "", ""),
    (Act::Good(7), "", ""),
    (Act::Good(5), "8 ", "5 6 7 "),
    (Act::Begin(8), "", ""),
    (Act::Good(8), "", "8 "),
];

/// Steps in which two units are bad. The one that is later in plan order answers first. After its
/// answer only units before it may begin, and its lines are not handed out.
static BAD_STEPS: &[(Act, &str, &str)] = &[
    (Act::Begin(1), "0 ", ""),
    (Act::Good(1), "0 3 ", ""),
    (Act::Begin(3), "0 ", ""),
    (Act::Bad(3), "0 ", ""),
    (Act::Begin(0), "", ""),
    (Act::Good(0), "2 ", "0 1 "),
    (Act::Begin(2), "", ""),
    (Act::Bad(2), "", "2 "),
];

/// Returns what units need.
fn needs_of(alloc: Global, plan: &[&[usize]]) -> Result<Items<Items<usize>>, AllocError> {
    let mut needs = Items::new(alloc);
    for unit in plan {
        needs.push(Items::from_vec(unit.to_vec(alloc)?))?;
    }
    Ok(needs)
}

/// Returns the answer of a unit whose line is its number.
fn answer_of(alloc: Global, unit: usize, is_bad: bool) -> Result<Answer<u8>, AllocError> {
    let line = format!(in alloc; "{unit} ")?;
    Ok(Answer {
        fault: if is_bad { Some(7) } else { None },
        lines: Bytes::from_slice(alloc, line.as_bytes())?,
    })
}

/// Answers a unit, if it is in flight.
fn answer(
    alloc: Global,
    flight: &mut Flight<u8>,
    unit: usize,
    is_bad: bool,
) -> Result<bool, AllocError> {
    if !flight.is_flying(unit) {
        return Ok(false);
    }
    flight.answer(unit, answer_of(alloc, unit, is_bad)?);
    Ok(true)
}

/// Begins a unit, if it is ready.
pub fn begin(alloc: Global, flight: &mut Flight<u8>, unit: usize) -> Result<bool, AllocError> {
    let ready = flight.ready(alloc)?;
    if !ready.as_slice().contains(&unit) {
        return Ok(false);
    }
    flight.begin(unit);
    Ok(true)
}

/// Takes a step, if it may be taken.
fn take_step(alloc: Global, flight: &mut Flight<u8>, act: Act) -> Result<bool, AllocError> {
    match act {
        Act::Begin(unit) => begin(alloc, flight, unit),
        Act::Good(unit) => answer(alloc, flight, unit, false),
        Act::Bad(unit) => answer(alloc, flight, unit, true),
    }
}

/// Returns whether these are ready, with a space after each.
fn has_ready(alloc: Global, flight: &Flight<u8>, wanted: &str) -> Result<bool, AllocError> {
    let ready = flight.ready(alloc)?;
    let mut shown = Shown::new(alloc);
    for number in ready.as_slice() {
        shown.put_number(*number as u64);
        shown.put(&[" "]);
    }
    Ok(shown.says(wanted))
}

/// Returns whether these lines are handed out.
fn hands_out(alloc: Global, flight: &mut Flight<u8>, wanted: &str) -> Result<bool, AllocError> {
    let bytes = flight.emit(alloc)?;
    Ok(bytes.as_slice() == wanted.as_bytes())
}

/// Returns how many steps went as they should, up to the first that did not.
fn follow(
    alloc: Global,
    flight: &mut Flight<u8>,
    steps: &[(Act, &str, &str)],
) -> Result<usize, AllocError> {
    for (count, step) in steps.iter().enumerate() {
        let (one, ready, lines) = *step;
        let went = take_step(alloc, flight, one)?;
        if !went || !has_ready(alloc, flight, ready)? || !hands_out(alloc, flight, lines)? {
            return Ok(count);
        }
    }
    Ok(steps.len())
}

/// Returns how many steps on the plan went as they should. Returns none if the plan does not end
/// with this bad unit.
fn steps_made(
    alloc: Global,
    steps: &[(Act, &str, &str)],
    bad: Option<usize>,
) -> Result<usize, AllocError> {
    let mut flight = Flight::new(alloc, needs_of(alloc, PLAN)?)?;
    let count = follow(alloc, &mut flight, steps);
    let ends = flight.is_finished() && flight.first_bad() == bad;
    let stands = flight.states().len() == flight.into_states().len();
    Ok(if ends && stands { count? } else { 0 })
}

/// Rules: `next.begin`, `next.reported`.
#[test]
fn ready_follows_needs_and_the_first_bad_unit_is_told(rt: HostRuntime) {
    assert!(rt; steps_made(rt.alloc(), STEPS, None) == Ok(18));
    assert!(rt; steps_made(rt.alloc(), BAD_STEPS, Some(2)) == Ok(8));
}
