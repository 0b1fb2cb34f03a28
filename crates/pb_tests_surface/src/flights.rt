//! A flight: which units may begin, and whose lines are due.

use pb_data::{Bytes, Items};
use pb_run::{Answer, Flight};
use std::alloc::{AllocError, Global};
use std::test::Fail;

/// For each of three units, the indices of the units that it needs.
static NEEDS: &[&[usize]] = &[&[], &[0], &[]];

/// Units, and which lines are due after each. A unit that may not begin is passed over.
static STEPS: &[(usize, &str)] = &[(1, ""), (2, ""), (0, "0 "), (1, "1 2 ")];

/// Returns a flight of the units.
fn flight(alloc: Global) -> Result<Flight<u8>, AllocError> {
    let mut needs = Items::new(alloc);
    for unit in NEEDS {
        needs.push(Items::from_vec(unit.to_vec(alloc)?))?;
    }
    Flight::new(alloc, needs)
}

/// Returns the answer of a good unit whose line is its index.
fn answer_of(alloc: Global, unit: usize) -> Result<Answer<u8>, AllocError> {
    let line = format!(in alloc; "{unit} ")?;
    let lines = Bytes::from_slice(alloc, line.as_bytes())?;
    Ok(Answer { fault: None, lines })
}

/// Begins a unit, if it may begin.
fn begin(alloc: Global, flight: &mut Flight<u8>, unit: usize) -> Result<(), AllocError> {
    let ready = flight.ready(alloc)?;
    if ready.as_slice().contains(&unit) {
        flight.begin(unit);
    }
    Ok(())
}

/// Begins a unit, if it may begin, and answers it. Returns the lines that are due then.
fn run(alloc: Global, flight: &mut Flight<u8>, unit: usize) -> Result<Vec<u8>, AllocError> {
    begin(alloc, flight, unit)?;
    if flight.is_flying(unit) {
        let answer = answer_of(alloc, unit)?;
        flight.answer(unit, answer);
    }
    flight.emit(alloc)
}

/// Rules: `next.begin`, `next.reported`.
#[test]
fn a_flight_hands_out_lines_in_order(rt: HostRuntime) -> Result<(), Fail> {
    let mut flight = flight(rt.alloc())?;
    for (unit, due) in STEPS {
        let lines = run(rt.alloc(), &mut flight, *unit)?;
        assert!(rt; lines.as_slice() == due.as_bytes(), "{unit}");
    }
    assert!(rt; flight.is_finished());
    Ok(())
}
