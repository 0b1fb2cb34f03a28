//! Random lawful steps on random plans, compared with the plain version.

use crate::dice::Dice;
use crate::flight::plain::{Standing, Unit, due, first_bad, is_finished, ready, units_in_flight};
use crate::flight::steps::begin;
use pb_data::{Bytes, Items};
use pb_run_flight::{Answer, Flight};
use std::alloc::{AllocError, Global};
use std::test::Fail;

/// Returns up to three units before a unit, at random. The same unit may occur twice.
fn some_needs(alloc: Global, dice: &mut Dice, unit: usize) -> Result<Items<usize>, AllocError> {
    let mut needs = Items::new(alloc);
    for _ in 0..dice.below(4) {
        if unit > 0 {
            needs.push(dice.below(unit))?;
        }
    }
    Ok(needs)
}

/// Returns a random plan.
fn some_units(alloc: Global, dice: &mut Dice) -> Result<Vec<Unit>, Fail> {
    let mut units = Vec::new(alloc);
    let count = dice.below(12);
    for unit in 0..count {
        units.push(Unit {
            needs: some_needs(alloc, dice, unit)?,
            standing: Standing::Untouched,
            lines: Bytes::from_slice(alloc, b"")?,
        })?;
    }
    Ok(units)
}

/// Returns a flight of these units.
fn flight_of(alloc: Global, units: &[Unit]) -> Result<Flight<u8>, Fail> {
    let mut needs = Items::new(alloc);
    for unit in units {
        needs.push(Items::from_vec(unit.needs.as_slice().to_vec(alloc)?))?;
    }
    Ok(Flight::new(alloc, needs)?)
}

/// Begins one of the units that may.
fn begin_one(
    alloc: Global,
    dice: &mut Dice,
    flight: &mut Flight<u8>,
    units: &mut Vec<Unit>,
) -> Result<bool, Fail> {
    let open = ready(alloc, units.as_slice())?;
    let one = match open.get(dice.below(open.len())) {
        Some(one) => *one,
        None => return Ok(true),
    };
    if let Some(unit) = units.get_mut(one) {
        unit.standing = Standing::Flying;
    }
    Ok(begin(alloc, flight, one)?)
}

/// Answers a unit with this line. Returns whether it was in flight.
fn answer(
    alloc: Global,
    flight: &mut Flight<u8>,
    unit: usize,
    is_bad: bool,
    line: &str,
) -> Result<bool, AllocError> {
    if !flight.is_flying(unit) {
        return Ok(false);
    }
    let fault = if is_bad { Some(1) } else { None };
    let lines = Bytes::from_slice(alloc, line.as_bytes())?;
    flight.answer(unit, Answer { fault, lines });
    Ok(true)
}

/// Notes the same in the plain version.
fn note(
    alloc: Global,
    units: &mut Vec<Unit>,
    index: usize,
    is_bad: bool,
    line: &str,
) -> Result<(), AllocError> {
    if let Some(unit) = units.get_mut(index) {
        unit.standing = if is_bad {
            Standing::Bad
        } else {
            Standing::Good
        };
        unit.lines = Bytes::from_slice(alloc, line.as_bytes())?;
    }
    Ok(())
}

/// Answers one of the units in flight, one in five times badly.
fn answer_one(
    alloc: Global,
    dice: &mut Dice,
    flight: &mut Flight<u8>,
    units: &mut Vec<Unit>,
) -> Result<bool, Fail> {
    let open = units_in_flight(alloc, units.as_slice())?;
    let one = match open.get(dice.below(open.len())) {
        Some(one) => *one,
        None => return Ok(true),
    };
    let is_bad = dice.below(5) == 0;
    let line = format!(in alloc; "{one} says {}\n", dice.below(1000))?;
    note(alloc, units, one, is_bad, line.as_str())?;
    Ok(answer(alloc, flight, one, is_bad, line.as_str())?)
}

/// Returns whether the flight agrees with the plain version.
fn agrees(alloc: Global, flight: &Flight<u8>, units: &[Unit]) -> Result<bool, Fail> {
    let found = flight.ready(alloc)?;
    Ok(
        found.as_slice() == ready(alloc, units)?.as_slice()
            && flight.first_bad() == first_bad(units)
            && flight.is_finished() == is_finished(units),
    )
}

/// Hands out lines. Returns whether all lines that were ever handed out are the lines that are due.
fn emits_due(
    alloc: Global,
    flight: &mut Flight<u8>,
    units: &[Unit],
    all: &mut Vec<u8>,
) -> Result<bool, Fail> {
    let bytes = flight.emit(alloc)?;
    all.extend_from_slice(bytes.as_slice())?;
    Ok(all.as_slice() == due(alloc, units)?.as_slice())
}

/// Takes one random step. Returns whether it went as it should.
fn step(
    alloc: Global,
    dice: &mut Dice,
    flight: &mut Flight<u8>,
    units: &mut Vec<Unit>,
    all: &mut Vec<u8>,
) -> Result<bool, Fail> {
    let which = dice.below(3);
    if which == 0 {
        return begin_one(alloc, dice, flight, units);
    }
    if which == 1 {
        return answer_one(alloc, dice, flight, units);
    }
    emits_due(alloc, flight, units.as_slice(), all)
}

/// Takes random steps. Returns whether the two versions agree after each step.
fn fly(
    alloc: Global,
    dice: &mut Dice,
    flight: &mut Flight<u8>,
    units: &mut Vec<Unit>,
) -> Result<bool, Fail> {
    let mut all = Vec::new(alloc);
    for _ in 0..60 {
        let went = step(alloc, dice, flight, units, &mut all)?;
        if !went || !agrees(alloc, flight, units.as_slice())? {
            return Ok(false);
        }
    }
    emits_due(alloc, flight, units.as_slice(), &mut all)
}

/// Takes random steps on a random plan. Returns whether all went as they should.
fn round(alloc: Global, dice: &mut Dice) -> Result<bool, Fail> {
    let mut units = some_units(alloc, dice)?;
    let mut flight = flight_of(alloc, units.as_slice())?;
    let went = fly(alloc, dice, &mut flight, &mut units);
    drop(flight);
    drop(units);
    went
}

/// Rules: `next.begin`, `next.reported`.
#[test]
fn random_steps_agree(rt: HostRuntime) -> Result<(), Fail> {
    let mut dice = Dice { state: 1 };
    for count in 0..400 {
        assert!(rt; round(rt.alloc(), &mut dice)?, "round {count}");
    }
    Ok(())
}
