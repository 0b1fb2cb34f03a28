//! A plain version of a flight, which goes through all units each time.

use pb_data::{Bytes, Items};
use std::alloc::{AllocError, Global};
use std::test::Fail;

/// The state of a unit.
#[derive(Clone, Copy, PartialEq, Eq)]
pub enum Standing {
    Untouched,
    Flying,
    Good,
    Bad,
}

/// A unit: what it needs, its state, and its lines.
#[derive(Drop)]
pub struct Unit {
    pub needs: Items<usize>,
    pub standing: Standing,
    pub lines: Bytes,
}

/// Returns the state of the unit at an index.
pub fn standing_at(units: &[Unit], index: usize) -> Standing {
    match units.get(index) {
        Some(unit) => unit.standing,
        None => Standing::Untouched,
    }
}

/// Returns whether a unit has not begun and all that it needs is good.
fn is_open(units: &[Unit], unit: &Unit) -> bool {
    unit.standing == Standing::Untouched
        && unit
            .needs
            .as_slice()
            .iter()
            .all(|need| standing_at(units, *need) == Standing::Good)
}

/// Returns the units that may begin.
pub fn ready(alloc: Global, units: &[Unit]) -> Result<Vec<usize>, Fail> {
    let mut found = Vec::new(alloc);
    for (index, unit) in units.iter().enumerate() {
        if unit.standing == Standing::Bad {
            break;
        }
        if is_open(units, unit) {
            found.push(index)?;
        }
    }
    Ok(found)
}

/// Returns the units in flight, in plan order.
pub fn units_in_flight(alloc: Global, units: &[Unit]) -> Result<Vec<usize>, Fail> {
    let mut found = Vec::new(alloc);
    for (index, unit) in units.iter().enumerate() {
        if unit.standing == Standing::Flying {
            found.push(index)?;
        }
    }
    Ok(found)
}

/// Returns the lines that are due.
pub fn due(alloc: Global, units: &[Unit]) -> Result<Vec<u8>, AllocError> {
    let mut lines = Vec::new(alloc);
    for unit in units {
        if unit.standing != Standing::Good && unit.standing != Standing::Bad {
            break;
        }
        lines.extend_from_slice(unit.lines.as_slice())?;
        if unit.standing == Standing::Bad {
            break;
        }
    }
    Ok(lines)
}

/// Returns the index of the bad unit that is reported.
pub fn first_bad(units: &[Unit]) -> Option<usize> {
    let mut told = None;
    for (index, unit) in units.iter().enumerate() {
        if unit.standing == Standing::Bad {
            told = Some(index);
        }
        if unit.standing != Standing::Good {
            break;
        }
    }
    told
}

/// Returns whether all units are good, or the first unit that is not good is bad.
pub fn is_finished(units: &[Unit]) -> bool {
    units.iter().all(|unit| unit.standing == Standing::Good) || first_bad(units).is_some()
}
