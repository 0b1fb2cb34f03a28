//! For each unit, the units that need it, and how many of its own needs are met.

ghost use Rattle.std.specs.Prelude.{◌≡◌, ◌<◌, ◌≤◌, ◌+◌, ℕ, List, [], IfOk, OnOk, Contains, length, map, slice_index, slice_set};
ghost use Rattle.pb_run_flight.specs.Table.{is_good_at};
ghost use Rattle.pb_run_flight.specs.Working.{AreKnown, AreListed, IsFar, count_met, units_at};

use crate::flight::{State, is_good_at};
use pb_data::Items;
use std::alloc::{AllocError, Global};

/// Adds `unit` to the list of `need`, a unit that `unit` needs.
fn list_at(lists: &mut Vec<Items<usize>>, need: usize, unit: usize) -> Result<(), AllocError>
    ensures long { length lists.new.items ≡ length lists.old.items }
    ensures listed { OnOk result (need < length lists.old.items
        → Contains (units_at lists.new.items need) unit) }
    ensures kept { (u v : ℕ) → Contains (units_at lists.old.items v) u
        → Contains (units_at lists.new.items v) u }
{
    if need >= lists.len() {
        return Ok(());
    }
    lists[need].push(unit)?;
    Ok(())
}

/// Adds `unit` to the lists of the units that `unit` needs.
fn list_unit(lists: &mut Vec<Items<usize>>, unit: usize, needs: &[usize]) -> Result<(), AllocError>
    ensures long { length lists.new.items ≡ length lists.old.items }
    ensures listed { OnOk result
        ((v : ℕ) → Contains needs.now v → v < length lists.old.items
        → Contains (units_at lists.new.items v) unit) }
    ensures kept { (u v : ℕ) → Contains (units_at lists.old.items v) u
        → Contains (units_at lists.new.items v) u }
{
    for need in needs {
        list_at(lists, *need, unit)?;
    }
    Ok(())
}

/// Returns an empty list for each unit.
fn no_lists(alloc: Global, needs: &[Items<usize>]) -> Result<Vec<Items<usize>>, AllocError>
    ensures { IfOk result (λ lists. length lists.items ≡ length needs.now) }
{
    let mut lists = Vec::new(alloc);
    for _ in needs {
        lists.push(Items::new(alloc))?;
    }
    Ok(lists)
}

/// Returns a list for each unit: the units that need this unit.
pub fn needed_by(alloc: Global, needs: &[Items<usize>]) -> Result<Vec<Items<usize>>, AllocError>
    ensures long { IfOk result (λ lists. length lists.items ≡ length needs.now) }
    ensures listed { IfOk result (λ lists. AreListed needs.now (length needs.now) lists.items) }
{
    let mut lists = no_lists(alloc, needs)?;
    for (unit, wanted) in needs.iter().enumerate() {
        list_unit(&mut lists, unit, wanted.as_slice())?;
    }
    Ok(lists)
}

/// Returns a count of 0 for each unit: no need is met.
pub fn none_met(alloc: Global, needs: &[Items<usize>]) -> Result<Vec<usize>, AllocError>
    ensures { IfOk result (λ met. met.items ≡ map (λ _. 0) needs.now) }
{
    let mut met = Vec::new(alloc);
    for _ in needs {
        met.push(0)?;
    }
    Ok(met)
}

/// Returns how many of these needs are met before the first one that is not. The first `from` needs
/// are known to be met.
fn met_from<F>(states: &[State<F>], needs: &[usize], from: usize) -> usize
    requires { from ≤ count_met states.now needs.now }
    ensures { result ≡ count_met states.now needs.now }
{
    let mut met = from;
    while met < needs.len() && is_good_at(states, needs[met]) {
        met += 1;
    }
    met
}

/// Returns the index after the last unit that needs nothing.
pub fn reach_of(needs: &[Items<usize>]) -> usize
    ensures { (met : List ℕ) → met ≡ map (λ _. 0) needs.now → IsFar needs.now met result }
{
    let mut reach = 0;
    for (unit, wanted) in needs.iter().enumerate() {
        if wanted.is_empty() {
            reach = unit + 1;
        }
    }
    reach
}

/// Counts how many needs of a unit are met, starting from the known count. Returns the new `reach`:
/// at this index and after it, no unit has all its needs met.
fn move_one<F>(
    needs: &[Items<usize>],
    states: &[State<F>],
    unit: usize,
    met: &mut Vec<usize>,
    reach: usize,
) -> usize
    requires long { length met.old.items ≡ length needs.now }
    requires low { slice_index met.old.items unit ≤ count_met states.now (units_at needs.now unit) }
    ensures met { met.new.items
        ≡ slice_set met.old.items unit (count_met states.now (units_at needs.now unit)) }
    ensures far { IsFar needs.now met.old.items reach → IsFar needs.now met.new.items result }
{
    if unit >= needs.len() {
        return reach;
    }
    let wanted = needs[unit].as_slice();
    let count = met_from(states, wanted, met[unit]);
    met[unit] = count;
    if count == wanted.len() {
        return reach.max(unit + 1);
    }
    reach
}

/// Counts how many needs of each of these units are met, starting from the known counts. `from` is
/// the old `reach`. Returns the new `reach`: at this index and after it, no unit has all its needs
/// met.
pub fn move_on<F>(
    needs: &[Items<usize>],
    states: &[State<F>],
    units: &[usize],
    met: &mut Vec<usize>,
    from: usize,
) -> usize
    requires long { length met.old.items ≡ length needs.now }
    requires known { AreKnown needs.now states.now units.now met.old.items }
    requires far { IsFar needs.now met.old.items from }
    ensures met { met.new.items ≡ map (count_met states.now) needs.now }
    ensures far { IsFar needs.now met.new.items result }
{
    let mut reach = from;
    for unit in units {
        reach = move_one(needs, states, *unit, met, reach);
    }
    reach
}
