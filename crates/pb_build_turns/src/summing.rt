//! The summary of a build's units.

ghost use Rattle.std.specs.Prelude.{◌≡◌, ◌++◌, ◌≤◌, ◌<◌, ℕ, List, length, take, IfOk, IfSome, OnOk, Some, None, slice_get};
ghost use Rattle.pb_run.specs.UnitSteps.{key_in};
ghost use Rattle.pb_build_turns.specs.Rows.{keyed, key_told, said_told, difference_in, kept_key, kept_of, fault_of, with_key, bad_told, noted_of, count_told, keys_at, differences_at, summary_by};

use pb_build_result::{BadUnit, Summary};
use pb_command_types::UnitFault;
use pb_data::{Bytes, Items, Text, TryCopy};
use pb_directive::Directives;
use pb_run_flight::State;
use pb_store::Difference;
use pb_unit::Planned;
use std::alloc::{AllocError, Global};

/// Notes the key of the unit at an index.
fn note_key(
    alloc: Global,
    keys: &mut Items<Text>,
    units: &[Planned],
    index: usize,
) -> Result<(), AllocError>
    ensures { OnOk result (keys.new ≡ keys.old ++ key_in (slice_get units.now index)) }
{
    if index >= units.len() {
        return Ok(());
    }
    keys.push(units[index].key.copy(alloc)?)?;
    Ok(())
}

/// Returns the keys of the units at these indices.
fn keys_at(alloc: Global, units: &[Planned], indices: &[usize]) -> Result<Items<Text>, AllocError>
    ensures { IfOk result (λ keys. keys ≡ keys_at units.now indices.now) }
{
    let mut keys = Items::new(alloc);
    for index in indices {
        note_key(alloc, &mut keys, units, *index)?;
    }
    Ok(keys)
}

/// Notes the directives of a run.
fn note_directives(
    alloc: Global,
    noted: &mut Items<(Text, Directives)>,
    key: &Text,
    directives: &Option<Directives>,
) -> Result<(), AllocError>
    ensures { OnOk result (noted.new ≡ noted.old ++ keyed key.now directives.now) }
{
    match directives {
        None => Ok(()),
        Some(directives) => {
            noted.push((key.copy(alloc)?, directives.copy(alloc)?))?;
            Ok(())
        }
    }
}

/// Returns the keys and the directives of the runs among the first n units.
fn noted_of(
    alloc: Global,
    units: &[Planned],
    done: &[Option<Directives>],
    count: usize,
) -> Result<Items<(Text, Directives)>, AllocError>
    requires long { length units.now ≡ length done.now }
    requires within { count ≤ length units.now }
    ensures { IfOk result (λ noted. noted ≡ noted_of (take count units.now) (take count done.now)) }
{
    let mut noted = Items::new(alloc);
    for index in 0..count {
        note_directives(alloc, &mut noted, &units[index].key, &done[index])?;
    }
    Ok(noted)
}

/// Adds the first difference of a unit, if a child was started for this unit.
fn note_reason(
    alloc: Global,
    found: &mut Items<Difference>,
    reason: &Option<Option<Difference>>,
) -> Result<(), AllocError>
    ensures { OnOk result (found.new ≡ found.old ++ difference_in (Some reason.now)) }
{
    match reason {
        Some(Some(difference)) => found.push(difference.copy(alloc)?)?,
        _ => {}
    }
    Ok(())
}

/// Adds the first difference of the unit at an index, if a child was started for this unit.
fn note_difference(
    alloc: Global,
    found: &mut Items<Difference>,
    reasons: &[Option<Option<Difference>>],
    index: usize,
) -> Result<(), AllocError>
    ensures { OnOk result (found.new ≡ found.old ++ difference_in (slice_get reasons.now index)) }
{
    if index >= reasons.len() {
        return Ok(());
    }
    note_reason(alloc, found, &reasons[index])?;
    Ok(())
}

/// Returns the first differences of the units at these indices.
fn differences_at(
    alloc: Global,
    reasons: &[Option<Option<Difference>>],
    indices: &[usize],
) -> Result<Items<Difference>, AllocError>
    ensures { IfOk result (λ found. found ≡ differences_at reasons.now indices.now) }
{
    let mut found = Items::new(alloc);
    for index in indices {
        note_difference(alloc, &mut found, reasons, *index)?;
    }
    Ok(found)
}

/// Adds the key of a unit, if the unit has begun without a difference from its record.
fn note_kept(
    alloc: Global,
    kept: &mut Items<Text>,
    key: &Text,
    reason: &Option<Option<Difference>>,
) -> Result<(), AllocError>
    ensures { OnOk result (kept.new ≡ kept.old ++ kept_key key.now reason.now) }
{
    match reason {
        Some(None) => kept.push(key.copy(alloc)?)?,
        _ => {}
    }
    Ok(())
}

/// Returns the keys of the units that have begun without a difference from their records.
fn kept_of(
    alloc: Global,
    units: &[Planned],
    reasons: &[Option<Option<Difference>>],
) -> Result<Items<Text>, AllocError>
    requires long { length units.now ≡ length reasons.now }
    ensures { IfOk result (λ kept. kept ≡ kept_of units.now reasons.now) }
{
    let mut kept = Items::new(alloc);
    for index in 0..units.len() {
        note_kept(alloc, &mut kept, &units[index].key, &reasons[index])?;
    }
    Ok(kept)
}

/// Returns the fault of a unit, if the unit has answered and is bad.
fn fault_of(state: State<BadUnit>) -> Option<BadUnit>
    ensures { result ≡ fault_of state }
{
    match state {
        State::Untouched => None,
        State::Begun => None,
        State::Answered(answer) => answer.fault,
    }
}

/// Returns a key with a fault, if there is a fault.
fn with_key(
    alloc: Global,
    key: &Text,
    fault: Option<BadUnit>,
) -> Result<Option<(Text, BadUnit)>, AllocError>
    ensures { IfOk result (λ bad. bad ≡ with_key key.now fault) }
{
    match fault {
        None => Ok(None),
        Some(fault) => Ok(Some((key.copy(alloc)?, fault))),
    }
}

/// Returns the key and the fault of the unit at an index.
fn bad_at(
    alloc: Global,
    units: &[Planned],
    states: Vec<State<BadUnit>>,
    index: usize,
) -> Result<Option<(Text, BadUnit)>, AllocError>
    requires long { length units.now ≡ length states.items }
    ensures { IfOk result (λ bad. bad ≡ bad_told units.now states.items (Some index)) }
{
    if index >= units.len() {
        return Ok(None);
    }
    let mut states = states;
    let state = states.swap_remove(index);
    with_key(alloc, &units[index].key, fault_of(state))
}

/// Returns the key and the fault of a bad unit, and what its child printed.
fn told_apart(alloc: Global, bad: Option<(Text, BadUnit)>) -> (Option<(Text, UnitFault)>, Bytes)
    ensures bad { result.0 ≡ key_told bad }
    ensures said { result.1 ≡ said_told bad }
{
    match bad {
        None => (None, Bytes::new(Vec::new(alloc))),
        Some((key, BadUnit { fault, said })) => (Some((key, fault)), said),
    }
}

/// Returns how many units, from the start of plan order, are reported. Without a bad unit, all
/// units are reported; otherwise all units up to and including the first bad unit.
fn count_told(units: usize, bad: Option<usize>) -> usize
    requires { IfSome bad (λ index. index < units) }
    ensures { result ≡ count_told units bad }
{
    match bad {
        None => units,
        Some(index) => index + 1,
    }
}

/// Returns the summary of units that have ended. `states` contains the states of the units, and
/// `done` contains the directives of their runs. `started` and `first_bad` are indices of units,
/// and `reasons` contains the differences.
///
/// Errors: only out of memory.
pub(crate) fn summary_of(
    alloc: Global,
    units: &[Planned],
    states: Vec<State<BadUnit>>,
    done: &[Option<Directives>],
    started: &[usize],
    reasons: &[Option<Option<Difference>>],
    first_bad: Option<usize>,
) -> Result<Summary, AllocError>
    requires long { length units.now ≡ length states.items }
    requires noted { length units.now ≡ length done.now }
    requires reasoned { length units.now ≡ length reasons.now }
    requires within { IfSome first_bad (λ index. index < length units.now) }
    ensures { IfOk result
        (λ summary.
        summary
        ≡ summary_by units.now states.items done.now started.now reasons.now first_bad) }
{
    let count = count_told(units.len(), first_bad);
    let differences = differences_at(alloc, reasons, started)?;
    let kept = kept_of(alloc, units, reasons)?;
    let started = keys_at(alloc, units, started)?;
    let directives = noted_of(alloc, units, done, count)?;
    let bad = match first_bad {
        None => None,
        Some(index) => bad_at(alloc, units, states, index)?,
    };
    let success = bad.is_none();
    let (bad, said) = told_apart(alloc, bad);
    Ok(Summary {
        success,
        bad,
        said,
        started,
        differences,
        kept,
        directives,
    })
}
