//! A plan as JSON.

ghost use Rattle.std.specs.Prelude.{◌≡◌, ◌++◌, IfOk, OnOk, string_bytes};
ghost use Rattle.pb_json.specs.Json.{json_string};
ghost use Rattle.pb_tool_plan.specs.Texts.{strings_rest, strings, unit_object, objects_rest, objects, plan_json};

use crate::keys::key_at;
use pb_json::json_string;
use pb_unit::{Plan, Planned};
use std::alloc::{AllocError, Global};

/// Adds a text as a JSON string.
fn push_string(alloc: Global, text: &mut String, value: &str) -> Result<(), AllocError>
    ensures { OnOk result
        (string_bytes text.new ≡ string_bytes text.old ++ json_string value.now) }
{
    let json = json_string(alloc, value)?;
    text.push_str(json.as_str())?;
    Ok(())
}

/// Adds the keys of the units at some indices, each with a comma before it.
fn push_rest(
    alloc: Global,
    text: &mut String,
    units: &[Planned],
    needs: &[usize],
) -> Result<(), AllocError>
    ensures { OnOk result
        (string_bytes text.new ≡ string_bytes text.old ++ strings_rest units.now needs.now) }
{
    for need in needs {
        text.push_str(",")?;
        push_string(alloc, text, key_at(units, *need))?;
    }
    Ok(())
}

/// Adds the keys of the units at some indices, with commas between them.
fn push_strings(
    alloc: Global,
    text: &mut String,
    units: &[Planned],
    needs: &[usize],
) -> Result<(), AllocError>
    ensures { OnOk result
        (string_bytes text.new ≡ string_bytes text.old ++ strings units.now needs.now) }
{
    match needs {
        [] => Ok(()),
        [first, rest @ ..] => {
            push_string(alloc, text, key_at(units, *first))?;
            push_rest(alloc, text, units, rest)
        }
    }
}

/// Adds the object of a unit.
fn push_object(
    alloc: Global,
    text: &mut String,
    units: &[Planned],
    unit: &Planned,
) -> Result<(), AllocError>
    ensures { OnOk result
        (string_bytes text.new ≡ string_bytes text.old ++ unit_object units.now unit.now) }
{
    let level = unit.level;
    let level = format!(in alloc; "{level}")?;
    text.push_str("{\"unit\":")?;
    push_string(alloc, text, unit.key.as_str())?;
    text.push_str(",\"level\":")?;
    text.push_str(level.as_str())?;
    text.push_str(",\"needs\":[")?;
    push_strings(alloc, text, units, unit.needs.as_slice())?;
    text.push_str("]}")?;
    Ok(())
}

/// Adds the objects of some units, each with a comma and a line feed before it.
fn push_objects(
    alloc: Global,
    text: &mut String,
    units: &[Planned],
    some: &[Planned],
) -> Result<(), AllocError>
    ensures { OnOk result
        (string_bytes text.new ≡ string_bytes text.old ++ objects_rest units.now some.now) }
{
    for unit in some {
        text.push_str(",\n")?;
        push_object(alloc, text, units, unit)?;
    }
    Ok(())
}

/// Adds the objects of units, with commas between them.
fn push_all(alloc: Global, text: &mut String, units: &[Planned]) -> Result<(), AllocError>
    ensures { OnOk result
        (string_bytes text.new ≡ string_bytes text.old ++ objects units.now units.now) }
{
    match units {
        [] => Ok(()),
        [first, rest @ ..] => {
            push_object(alloc, text, units, first)?;
            push_objects(alloc, text, units, rest)
        }
    }
}

/// Returns a plan as one JSON list, with one object on each line. For each unit, in plan order, the
/// object contains the unit's key, its level, and the keys of what it needs.
///
/// Errors: out of memory.
pub fn plan_json(alloc: Global, plan: &Plan) -> Result<String, AllocError>
    ensures { IfOk result (λ text. string_bytes text ≡ plan_json plan.now) }
{
    let mut text = String::from_str(alloc, "[\n")?;
    push_all(alloc, &mut text, plan.units())?;
    text.push_str("\n]\n")?;
    Ok(text)
}
