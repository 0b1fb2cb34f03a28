//! A plan in lines.

ghost use Rattle.std.specs.Prelude.{◌≡◌, ◌++◌, IfOk, OnOk, string_bytes};
ghost use Rattle.pb_tool_plan.specs.Texts.{spaced, needed, unit_line, unit_lines, plan_lines};

use crate::keys::key_at;
use pb_unit::{Plan, Planned};
use std::alloc::{AllocError, Global};

/// Adds the keys of the units at some indices, each with a space before it.
fn push_spaced(text: &mut String, units: &[Planned], needs: &[usize]) -> Result<(), AllocError>
    ensures { OnOk result
        (string_bytes text.new ≡ string_bytes text.old ++ spaced units.now needs.now) }
{
    for need in needs {
        text.push_str(" ")?;
        text.push_str(key_at(units, *need))?;
    }
    Ok(())
}

/// Adds a colon and the keys of the units at some indices. If there are no indices, adds nothing.
fn push_needed(text: &mut String, units: &[Planned], needs: &[usize]) -> Result<(), AllocError>
    ensures { OnOk result
        (string_bytes text.new ≡ string_bytes text.old ++ needed units.now needs.now) }
{
    match needs {
        [] => Ok(()),
        [_, ..] => {
            text.push_str(":")?;
            push_spaced(text, units, needs)
        }
    }
}

/// Adds the line of a unit.
fn push_line(text: &mut String, units: &[Planned], unit: &Planned) -> Result<(), AllocError>
    ensures { OnOk result
        (string_bytes text.new ≡ string_bytes text.old ++ unit_line units.now unit.now) }
{
    text.push_str(unit.key.as_str())?;
    push_needed(text, units, unit.needs.as_slice())?;
    text.push_str("\n")?;
    Ok(())
}

/// Returns the lines of units.
fn unit_lines(alloc: Global, units: &[Planned]) -> Result<String, AllocError>
    ensures { IfOk result (λ text. string_bytes text ≡ unit_lines units.now units.now) }
{
    let mut text = String::new(alloc);
    for unit in units {
        push_line(&mut text, units, unit)?;
    }
    Ok(text)
}

/// Returns a plan in lines, one for each unit, in plan order. The line has the unit's key. If the
/// unit needs something, a colon and the keys of what it needs follow.
///
/// Errors: out of memory.
pub fn plan_lines(alloc: Global, plan: &Plan) -> Result<String, AllocError>
    ensures { IfOk result (λ text. string_bytes text ≡ plan_lines plan.now) }
{
    unit_lines(alloc, plan.units())
}
