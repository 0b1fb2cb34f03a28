//! A plan as a graph for Graphviz.

ghost use Rattle.std.specs.Prelude.{◌≡◌, ◌++◌, IfOk, OnOk, string_bytes};
ghost use Rattle.pb_tool_plan.specs.Texts.{quoted, arrows, unit_statements, statements, plan_dot};

use crate::keys::key_at;
use pb_unit::{Plan, Planned};
use std::alloc::{AllocError, Global};

/// Adds a key in quotation marks.
fn push_quoted(text: &mut String, key: &str) -> Result<(), AllocError>
    ensures { OnOk result (string_bytes text.new ≡ string_bytes text.old ++ quoted key.now) }
{
    text.push_str("\"")?;
    text.push_str(key)?;
    text.push_str("\"")?;
    Ok(())
}

/// Adds an arrow from a unit to each unit that it needs.
fn push_arrows(
    text: &mut String,
    units: &[Planned],
    key: &str,
    needs: &[usize],
) -> Result<(), AllocError>
    ensures { OnOk result
        (string_bytes text.new ≡ string_bytes text.old ++ arrows units.now key.now needs.now) }
{
    for need in needs {
        text.push_str("  ")?;
        push_quoted(text, key)?;
        text.push_str(" -> ")?;
        push_quoted(text, key_at(units, *need))?;
        text.push_str(";\n")?;
    }
    Ok(())
}

/// Adds the node of a unit, and its arrows.
fn push_unit(text: &mut String, units: &[Planned], unit: &Planned) -> Result<(), AllocError>
    ensures { OnOk result
        (string_bytes text.new ≡ string_bytes text.old ++ unit_statements units.now unit.now) }
{
    text.push_str("  ")?;
    push_quoted(text, unit.key.as_str())?;
    text.push_str(";\n")?;
    push_arrows(text, units, unit.key.as_str(), unit.needs.as_slice())
}

/// Adds the nodes of units, each with its arrows.
fn push_units(text: &mut String, units: &[Planned]) -> Result<(), AllocError>
    ensures { OnOk result
        (string_bytes text.new ≡ string_bytes text.old ++ statements units.now units.now) }
{
    for unit in units {
        push_unit(text, units, unit)?;
    }
    Ok(())
}

/// Returns a plan as a graph for Graphviz, with one statement on each line. Each unit, in plan
/// order, has a node, and an arrow to each unit that it needs.
///
/// Errors: out of memory.
pub fn plan_dot(alloc: Global, plan: &Plan) -> Result<String, AllocError>
    ensures { IfOk result (λ text. string_bytes text ≡ plan_dot plan.now) }
{
    let mut text = String::from_str(alloc, "digraph plan {\n")?;
    push_units(&mut text, plan.units())?;
    text.push_str("}\n")?;
    Ok(text)
}
