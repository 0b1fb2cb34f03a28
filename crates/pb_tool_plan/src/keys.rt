//! Looks up the key of a unit.

ghost use Rattle.std.specs.Prelude.{◌≡◌};
ghost use Rattle.pb_tool_plan.specs.Texts.{key_at};

use pb_unit::Planned;

/// Returns the key of the unit at an index, or the empty text if there is no unit.
pub(crate) fn key_at(units: &[Planned], index: usize) -> &str
    ensures { result.now ≡ key_at units.now index }
{
    match units.get(index) {
        Some(planned) => planned.key.as_str(),
        None => "",
    }
}
