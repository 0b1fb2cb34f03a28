//! A law about what `foresee` returns. The function does nothing: its contract is the law.

ghost use Rattle.pb_tool_preview.specs.Laws.{BeginsAsForeseen};

use pb_place_types::Place;

/// Suppose that a unit begins in the world that was looked at, and with the directives of that
/// look. Then the unit begins because of the foreseen difference. If no difference was foreseen,
/// the unit begins without a child.
pub fn units_begin_as_foreseen<P: Place>()
    ensures { BeginsAsForeseen P.at P.is_modelled P.child }
{}
