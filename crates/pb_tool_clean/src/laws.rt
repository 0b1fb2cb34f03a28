//! Laws of what is removed. Each function does nothing; its contract is the law.

ghost use Rattle.pb_tool_clean.specs.Laws.{ChosenAreMade};

/// Everything that is chosen from a place's list is below the target folder. The last part of each
/// chosen path is the name of a record or of a unit's folder.
pub fn chosen_are_made()
    ensures { ChosenAreMade }
{}
