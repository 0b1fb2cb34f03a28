//! A law of what the program does. The function does nothing: its contract is the law.

ghost use Rattle.pb_tool_program.specs.Guarding.{Guarded};
ghost use Rattle.pb_tool_program.specs.Running.{IsShownAs};
ghost use Rattle.pb_tool_program.specs.Shown.{ShownChangesNothing};

use crate::guard::Guard;
use pb_tool_screen::{Coloring, Screen, Speaking};
use pb_tool_witness::Noting;

/// What the program shows of a build, apart from the message lines, does not change the build. The
/// status, the lines, the started children and the files that the build leaves are the same.
pub fn shown_changes_nothing<P: Speaking + Noting, G: Guard<P, E>, O: Screen, E: Coloring>()
    ensures { ShownChangesNothing P.is_modelled P.child (Guarded G.asks G.waits)
        (IsShownAs P.speaks P.notes O.shows E.colors) }
{}
