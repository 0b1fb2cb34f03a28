//! The choice among the units that may begin.

ghost use Rattle.pb_build_session.specs.Faults.{UnlessOom};
ghost use Rattle.pb_build_session.specs.Picks.{pick_named};

use crate::fault::BadSession;

/// The choice among the units that may begin (our own choice).
#[derive(Clone, Copy)]
pub enum PickBy {
    /// The first, in plan order, of the units that may begin.
    First,
    /// The last, in plan order, of the units that may begin.
    Last,
}

/// Returns the choice that has this name.
pub(crate) fn pick_named(name: &str) -> Result<PickBy, BadSession>
    ensures { UnlessOom result (pick_named name.now) }
{
    match name {
        "first" => Ok(PickBy::First),
        "last" => Ok(PickBy::Last),
        _ => Err(BadSession::BadForm),
    }
}
