//! The summary of a build that came to its end.

use pb_command_types::UnitFault;
use pb_data::{Bytes, Items, Text};
use pb_directive::Directives;
use pb_store::Difference;

/// The summary of a build that came to its end.
#[derive(Drop)]
pub struct Summary {
    /// Whether all units are good.
    pub success: bool,
    /// The key and the fault of the first bad unit in plan order, if there is one.
    pub bad: Option<(Text, UnitFault)>,
    /// The output of the first bad unit's child, except what message lines contain. Empty if all
    /// units are good.
    pub said: Bytes,
    /// The keys of the units whose child was started, in order of starting.
    pub started: Items<Text>,
    /// For each unit in `started`, in the same order, the first difference: the reason why the
    /// unit's child was started.
    pub differences: Items<Difference>,
    /// The keys of the units that began and for which nothing differed, in plan order: their
    /// records are replayed.
    pub kept: Items<Text>,
    /// The keys and the directives of the runs of build scripts that succeeded before the first bad
    /// unit, in plan order.
    pub directives: Items<(Text, Directives)>,
}
