//! Finds names that occur more than once.

ghost use Rattle.std.specs.Prelude.{◌≡◌, IfOk, OnOk};
ghost use Rattle.pb_data.specs.OrderedSet.{is_mentioned, mentioned};

use pb_data::{OrderedSet, Text, TryCopy};
use std::alloc::{AllocError, Global};

/// Returns whether a name was seen before, and adds the name to the seen names.
///
/// Errors: out of memory.
pub fn was_mentioned(alloc: Global, seen: &mut OrderedSet, name: &Text) -> Result<bool, AllocError>
    ensures before { IfOk result (λ answer. answer ≡ is_mentioned seen.old name.now) }
    ensures now { OnOk result (seen.new ≡ mentioned seen.old name.now) }
{
    if seen.contains(name) {
        return Ok(true);
    }
    seen.insert(name.copy(alloc)?)?;
    Ok(false)
}
