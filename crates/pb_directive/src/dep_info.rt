//! What the dep-info of a compiler names.

ghost use Rattle.std.specs.Prelude.{◌≡◌};
ghost use Rattle.pb_directive.specs.DepInfo.{nothing};

use pb_data::OrderedSet;
use std::alloc::Global;

/// What the dep-info of a compiler names (The Cargo Book, "Build Cache"). Each name occurs once, in
/// order of first mention.
#[derive(Drop)]
pub struct DepInfo {
    /// The words of the rules. The words are paths; a relative path starts at the compiler's
    /// folder.
    pub words: OrderedSet,
    /// The names of the variables that were read.
    pub variables: OrderedSet,
}

impl DepInfo {
    /// Returns dep-info without names. The call takes no memory.
    pub fn new(alloc: Global) -> DepInfo
        ensures { result ≡ nothing }
    {
        DepInfo {
            words: OrderedSet::new(alloc),
            variables: OrderedSet::new(alloc),
        }
    }
}
