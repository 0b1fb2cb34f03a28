//! A law of the binaries that are found. The function does nothing; its contract is the law.

ghost use Rattle.pb_workspace_package.specs.Laws.{FoundAsLookedFor};

/// If several binaries of the same name are found, the last one counts. If paths are normalised,
/// this binary has the source that a `[[bin]]` of this name without a path would have (The Cargo
/// Book, Cargo Targets). The found binaries and the paths to look for are listed in opposite
/// orders, so the last found binary is at the first path.
pub fn found_binaries_are_looked_for()
    ensures { FoundAsLookedFor }
{}
