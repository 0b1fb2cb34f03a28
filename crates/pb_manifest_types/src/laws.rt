//! A law about the definitions. The function does nothing; its contract is the law.

ghost use Rattle.pb_manifest_types.specs.Laws.{DefaultLibraryName};

/// If `[lib]` writes no name, the library has its package's name, with `_` for each `-`.
#[tactic(auto, unfolding(crate::specs::Letters::underscored))]
pub fn default_library_name()
    ensures { DefaultLibraryName }
{}
