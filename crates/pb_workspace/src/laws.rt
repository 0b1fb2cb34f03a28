//! Laws of workspaces. Each function does nothing; its contract is the law.

ghost use Rattle.pb_workspace.specs.GlobWords.{DecidesGlobs};
ghost use Rattle.pb_workspace.specs.Laws.{NamesDiffer, HasTargetFolder, HasRoot, LooksAtSources};
ghost use Rattle.pb_workspace.specs.PackageFolders.{FuelIsEnough};

/// The limit on rounds never cuts the reading of a workspace short. At most 256 packages are read.
/// So 257 rounds or more find the same packages, or the same fault.
pub fn rounds_are_enough()
    ensures { FuelIsEnough }
{}

/// A glob matches a name if and only if the name is a sequence of pieces that the bytes of the glob
/// match, in order. `*` matches any text, `?` matches one character, and every other byte matches
/// itself (The Cargo Book, Workspaces).
pub fn globs_stand_for_names()
    ensures { DecidesGlobs }
{}

/// An accepted workspace has no two packages with the same name. The workspace's target folder is
/// the folder for which the workspace was read. The workspace's root is the folder of its manifest.
/// The contract of `load` contains the other promises.
pub fn workspaces_are_settled()
    ensures names { NamesDiffer }
    ensures target { HasTargetFolder }
    ensures root { HasRoot }
{}

/// Only the sources determine a workspace. Worlds that differ only at or below the target folder
/// have the same workspace, or the same fault.
pub fn workspaces_look_at_sources()
    ensures { LooksAtSources }
{}
