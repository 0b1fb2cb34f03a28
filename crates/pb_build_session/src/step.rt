//! A step of a session.

use crate::death::Death;
use crate::pick::PickBy;
use pb_data::Text;
use pb_place_types::PathText;
use pb_workspace_types::Options;

/// A step of a session: an edit of the outside world, an injected failure, or a build.
#[derive(Drop)]
pub enum SessionStep {
    /// The file at this path has this text from now on.
    Write(PathText, Text),
    /// The file at this path, and all files below it, are removed.
    Remove(PathText),
    /// The variable of this name has this value from now on. Any name and value is accepted.
    Set(Text, Text),
    /// The variable of this name is not set from now on.
    Unset(Text),
    /// A build, and the choice among the units that may begin.
    Build(Options, PickBy),
    /// The next start whose output folder has this name fails in this way. Any name is accepted.
    Die(Text, Death),
    /// One call to the outside world in the next build fails: the call with this number, counted
    /// from 1. If the number is 0, no call fails.
    Fuse(u64),
}
