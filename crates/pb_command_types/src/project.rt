//! What a build knows when it makes commands.

use pb_data::{Bytes, Items, Text};
use pb_directive::Directives;
use pb_feature_types::Features;
use pb_unit::Plan;
use pb_workspace_types::Workspace;

/// All that a build knows about its workspace after the planning.
#[derive(Drop)]
pub struct Project {
    /// The workspace.
    pub workspace: Workspace,
    /// Its resolved features.
    pub features: Features,
    /// The plan of its units.
    pub plan: Plan,
    /// The name of the profile under which the workspace was planned.
    pub profile: Text,
}

/// How units are compiled, as the variables and the options determine it.
#[derive(Drop)]
pub struct Setup {
    /// The value of the variable `CARGO` of a child.
    pub tool: Text,
    /// The compiler, as `RUSTC` names it.
    pub rustc: Text,
    /// The arguments in `RUSTFLAGS`.
    pub flags: Items<Text>,
    /// The arguments before the path of a build script: a program and its arguments. If they are
    /// empty, the script itself is started.
    pub runner: Items<Text>,
    /// The compiler's output about its version: the standard output of `-vV`.
    pub toolchain: Bytes,
}

/// The directives of the runs of build scripts, by the index of each unit in the plan. A run that
/// succeeded has its directives. Any other unit has no directives.
pub type Done<'a> = &'a [Option<Directives>];
