//! Laws of workspaces: the contents of a workspace that was read, key by key (The Cargo Book,
//! Manifest Format, Cargo Targets, Build Scripts, Features, Specifying Dependencies, Workspaces).
#![tactic(auto)]

ghost use Rattle.pb_workspace_laws.specs.Laws.{AllAreSettled, WorkspacesAreOne, WorkspacesAreRead};
ghost use Rattle.pb_workspace_laws.specs.Members.{PartsMatchNames, TextsMeanFolders};
ghost use Rattle.pb_workspace_laws.specs.Ways.{PathsAreSpelled, TextsLeadBetween};

/// A law: a workspace that was read is determined by its manifests and their folders.
///
/// - The folders of its packages are the least set that contains the root package's folder and the
///   members' folders. For each package in the set, the set also contains the folder of each path
///   dependency. The packages are in byte order of these folders.
/// - Each package is described, key by key, by the manifest and the files in its folder, and by
///   what a member inherits from the workspace.
/// - The description includes the binaries of the package, if the files of the sources have
///   normalised absolute paths.
pub fn workspaces_are_read()
    ensures { WorkspacesAreRead }
{}

/// A law: only one workspace satisfies the law `workspaces_are_read`. So that law determines
/// everything in a workspace that was read.
pub fn workspaces_are_one()
    ensures { WorkspacesAreOne }
{}

/// A law: whatever the files contain, a workspace that was read is settled, as `load` promises for
/// its result.
pub fn all_are_settled()
    ensures { AllAreSettled }
{}

/// This law says which folders a text of `members` means, if the files of the sources have
/// normalised absolute paths. The law also says how a path is spelled relative to a folder.
pub fn folders_are_meant()
    ensures meant { TextsMeanFolders }
    ensures parts { PartsMatchNames }
    ensures between { TextsLeadBetween }
    ensures spelled { PathsAreSpelled }
{}
