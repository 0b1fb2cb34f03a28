//! Workspaces that keep the promises of their reader.

use crate::options::Selection;
use crate::workspace::Workspace;
use std::marker::Model;

/// A workspace that was read. The workspace has at most 256 packages, in order of their folders and
/// with distinct names. The entries of each package lead to packages of the workspace. Contracts
/// see the workspace.
#[derive(Drop)]
pub struct SettledWorkspace {
    inside: Workspace,
}

impl Model for SettledWorkspace {
    ghost use Rattle.pb_workspace_types.specs.Settled.{IsSettled};
    ghost use Rattle.pb_workspace_types.specs.declared.workspace.Workspace.{Workspace};

    ghost Value = { Workspace };

    ghost view = { λ a. a.inside };

    ghost invariant = { λ a. IsSettled a.inside };
}

impl SettledWorkspace {
    ghost use Rattle.std.specs.Prelude.{◌≡◌};
    ghost use Rattle.pb_workspace_types.specs.Settled.{IsSettled};

    /// Returns a workspace as a settled workspace.
    ///
    /// Requires: the workspace is settled.
    pub fn new(workspace: Workspace) -> SettledWorkspace
        requires { IsSettled workspace }
        ensures { result ≡ workspace }
    {
        SettledWorkspace { inside: workspace }
    }

    /// Returns the workspace itself.
    pub fn get(&self) -> &Workspace
        ensures value { result.now ≡ self.now }
        ensures settled { IsSettled self.now }
    {
        &self.inside
    }

    /// Returns the workspace as an owned value.
    pub fn into_workspace(self) -> Workspace
        ensures value { result ≡ self }
        ensures settled { IsSettled self }
    {
        self.inside
    }
}

/// A workspace that was read, and what is selected in the workspace: indices of its packages.
/// Contracts see the workspace and the selection.
#[derive(Drop)]
pub struct SelectedWorkspace<'a> {
    workspace: &'a SettledWorkspace,
    selection: Selection,
}

impl<'a> Model for SelectedWorkspace<'a> {
    ghost use Rattle.std.specs.Prelude.{◌<◌, All, length};
    ghost use Rattle.pb_workspace_types.specs.Settled.{Selected};

    ghost Value = { Selected };

    ghost view = { λ a. record { workspace = a.workspace.now; selection = a.selection } };

    ghost invariant = { λ a. All (λ index. index < length a.workspace.now.packages) a.selection.packages };
}

impl<'a> SelectedWorkspace<'a> {
    ghost use Rattle.std.specs.Prelude.{◌≡◌, ◌<◌, All, length};
    ghost use Rattle.pb_workspace_types.specs.Settled.{IsSettled};

    /// Returns a selection of packages in a workspace.
    pub fn new(workspace: &'a SettledWorkspace, selection: Selection) -> SelectedWorkspace<'a>
        requires { All (λ index. index < length workspace.now.packages) selection.packages }
        ensures workspace { result.workspace ≡ workspace.now }
        ensures selection { result.selection ≡ selection }
    {
        SelectedWorkspace {
            workspace,
            selection,
        }
    }

    /// Returns the workspace.
    pub fn workspace(&self) -> &SettledWorkspace
        ensures value { result.now ≡ self.now.workspace }
        ensures settled { IsSettled self.now.workspace }
    {
        let workspace = self.workspace;
        workspace.get();
        workspace
    }

    /// Returns what is selected in the workspace.
    pub fn selection(&self) -> &Selection
        ensures value { result.now ≡ self.now.selection }
        ensures within { All (λ index.
            index < length self.now.workspace.packages) self.now.selection.packages }
    {
        &self.selection
    }
}
