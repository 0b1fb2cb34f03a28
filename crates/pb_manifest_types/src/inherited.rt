//! Values that a package may inherit from its workspace (The Cargo Book, Workspaces).

/// A required value: written in the manifest, or inherited from the workspace.
#[derive(Drop)]
pub enum Inherited<T> {
    /// The value is written.
    Written(T),
    /// `{ workspace = true }`.
    Workspace,
}

/// A value that may be left out.
#[derive(Drop)]
pub enum Inheritable<T> {
    /// The value is written.
    Written(T),
    /// `{ workspace = true }`.
    Workspace,
    /// Nothing is written.
    Absent,
}
