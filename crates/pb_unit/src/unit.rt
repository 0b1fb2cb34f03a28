//! Units, and their keys.

ghost use Rattle.std.specs.Prelude.{◌≡◌, ◌++◌, IfOk, OnOk, string_bytes, slice_get};
ghost use Rattle.pb_unit.specs.Units.{key_of, name_at, side_name, what_name, role_of};

use pb_data::{Text, TryCopy};
use pb_workspace_types::{Side, Workspace};
use std::alloc::{AllocError, Global};

/// What a unit makes of its package.
#[derive(Drop)]
pub enum What {
    /// The library.
    Lib,
    /// The binary of this name.
    Bin(Text),
    /// The build script, compiled.
    Script,
    /// The build script, run.
    Run,
}

/// A unit of a build: one thing that the build makes of a package for a side (The Cargo Book, cargo
/// build). What is made for the host is never shared with what is made for the target (our own
/// choice).
#[derive(Drop)]
pub struct Unit {
    /// The index of the unit's package in the workspace.
    pub package: usize,
    /// The side for which the unit is made.
    pub side: Side,
    /// What is made.
    pub what: What,
}

impl TryCopy for What {
    fn copy(&self, alloc: Global) -> Result<What, AllocError> {
        match self {
            What::Lib => Ok(What::Lib),
            What::Bin(name) => Ok(What::Bin(name.copy(alloc)?)),
            What::Script => Ok(What::Script),
            What::Run => Ok(What::Run),
        }
    }
}

impl TryCopy for Unit {
    fn copy(&self, alloc: Global) -> Result<Unit, AllocError> {
        let what = self.what.copy(alloc)?;
        Ok(Unit {
            package: self.package,
            side: self.side,
            what,
        })
    }
}

/// Returns the word of a side in a key.
fn side_name(side: Side) -> &'static str
    ensures { result.now ≡ side_name side }
{
    match side {
        Side::Target => "target",
        Side::Host => "host",
    }
}

/// Returns the name of the package at an index, or the empty text if there is no package.
pub(crate) fn name_at(workspace: &Workspace, index: usize) -> &str
    ensures { result.now ≡ name_at workspace.now index }
{
    match workspace.packages.as_slice().get(index) {
        Some(owner) => owner.name.as_str(),
        None => "",
    }
}

/// Adds the last word of a key.
fn push_what(text: &mut String, what: &What) -> Result<(), AllocError>
    ensures { OnOk result (string_bytes text.new ≡ string_bytes text.old ++ what_name what.now) }
{
    match what {
        What::Lib => text.push_str("lib")?,
        What::Bin(name) => {
            text.push_str("bin-")?;
            text.push_str(name.as_str())?;
        }
        What::Script => text.push_str("script")?,
        What::Run => text.push_str("run")?,
    }
    Ok(())
}

impl Unit {
    /// Returns the key of the unit in folders, records and messages: `PACKAGE.SIDE.WHAT`. SIDE is
    /// `host` or `target`, and WHAT is `lib`, `bin-NAME`, `script` or `run` (our own choice).
    /// `workspace` is the workspace of the plan.
    ///
    /// Errors: out of memory.
    pub fn key(&self, alloc: Global, workspace: &Workspace) -> Result<Text, AllocError>
        ensures { IfOk result (λ key. key ≡ key_of workspace.now self.now) }
    {
        let mut text = String::new(alloc);
        text.push_str(name_at(workspace, self.package))?;
        text.push_str(".")?;
        text.push_str(side_name(self.side))?;
        text.push_str(".")?;
        push_what(&mut text, &self.what)?;
        Ok(Text::new(text))
    }

    /// Returns the role of the unit's settings (The Cargo Book, Profiles). A compile of a build
    /// script has the host's role, and so has each unit that is made for the host. Any other unit
    /// has the target's role. A run of a script has the role of its side.
    pub fn role(&self) -> Side
        ensures { result ≡ role_of self.now }
    {
        match self.what {
            What::Script => Side::Host,
            _ => self.side,
        }
    }
}
