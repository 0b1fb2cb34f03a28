//! A call on files or variables, as a value.

ghost use Rattle.std.specs.Prelude.{◌≡◌, IfOk};
ghost use Rattle.pb_place_types.specs.CallsInTurn.{own_fault};
ghost use Rattle.pb_place_types.specs.declared.call.Call.TheVariants as call;

use crate::path::PathText;
use crate::place::PlaceFault;
use pb_data::{Text, TryCopy};
use std::alloc::{AllocError, Global};

/// A call on files or variables, with its paths or the variable's name. The bytes of a write are
/// not kept. The set of calls is our own choice.
#[derive(Debug, Drop)]
pub enum Call {
    /// A file is read.
    Read(PathText),
    /// The place checks whether a file is at a path.
    IsFile(PathText),
    /// All files below a folder are listed.
    List(PathText),
    /// The files below the first folder are listed, except files at or below the second path.
    ListOutside(PathText, PathText),
    /// The files directly in a folder are listed.
    ListDirectly(PathText),
    /// The folders directly in the first folder are listed, except folders in which all files are
    /// at or below the second path.
    ListFolders(PathText, PathText),
    /// A file is written.
    Write(PathText),
    /// Everything at or below a path is removed.
    Remove(PathText),
    /// A variable is read.
    Variable(Text),
}

impl Call {
    /// Returns the call to read a file.
    ///
    /// Errors: out of memory only.
    pub fn read(alloc: Global, path: &PathText) -> Result<Call, AllocError>
        ensures { IfOk result (λ it. it ≡ call.Read path.now) }
    {
        Ok(Call::Read(path.copy(alloc)?))
    }

    /// Returns the call to check whether a file is at a path.
    ///
    /// Errors: out of memory only.
    pub fn is_file(alloc: Global, path: &PathText) -> Result<Call, AllocError>
        ensures { IfOk result (λ it. it ≡ call.IsFile path.now) }
    {
        Ok(Call::IsFile(path.copy(alloc)?))
    }

    /// Returns the call to list all files below a folder.
    ///
    /// Errors: out of memory only.
    pub fn list(alloc: Global, folder: &PathText) -> Result<Call, AllocError>
        ensures { IfOk result (λ it. it ≡ call.List folder.now) }
    {
        Ok(Call::List(folder.copy(alloc)?))
    }

    /// Returns the call to list the files below a folder, except files at or below the path
    /// `left_out`.
    ///
    /// Errors: out of memory only.
    pub fn list_outside(
        alloc: Global,
        folder: &PathText,
        left_out: &PathText,
    ) -> Result<Call, AllocError>
        ensures { IfOk result (λ it. it ≡ call.ListOutside folder.now left_out.now) }
    {
        let folder = folder.copy(alloc)?;
        let left_out = left_out.copy(alloc)?;
        Ok(Call::ListOutside(folder, left_out))
    }

    /// Returns the call to list the files directly in a folder.
    ///
    /// Errors: out of memory only.
    pub fn list_directly(alloc: Global, folder: &PathText) -> Result<Call, AllocError>
        ensures { IfOk result (λ it. it ≡ call.ListDirectly folder.now) }
    {
        Ok(Call::ListDirectly(folder.copy(alloc)?))
    }

    /// Returns the call to list the folders directly in a folder, except folders in which all files
    /// are at or below the path `left_out`.
    ///
    /// Errors: out of memory only.
    pub fn list_folders(
        alloc: Global,
        folder: &PathText,
        left_out: &PathText,
    ) -> Result<Call, AllocError>
        ensures { IfOk result (λ it. it ≡ call.ListFolders folder.now left_out.now) }
    {
        let folder = folder.copy(alloc)?;
        let left_out = left_out.copy(alloc)?;
        Ok(Call::ListFolders(folder, left_out))
    }

    /// Returns the call to write a file.
    ///
    /// Errors: out of memory only.
    pub fn write(alloc: Global, path: &PathText) -> Result<Call, AllocError>
        ensures { IfOk result (λ it. it ≡ call.Write path.now) }
    {
        Ok(Call::Write(path.copy(alloc)?))
    }

    /// Returns the call to remove everything at or below a path.
    ///
    /// Errors: out of memory only.
    pub fn remove(alloc: Global, path: &PathText) -> Result<Call, AllocError>
        ensures { IfOk result (λ it. it ≡ call.Remove path.now) }
    {
        Ok(Call::Remove(path.copy(alloc)?))
    }

    /// Returns the call to read a variable.
    ///
    /// Errors: out of memory only.
    pub fn variable(alloc: Global, name: &str) -> Result<Call, AllocError>
        ensures { IfOk result (λ it. it ≡ call.Variable name.now) }
    {
        Ok(Call::Variable(Text::from_str(alloc, name)?))
    }

    /// Returns the fault with which this call fails if memory does not run out.
    pub fn own_fault(&self) -> PlaceFault
        ensures { result ≡ own_fault self.now }
    {
        match self {
            Call::Read(_) => PlaceFault::Read,
            Call::IsFile(_) => PlaceFault::Read,
            Call::List(_) => PlaceFault::List,
            Call::ListOutside(_, _) => PlaceFault::List,
            Call::ListDirectly(_) => PlaceFault::List,
            Call::ListFolders(_, _) => PlaceFault::List,
            Call::Write(_) => PlaceFault::Write,
            Call::Remove(_) => PlaceFault::Remove,
            Call::Variable(_) => PlaceFault::Variable,
        }
    }
}
