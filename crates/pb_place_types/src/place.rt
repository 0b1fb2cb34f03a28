//! The outside world: files, variables and children, each call counted.

ghost use Rattle.std.specs.Prelude.{◌≡◌, ◌≢◌, [], Bool, true, IfOk, IfErr, OnOk, OnErr, IsTrue, IfSome, take};
ghost use Rattle.std.specs.FinMap as map;
ghost use Rattle.std.specs.List.{concat};
ghost use Rattle.std.specs.Option.{option_map};
ghost use Rattle.pb_data.specs.UnlessOom.{UnlessOom};
ghost use Rattle.pb_place_types.specs.At.{At, IsUnchanged, LooksOnce, ChangesOnce, Spawns, Finishes, Starts};
ghost use Rattle.pb_place_types.specs.Children.{child_at, is_flying, LandsAs};
ghost use Rattle.pb_place_types.specs.Paths.{is_at_or_below, joined};
ghost use Rattle.pb_place_types.specs.World.{Answers, FilesHavePaths, has_file, written, removed, listed, listed_directly, listed_folders, Torn, PartlyRemoved, Ends};
ghost use Rattle.pb_place_types.specs.declared.call.Call.TheVariants as call;
ghost use Rattle.pb_place_types.specs.declared.path.PathFault.TheVariants as path_fault;
ghost use Rattle.pb_place_types.specs.declared.place.PlaceFault.TheVariants as place_fault;
ghost use Rattle.pb_place_types.specs.declared.place.StartFault.TheVariants as start_fault;

use crate::command::{Command, Ended};
use crate::moved::Moved;
use crate::path::{PathFault, PathText};
use pb_data::{Bytes, Items, Text};
use std::alloc::{AllocError, AllocFailed, Global};
use thiserror::Error;

/// Why a call on files or variables failed.
#[derive(Clone, Copy, Debug, PartialEq, Eq, Error)]
pub enum PlaceFault {
    /// A file could not be read.
    #[error("a file could not be read")]
    Read,
    /// A folder could not be listed.
    #[error("a folder could not be listed")]
    List,
    /// A file could not be written.
    #[error("a file could not be written")]
    Write,
    /// A file or folder could not be removed.
    #[error("a file or folder could not be removed")]
    Remove,
    /// A variable could not be read.
    #[error("a variable could not be read")]
    Variable,
    /// Out of memory. The outside did not fail.
    #[error("out of memory")]
    OutOfMemory,
}

/// Why a child did not reply.
#[derive(Clone, Copy, Debug, PartialEq, Eq, Error)]
pub enum StartFault {
    /// The program could not be started.
    #[error("the program cannot be started")]
    CannotStart,
    /// The child ended without a status.
    #[error("the child process ended without a status")]
    Died,
    /// The child's output could not be captured.
    #[error("the output of the child process could not be read")]
    Capture,
    /// Out of memory. The outside did not fail.
    #[error("out of memory")]
    OutOfMemory,
}

/// How a call failed in the outside world. Running out of memory is not such a failure.
#[derive(Clone, Copy, Debug, PartialEq, Eq)]
pub enum Failure {
    /// A call on files or variables failed.
    Called(PlaceFault),
    /// A child could not be started, or did not reply.
    Started(StartFault),
}

impl From<AllocError> for PlaceFault {
    ghost from_gives = { λ _ e. e ≡ place_fault.OutOfMemory };

    fn from(_: AllocError) -> Self {
        PlaceFault::OutOfMemory
    }
}

impl<T: Drop> From<AllocFailed<T>> for PlaceFault {
    ghost from_gives = { λ _ e. e ≡ place_fault.OutOfMemory };

    fn from(_: AllocFailed<T>) -> Self {
        PlaceFault::OutOfMemory
    }
}

impl From<AllocError> for StartFault {
    ghost from_gives = { λ _ e. e ≡ start_fault.OutOfMemory };

    fn from(_: AllocError) -> Self {
        StartFault::OutOfMemory
    }
}

impl<T: Drop> From<AllocFailed<T>> for StartFault {
    ghost from_gives = { λ _ e. e ≡ start_fault.OutOfMemory };

    fn from(_: AllocFailed<T>) -> Self {
        StartFault::OutOfMemory
    }
}

/// Returns the first `most` bytes, or all bytes if there are fewer.
fn cut(bytes: Bytes, most: usize) -> Bytes
    ensures { result ≡ take most bytes }
{
    let mut inside = bytes.into_vec();
    inside.truncate(most);
    Bytes::new(inside)
}

/// The files, the variables and the child processes of the outside world.
///
/// Clauses about answers and about file contents apply to modelled places. All other clauses apply
/// to every place. Unless memory runs out, the maps and the child determine each answer.
///
/// The set of calls is our own choice.
pub trait Place {
    /// Whether the place is modelled: whether `at` has the files and variables as they are. A real
    /// machine is not modelled, so clauses with this premise do not apply to a real machine.
    ghost is_modelled: { Bool };

    /// All that clauses can see of the place at one moment. The maps of a place that is not
    /// modelled are constant.
    ghost at: { Self → At };

    /// The child as a function. This function is a member of the type, so no call can change it.
    ghost child: { Answers };

    /// Whether a call may fail for a reason other than running out of memory.
    ghost fails: { Self → Type 0 };

    /// Returns the bytes of a file, or `None` if no file is there.
    ///
    /// Errors: `Read`; `OutOfMemory`.
    fn read(&mut self, alloc: Global, path: &PathText) -> Result<Option<Bytes>, PlaceFault>
        ensures ok { IsTrue is_modelled → IfOk result
            (λ found. found ≡ map.get (at self.old).world.files path.now) }
        ensures looks { LooksOnce (call.Read path.now) result (at self.old) (at self.new) }
        ensures fails { IfErr result (λ e. e ≢ PlaceFault.OutOfMemory → fails self.old) };

    /// Returns at most the first `most` bytes of a file, or `None` if no file is there. The call is
    /// counted as a call of `read`.
    ///
    /// Errors: `Read`; `OutOfMemory`.
    fn read_first(
        &mut self,
        alloc: Global,
        path: &PathText,
        most: usize,
    ) -> Result<Option<Bytes>, PlaceFault>
        ensures ok { IsTrue is_modelled → IfOk result (λ found. found
            ≡ option_map (take most) (map.get (at self.old).world.files path.now)) }
        ensures looks { LooksOnce (call.Read path.now) result (at self.old) (at self.new) }
        ensures fails { IfErr result (λ e. e ≢ PlaceFault.OutOfMemory → fails self.old) }
    {
        match self.read(alloc, path) {
            Ok(Some(bytes)) => Ok(Some(cut(bytes, most))),
            Ok(None) => Ok(None),
            Err(fault) => Err(fault),
        }
    }

    /// Returns whether a file is at a path.
    ///
    /// Errors: `Read`; `OutOfMemory`.
    fn is_file(&mut self, alloc: Global, path: &PathText) -> Result<bool, PlaceFault>
        ensures ok { IsTrue is_modelled → IfOk result
            (λ answer. answer ≡ has_file path.now (at self.old).world) }
        ensures looks { LooksOnce (call.IsFile path.now) result (at self.old) (at self.new) }
        ensures fails { IfErr result (λ e. e ≢ PlaceFault.OutOfMemory → fails self.old) };

    /// Returns the paths of all files below a folder, in byte order. The folder's own path is not
    /// among these paths.
    ///
    /// Errors: `List`; `OutOfMemory`.
    fn list(&mut self, alloc: Global, folder: &PathText) -> Result<Items<PathText>, PlaceFault>
        ensures ok { IsTrue is_modelled → IfOk result
            (λ paths. paths ≡ listed folder.now (at self.old).world) }
        ensures looks { LooksOnce (call.List folder.now) result (at self.old) (at self.new) }
        ensures fails { IfErr result (λ e. e ≢ PlaceFault.OutOfMemory → fails self.old) };

    /// Returns the paths of all files below a folder, in byte order, except the files at or below
    /// the path `left_out`. The call does not look at anything at or below `left_out`.
    ///
    /// Errors: `List`; `OutOfMemory`.
    fn list_outside(
        &mut self,
        alloc: Global,
        folder: &PathText,
        left_out: &PathText,
    ) -> Result<Items<PathText>, PlaceFault>
        ensures ok { IsTrue is_modelled → IfOk result
            (λ paths. paths ≡ listed folder.now (removed left_out.now (at self.old).world)) }
        ensures looks { LooksOnce (call.ListOutside folder.now left_out.now) result
            (at self.old) (at self.new) }
        ensures fails { IfErr result (λ e. e ≢ PlaceFault.OutOfMemory → fails self.old) };

    /// Returns the paths of the files directly in a folder, in byte order. The call does not look
    /// into the folders there.
    ///
    /// Errors: `List`; `OutOfMemory`.
    fn list_directly(
        &mut self,
        alloc: Global,
        folder: &PathText,
    ) -> Result<Items<PathText>, PlaceFault>
        ensures ok { IsTrue is_modelled → IfOk result
            (λ paths. paths ≡ listed_directly folder.now (at self.old).world) }
        ensures looks { LooksOnce (call.ListDirectly folder.now) result
            (at self.old) (at self.new) }
        ensures fails { IfErr result (λ e. e ≢ PlaceFault.OutOfMemory → fails self.old) };

    /// Returns the paths of the folders directly in a folder, without repeats. The call does not
    /// look into these folders.
    ///
    /// In the maps, these are the folders with a file below them. Files at or below the path
    /// `left_out` do not count. A real machine also has folders without files. The machine may
    /// return such folders too, but not `left_out` itself.
    ///
    /// Errors: `List`; `OutOfMemory`.
    fn list_folders(
        &mut self,
        alloc: Global,
        folder: &PathText,
        left_out: &PathText,
    ) -> Result<Items<PathText>, PlaceFault>
        ensures ok { IsTrue is_modelled → IfOk result
            (λ folders. folders
            ≡ listed_folders folder.now (removed left_out.now (at self.old).world)) }
        ensures looks { LooksOnce (call.ListFolders folder.now left_out.now) result
            (at self.old) (at self.new) }
        ensures fails { IfErr result (λ e. e ≢ PlaceFault.OutOfMemory → fails self.old) };

    /// Writes a file, and creates the folders above it. After an error the path has the old file,
    /// no file, or the first n of the new bytes.
    ///
    /// Errors: `Write`; `OutOfMemory`.
    fn write(&mut self, alloc: Global, path: &PathText, bytes: &[u8]) -> Result<(), PlaceFault>
        ensures ok { IsTrue is_modelled → OnOk result
            ((at self.new).world ≡ written path.now bytes.now (at self.old).world) }
        ensures err { IsTrue is_modelled → OnErr result
            (Torn path.now bytes.now (at self.old).world (at self.new).world) }
        ensures changes { ChangesOnce (is_at_or_below path.now) (call.Write path.now) result
            (at self.old) (at self.new) }
        ensures fails { IfErr result (λ e. e ≢ PlaceFault.OutOfMemory → fails self.old) };

    /// Writes a file whose bytes come in pieces: the bytes of the first piece, then those of the
    /// next. Otherwise the call does the same as `write`, and is counted as a call of `write`.
    ///
    /// Errors: `Write`; `OutOfMemory`.
    fn write_pieces(
        &mut self,
        alloc: Global,
        path: &PathText,
        pieces: &[Bytes],
    ) -> Result<(), PlaceFault>
        ensures ok { IsTrue is_modelled → OnOk result
            ((at self.new).world ≡ written path.now (concat pieces.now) (at self.old).world) }
        ensures err { IsTrue is_modelled → OnErr result
            (Torn path.now (concat pieces.now) (at self.old).world (at self.new).world) }
        ensures changes { ChangesOnce (is_at_or_below path.now) (call.Write path.now) result
            (at self.old) (at self.new) }
        ensures fails { IfErr result (λ e. e ≢ PlaceFault.OutOfMemory → fails self.old) };

    /// Removes the file at a path and all files below the path. If there are no such files, nothing
    /// changes. After an error each of these files may still exist.
    ///
    /// Errors: `Remove`; `OutOfMemory`.
    fn remove_tree(&mut self, alloc: Global, path: &PathText) -> Result<(), PlaceFault>
        ensures ok { IsTrue is_modelled → OnOk result
            ((at self.new).world ≡ removed path.now (at self.old).world) }
        ensures err { IsTrue is_modelled → OnErr result
            (PartlyRemoved path.now (at self.old).world (at self.new).world) }
        ensures changes { ChangesOnce (is_at_or_below path.now) (call.Remove path.now) result
            (at self.old) (at self.new) }
        ensures fails { IfErr result (λ e. e ≢ PlaceFault.OutOfMemory → fails self.old) };

    /// Returns the value of a variable, or `None` if the variable is not set.
    ///
    /// Errors: `Variable`; `OutOfMemory`.
    fn variable(&mut self, alloc: Global, name: &str) -> Result<Option<Text>, PlaceFault>
        ensures ok { IsTrue is_modelled → IfOk result
            (λ found. found ≡ map.get (at self.old).world.variables name.now) }
        ensures looks { LooksOnce (call.Variable name.now) result (at self.old) (at self.new) }
        ensures fails { IfErr result (λ e. e ≢ PlaceFault.OutOfMemory → fails self.old) };

    /// Spawns a child process, and returns the ticket with which `finish` waits for this child. No
    /// other child in flight has this ticket. The folder `command.out` is created; until the child
    /// has ended, that folder may contain anything.
    ///
    /// Errors:
    ///
    /// - `CannotStart`. Then no child was spawned.
    /// - `OutOfMemory`.
    fn spawn(&mut self, alloc: Global, command: &Command) -> Result<u64, StartFault>
        ensures spawns { Spawns child command.now result (at self.old) (at self.new) }
        ensures fails { IfErr result (λ e. e ≢ StartFault.OutOfMemory → fails self.old) }
        ensures later { fails self.new → fails self.old };

    /// Waits for the end of a child in flight. Whatever the result, the child's ticket is then used
    /// up. Suppose that the child replies. Suppose also that neither what the child sees nor its
    /// folder has changed since the spawn. Then the world at the spawn determines the child's reply
    /// and the contents of its folder.
    ///
    /// Errors:
    ///
    /// - `Died`.
    /// - `Capture`.
    /// - `OutOfMemory`.
    fn finish(&mut self, alloc: Global, ticket: u64) -> Result<Ended, StartFault>
        requires flies { is_flying ticket (at self.old).counts.starts.flying ≡ true }
        ensures ok { IsTrue is_modelled → (at self.old).still ticket → IfOk result
            (λ ended. IfSome (child_at ticket (at self.old).counts.starts.flying)
            (λ spawned. LandsAs spawned (at self.old).world ended (at self.new).world)) }
        ensures finishes { Finishes ticket result (at self.old) (at self.new) }
        ensures fails { IfErr result (λ e. e ≢ StartFault.OutOfMemory → fails self.old) };

    /// Starts a child process and waits for its end: `spawn`, then `finish`. The folder
    /// `command.out` is created first. No clause shows this, because the maps contain only files.
    /// Only files inside `out` change; after an error `out` may contain anything.
    ///
    /// Errors: the errors of `spawn` and of `finish`.
    fn start(&mut self, alloc: Global, command: &Command) -> Result<Ended, StartFault>
        ensures ok { IsTrue is_modelled → IfOk result (λ ended.
            Ends (child command.now) command.now (at self.old).world ended (at self.new).world) }
        ensures starts { Starts command.now result (at self.old) (at self.new) }
        ensures fails { IfErr result (λ e. e ≢ StartFault.OutOfMemory → fails self.old) }
    {
        let ticket = self.spawn(alloc, command)?;
        self.finish(alloc, ticket)
    }

    /// Returns the path that a text spells relative to a folder, as `PathText::join` returns it. On
    /// a real machine, a `..` after a link leads to the folder that contains the link's target. The
    /// call is not counted.
    ///
    /// Errors: the errors of `PathText::join`.
    fn path_from(&self, alloc: Global, folder: &PathText, text: &str) -> Result<PathText, PathFault>
        ensures { IsTrue is_modelled →
            UnlessOom path_fault.OutOfMemory (λ path. path) result (joined folder.now text.now) }
    {
        folder.join(alloc, text)
    }

    /// Checks whether anything at or below a path, outside the target folder, has changed since the
    /// child of this command was spawned. This child must be the last child that ended. If
    /// something has changed, `moved` contains a changed path from then on. A machine that cannot
    /// decide reports a change. In the maps nothing changes, because nothing else writes there. The
    /// call is not counted.
    ///
    /// Errors: out of memory only.
    fn watch(
        &mut self,
        _alloc: Global,
        _command: &Command,
        _path: &PathText,
    ) -> Result<(), AllocError>
        ensures { IsUnchanged (at self.old) (at self.new) }
    {
        Ok(())
    }

    /// Returns whether everything that the child of this command read is unchanged, as far as
    /// `watch` has checked. The same must be true of each child whose output folder this child
    /// reads. The call takes no memory, and is not counted.
    fn stood_still(&self, _command: &Command) -> bool
        ensures { IsTrue is_modelled → result ≡ true }
    {
        true
    }

    /// Returns the paths that have changed, at most one path per child, in the order in which they
    /// were found. The call takes no memory.
    fn moved_paths(&self) -> &[Moved]
        ensures all { result.now ≡ (at self.now).moved }
        ensures none { IsTrue is_modelled → result.now ≡ [] };

    /// Does nothing; its contract states that each file in the maps has a normalised absolute path.
    /// The call takes no memory, and is not counted.
    fn files_have_paths(&self)
        ensures { IsTrue is_modelled → FilesHavePaths (at self.now).world };

    /// Returns how many calls failed, at most `u64::MAX`. The call takes no memory.
    fn failures(&self) -> u64
        ensures { result ≡ (at self.now).counts.failures };

    /// Returns how many times `spawn` was called, at most `u64::MAX`. The call takes no memory.
    fn starts(&self) -> u64
        ensures { result ≡ (at self.now).counts.starts.count };

    /// Returns the number of counted calls other than `finish` since the last failure, at most
    /// `u64::MAX`. If no call failed, the number is 0. Calls on `&self`, and `watch`, are not
    /// counted. The call takes no memory.
    fn late(&self) -> u64
        ensures { result ≡ (at self.now).counts.late };

    /// Returns the greatest number of children that were ever in flight at a time. The call takes
    /// no memory.
    fn most(&self) -> u64
        ensures { result ≡ (at self.now).most };
}
