//! A place in memory of whose files contracts know nothing.

use pb_data::{Bytes, Items, Text};
use pb_place::Memory;
use pb_place_types::{Child, Command, Ended, Moved, PathText, Place, PlaceFault, StartFault};
use std::alloc::Global;

/// A place in memory that is not modelled: clauses about files and answers do not apply to it. A
/// test can edit the files between two calls of a store, and proves nothing about them.
#[derive(Drop)]
pub struct Untold<C> {
    /// The place in memory, to which each call goes.
    pub inside: Memory<C>,
}

impl<C: Child> Place for Untold<C> {
    ghost use Rattle.std.specs.Prelude.{◌≡◌, false, true};
    ghost use Rattle.pb_place.specs.Memory.{at_in, may_fail};

    ghost is_modelled = { false };

    ghost at = { λ p. at_in p.inside };

    ghost child = { C.answers };

    ghost fails = { λ p. may_fail p.inside ≡ true };

    fn read(&mut self, alloc: Global, path: &PathText) -> Result<Option<Bytes>, PlaceFault> {
        self.inside.read(alloc, path)
    }

    fn is_file(&mut self, alloc: Global, path: &PathText) -> Result<bool, PlaceFault> {
        self.inside.is_file(alloc, path)
    }

    fn list(&mut self, alloc: Global, folder: &PathText) -> Result<Items<PathText>, PlaceFault> {
        self.inside.list(alloc, folder)
    }

    fn list_outside(
        &mut self,
        alloc: Global,
        folder: &PathText,
        left_out: &PathText,
    ) -> Result<Items<PathText>, PlaceFault> {
        self.inside.list_outside(alloc, folder, left_out)
    }

    fn list_directly(
        &mut self,
        alloc: Global,
        folder: &PathText,
    ) -> Result<Items<PathText>, PlaceFault> {
        self.inside.list_directly(alloc, folder)
    }

    fn list_folders(
        &mut self,
        alloc: Global,
        folder: &PathText,
        left_out: &PathText,
    ) -> Result<Items<PathText>, PlaceFault> {
        self.inside.list_folders(alloc, folder, left_out)
    }

    fn write(&mut self, alloc: Global, path: &PathText, bytes: &[u8]) -> Result<(), PlaceFault> {
        self.inside.write(alloc, path, bytes)
    }

    fn write_pieces(
        &mut self,
        alloc: Global,
        path: &PathText,
        pieces: &[Bytes],
    ) -> Result<(), PlaceFault> {
        self.inside.write_pieces(alloc, path, pieces)
    }

    fn remove_tree(&mut self, alloc: Global, path: &PathText) -> Result<(), PlaceFault> {
        self.inside.remove_tree(alloc, path)
    }

    fn variable(&mut self, alloc: Global, name: &str) -> Result<Option<Text>, PlaceFault> {
        self.inside.variable(alloc, name)
    }

    fn spawn(&mut self, alloc: Global, command: &Command) -> Result<u64, StartFault> {
        self.inside.spawn(alloc, command)
    }

    fn finish(&mut self, alloc: Global, ticket: u64) -> Result<Ended, StartFault> {
        self.inside.finish(alloc, ticket)
    }

    fn moved_paths(&self) -> &[Moved] {
        self.inside.moved_paths()
    }

    fn files_have_paths(&self) {}

    fn failures(&self) -> u64 {
        self.inside.failures()
    }

    fn starts(&self) -> u64 {
        self.inside.starts()
    }

    fn late(&self) -> u64 {
        self.inside.late()
    }

    fn most(&self) -> u64 {
        self.inside.most()
    }
}
