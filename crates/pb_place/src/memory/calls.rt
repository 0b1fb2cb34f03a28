//! The calls of a place in memory. Each contract describes more than the trait requires: when the
//! call fails, what a failing call leaves, and how the call uses up fuses and deaths.

ghost use Rattle.std.specs.Prelude.{◌≡◌, ◌≢◌, ◌-◌, true, IfOk, IfErr, OnErr, Err};
ghost use Rattle.std.specs.FinMap as map;
ghost use Rattle.std.specs.List.{concat};
ghost use Rattle.pb_place_types.specs.World.{has_file, removed, listed, listed_directly, listed_folders, ChangesOnly, Torn, PartlyRemoved, Ends};
ghost use Rattle.pb_place_types.specs.Paths.{is_at_or_below};
ghost use Rattle.pb_place_types.specs.CallsInTurn.{own_fault};
ghost use Rattle.pb_place_types.specs.declared.call.Call.TheVariants as call;
ghost use Rattle.pb_place_types.specs.Counts.{past_call, counted_start, counted_spawn, counted_finish};
ghost use Rattle.pb_place_types.specs.Children.{child_spawned, is_flying};
ghost use Rattle.pb_place.specs.InFlight.{children_in};
ghost use Rattle.pb_place.specs.Memory.{at_in, counts_in, may_fail};
ghost use Rattle.pb_place.specs.Fuses.{FailsByFuse, called, fuse_past, after_write, after_removal};
ghost use Rattle.pb_place.specs.Starts.{SpawnFails, SpawnsIn, EndFails, EndsIn, StartFails, StartsIn};

use crate::memory::Memory;
use crate::sight::file_in;
use pb_data::{Bytes, Items, Text};
use pb_place_types::{
    Call, Child, Command, Ended, Moved, PathText, Place, PlaceFault, StartFault, join_pieces,
};
use std::alloc::{AllocError, Global};

impl<C> Memory<C> {
    /// Counts a call that does not fail.
    fn pass(&mut self)
        ensures { self.new
            ≡ record self.old { tally = past_call self.old.tally; fuse = self.old.fuse - 1 } }
    {
        self.tally.pass();
        self.fuse = self.fuse.saturating_sub(1);
    }

    /// Fails with a call's own fault, as the fuse decides. If memory ran out for the call's value,
    /// the fuse does not change.
    fn fail<T>(&mut self, call: Result<Call, AllocError>) -> Result<T, PlaceFault>
        requires fails_now { self.old.fuse ≡ 1 }
        ensures fails_now { IfOk result (λ _. ⊥) }
        ensures fault { IfErr result (λ e. e ≢ PlaceFault.OutOfMemory
            → IfOk call (λ it. e ≡ own_fault it)) }
        ensures state { IfOk call (λ it. self.new ≡ called it result self.old) }
        ensures memory { OnErr call (result ≡ Err PlaceFault.OutOfMemory) }
        ensures refused { OnErr call
            (self.new ≡ record self.old { tally = past_call self.old.tally }) }
    {
        let call = self.tally.note_call(call)?;
        self.fuse = 0;
        let own = call.own_fault();
        self.tally.count(call, Err(own))
    }

    /// Counts a write for which memory ran out before the write changed anything. If the fuse was
    /// set to fail this write, the fuse does not change.
    fn refuse(&mut self)
        ensures { self.new ≡ record self.old {
          tally = past_call self.old.tally;
          fuse = fuse_past PlaceFault.OutOfMemory self.old.fuse;
        } }
    {
        self.tally.pass();
        if self.fuse > 1 {
            self.fuse -= 1;
        }
    }

    /// Fails as a write: writes the first half of the bytes, rounded down, unless memory runs out.
    #[tactic(auto, using(pb_place_types::proofs::Worlds::failing_laws, crate::proofs::Changing::changing_laws))]
    fn tear(&mut self, alloc: Global, path: &PathText, bytes: &[u8]) -> Result<(), PlaceFault>
        requires fails_now { self.old.fuse ≡ 1 }
        ensures fails_now { IfOk result (λ _. ⊥) }
        ensures fault { IfErr result (λ e. e ≢ PlaceFault.OutOfMemory → e ≡ PlaceFault.Write) }
        ensures err { OnErr result (Torn path.now bytes.now self.old.world self.new.world) }
        ensures only { ChangesOnly (is_at_or_below path.now) self.old.world self.new.world }
        ensures state { self.new ≡ record (called (call.Write path.now) result self.old) {
          world = after_write result path.now bytes.now self.old.world;
        } }
    {
        let call = self.tally.note_call(Call::write(alloc, path))?;
        match self.files.insert(alloc, path, &bytes[..bytes.len() / 2]) {
            Ok(()) => {
                self.fuse = 0;
                self.tally.count(call, Err(PlaceFault::Write))
            }
            Err(_) => self.tally.count(call, Err(PlaceFault::OutOfMemory)),
        }
    }

    /// Fails as a removal: removes the first half of the files, rounded down, unless memory runs
    /// out.
    #[tactic(auto, using(crate::proofs::Changing::changing_laws))]
    fn halve(&mut self, alloc: Global, path: &PathText) -> Result<(), PlaceFault>
        requires fails_now { self.old.fuse ≡ 1 }
        ensures fails_now { IfOk result (λ _. ⊥) }
        ensures fault { IfErr result (λ e. e ≢ PlaceFault.OutOfMemory → e ≡ PlaceFault.Remove) }
        ensures err { OnErr result (PartlyRemoved path.now self.old.world self.new.world) }
        ensures only { ChangesOnly (is_at_or_below path.now) self.old.world self.new.world }
        ensures state { self.new ≡ record (called (call.Remove path.now) result self.old) {
          world = after_removal result path.now self.old.world;
        } }
    {
        let call = self.tally.note_call(Call::remove(alloc, path))?;
        match self.files.remove_half(alloc, path) {
            Ok(()) => {
                self.fuse = 0;
                self.tally.count(call, Err(PlaceFault::Remove))
            }
            Err(_) => self.tally.count(call, Err(PlaceFault::OutOfMemory)),
        }
    }
}

#[tactic(auto, using(crate::proofs::InFlight::tally_laws, pb_place_types::proofs::Worlds::failing_laws, crate::proofs::Changing::changing_laws))]
impl<C: Child> Place for Memory<C> {
    ghost is_modelled = { true };

    ghost at = { at_in };

    ghost child = { C.answers };

    ghost fails = { λ m. may_fail m ≡ true };

    fn read(&mut self, alloc: Global, path: &PathText) -> Result<Option<Bytes>, PlaceFault>
        ensures ok { IfOk result (λ found. found ≡ map.get self.old.world.files path.now) }
        ensures answers { FailsByFuse (call.Read path.now) result self.old }
        ensures state { self.new ≡ called (call.Read path.now) result self.old }
    {
        if self.fuse == 1 {
            return self.fail(Call::read(alloc, path));
        }
        self.pass();
        let found = file_in(alloc, &self.files, path)?;
        Ok(found)
    }

    fn is_file(&mut self, alloc: Global, path: &PathText) -> Result<bool, PlaceFault>
        ensures ok { IfOk result (λ answer. answer ≡ has_file path.now self.old.world) }
        ensures answers { FailsByFuse (call.IsFile path.now) result self.old }
        ensures state { self.new ≡ called (call.IsFile path.now) result self.old }
    {
        if self.fuse == 1 {
            return self.fail(Call::is_file(alloc, path));
        }
        self.pass();
        Ok(self.files.has(path))
    }

    fn list(&mut self, alloc: Global, folder: &PathText) -> Result<Items<PathText>, PlaceFault>
        ensures ok { IfOk result (λ paths. paths ≡ listed folder.now self.old.world) }
        ensures answers { FailsByFuse (call.List folder.now) result self.old }
        ensures state { self.new ≡ called (call.List folder.now) result self.old }
    {
        if self.fuse == 1 {
            return self.fail(Call::list(alloc, folder));
        }
        self.pass();
        let paths = self.files.list(alloc, folder)?;
        Ok(paths)
    }

    fn list_outside(
        &mut self,
        alloc: Global,
        folder: &PathText,
        left_out: &PathText,
    ) -> Result<Items<PathText>, PlaceFault>
        ensures ok { IfOk result
            (λ paths. paths ≡ listed folder.now (removed left_out.now self.old.world)) }
        ensures answers { FailsByFuse (call.ListOutside folder.now left_out.now) result self.old }
        ensures state { self.new
            ≡ called (call.ListOutside folder.now left_out.now) result self.old }
    {
        if self.fuse == 1 {
            return self.fail(Call::list_outside(alloc, folder, left_out));
        }
        self.pass();
        let paths = self.files.list_outside(alloc, folder, left_out)?;
        Ok(paths)
    }

    fn list_directly(
        &mut self,
        alloc: Global,
        folder: &PathText,
    ) -> Result<Items<PathText>, PlaceFault>
        ensures ok { IfOk result (λ paths. paths ≡ listed_directly folder.now self.old.world) }
        ensures answers { FailsByFuse (call.ListDirectly folder.now) result self.old }
        ensures state { self.new ≡ called (call.ListDirectly folder.now) result self.old }
    {
        if self.fuse == 1 {
            return self.fail(Call::list_directly(alloc, folder));
        }
        self.pass();
        let paths = self.files.list_directly(alloc, folder)?;
        Ok(paths)
    }

    fn list_folders(
        &mut self,
        alloc: Global,
        folder: &PathText,
        left_out: &PathText,
    ) -> Result<Items<PathText>, PlaceFault>
        ensures ok { IfOk result (λ folders. folders
            ≡ listed_folders folder.now (removed left_out.now self.old.world)) }
        ensures answers { FailsByFuse (call.ListFolders folder.now left_out.now) result self.old }
        ensures state { self.new
            ≡ called (call.ListFolders folder.now left_out.now) result self.old }
    {
        if self.fuse == 1 {
            return self.fail(Call::list_folders(alloc, folder, left_out));
        }
        self.pass();
        let folders = self.files.list_folders(alloc, folder, left_out)?;
        Ok(folders)
    }

    fn write(&mut self, alloc: Global, path: &PathText, bytes: &[u8]) -> Result<(), PlaceFault>
        ensures answers { FailsByFuse (call.Write path.now) result self.old }
        ensures err { OnErr result (Torn path.now bytes.now self.old.world self.new.world) }
        ensures only { ChangesOnly (is_at_or_below path.now) self.old.world self.new.world }
        ensures state { self.new ≡ record (called (call.Write path.now) result self.old) {
          world = after_write result path.now bytes.now self.old.world;
        } }
    {
        if self.fuse == 1 {
            return self.tear(alloc, path, bytes);
        }
        self.pass();
        self.files.insert(alloc, path, bytes)?;
        Ok(())
    }

    fn write_pieces(
        &mut self,
        alloc: Global,
        path: &PathText,
        pieces: &[Bytes],
    ) -> Result<(), PlaceFault>
        ensures answers { FailsByFuse (call.Write path.now) result self.old }
        ensures err { OnErr result
            (Torn path.now (concat pieces.now) self.old.world self.new.world) }
        ensures only { ChangesOnly (is_at_or_below path.now) self.old.world self.new.world }
        ensures state { self.new ≡ record (called (call.Write path.now) result self.old) {
          world = after_write result path.now (concat pieces.now) self.old.world;
        } }
    {
        match join_pieces(alloc, pieces) {
            Ok(bytes) => self.write(alloc, path, bytes.as_slice()),
            Err(_) => {
                self.refuse();
                Err(PlaceFault::OutOfMemory)
            }
        }
    }

    fn remove_tree(&mut self, alloc: Global, path: &PathText) -> Result<(), PlaceFault>
        ensures answers { FailsByFuse (call.Remove path.now) result self.old }
        ensures err { OnErr result (PartlyRemoved path.now self.old.world self.new.world) }
        ensures only { ChangesOnly (is_at_or_below path.now) self.old.world self.new.world }
        ensures state { self.new ≡ record (called (call.Remove path.now) result self.old) {
          world = after_removal result path.now self.old.world;
        } }
    {
        if self.fuse == 1 {
            return self.halve(alloc, path);
        }
        self.pass();
        self.files.remove(alloc, path)?;
        Ok(())
    }

    fn variable(&mut self, alloc: Global, name: &str) -> Result<Option<Text>, PlaceFault>
        ensures ok { IfOk result (λ found. found ≡ map.get self.old.world.variables name.now) }
        ensures answers { FailsByFuse (call.Variable name.now) result self.old }
        ensures state { self.new ≡ called (call.Variable name.now) result self.old }
    {
        if self.fuse == 1 {
            return self.fail(Call::variable(alloc, name));
        }
        self.pass();
        let found = self.variables.get(alloc, name)?;
        Ok(found)
    }

    fn spawn(&mut self, alloc: Global, command: &Command) -> Result<u64, StartFault>
        ensures answers { SpawnFails command.now.out result self.old }
        ensures spawns { SpawnsIn C.answers command.now result self.old self.new }

        // How the call is counted.
        ensures tally { self.new.tally ≡ counted_start result self.old.tally }
        ensures counts { counts_in self.new
            ≡ counted_spawn (child_spawned (C.answers command.now) command.now self.old.world)
            result (counts_in self.old) }

        // If the start fails, or a later call can fail, then calls could already fail before the
        // start.
        ensures fails { IfErr result (λ e. e ≢ StartFault.OutOfMemory → may_fail self.old ≡ true) }
        ensures later { may_fail self.new ≡ true → may_fail self.old ≡ true }
    {
        let answer = self.begin(alloc, command);
        self.tally.count_start(answer)
    }

    fn finish(&mut self, alloc: Global, ticket: u64) -> Result<Ended, StartFault>
        requires flies { is_flying ticket (children_in self.old.flying) ≡ true }
        ensures answers { EndFails ticket result self.old }
        ensures ends { EndsIn ticket result self.old self.new }
        ensures counts { counts_in self.new ≡ counted_finish ticket result (counts_in self.old) }
        ensures fails { IfErr result (λ e. e ≢ StartFault.OutOfMemory → may_fail self.old ≡ true) }
    {
        let answer = self.end(alloc, ticket);
        self.tally.count_finish(answer)
    }

    fn start(&mut self, alloc: Global, command: &Command) -> Result<Ended, StartFault>
        ensures ok { IfOk result (λ ended.
            Ends (C.answers command.now) command.now self.old.world ended self.new.world) }
        ensures answers { StartFails command.now.out result self.old self.new }
        ensures starts { StartsIn C.answers command.now result self.old self.new }
        ensures counts { counts_in self.new ≡ counted_start result (counts_in self.old) }
        ensures fails { IfErr result (λ e. e ≢ StartFault.OutOfMemory → may_fail self.old ≡ true) }
    {
        let ticket = self.spawn(alloc, command)?;
        self.finish(alloc, ticket)
    }

    fn moved_paths(&self) -> &[Moved] {
        &[]
    }

    fn files_have_paths(&self) {
        self.files.have_paths();
    }

    fn failures(&self) -> u64 {
        self.tally.failures()
    }

    fn starts(&self) -> u64 {
        self.tally.starts()
    }

    fn late(&self) -> u64 {
        self.tally.late()
    }

    fn most(&self) -> u64 {
        self.most
    }
}
