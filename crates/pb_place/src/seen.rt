//! A place that counts the calls after the first failing call.

ghost use Rattle.std.specs.Prelude.{◌≡◌, ◌≢◌, ℕ, Bool, true, false, IfOk, IfErr, OnOk, OnErr, IsTrue, IfSome, take};
ghost use Rattle.std.specs.FinMap as map;
ghost use Rattle.std.specs.List.{concat};
ghost use Rattle.std.specs.Option.{option_map};
ghost use Rattle.pb_place_types.specs.At.{IsUnchanged, LooksOnce, ChangesOnce, Spawns, Finishes, Starts};
ghost use Rattle.pb_place_types.specs.Paths.{is_at_or_below};
ghost use Rattle.pb_place_types.specs.World.{has_file, written, removed, listed, listed_directly, listed_folders, Torn, PartlyRemoved, Ends};
ghost use Rattle.pb_place_types.specs.declared.call.Call.TheVariants as call;
ghost use Rattle.pb_place_types.specs.Children.{is_flying, child_at, LandsAs};
ghost use Rattle.pb_place.specs.Seen.{call_failed, start_failed, seen, seen_end};

use pb_data::{Bytes, Items, Text};
use pb_place_types::{Command, Ended, Moved, PathFault, PathText, Place, PlaceFault, StartFault};
use std::alloc::{AllocError, Global};

/// A place that passes every call on to another place, and counts the calls after the first failing
/// call. `finish` is not counted, because children in flight must be waited for after a failure.
/// Running out of memory is not a failure.
#[derive(Drop)]
pub struct Seen<P> {
    /// The place to which the calls are passed.
    pub place: P,
    /// Whether a call has failed.
    pub faulted: bool,
    /// The number of calls other than `finish` after the first failing call, at most `u64::MAX`.
    pub after: u64,
}

/// Returns whether a call on files or variables failed.
fn call_failed<T>(answer: &Result<T, PlaceFault>) -> bool
    ensures { result ≡ call_failed answer.now }
{
    match answer {
        Ok(_) | Err(PlaceFault::OutOfMemory) => false,
        Err(_) => true,
    }
}

/// Returns whether a child could not be started, or did not reply.
fn start_failed<T>(answer: &Result<T, StartFault>) -> bool
    ensures { result ≡ start_failed answer.now }
{
    match answer {
        Ok(_) | Err(StartFault::OutOfMemory) => false,
        Err(_) => true,
    }
}

impl<P> Seen<P> {
    /// Returns a place over another place, before any call has failed.
    pub fn new(place: P) -> Seen<P>
        ensures { result ≡ record { place = place; faulted = false; after = 0 } }
    {
        Seen {
            place,
            faulted: false,
            after: 0,
        }
    }

    /// Counts a call, whether or not it failed.
    fn note(&mut self, failed: bool)
        ensures seen { (self.new.faulted, self.new.after)
            ≡ seen failed (self.old.faulted, self.old.after) }
        ensures place { self.new.place ≡ self.old.place }
    {
        if self.faulted {
            self.after = self.after.saturating_add(1);
        }
        self.faulted = self.faulted || failed;
    }

    /// Records a `finish`, whether or not it failed.
    fn note_end(&mut self, failed: bool)
        ensures seen { (self.new.faulted, self.new.after)
            ≡ seen_end failed (self.old.faulted, self.old.after) }
        ensures place { self.new.place ≡ self.old.place }
    {
        self.faulted = self.faulted || failed;
    }
}

impl<P: Place> Place for Seen<P> {
    ghost is_modelled = { P.is_modelled };

    ghost at = { λ s. P.at s.place };

    ghost child = { P.child };

    ghost fails = { λ s. P.fails s.place };

    fn read(&mut self, alloc: Global, path: &PathText) -> Result<Option<Bytes>, PlaceFault>
        ensures ok { IsTrue P.is_modelled → IfOk result
            (λ found. found ≡ map.get (P.at self.old.place).world.files path.now) }
        ensures looks { LooksOnce (call.Read path.now) result
            (P.at self.old.place) (P.at self.new.place) }
        ensures fails { IfErr result (λ e. e ≢ PlaceFault.OutOfMemory → P.fails self.old.place) }
        ensures seen { (self.new.faulted, self.new.after)
            ≡ seen (call_failed result) (self.old.faulted, self.old.after) }
    {
        let answer = self.place.read(alloc, path);
        self.note(call_failed(&answer));
        answer
    }

    fn read_first(
        &mut self,
        alloc: Global,
        path: &PathText,
        most: usize,
    ) -> Result<Option<Bytes>, PlaceFault>
        ensures ok { IsTrue P.is_modelled → IfOk result (λ found. found
            ≡ option_map (take most) (map.get (P.at self.old.place).world.files path.now)) }
        ensures looks { LooksOnce (call.Read path.now) result
            (P.at self.old.place) (P.at self.new.place) }
        ensures fails { IfErr result (λ e. e ≢ PlaceFault.OutOfMemory → P.fails self.old.place) }
        ensures seen { (self.new.faulted, self.new.after)
            ≡ seen (call_failed result) (self.old.faulted, self.old.after) }
    {
        let answer = self.place.read_first(alloc, path, most);
        self.note(call_failed(&answer));
        answer
    }

    fn is_file(&mut self, alloc: Global, path: &PathText) -> Result<bool, PlaceFault>
        ensures ok { IsTrue P.is_modelled → IfOk result
            (λ answer. answer ≡ has_file path.now (P.at self.old.place).world) }
        ensures looks { LooksOnce (call.IsFile path.now) result
            (P.at self.old.place) (P.at self.new.place) }
        ensures fails { IfErr result (λ e. e ≢ PlaceFault.OutOfMemory → P.fails self.old.place) }
        ensures seen { (self.new.faulted, self.new.after)
            ≡ seen (call_failed result) (self.old.faulted, self.old.after) }
    {
        let answer = self.place.is_file(alloc, path);
        self.note(call_failed(&answer));
        answer
    }

    fn list(&mut self, alloc: Global, folder: &PathText) -> Result<Items<PathText>, PlaceFault>
        ensures ok { IsTrue P.is_modelled → IfOk result
            (λ paths. paths ≡ listed folder.now (P.at self.old.place).world) }
        ensures looks { LooksOnce (call.List folder.now) result
            (P.at self.old.place) (P.at self.new.place) }
        ensures fails { IfErr result (λ e. e ≢ PlaceFault.OutOfMemory → P.fails self.old.place) }
        ensures seen { (self.new.faulted, self.new.after)
            ≡ seen (call_failed result) (self.old.faulted, self.old.after) }
    {
        let answer = self.place.list(alloc, folder);
        self.note(call_failed(&answer));
        answer
    }

    fn list_outside(
        &mut self,
        alloc: Global,
        folder: &PathText,
        left_out: &PathText,
    ) -> Result<Items<PathText>, PlaceFault>
        ensures ok { IsTrue P.is_modelled → IfOk result
            (λ paths. paths
            ≡ listed folder.now (removed left_out.now (P.at self.old.place).world)) }
        ensures looks { LooksOnce (call.ListOutside folder.now left_out.now) result
            (P.at self.old.place) (P.at self.new.place) }
        ensures fails { IfErr result (λ e. e ≢ PlaceFault.OutOfMemory → P.fails self.old.place) }
        ensures seen { (self.new.faulted, self.new.after)
            ≡ seen (call_failed result) (self.old.faulted, self.old.after) }
    {
        let answer = self.place.list_outside(alloc, folder, left_out);
        self.note(call_failed(&answer));
        answer
    }

    fn list_directly(
        &mut self,
        alloc: Global,
        folder: &PathText,
    ) -> Result<Items<PathText>, PlaceFault>
        ensures ok { IsTrue P.is_modelled → IfOk result
            (λ paths. paths ≡ listed_directly folder.now (P.at self.old.place).world) }
        ensures looks { LooksOnce (call.ListDirectly folder.now) result
            (P.at self.old.place) (P.at self.new.place) }
        ensures fails { IfErr result (λ e. e ≢ PlaceFault.OutOfMemory → P.fails self.old.place) }
        ensures seen { (self.new.faulted, self.new.after)
            ≡ seen (call_failed result) (self.old.faulted, self.old.after) }
    {
        let answer = self.place.list_directly(alloc, folder);
        self.note(call_failed(&answer));
        answer
    }

    fn list_folders(
        &mut self,
        alloc: Global,
        folder: &PathText,
        left_out: &PathText,
    ) -> Result<Items<PathText>, PlaceFault>
        ensures ok { IsTrue P.is_modelled → IfOk result (λ folders. folders
            ≡ listed_folders folder.now (removed left_out.now (P.at self.old.place).world)) }
        ensures looks { LooksOnce (call.ListFolders folder.now left_out.now) result
            (P.at self.old.place) (P.at self.new.place) }
        ensures fails { IfErr result (λ e. e ≢ PlaceFault.OutOfMemory → P.fails self.old.place) }
        ensures seen { (self.new.faulted, self.new.after)
            ≡ seen (call_failed result) (self.old.faulted, self.old.after) }
    {
        let answer = self.place.list_folders(alloc, folder, left_out);
        self.note(call_failed(&answer));
        answer
    }

    fn write(&mut self, alloc: Global, path: &PathText, bytes: &[u8]) -> Result<(), PlaceFault>
        ensures ok { IsTrue P.is_modelled → OnOk result
            ((P.at self.new.place).world ≡ written path.now bytes.now (P.at self.old.place).world) }
        ensures err { IsTrue P.is_modelled → OnErr result
            (Torn path.now bytes.now (P.at self.old.place).world (P.at self.new.place).world) }
        ensures changes { ChangesOnce (is_at_or_below path.now) (call.Write path.now) result
            (P.at self.old.place) (P.at self.new.place) }
        ensures fails { IfErr result (λ e. e ≢ PlaceFault.OutOfMemory → P.fails self.old.place) }
        ensures seen { (self.new.faulted, self.new.after)
            ≡ seen (call_failed result) (self.old.faulted, self.old.after) }
    {
        let answer = self.place.write(alloc, path, bytes);
        self.note(call_failed(&answer));
        answer
    }

    fn write_pieces(
        &mut self,
        alloc: Global,
        path: &PathText,
        pieces: &[Bytes],
    ) -> Result<(), PlaceFault>
        ensures ok { IsTrue P.is_modelled → OnOk result ((P.at self.new.place).world
            ≡ written path.now (concat pieces.now) (P.at self.old.place).world) }
        ensures err { IsTrue P.is_modelled → OnErr result (Torn path.now (concat pieces.now)
            (P.at self.old.place).world (P.at self.new.place).world) }
        ensures changes { ChangesOnce (is_at_or_below path.now) (call.Write path.now) result
            (P.at self.old.place) (P.at self.new.place) }
        ensures fails { IfErr result (λ e. e ≢ PlaceFault.OutOfMemory → P.fails self.old.place) }
        ensures seen { (self.new.faulted, self.new.after)
            ≡ seen (call_failed result) (self.old.faulted, self.old.after) }
    {
        let answer = self.place.write_pieces(alloc, path, pieces);
        self.note(call_failed(&answer));
        answer
    }

    fn remove_tree(&mut self, alloc: Global, path: &PathText) -> Result<(), PlaceFault>
        ensures ok { IsTrue P.is_modelled → OnOk result
            ((P.at self.new.place).world ≡ removed path.now (P.at self.old.place).world) }
        ensures err { IsTrue P.is_modelled → OnErr result
            (PartlyRemoved path.now (P.at self.old.place).world (P.at self.new.place).world) }
        ensures changes { ChangesOnce (is_at_or_below path.now) (call.Remove path.now) result
            (P.at self.old.place) (P.at self.new.place) }
        ensures fails { IfErr result (λ e. e ≢ PlaceFault.OutOfMemory → P.fails self.old.place) }
        ensures seen { (self.new.faulted, self.new.after)
            ≡ seen (call_failed result) (self.old.faulted, self.old.after) }
    {
        let answer = self.place.remove_tree(alloc, path);
        self.note(call_failed(&answer));
        answer
    }

    fn variable(&mut self, alloc: Global, name: &str) -> Result<Option<Text>, PlaceFault>
        ensures ok { IsTrue P.is_modelled → IfOk result
            (λ found. found ≡ map.get (P.at self.old.place).world.variables name.now) }
        ensures looks { LooksOnce (call.Variable name.now) result
            (P.at self.old.place) (P.at self.new.place) }
        ensures fails { IfErr result (λ e. e ≢ PlaceFault.OutOfMemory → P.fails self.old.place) }
        ensures seen { (self.new.faulted, self.new.after)
            ≡ seen (call_failed result) (self.old.faulted, self.old.after) }
    {
        let answer = self.place.variable(alloc, name);
        self.note(call_failed(&answer));
        answer
    }

    fn spawn(&mut self, alloc: Global, command: &Command) -> Result<u64, StartFault>
        ensures spawns { Spawns P.child command.now result
            (P.at self.old.place) (P.at self.new.place) }
        ensures fails { IfErr result (λ e. e ≢ StartFault.OutOfMemory → P.fails self.old.place) }
        ensures later { P.fails self.new.place → P.fails self.old.place }
        ensures seen { (self.new.faulted, self.new.after)
            ≡ seen (start_failed result) (self.old.faulted, self.old.after) }
    {
        let answer = self.place.spawn(alloc, command);
        self.note(start_failed(&answer));
        answer
    }

    fn finish(&mut self, alloc: Global, ticket: u64) -> Result<Ended, StartFault>
        requires flies { is_flying ticket (P.at self.old.place).counts.starts.flying ≡ true }
        ensures ok { IsTrue P.is_modelled → (P.at self.old.place).still ticket → IfOk result
            (λ ended. IfSome (child_at ticket (P.at self.old.place).counts.starts.flying)
            (λ spawned. LandsAs spawned (P.at self.old.place).world ended
            (P.at self.new.place).world)) }
        ensures finishes { Finishes ticket result (P.at self.old.place) (P.at self.new.place) }
        ensures fails { IfErr result (λ e. e ≢ StartFault.OutOfMemory → P.fails self.old.place) }
        ensures seen { (self.new.faulted, self.new.after)
            ≡ seen_end (start_failed result) (self.old.faulted, self.old.after) }
    {
        let answer = self.place.finish(alloc, ticket);
        self.note_end(start_failed(&answer));
        answer
    }

    fn start(&mut self, alloc: Global, command: &Command) -> Result<Ended, StartFault>
        ensures ok { IsTrue P.is_modelled →
            IfOk result (λ ended. Ends (P.child command.now) command.now
            (P.at self.old.place).world ended (P.at self.new.place).world) }
        ensures starts { Starts command.now result (P.at self.old.place) (P.at self.new.place) }
        ensures fails { IfErr result (λ e. e ≢ StartFault.OutOfMemory → P.fails self.old.place) }
        ensures seen { (self.new.faulted, self.new.after)
            ≡ seen (start_failed result) (self.old.faulted, self.old.after) }
    {
        let ticket = self.spawn(alloc, command)?;
        self.finish(alloc, ticket)
    }

    fn path_from(
        &self,
        alloc: Global,
        folder: &PathText,
        text: &str,
    ) -> Result<PathText, PathFault> {
        self.place.path_from(alloc, folder, text)
    }

    fn watch(&mut self, alloc: Global, command: &Command, path: &PathText) -> Result<(), AllocError>
        ensures unchanged { IsUnchanged (P.at self.old.place) (P.at self.new.place) }
        ensures faulted { self.new.faulted ≡ self.old.faulted }
        ensures after { self.new.after ≡ self.old.after }
    {
        self.place.watch(alloc, command, path)
    }

    fn stood_still(&self, command: &Command) -> bool {
        self.place.stood_still(command)
    }

    fn moved_paths(&self) -> &[Moved] {
        self.place.moved_paths()
    }

    fn files_have_paths(&self) {
        self.place.files_have_paths();
    }

    fn failures(&self) -> u64 {
        self.place.failures()
    }

    fn starts(&self) -> u64 {
        self.place.starts()
    }

    fn late(&self) -> u64 {
        self.place.late()
    }

    fn most(&self) -> u64 {
        self.place.most()
    }
}
