//! A place of real files, variables and children.

ghost use Rattle.std.specs.Prelude.{◌≡◌, ◌≢◌, ◌⊎◌, ℕ, ◌+◌, true, false, length, Err, IfOk, IfErr, OnOk, OnErr, IfSome};
ghost use Rattle.std.specs.FinMap as map;
ghost use Rattle.pb_place_types.specs.Counts.{no_calls, without};
ghost use Rattle.pb_place_types.specs.Children.{is_flying, most_after};
ghost use Rattle.pb_place.specs.InFlight.{children_in};
ghost use Rattle.pb_place.specs.Tallies.{flown};
ghost use Rattle.pb_place_host.specs.Flying.{silent_child};

use crate::children::{Running, Spawned, add_child, child_in_flight, parts_of, start_child};
use crate::known::{Known, answered_variable, note_answer, note_end, note_start};
use crate::leading_out::links_out;
use crate::listing::{files_below, files_directly, files_outside, folders_directly};
use crate::meaning::path_from;
use crate::moving::{Moment, first_moved};
use crate::reading::{file_at, first_of, is_file, variable_of};
use crate::report::Report;
use crate::reporting::Reporting;
use crate::writing::{remove_tree, write_file, write_file_pieces};
use pb_data::{Bytes, Items, Text, TryCopy, with_next};
use pb_place::Tally;
use pb_place::in_flight::{Flying, flies, free_ticket, take_out};
use pb_place_types::{
    Call, Command, Ended, Moved, PathFault, PathText, Place, PlaceFault, StartFault,
};
use std::alloc::{AllocError, Global};
use std::process::{Child, Processes};
use std::rt::{Env, Files};

/// A place of real files, variables and children, over a runtime. Contracts do not see the maps of
/// this place, since no contract can say what a disk contains. Calls are counted as at every place.
///
/// The place follows links. The following rules and limits are our own choice:
/// - A path is absent if nothing is there, if its link leads nowhere, or if something other than a
///   file or a folder is there.
/// - Reading fails for a file of more than 4,294,967,296 bytes, and for a variable whose value is
///   not UTF-8.
/// - Listing fails for a folder that contains a name that is not UTF-8. `list_directly` and
///   `list_folders` skip such a name.
/// - `list_folders` also returns folders without files.
/// - Listing fails for a folder with folders more than 128 levels below it.
/// - A folder below a listed folder counts as absent if it has the tag that this builder writes in
///   target folders.
/// - A removal that is refused is tried once more, after the folders there were made writable.
/// - A removal removes a link itself, and not the file or folder to which the link leads.
///
/// A child inherits the variables of this process, and the variables of its command override these.
/// The child starts in the folder of the command, with an empty standard input. A program without a
/// slash in its name is looked for in the folders of this process's `PATH`. No contract says what a
/// child changes on the disk. Children in flight run side by side. A child that writes more than a
/// pipe holds waits for its `finish`. All children stay in the process group of this program. A
/// child whose place is dropped before its `finish` is neither waited for nor ended.
///
/// A child's output folder is made just before the spawn. A path that the child read has moved if
/// the path has changed since the folder was made. The change times of files and folders (`ctime`)
/// decide whether a path has changed. No program can set these times.
#[derive(Drop)]
pub struct HostPlace<'a, R: Processes> {
    runtime: &'a R,
    tally: Tally,
    flying: Vec<Flying<Running<Child<R::Started>>>>,
    most: u64,
    /// The child that ended last.
    ended: Option<Spawned>,
    moved: Vec<Moved>,
    /// Whether something was at the path of the last `remove_tree`.
    has_removed: bool,
    /// What is known of the calls and the children that failed.
    known: Known,
}

impl<'a, R: Files + Env + Processes + AllocGlobal> HostPlace<'a, R> {
    /// Returns the place over a runtime, before any call. This uses no memory.
    pub fn new(alloc: Global, runtime: &'a R) -> HostPlace<'a, R>
        ensures counts { (⟦<HostPlace<'a, R> as Place>⟧.at result).counts ≡ no_calls }
        ensures most { (⟦<HostPlace<'a, R> as Place>⟧.at result).most ≡ 0 }
    {
        HostPlace {
            runtime,
            tally: Tally::new(),
            flying: Vec::new(alloc),
            most: 0,
            ended: None,
            moved: Vec::new(alloc),
            has_removed: false,
            known: Known::new(alloc),
        }
    }

    /// Returns whether a child with this ticket is in flight. This function is not a call of the
    /// place, and uses no memory.
    pub fn flies(&self, ticket: u64) -> bool
        ensures { result ≡ is_flying ticket
            (⟦<HostPlace<'a, R> as Place>⟧.at self.now).counts.starts.flying }
    {
        flies(self.flying.as_slice(), ticket)
    }

    /// Starts the child of a command, and returns the child's ticket. Space among the children in
    /// flight is reserved first, so no started child is lost if memory runs out.
    fn begin(&mut self, alloc: Global, command: &Command) -> Result<u64, StartFault>
        ensures fresh { IfOk result
            (λ ticket. is_flying ticket (children_in self.old.flying.items) ≡ false) }
        ensures fault { IfErr result
            (λ e. e ≢ StartFault.OutOfMemory → e ≡ StartFault.CannotStart) }
        ensures children { children_in self.new.flying.items
            ≡ flown (silent_child command.now) result (children_in self.old.flying.items) }
        ensures most { self.new.most
            ≡ most_after result (length (children_in self.old.flying.items) + 1) self.old.most }
        ensures tally { self.new.tally ≡ self.old.tally }
    {
        let Some(ticket) = free_ticket(self.flying.as_slice()) else {
            return Err(StartFault::OutOfMemory);
        };
        // Space is reserved before the process starts, so a running process is always known.
        self.flying.reserve(1)?;
        let child = child_in_flight(alloc, command, ticket)?;
        let answer = start_child(self.runtime, alloc, command);
        let answer = note_start(alloc, &mut self.known, command, answer);
        let (child, kept) = with_next(child, answer)?;
        self.most = add_child(&mut self.flying, self.most, Flying { child, kept });
        Ok(ticket)
    }

    /// Waits for the end of a child, and removes the child from the children in flight.
    fn end(&mut self, alloc: Global, ticket: u64) -> Result<Ended, StartFault>
        requires flies { is_flying ticket (children_in self.old.flying.items) ≡ true }
        ensures fault { IfErr result (λ e. e ≢ StartFault.OutOfMemory
            → (e ≡ StartFault.Died) ⊎ (e ≡ StartFault.Capture)) }
        ensures children { children_in self.new.flying.items
            ≡ without ticket (children_in self.old.flying.items) }
        ensures most { self.new.most ≡ self.old.most }
        ensures tally { self.new.tally ≡ self.old.tally }
    {
        let Some(flying) = take_out(&mut self.flying, ticket) else {
            unreachable!();
        };
        let (command, Running { process, spawned }) = parts_of(flying);
        self.ended = spawned;
        let output = process.wait_with_output(alloc);
        let answer = note_end(alloc, &mut self.known, &command, output);
        let links = match &answer {
            Ok(ended) => links_out(self.runtime, alloc, &command, ended.stdout.as_slice()),
            Err(_) => Report::new(alloc),
        };
        self.known.set_links(links);
        answer
    }

    /// Returns when the child with this output folder was spawned. Returns a time only if this
    /// child was the last to end and the time is known.
    fn since(&self, out: &PathText) -> Option<Moment> {
        match &self.ended {
            Some(spawned) if &spawned.out == out => spawned.since,
            _ => None,
        }
    }

    /// Returns whether the child with this output folder read a path that has moved.
    fn has_moved(&self, out: &PathText) -> bool {
        self.moved.iter().any(|moved| &moved.out == out)
    }

    /// Looks, at and below a path, for a path that has moved since the child with this output
    /// folder was spawned. Remembers the first such path. If the time of the spawn is unknown, the
    /// given path counts as moved. Nothing is done if a moved path is already known for this child.
    fn look_for(
        &mut self,
        alloc: Global,
        target: &PathText,
        out: &PathText,
        path: &PathText,
    ) -> Result<(), AllocError>
        ensures flying { self.new.flying ≡ self.old.flying }
        ensures tally { self.new.tally ≡ self.old.tally }
        ensures most { self.new.most ≡ self.old.most }
    {
        if self.has_moved(out) {
            return Ok(());
        }
        let found = match self.since(out) {
            Some(since) => first_moved(self.runtime, alloc, since, target, path)?,
            None => Some(path.copy(alloc)?),
        };
        if let Some(path) = found {
            let (path, out) = with_next(path, out.copy(alloc))?;
            self.moved.push(Moved { path, out })?;
        }
        Ok(())
    }
}

impl<'a, R: Files + Env + Processes + AllocGlobal> Reporting for HostPlace<'a, R> {
    fn failed_call(&self) -> &[Text] {
        self.known.call()
    }

    fn failed_child(&self, key: &str) -> &[Text] {
        self.known.child(key)
    }

    fn answered_query(&self) -> &[Text] {
        self.known.query()
    }

    fn links_out(&self) -> &[Text] {
        self.known.links()
    }

    fn has_removed(&self) -> bool {
        self.has_removed
    }
}

#[tactic(auto, using(pb_place::proofs::InFlight::tally_laws))]
impl<'a, R: Files + Env + Processes + AllocGlobal> Place for HostPlace<'a, R> {
    ghost use Rattle.std.specs.Prelude.{false};
    ghost use Rattle.pb_place.specs.InFlight.{children_in};
    ghost use Rattle.pb_place.specs.Tallies.{with_children};
    ghost use Rattle.pb_place_host.specs.Flying.{no_world, silent};

    ghost is_modelled = { false };

    ghost at = { λ p. record {
      world = no_world;
      counts = with_children (children_in p.flying.items) p.tally;
      most = p.most;
      still = λ _. Unit {0};
      moved = p.moved.items;
    } };

    ghost child = { silent };

    ghost fails = { λ _. Unit {0} };

    fn read(&mut self, alloc: Global, path: &PathText) -> Result<Option<Bytes>, PlaceFault> {
        let call = self.tally.note_call(Call::read(alloc, path))?;
        let answer = file_at(self.runtime, path.as_str());
        let answer = note_answer(alloc, &mut self.known, path, PlaceFault::Read, answer);
        self.tally.count(call, answer)
    }

    fn read_first(
        &mut self,
        alloc: Global,
        path: &PathText,
        most: usize,
    ) -> Result<Option<Bytes>, PlaceFault> {
        let call = self.tally.note_call(Call::read(alloc, path))?;
        let answer = first_of(self.runtime, path.as_str(), most);
        let answer = note_answer(alloc, &mut self.known, path, PlaceFault::Read, answer);
        self.tally.count(call, answer)
    }

    fn is_file(&mut self, alloc: Global, path: &PathText) -> Result<bool, PlaceFault> {
        let call = self.tally.note_call(Call::is_file(alloc, path))?;
        let answer = is_file(self.runtime, path.as_str());
        let answer = note_answer(alloc, &mut self.known, path, PlaceFault::Read, answer);
        self.tally.count(call, answer)
    }

    fn list(&mut self, alloc: Global, folder: &PathText) -> Result<Items<PathText>, PlaceFault> {
        let call = self.tally.note_call(Call::list(alloc, folder))?;
        let answer = files_below(self.runtime, alloc, folder);
        let answer = note_answer(alloc, &mut self.known, folder, PlaceFault::List, answer);
        self.tally.count(call, answer)
    }

    fn list_outside(
        &mut self,
        alloc: Global,
        folder: &PathText,
        left_out: &PathText,
    ) -> Result<Items<PathText>, PlaceFault> {
        let call = self
            .tally
            .note_call(Call::list_outside(alloc, folder, left_out))?;
        let answer = files_outside(self.runtime, alloc, folder, left_out);
        let answer = note_answer(alloc, &mut self.known, folder, PlaceFault::List, answer);
        self.tally.count(call, answer)
    }

    fn list_directly(
        &mut self,
        alloc: Global,
        folder: &PathText,
    ) -> Result<Items<PathText>, PlaceFault> {
        let call = self.tally.note_call(Call::list_directly(alloc, folder))?;
        let answer = files_directly(self.runtime, alloc, folder);
        let answer = note_answer(alloc, &mut self.known, folder, PlaceFault::List, answer);
        self.tally.count(call, answer)
    }

    fn list_folders(
        &mut self,
        alloc: Global,
        folder: &PathText,
        left_out: &PathText,
    ) -> Result<Items<PathText>, PlaceFault> {
        let call = self
            .tally
            .note_call(Call::list_folders(alloc, folder, left_out))?;
        let answer = folders_directly(self.runtime, alloc, folder, left_out);
        let answer = note_answer(alloc, &mut self.known, folder, PlaceFault::List, answer);
        self.tally.count(call, answer)
    }

    fn write(&mut self, alloc: Global, path: &PathText, bytes: &[u8]) -> Result<(), PlaceFault> {
        let call = self.tally.note_call(Call::write(alloc, path))?;
        let answer = write_file(self.runtime, alloc, path, bytes);
        let answer = note_answer(alloc, &mut self.known, path, PlaceFault::Write, answer);
        self.tally.count(call, answer)
    }

    fn write_pieces(
        &mut self,
        alloc: Global,
        path: &PathText,
        pieces: &[Bytes],
    ) -> Result<(), PlaceFault> {
        let call = self.tally.note_call(Call::write(alloc, path))?;
        let written = write_file_pieces(self.runtime, alloc, path, pieces);
        let answer = note_answer(alloc, &mut self.known, path, PlaceFault::Write, written);
        self.tally.count(call, answer)
    }

    fn remove_tree(&mut self, alloc: Global, path: &PathText) -> Result<(), PlaceFault> {
        let call = self.tally.note_call(Call::remove(alloc, path))?;
        let answer = match remove_tree(self.runtime, path.as_str()) {
            Ok(was_there) => {
                self.has_removed = was_there;
                Ok(())
            }
            Err(failed) => Err(failed),
        };
        let answer = note_answer(alloc, &mut self.known, path, PlaceFault::Remove, answer);
        self.tally.count(call, answer)
    }

    fn variable(&mut self, alloc: Global, name: &str) -> Result<Option<Text>, PlaceFault> {
        let call = self.tally.note_call(Call::variable(alloc, name))?;
        let answer = variable_of(self.runtime, name);
        let answer = answered_variable(alloc, &mut self.known, name, answer);
        self.tally.count(call, answer)
    }

    fn spawn(&mut self, alloc: Global, command: &Command) -> Result<u64, StartFault> {
        let answer = self.begin(alloc, command);
        self.tally.count_start(answer)
    }

    fn finish(&mut self, alloc: Global, ticket: u64) -> Result<Ended, StartFault> {
        let answer = self.end(alloc, ticket);
        self.tally.count_finish(answer)
    }

    fn path_from(
        &self,
        alloc: Global,
        folder: &PathText,
        text: &str,
    ) -> Result<PathText, PathFault> {
        path_from(self.runtime, alloc, folder, text)
    }

    fn watch(
        &mut self,
        alloc: Global,
        command: &Command,
        path: &PathText,
    ) -> Result<(), AllocError> {
        match &command.out {
            Some(out) => self.look_for(alloc, &command.target, out, path),
            None => Ok(()),
        }
    }

    fn stood_still(&self, command: &Command) -> bool {
        let reads = command.reads.as_slice();
        !self.moved.iter().any(|moved| command.out.as_ref() == Some(&moved.out)
            || reads.contains(&moved.out))
    }

    fn moved_paths(&self) -> &[Moved] {
        self.moved.as_slice()
    }

    fn files_have_paths(&self) {}

    fn failures(&self) -> u64 {
        self.tally.failures()
    }

    fn starts(&self) -> u64 {
        self.tally.starts()
    }

    fn late(&self) -> u64 {
        self.tally.late()
    }

    fn most(&self) -> u64 {
        self.most
    }
}
