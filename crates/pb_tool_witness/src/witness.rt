//! A place that notes what a build starts.

ghost use Rattle.std.specs.Prelude.{◌≡◌};
ghost use Rattle.pb_place_types.specs.At.{IsUnchanged};

use crate::notes::Notes;
use crate::noting::Noting;
use crate::remembered::Remembered;
use pb_data::{Bytes, Items, Text};
use pb_place_host::Reporting;
use pb_place_types::{Command, Ended, Moved, PathFault, PathText, Place, PlaceFault, StartFault};
use pb_tool_notes_pages::Remembering;
use pb_tool_reasons::Noted;
use pb_tool_screen::Speaking;
use std::alloc::{AllocError, Global};

/// A place that does what another place does. If noting is on, the place notes how each unit that
/// begins differs from the unit's record. The place learns this from the calls of a build, and
/// makes no call of its own.
///
/// The place also remembers the manifests that it read and the folders that it listed since notes
/// were last switched. A planning reads these manifests and lists these folders, and the second
/// look needs them again.
#[derive(Drop)]
pub struct Witness<P> {
    /// The place that makes the calls.
    inside: P,
    /// What is noted.
    notes: Notes,
    /// What is remembered.
    remembered: Remembered,
}

impl<P: Place + Reporting> Witness<P> {
    /// Returns a place that does what this place does, and notes nothing yet.
    pub fn new(alloc: Global, inside: P) -> Witness<P>
        ensures { IsUnchanged (P.at inside) (⟦<Witness<P> as Place>⟧.at result) }
    {
        Witness {
            inside,
            notes: Notes::new(alloc),
            remembered: Remembered::new(alloc),
        }
    }
}

impl<P: Place + Reporting> Noting for Witness<P> {
    ghost notes = { λ old on new. new.notes.on ≡ on };

    fn note_units(&mut self, alloc: Global, on: bool, values: bool) {
        self.notes.switch(alloc, on, values);
        self.remembered = Remembered::new(alloc);
    }

    fn notes(&self) -> &Noted {
        &self.notes.noted
    }
}

impl<P> Remembering for Witness<P> {
    fn remembered_text(&self, path: &PathText) -> Option<&Bytes> {
        self.remembered.text(path)
    }

    fn remembered_folders(&self, folder: &PathText) -> Option<&Items<PathText>> {
        self.remembered.folders(folder)
    }
}

impl<P: Reporting> Reporting for Witness<P> {
    fn failed_call(&self) -> &[Text] {
        self.inside.failed_call()
    }

    fn failed_child(&self, key: &str) -> &[Text] {
        self.inside.failed_child(key)
    }

    fn answered_query(&self) -> &[Text] {
        self.inside.answered_query()
    }

    fn links_out(&self) -> &[Text] {
        self.inside.links_out()
    }

    fn has_removed(&self) -> bool {
        self.inside.has_removed()
    }
}

impl<P: Speaking + Reporting> Speaking for Witness<P> {
    ghost speaks = { λ old on erases new. P.speaks old.inside on erases new.inside };

    fn speak(&mut self, on: bool, erases: bool) {
        self.inside.speak(on, erases)
    }
}

impl<P: Place + Reporting> Place for Witness<P> {
    ghost is_modelled = { P.is_modelled };

    ghost at = { λ p. P.at p.inside };

    ghost child = { P.child };

    ghost fails = { λ p. P.fails p.inside };

    fn read(&mut self, alloc: Global, path: &PathText) -> Result<Option<Bytes>, PlaceFault> {
        let answer = self.inside.read(alloc, path);
        match &answer {
            Ok(text) => self.notes.note_read(alloc, path, text.as_ref()),
            Err(_) => self.notes.note_failed_read(path),
        }
        answer
    }

    fn read_first(
        &mut self,
        alloc: Global,
        path: &PathText,
        most: usize,
    ) -> Result<Option<Bytes>, PlaceFault> {
        let answer = self.inside.read_first(alloc, path, most);
        if let Ok(text) = &answer {
            self.remembered.note_text(alloc, path, most, text.as_ref());
        }
        answer
    }

    fn is_file(&mut self, alloc: Global, path: &PathText) -> Result<bool, PlaceFault> {
        self.inside.is_file(alloc, path)
    }

    fn list(&mut self, alloc: Global, folder: &PathText) -> Result<Items<PathText>, PlaceFault> {
        let answer = self.inside.list(alloc, folder);
        match &answer {
            Ok(_) => self.notes.note_unit_folder(alloc, folder),
            Err(_) => self.notes.note_failure(),
        }
        answer
    }

    fn list_outside(
        &mut self,
        alloc: Global,
        folder: &PathText,
        left_out: &PathText,
    ) -> Result<Items<PathText>, PlaceFault> {
        let answer = self.inside.list_outside(alloc, folder, left_out);
        match &answer {
            Ok(paths) => self.notes.note_list(alloc, folder, paths),
            Err(_) => self.notes.note_failure(),
        }
        answer
    }

    fn list_directly(
        &mut self,
        alloc: Global,
        folder: &PathText,
    ) -> Result<Items<PathText>, PlaceFault> {
        let answer = self.inside.list_directly(alloc, folder);
        if let Ok(paths) = &answer {
            self.notes.open_records(alloc, folder, paths);
        }
        answer
    }

    fn list_folders(
        &mut self,
        alloc: Global,
        folder: &PathText,
        left_out: &PathText,
    ) -> Result<Items<PathText>, PlaceFault> {
        let answer = self.inside.list_folders(alloc, folder, left_out);
        if let Ok(folders) = &answer {
            self.remembered.note_folders(alloc, folder, folders);
        }
        answer
    }

    fn write(&mut self, alloc: Global, path: &PathText, bytes: &[u8]) -> Result<(), PlaceFault> {
        self.notes.go_on();
        self.inside.write(alloc, path, bytes)
    }

    fn write_pieces(
        &mut self,
        alloc: Global,
        path: &PathText,
        pieces: &[Bytes],
    ) -> Result<(), PlaceFault> {
        self.notes.go_on();
        self.inside.write_pieces(alloc, path, pieces)
    }

    fn remove_tree(&mut self, alloc: Global, path: &PathText) -> Result<(), PlaceFault> {
        let answer = self.inside.remove_tree(alloc, path);
        match &answer {
            Ok(()) => self.notes.note_removal(path, self.inside.has_removed()),
            Err(_) => self.notes.note_failure(),
        }
        answer
    }

    fn variable(&mut self, alloc: Global, name: &str) -> Result<Option<Text>, PlaceFault> {
        let answer = self.inside.variable(alloc, name);
        match &answer {
            Ok(text) => self.notes.note_variable(alloc, name, text.as_ref()),
            Err(_) => self.notes.note_failure(),
        }
        answer
    }

    fn spawn(&mut self, alloc: Global, command: &Command) -> Result<u64, StartFault> {
        let answer = self.inside.spawn(alloc, command);
        match &answer {
            Ok(_) => self.notes.note_child(alloc, command),
            Err(_) => self.notes.note_failure(),
        }
        answer
    }

    fn finish(&mut self, alloc: Global, ticket: u64) -> Result<Ended, StartFault> {
        self.notes.go_on();
        self.inside.finish(alloc, ticket)
    }

    fn path_from(
        &self,
        alloc: Global,
        folder: &PathText,
        text: &str,
    ) -> Result<PathText, PathFault> {
        self.inside.path_from(alloc, folder, text)
    }

    fn watch(
        &mut self,
        alloc: Global,
        command: &Command,
        path: &PathText,
    ) -> Result<(), AllocError> {
        self.inside.watch(alloc, command, path)
    }

    fn stood_still(&self, command: &Command) -> bool {
        self.inside.stood_still(command)
    }

    fn moved_paths(&self) -> &[Moved] {
        self.inside.moved_paths()
    }

    fn files_have_paths(&self) {
        self.inside.files_have_paths()
    }

    fn failures(&self) -> u64 {
        self.inside.failures()
    }

    fn starts(&self) -> u64 {
        self.inside.starts()
    }

    fn late(&self) -> u64 {
        self.inside.late()
    }

    fn most(&self) -> u64 {
        self.inside.most()
    }
}
