//! A place that names the children that it starts.

ghost use Rattle.std.specs.Prelude.{◌≡◌, Bool};
ghost use Rattle.pb_place_types.specs.At.{IsUnchanged};

use crate::line::ERASE;
use crate::long_record::{long_record_line, may_be_long};
use pb_data::{Bytes, Items, Text};
use pb_place_host::Reporting;
use pb_place_types::{
    Command, Ended, Moved, Out, PathFault, PathText, Place, PlaceFault, StartFault, join_pieces,
    length_of, write_all,
};
use std::alloc::{AllocError, Global};

/// The note that is written if memory runs out for another note.
const NO_MEMORY: &[u8] = b"note: there is no memory to show the note on a long record\n";

/// A place that can also name the children that it starts, and report what failed.
pub trait Speaking: Place + Reporting {
    /// How naming is switched. The relation is between the place before, two settings, and the
    /// place after. The settings are whether the place names children, and whether it erases a
    /// status line.
    ghost speaks: { Self → Bool → Bool → Self → Type 0 };

    /// Sets whether children are named from now on, and whether a status line is erased before each
    /// text. Nothing else of the place changes.
    fn speak(&mut self, on: bool, erases: bool)
        ensures speaks { speaks self.old on erases self.new }
        ensures at { IsUnchanged (Self.at self.old) (Self.at self.new) };
}

/// A place that does what another place does. If children are to be named, a line is written to a
/// sink before each child is started. The line has the program and its arguments, as a shell takes
/// them. The sink for these lines may fail in any way.
#[derive(Drop)]
pub struct Spoken<P, S> {
    /// The place that makes the calls.
    inside: P,
    /// The sink that receives the lines about children.
    aside: S,
    /// Whether the children are named.
    on: bool,
    /// Whether a status line on the sink is erased before each text.
    erases: bool,
}

/// Returns whether a shell takes an argument as it is.
fn is_plain(word: &str) -> bool {
    !word.is_empty()
        && word.chars().all(|letter| {
            letter.is_ascii_alphanumeric() || "_@%+=:,./-".contains(letter)
        })
}

/// Adds an argument as a shell takes it: in quotation marks if it is not plain.
fn push_word(line: &mut String, word: &str) -> Result<(), AllocError> {
    if is_plain(word) {
        line.push_str(word)?;
        return Ok(());
    }
    line.push_str("'")?;
    for letter in word.chars() {
        if letter == '\'' {
            line.push_str("'\\''")?;
        } else {
            line.push(letter)?;
        }
    }
    line.push_str("'")?;
    Ok(())
}

/// Returns the line of a child.
fn line_of(alloc: Global, command: &Command) -> Result<String, AllocError> {
    let mut line = String::new(alloc);
    push_word(&mut line, command.program.as_str())?;
    for word in command.words.as_slice() {
        line.push_str(" ")?;
        push_word(&mut line, word.as_str())?;
    }
    line.push_str("\n")?;
    Ok(line)
}

/// Writes a text to a sink. If `erases` is true, a status line on the sink is erased first.
fn write_text<S: Out>(aside: &mut S, erases: bool, text: &[u8]) {
    if erases {
        let _ = write_all(aside, ERASE);
    }
    let _ = write_all(aside, text);
}

/// Names a child.
fn name<S: Out>(alloc: Global, aside: &mut S, erases: bool, command: &Command) {
    match line_of(alloc, command) {
        Ok(line) => write_text(aside, erases, line.as_bytes()),
        Err(_) => write_text(
            aside,
            erases,
            b"note: there is no memory to show the command of a child process\n",
        ),
    };
}

/// Writes the note on a file that was written, if the file is the long record of a script.
fn weigh<S: Out>(alloc: Global, aside: &mut S, erases: bool, path: &PathText, bytes: &[u8]) {
    match long_record_line(alloc, path, bytes) {
        Ok(Some(line)) => write_text(aside, erases, line.as_bytes()),
        Ok(None) => {}
        Err(_) => write_text(aside, erases, NO_MEMORY),
    };
}

/// Writes the note on a file that was written in pieces, if the file is the long record of a
/// script. The function takes memory for the whole file only if the file may be such a record.
fn weigh_pieces<S: Out>(
    alloc: Global,
    aside: &mut S,
    erases: bool,
    path: &PathText,
    pieces: &[Bytes],
) {
    if !may_be_long(path, length_of(pieces)) {
        return;
    }
    match join_pieces(alloc, pieces) {
        Ok(bytes) => weigh(alloc, aside, erases, path, bytes.as_slice()),
        Err(_) => write_text(aside, erases, NO_MEMORY),
    }
}

/// Writes a note for each text.
fn note<S: Out>(aside: &mut S, erases: bool, texts: &[Text]) {
    for text in texts {
        write_text(aside, erases, b"note: ");
        let _ = write_all(aside, text.as_bytes());
        let _ = write_all(aside, b"\n");
    }
}

impl<P: Place + Reporting, S: Out> Spoken<P, S> {
    /// Returns a place that does what this place does, and names no child yet.
    pub fn new(inside: P, aside: S) -> Spoken<P, S>
        ensures { IsUnchanged (P.at inside) (⟦<Spoken<P, S> as Place>⟧.at result) }
    {
        Spoken {
            inside,
            aside,
            on: false,
            erases: false,
        }
    }
}

impl<P: Reporting, S: Out> Reporting for Spoken<P, S> {
    fn failed_call(&self) -> &[Text] {
        self.inside.failed_call()
    }

    fn failed_child(&self, key: &str) -> &[Text] {
        self.inside.failed_child(key)
    }

    fn answered_query(&self) -> &[Text] {
        self.inside.answered_query()
    }

    fn links_out(&self) -> &[Text] {
        self.inside.links_out()
    }

    fn has_removed(&self) -> bool {
        self.inside.has_removed()
    }
}

impl<P: Place + Reporting, S: Out> Speaking for Spoken<P, S> {
    ghost speaks = { λ old on erases new. new ≡ record old { on = on; erases = erases } };

    fn speak(&mut self, on: bool, erases: bool) {
        self.on = on;
        self.erases = erases;
    }
}

impl<P: Place + Reporting, S: Out> Place for Spoken<P, S> {
    ghost is_modelled = { P.is_modelled };

    ghost at = { λ p. P.at p.inside };

    ghost child = { P.child };

    ghost fails = { λ p. P.fails p.inside };

    fn read(&mut self, alloc: Global, path: &PathText) -> Result<Option<Bytes>, PlaceFault> {
        self.inside.read(alloc, path)
    }

    fn read_first(
        &mut self,
        alloc: Global,
        path: &PathText,
        most: usize,
    ) -> Result<Option<Bytes>, PlaceFault> {
        self.inside.read_first(alloc, path, most)
    }

    fn is_file(&mut self, alloc: Global, path: &PathText) -> Result<bool, PlaceFault> {
        self.inside.is_file(alloc, path)
    }

    fn list(&mut self, alloc: Global, folder: &PathText) -> Result<Items<PathText>, PlaceFault> {
        self.inside.list(alloc, folder)
    }

    fn list_outside(
        &mut self,
        alloc: Global,
        folder: &PathText,
        left_out: &PathText,
    ) -> Result<Items<PathText>, PlaceFault> {
        self.inside.list_outside(alloc, folder, left_out)
    }

    fn list_directly(
        &mut self,
        alloc: Global,
        folder: &PathText,
    ) -> Result<Items<PathText>, PlaceFault> {
        self.inside.list_directly(alloc, folder)
    }

    fn list_folders(
        &mut self,
        alloc: Global,
        folder: &PathText,
        left_out: &PathText,
    ) -> Result<Items<PathText>, PlaceFault> {
        self.inside.list_folders(alloc, folder, left_out)
    }

    fn write(&mut self, alloc: Global, path: &PathText, bytes: &[u8]) -> Result<(), PlaceFault> {
        let answer = self.inside.write(alloc, path, bytes);
        if answer.is_ok() {
            weigh(alloc, &mut self.aside, self.erases, path, bytes);
        }
        answer
    }

    fn write_pieces(
        &mut self,
        alloc: Global,
        path: &PathText,
        pieces: &[Bytes],
    ) -> Result<(), PlaceFault> {
        let answer = self.inside.write_pieces(alloc, path, pieces);
        if answer.is_ok() {
            weigh_pieces(alloc, &mut self.aside, self.erases, path, pieces);
        }
        answer
    }

    fn remove_tree(&mut self, alloc: Global, path: &PathText) -> Result<(), PlaceFault> {
        self.inside.remove_tree(alloc, path)
    }

    fn variable(&mut self, alloc: Global, name: &str) -> Result<Option<Text>, PlaceFault> {
        self.inside.variable(alloc, name)
    }

    fn spawn(&mut self, alloc: Global, command: &Command) -> Result<u64, StartFault> {
        if self.on {
            name(alloc, &mut self.aside, self.erases, command);
        }
        self.inside.spawn(alloc, command)
    }

    fn finish(&mut self, alloc: Global, ticket: u64) -> Result<Ended, StartFault> {
        let answer = self.inside.finish(alloc, ticket);
        note(&mut self.aside, self.erases, self.inside.links_out());
        answer
    }

    fn path_from(
        &self,
        alloc: Global,
        folder: &PathText,
        text: &str,
    ) -> Result<PathText, PathFault> {
        self.inside.path_from(alloc, folder, text)
    }

    fn watch(
        &mut self,
        alloc: Global,
        command: &Command,
        path: &PathText,
    ) -> Result<(), AllocError> {
        self.inside.watch(alloc, command, path)
    }

    fn stood_still(&self, command: &Command) -> bool {
        self.inside.stood_still(command)
    }

    fn moved_paths(&self) -> &[Moved] {
        self.inside.moved_paths()
    }

    fn files_have_paths(&self) {
        self.inside.files_have_paths()
    }

    fn failures(&self) -> u64 {
        self.inside.failures()
    }

    fn starts(&self) -> u64 {
        self.inside.starts()
    }

    fn late(&self) -> u64 {
        self.inside.late()
    }

    fn most(&self) -> u64 {
        self.inside.most()
    }
}
