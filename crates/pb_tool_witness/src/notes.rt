//! What a place notes of a build, from the calls that the build makes.
//!
//! A build lists the folder of its records, and reads each record once. Then a unit begins with one
//! more read of its own record. The next calls are those for the inputs that the record names. In
//! format 1, these calls include those for the folders of the units that the record names. If the
//! unit is not kept, the next spawn starts its child.
//!
//! Any other call shows that the comparison is over. A record of format 1 is read once more when
//! its unit answers. This read begins no unit, because a unit never begins twice.

ghost use Rattle.std.specs.Prelude.{◌≡◌};

use crate::comparison::Comparison;
use crate::differing::differs;
use pb_data::{Bytes, Items, Table, Text, TryCopy};
use pb_place_types::{Command, PathText};
use pb_record::{Needed, Record, read_record};
use pb_store::Difference;
use pb_tool_reasons::{Detail, Noted};
use std::alloc::{AllocError, Global};

/// How the name of a record ends.
const RECORD: &str = ".record";

/// What a place notes of a build.
#[derive(Drop)]
pub(crate) struct Notes {
    /// Whether it notes anything.
    on: bool,
    /// Whether the values of all variables are noted.
    values: bool,
    /// The folder whose direct files were listed last. Once a build has opened its records, this
    /// folder is the folder of the records.
    folder: Option<PathText>,
    /// How many records of that folder have not been read since the folder was listed.
    unread: usize,
    /// The unit that began last, while it is compared with its record.
    current: Option<Comparison>,
    /// For each unit that has begun, the number of its record. There is no number if the record has
    /// no number or the unit's child was started.
    numbers: Table<Option<u64>>,
    /// The notes that people read.
    pub(crate) noted: Noted,
}

/// Returns the number of a record, if it has one.
fn number_of(kept: &Option<Record>) -> Option<u64> {
    match kept {
        Some(kept) => match &kept.needed {
            Needed::Numbers(own, _) => Some(*own),
            Needed::Copies(_) => None,
        },
        None => None,
    }
}

/// Returns the record that a text contains, if it is the record of the unit with this key.
fn record_in(alloc: Global, key: &str, text: Option<&Bytes>) -> Result<Option<Record>, AllocError> {
    let Some(text) = text else {
        return Ok(None);
    };
    match read_record(alloc, text.as_slice())? {
        Some(kept) if kept.key.as_str() == key => Ok(Some(kept)),
        _ => Ok(None),
    }
}

/// Returns the comparison of a unit that begins, with the record in a text.
fn comparison_of(alloc: Global, key: Text, text: Option<&Bytes>) -> Result<Comparison, AllocError> {
    match record_in(alloc, key.as_str(), text) {
        Ok(kept) => Ok(Comparison {
            key,
            kept,
            found: None,
            at: 0,
            read: None,
            listed: None,
            has_folder: false,
        }),
        Err(fault) => Err(fault),
    }
}

/// Returns whether a command writes into the folder of a unit.
fn writes_to(command: &Command, key: &Text) -> bool {
    match &command.out {
        Some(out) => out.last_part() == key.as_str(),
        None => false,
    }
}

/// Returns the key of a unit whose comparison is over.
fn into_key(comparison: Comparison) -> Text {
    let Comparison {
        key,
        kept,
        found,
        at: _,
        read: _,
        listed,
        has_folder: _,
    } = comparison;
    drop((kept, found, listed));
    key
}

/// Adds a unit whose child was started. The key is added last, so that there is no key without its
/// difference.
fn push_started(
    noted: &mut Noted,
    key: Text,
    difference: Difference,
    detail: Detail,
) -> Result<(), AllocError> {
    noted.details.push(detail)?;
    noted.differences.push(difference)?;
    noted.started.push(key)
}

impl Notes {
    /// Returns notes that are switched off. This takes no memory.
    pub(crate) fn new(alloc: Global) -> Notes {
        Notes {
            on: false,
            values: false,
            folder: None,
            unread: 0,
            current: None,
            numbers: Table::new(alloc),
            noted: Noted::new(alloc),
        }
    }

    /// Drops what was noted. Sets whether anything is noted from now on, and whether the notes have
    /// the values of all variables.
    pub(crate) fn switch(&mut self, alloc: Global, on: bool, values: bool)
        ensures { self.new.on ≡ on }
    {
        *self = Notes::new(alloc);
        self.on = on;
        self.values = values;
    }

    /// Ends the comparison of the unit that began last.
    fn end(&mut self) {
        self.current = None;
    }

    /// Ends the notes if memory ran out for them.
    fn if_noted(&mut self, noted: Result<(), AllocError>) {
        if noted.is_err() {
            self.on = false;
            self.end();
            self.noted.lost = true;
        }
    }

    /// Notes that a call failed. A unit that was being compared has then not begun.
    pub(crate) fn note_failure(&mut self) {
        if self.current.is_some() {
            self.end();
            self.noted.kept = self.noted.kept.saturating_sub(1);
        }
    }

    /// Ends the comparison of a unit if a read of this path cannot belong to the comparison. Then
    /// the compared unit was kept, and the read belongs to a unit that answers.
    fn pass(&mut self, path: &PathText) {
        if self.is_past(path) {
            self.end();
        }
    }

    /// Returns whether a read of this path cannot belong to the comparison of a unit.
    fn is_past(&self, path: &PathText) -> bool {
        match (&self.folder, &self.current) {
            (Some(folder), Some(current)) => {
                path.is_below(folder) && !current.looks_at(folder, path)
            }
            _ => false,
        }
    }

    /// Returns the key of the unit whose record is at a path directly in the folder of records.
    fn key_at<'a>(&self, path: &'a PathText) -> Option<&'a str> {
        let folder = match &self.folder {
            Some(folder) if path.is_below(folder) => folder.as_str(),
            _ => return None,
        };
        let name = path.last_part();
        let length = folder.len().saturating_add(1).saturating_add(name.len());
        if path.as_str().len() == length {
            name.strip_suffix(RECORD)
        } else {
            None
        }
    }

    /// Notes that the record of a unit was read. If the unit has not begun, the unit begins. The
    /// unit then counts as kept until its child is started.
    fn begin(&mut self, alloc: Global, key: &str, text: Option<&Bytes>) -> Result<(), AllocError> {
        self.end();
        let key = Text::from_str(alloc, key)?;
        if self.numbers.contains(&key) {
            return Ok(());
        }
        match comparison_of(alloc, key, text) {
            Ok(comparison) => self.compare(alloc, comparison),
            Err(fault) => Err(fault),
        }
    }

    /// Notes that a unit is compared with its record.
    fn compare(&mut self, alloc: Global, comparison: Comparison) -> Result<(), AllocError> {
        let number = number_of(&comparison.kept);
        let key = comparison.key.copy(alloc);
        self.current = Some(comparison);
        self.noted.kept = self.noted.kept.saturating_add(1);
        self.numbers.insert(key?, number)
    }

    /// Notes the list of the files directly in a folder.
    fn open(
        &mut self,
        alloc: Global,
        folder: &PathText,
        paths: &[PathText],
    ) -> Result<(), AllocError> {
        self.folder = Some(folder.copy(alloc)?);
        self.unread = paths
            .iter()
            .filter(|path| path.as_str().ends_with(RECORD))
            .count();
        Ok(())
    }

    /// Notes the text of a file, or that there is no file.
    fn note_text(
        &mut self,
        alloc: Global,
        path: &PathText,
        text: Option<&Bytes>,
    ) -> Result<(), AllocError> {
        if let Some(key) = self.key_at(path) {
            if self.unread > 0 {
                self.unread = self.unread.saturating_sub(1);
                return Ok(());
            }
            return self.begin(alloc, key, text);
        }
        self.pass(path);
        match &mut self.current {
            Some(current) => current.file_read(alloc, path, text),
            None => Ok(()),
        }
    }

    /// Notes that the child of the unit that began last was started.
    fn note_started(
        &mut self,
        alloc: Global,
        mut current: Comparison,
        command: &Command,
    ) -> Result<(), AllocError> {
        self.noted.kept = self.noted.kept.saturating_sub(1);
        let seen = differs(alloc, &mut current, &self.numbers, command, self.values);
        let key = into_key(current);
        self.numbers.insert(key.copy(alloc)?, None)?;
        match seen {
            Ok((difference, detail)) => push_started(&mut self.noted, key, difference, detail),
            Err(fault) => Err(fault),
        }
    }

    /// Notes that a child was started. The child is that of the unit that began last, if the child
    /// writes into this unit's folder.
    fn note_spawn(&mut self, alloc: Global, command: &Command) -> Result<(), AllocError> {
        let Some(current) = self.current.take() else {
            return Ok(());
        };
        if writes_to(command, &current.key) {
            self.note_started(alloc, current, command)
        } else {
            drop(current);
            Ok(())
        }
    }

    /// Notes a call that lists the files directly in a folder.
    pub(crate) fn open_records(
        &mut self,
        alloc: Global,
        folder: &PathText,
        paths: &Items<PathText>,
    ) {
        if self.on {
            let noted = self.open(alloc, folder, paths.as_slice());
            self.if_noted(noted);
        }
    }

    /// Notes a call that reads a file.
    pub(crate) fn note_read(&mut self, alloc: Global, path: &PathText, text: Option<&Bytes>) {
        if self.on {
            let noted = self.note_text(alloc, path, text);
            self.if_noted(noted);
        }
    }

    /// Notes a read that failed. If a record was to be read, the unit that was compared before has
    /// begun, and the unit of this record has not.
    pub(crate) fn note_failed_read(&mut self, path: &PathText) {
        if self.key_at(path).is_some() {
            self.end();
        }
        self.pass(path);
        self.note_failure();
    }

    /// Notes a call that lists the files below an input.
    pub(crate) fn note_list(&mut self, alloc: Global, folder: &PathText, paths: &Items<PathText>) {
        if let Some(current) = &mut self.current {
            let noted = current.folder_listed(alloc, folder, paths.as_slice());
            self.if_noted(noted);
        }
    }

    /// Notes a call that lists the files below a unit's folder.
    pub(crate) fn note_unit_folder(&mut self, alloc: Global, path: &PathText) {
        if let (Some(folder), Some(current)) = (&self.folder, &mut self.current) {
            let noted = current.unit_listed(alloc, folder, path);
            self.if_noted(noted);
        }
    }

    /// Notes a call that reads a variable.
    pub(crate) fn note_variable(&mut self, alloc: Global, name: &str, text: Option<&Text>) {
        if let Some(current) = &mut self.current {
            let noted = current.variable_read(alloc, name, text, self.values);
            self.if_noted(noted);
        }
    }

    /// Notes a call that removed what was at a path, if something was there.
    pub(crate) fn note_removal(&mut self, path: &PathText, was_there: bool) {
        if let Some(current) = &mut self.current {
            if was_there && path.last_part() == current.key.as_str() {
                current.has_folder = true;
            }
        }
    }

    /// Notes a call that spawned a child.
    pub(crate) fn note_child(&mut self, alloc: Global, command: &Command) {
        if self.on {
            let noted = self.note_spawn(alloc, command);
            self.if_noted(noted);
        }
    }

    /// Notes a call that no build makes while it compares a unit.
    pub(crate) fn go_on(&mut self) {
        self.end();
    }
}
