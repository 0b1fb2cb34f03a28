//! The comparison of a unit with its record, as far as the calls of a place show it.

use crate::folders::{file_differs, paths_differ};
use crate::values::words_only;
use crate::variables::inherited_detail;
use pb_data::{Bytes, Text, TryCopy};
use pb_place_types::PathText;
use pb_record::{Input, InputName, Needed, Record};
use pb_store::Difference;
use pb_tool_reasons::Detail;
use std::alloc::{AllocError, Global};

/// A unit that is compared with its record.
#[derive(Drop)]
pub(crate) struct Comparison {
    /// Its key.
    pub(crate) key: Text,
    /// The unit's record, if the unit has one.
    pub(crate) kept: Option<Record>,
    /// The first input whose value differs, and how it differs, if such an input has been seen.
    pub(crate) found: Option<(Difference, Detail)>,
    /// The index of the input that was looked at last.
    pub(crate) at: usize,
    /// How many files of the input at index `at` have been read, if that input is a folder that has
    /// been listed.
    pub(crate) read: Option<usize>,
    /// The key of the needed unit whose folder was listed last, if the record is of format 1.
    pub(crate) listed: Option<Text>,
    /// Whether the unit's output folder existed when the folder was removed.
    pub(crate) has_folder: bool,
}

/// Returns whether an input is a file or a folder at a path.
fn is_at(input: &Input, path: &PathText) -> bool {
    match input {
        Input::File(own, _) | Input::Tree(own, _) => own.as_str() == path.as_str(),
        Input::Value(_, _) => false,
    }
}

/// Returns the first input at a path, with the input's index. Inputs before index `at` are skipped.
fn path_from<'a>(inputs: &'a [Input], at: usize, path: &PathText) -> Option<(usize, &'a Input)> {
    for index in at..inputs.len() {
        if is_at(&inputs[index], path) {
            return Some((index, &inputs[index]));
        }
    }
    None
}

/// Returns the recorded text of a variable, from the inputs at or after an index.
fn value_from<'a>(inputs: &'a [Input], at: usize, name: &str) -> Option<&'a Option<Text>> {
    for index in at..inputs.len() {
        match &inputs[index] {
            Input::Value(own, value) if own.as_str() == name => return Some(value),
            _ => {}
        }
    }
    None
}

/// Returns how the input at a path differs, if a read of the file at this path shows the
/// difference.
fn file_detail(
    alloc: Global,
    input: &Input,
    found: Option<&Bytes>,
) -> Result<Option<Detail>, AllocError> {
    match (input, found) {
        (Input::File(_, bytes), Some(found)) => {
            let same = found.as_slice() == bytes.as_slice();
            Ok(if same { None } else { Some(Detail::Nothing) })
        }
        (Input::File(_, _), None) => Ok(Some(words_only(alloc, "is gone")?)),
        (Input::Tree(_, files), Some(_)) => {
            let words = if files.is_empty() {
                "is new"
            } else {
                "is a file now"
            };
            Ok(Some(words_only(alloc, words)?))
        }
        _ => Ok(None),
    }
}

/// Returns how the input at a path differs, if the list of the files below this path shows the
/// difference.
fn folder_detail(
    alloc: Global,
    input: &Input,
    folder: &PathText,
    paths: &[PathText],
) -> Result<Option<Detail>, AllocError> {
    match input {
        Input::File(_, _) => {
            let words = if paths.is_empty() {
                "is gone"
            } else {
                "is a folder now"
            };
            Ok(Some(words_only(alloc, words)?))
        }
        Input::Tree(_, files) => paths_differ(alloc, folder, files.as_slice(), paths),
        Input::Value(_, _) => Ok(None),
    }
}

/// Returns the difference of the input at a path.
fn at_path(
    alloc: Global,
    path: &PathText,
    detail: Option<Detail>,
) -> Result<Option<(Difference, Detail)>, AllocError> {
    match detail {
        Some(detail) => {
            let name = InputName::Path(path.copy(alloc)?);
            Ok(Some((Difference::Input(name), detail)))
        }
        None => Ok(None),
    }
}

/// Returns the difference of a variable, if the variable's text is not the recorded text.
fn value_differs(
    alloc: Global,
    name: &str,
    value: &Option<Text>,
    found: Option<&Text>,
    values: bool,
) -> Result<Option<(Difference, Detail)>, AllocError> {
    let old = match value {
        Some(old) => Some(old.as_str()),
        None => None,
    };
    let new = match found {
        Some(new) => Some(new.as_str()),
        None => None,
    };
    if old == new {
        return Ok(None);
    }
    let detail = inherited_detail(alloc, values, old, new)?;
    let name = InputName::Variable(Text::from_str(alloc, name)?);
    Ok(Some((Difference::Input(name), detail)))
}

/// Returns whether the file that was read is the next recorded file of a folder, and the difference
/// that the read shows.
fn member_differs(
    alloc: Global,
    inputs: &[Input],
    at: usize,
    read: usize,
    path: &PathText,
    found: Option<&Bytes>,
) -> Result<(bool, Option<(Difference, Detail)>), AllocError> {
    let Some(Input::Tree(folder, files)) = inputs.get(at) else {
        return Ok((false, None));
    };
    let Some(file) = files.as_slice().get(read) else {
        return Ok((false, None));
    };
    let is_next = match path.inside(alloc, folder)? {
        Some(relative) => relative.as_str() == file.0.as_str(),
        None => false,
    };
    if !is_next {
        return Ok((false, None));
    }
    let detail = file_differs(alloc, file, found)?;
    Ok((true, at_path(alloc, folder, detail)?))
}

/// Returns whether a path is at or below the output folder of a unit. `folder` is the folder of all
/// units.
fn is_in_unit(folder: &str, key: &str, path: &str) -> bool {
    let inside = path
        .strip_prefix(folder)
        .and_then(|rest| rest.strip_prefix("/"))
        .and_then(|rest| rest.strip_prefix(key));
    match inside {
        Some(rest) => rest.is_empty() || rest.starts_with("/"),
        None => false,
    }
}

/// Returns the key of the unit whose folder contains a path, if a record contains copies of this
/// unit's files.
fn copy_at<'a>(kept: &'a Record, folder: &str, path: &PathText) -> Option<&'a Text> {
    match &kept.needed {
        Needed::Copies(copies) => copies
            .as_slice()
            .iter()
            .find(|copy| is_in_unit(folder, copy.0.as_str(), path.as_str()))
            .map(|copy| &copy.0),
        Needed::Numbers(_, _) => None,
    }
}

impl Comparison {
    /// Returns whether a call at a path below the folder of all units can belong to the comparison.
    /// Other units are compared, file by file, only if the record has format 1.
    pub(crate) fn looks_at(&self, folder: &PathText, path: &PathText) -> bool {
        match &self.kept {
            Some(kept) => copy_at(kept, folder.as_str(), path).is_some(),
            None => false,
        }
    }

    /// Notes that the folder of a unit was listed.
    pub(crate) fn unit_listed(
        &mut self,
        alloc: Global,
        folder: &PathText,
        path: &PathText,
    ) -> Result<(), AllocError> {
        let Some(kept) = &self.kept else {
            return Ok(());
        };
        if let Some(key) = copy_at(kept, folder.as_str(), path) {
            self.listed = Some(key.copy(alloc)?);
        }
        Ok(())
    }

    /// Notes the difference that was seen, if this is the first difference.
    fn note(&mut self, seen: Option<(Difference, Detail)>) {
        if self.found.is_none() {
            self.found = seen;
        }
    }

    /// Notes that a file was read, or that there is no file.
    pub(crate) fn file_read(
        &mut self,
        alloc: Global,
        path: &PathText,
        found: Option<&Bytes>,
    ) -> Result<(), AllocError> {
        let Some(kept) = &self.kept else {
            return Ok(());
        };
        let inputs = kept.inputs.as_slice();
        if let Some(read) = self.read {
            let (is_member, seen) = member_differs(alloc, inputs, self.at, read, path, found)?;
            if is_member {
                self.read = Some(read.saturating_add(1));
                self.note(seen);
                return Ok(());
            }
        }
        let Some((index, input)) = path_from(inputs, self.at, path) else {
            return Ok(());
        };
        let detail = file_detail(alloc, input, found)?;
        let seen = at_path(alloc, path, detail)?;
        self.at = index;
        self.read = None;
        self.note(seen);
        Ok(())
    }

    /// Notes that a folder was listed.
    pub(crate) fn folder_listed(
        &mut self,
        alloc: Global,
        folder: &PathText,
        paths: &[PathText],
    ) -> Result<(), AllocError> {
        let Some(kept) = &self.kept else {
            return Ok(());
        };
        let inputs = kept.inputs.as_slice();
        let Some((index, input)) = path_from(inputs, self.at, folder) else {
            return Ok(());
        };
        let detail = folder_detail(alloc, input, folder, paths)?;
        let seen = at_path(alloc, folder, detail)?;
        // If the record has a file at the path, a build lists the path only if no file is there.
        // The list then shows more than the read did.
        if matches!(input, Input::File(_, _)) {
            self.found = None;
        }
        self.at = index;
        self.read = Some(0);
        self.note(seen);
        Ok(())
    }

    /// Notes that a variable was read. `values` says whether its values are shown.
    pub(crate) fn variable_read(
        &mut self,
        alloc: Global,
        name: &str,
        found: Option<&Text>,
        values: bool,
    ) -> Result<(), AllocError> {
        let Some(kept) = &self.kept else {
            return Ok(());
        };
        let Some(value) = value_from(kept.inputs.as_slice(), self.at, name) else {
            return Ok(());
        };
        let seen = value_differs(alloc, name, value, found, values)?;
        self.note(seen);
        Ok(())
    }
}
