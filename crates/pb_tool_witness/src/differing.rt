//! The first difference of a unit whose child is started, and how it differs.

use crate::command::command_differs;
use crate::comparison::Comparison;
use pb_data::{Table, Text, TryCopy};
use pb_place_types::Command;
use pb_record::Needed;
use pb_store::{Difference, first_number};
use pb_tool_reasons::Detail;
use std::alloc::{AllocError, Global};

/// Returns the first needed unit that does not agree with the record. A record of format 1 contains
/// the files of needed units. For a record of format 1, the first unit that does not agree is the
/// unit whose folder was listed last.
fn first_need(
    alloc: Global,
    numbers: &Table<Option<u64>>,
    needed: &Needed,
    listed: &Option<Text>,
) -> Result<Option<Text>, AllocError> {
    match (needed, listed) {
        (Needed::Numbers(_, needs), _) => first_number(alloc, numbers, needs.as_slice()),
        (Needed::Copies(_), Some(key)) => Ok(Some(key.copy(alloc)?)),
        (Needed::Copies(_), None) => Ok(None),
    }
}

/// Returns the first difference of a unit whose child is started, and how it differs. For each unit
/// that has begun, `numbers` has the number of its record. There is no number for a unit whose
/// child was started. `values` says whether the values of all variables are shown.
pub(crate) fn differs(
    alloc: Global,
    comparison: &mut Comparison,
    numbers: &Table<Option<u64>>,
    command: &Command,
    values: bool,
) -> Result<(Difference, Detail), AllocError> {
    let Some(kept) = &comparison.kept else {
        let detail = if comparison.has_folder {
            Detail::BadAnswer
        } else {
            Detail::Nothing
        };
        return Ok((Difference::NoRecord, detail));
    };
    if let Some(seen) = command_differs(alloc, &kept.asked, command, values)? {
        return Ok(seen);
    }
    if let Some(seen) = comparison.found.take() {
        return Ok(seen);
    }
    match first_need(alloc, numbers, &kept.needed, &comparison.listed)? {
        Some(key) => Ok((Difference::Dependency(key), Detail::Nothing)),
        None => Ok((Difference::NoRecord, Detail::Unseen)),
    }
}
