//! What was noted of the units of a build during the build.

use crate::detail::Detail;
use pb_data::{Items, Text, TryCopy};
use pb_record::InputName;
use pb_store::Difference;
use std::alloc::Global;

/// What was noted of the units of a build. The notes are known after a fault, too.
#[derive(Drop)]
pub struct Noted {
    /// The keys of the units whose child was started, in the order of these starts.
    pub started: Items<Text>,
    /// The first difference of each started unit.
    pub differences: Items<Difference>,
    /// How each started unit differs from its record.
    pub details: Items<Detail>,
    /// How many units began and were kept.
    pub kept: usize,
    /// Whether memory ran out for a note. If memory ran out, each other field may be incomplete.
    pub lost: bool,
}

impl Noted {
    /// Returns notes of a build in which nothing has begun. This takes no memory.
    pub fn new(alloc: Global) -> Noted {
        Noted {
            started: Items::new(alloc),
            differences: Items::new(alloc),
            details: Items::new(alloc),
            kept: 0,
            lost: false,
        }
    }
}

/// Returns whether two inputs have the same name.
fn is_same_name(name: &InputName, other: &InputName) -> bool {
    match (name, other) {
        (InputName::Path(path), InputName::Path(other)) => path.as_str() == other.as_str(),
        (InputName::Variable(name), InputName::Variable(other)) => name.as_str() == other.as_str(),
        _ => false,
    }
}

/// Returns whether two differences are the same.
fn is_same(difference: &Difference, other: &Difference) -> bool {
    match (difference, other) {
        (Difference::NoRecord, Difference::NoRecord) => true,
        (Difference::Command(part), Difference::Command(other)) => part == other,
        (Difference::Pair(name), Difference::Pair(other)) => name.as_str() == other.as_str(),
        (Difference::Input(name), Difference::Input(other)) => is_same_name(name, other),
        (Difference::Dependency(key), Difference::Dependency(other)) => {
            key.as_str() == other.as_str()
        }
        _ => false,
    }
}

/// Returns whether the started unit that is noted at an index is this unit, with this difference.
fn is_noted(noted: &Noted, index: usize, key: &Text, difference: &Difference) -> bool {
    let own_key = noted.started.as_slice().get(index);
    let own_difference = noted.differences.as_slice().get(index);
    match (own_key, own_difference) {
        (Some(own_key), Some(own_difference)) => {
            own_key.as_str() == key.as_str() && is_same(own_difference, difference)
        }
        _ => false,
    }
}

/// Returns the detail that is noted at an index, if this key and this difference are noted at the
/// same index. Otherwise, or if memory runs out for the detail, returns `Detail::Nothing`.
fn detail_at(
    alloc: Global,
    noted: &Noted,
    index: usize,
    key: &Text,
    difference: &Difference,
) -> Detail {
    if !is_noted(noted, index, key, difference) {
        return Detail::Nothing;
    }
    match noted.details.as_slice().get(index) {
        Some(detail) => detail.copy(alloc).unwrap_or(Detail::Nothing),
        None => Detail::Nothing,
    }
}

/// Returns a detail for each of these units, which were started for these differences. If memory
/// runs out, the list is shorter. Contracts promise nothing about details, which are for people.
pub fn details_for(
    alloc: Global,
    noted: &Noted,
    keys: &[Text],
    differences: &[Difference],
) -> Items<Detail> {
    let mut details = Items::new(alloc);
    for (index, (key, difference)) in keys.iter().zip(differences.iter()).enumerate() {
        let detail = detail_at(alloc, noted, index, key, difference);
        if details.push(detail).is_err() {
            break;
        }
    }
    details
}
