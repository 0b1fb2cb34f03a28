//! A `Detail` says how something differs. It does not say what differs.

use pb_data::{Text, TryCopy};
use std::alloc::{AllocError, Global};

/// How something differs, as words for people. A text is not shown if it contains a byte below 32,
/// such as a line feed.
#[derive(Drop)]
pub enum Detail {
    /// Only what differs is known.
    Nothing,
    /// Something differs from the unit's record, but the thing that differs is unknown.
    Unseen,
    /// The unit has no record, but its output folder is there.
    BadAnswer,
    /// Which word of a command is new, is gone or has changed.
    Word(Text),
    /// What has become of the thing that differs. This text replaces `has changed`.
    Became(Text),
}

impl TryCopy for Detail {
    fn copy(&self, alloc: Global) -> Result<Detail, AllocError> {
        match self {
            Detail::Nothing => Ok(Detail::Nothing),
            Detail::Unseen => Ok(Detail::Unseen),
            Detail::BadAnswer => Ok(Detail::BadAnswer),
            Detail::Word(text) => Ok(Detail::Word(text.copy(alloc)?)),
            Detail::Became(text) => Ok(Detail::Became(text.copy(alloc)?)),
        }
    }
}
