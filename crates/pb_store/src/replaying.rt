//! What a unit's record replays if nothing differs.

ghost use Rattle.std.specs.Prelude.{◌≡◌};
ghost use Rattle.pb_store.specs.Differences.{replayed};

use crate::difference::Difference;
use crate::keeping::number_of;
use pb_place_types::Ended;
use pb_record::Record;

/// What a unit's record replays: how its child ended, and whether the record has a run number.
#[derive(Debug, Drop)]
pub struct Replayed {
    /// The status 0, which each kept answer has, and the two streams.
    pub ended: Ended,
    /// Whether the record has a run number. A record of format 1 has no run number, and `migrate`
    /// adds a run number.
    pub numbered: bool,
}

/// The result of the comparison of a unit with its record.
#[derive(Debug, Drop)]
pub enum Compared {
    /// The first difference.
    Differs(Difference),
    /// Nothing differs; this is what the record replays, without a child.
    Same(Replayed),
}

/// Returns what a record replays. The record is consumed, so that the streams are not copied.
pub(crate) fn again(kept: Record) -> Replayed
    ensures { result ≡ replayed kept }
{
    let numbered = number_of(&kept).is_some();
    let Record {
        key,
        asked,
        inputs,
        needed,
        stdout,
        stderr,
    } = kept;
    drop(key);
    drop(asked);
    drop(inputs);
    drop(needed);
    Replayed {
        ended: Ended {
            status: 0,
            stdout,
            stderr,
        },
        numbered,
    }
}
