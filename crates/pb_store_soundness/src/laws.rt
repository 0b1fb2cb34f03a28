//! Laws of soundness. Each function does nothing; its contract is the law.

ghost use Rattle.pb_record.specs.Parts.{FindsAsReading};
ghost use Rattle.pb_store_soundness.specs.Apart.{OthersLaw};
ghost use Rattle.pb_store_soundness.specs.Records.{reading};
ghost use Rattle.pb_store_soundness.specs.Laws.{StaysSound, OutsideLaw, InOutputLaw, WithoutRecordLaw, PutLaw};
ghost use Rattle.pb_store_soundness.specs.Numbers.{NumberWaitsLaw, StaysAheadLaw, GivenAheadLaw, NextIsNewLaw};
ghost use Rattle.pb_store_soundness.specs.Reuse.{GroundsLaw, ReuseLaw, RenewLaw, SparesLaw, PutGroundsLaw};

/// A profile folder stays sound in each of these cases:
///
/// - For each unit, no record counts, or the record and the unit's files are unchanged, or the unit
///   has a new record. A new record is true, and no old record names the unit together with the
///   number of the new record.
/// - Only files outside the folder change.
/// - Only the output folder of a unit changes, and no record counts for this unit.
/// - A record is removed, or no longer counts.
/// - A true record is written, and no record names its unit together with its number.
pub fn soundness_stays()
    ensures stays { StaysSound }
    ensures outside { OutsideLaw }
    ensures in_output { InOutputLaw }
    ensures without_record { WithoutRecordLaw }
    ensures put { PutLaw }
{}

/// If nothing differs, and everything that the command reads is grounded, the unit is grounded.
/// Then the unit's record and folder are what the unit's child would answer. A record of an honest
/// child's reply may replace any earlier record of the unit. Grounded units stay grounded if a unit
/// that they do not reach is built again.
pub fn records_are_reused()
    ensures grounds { GroundsLaw }
    ensures reuse { ReuseLaw }
    ensures renew { RenewLaw }
    ensures spares { SparesLaw }
    ensures put_grounds { PutGroundsLaw }
{}

/// While a unit's child is in flight, other units do not change what the child sees. The unit's
/// record and files stay unchanged, too.
pub fn others_stay_apart()
    ensures others { OthersLaw }
    ensures waits { NumberWaitsLaw }
{}

/// The next run number is above all numbers that records have or name, and stays above them after
/// later changes.
pub fn numbers_stay_ahead()
    ensures stays { StaysAheadLaw }
    ensures given { GivenAheadLaw }
    ensures new { NextIsNewLaw }
{}

/// `reading` reads records from their files: it returns the record of each text, or `None`. By
/// `texts_have_one_reading` of `pb_record`, no other function does this.
pub fn records_have_a_reading()
    ensures { FindsAsReading reading }
{}
