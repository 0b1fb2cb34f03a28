//! Laws of session files.

ghost use Rattle.pb_build_session.specs.Laws.{StepsJoin, OptionsHaveDefaults};
ghost use Rattle.pb_build_session.specs.Numbers.{DigitsAreTaken, MinusIsBad, PointIsBad, ExponentIsBad};

/// A law: the steps of a session are in the order of the session's list. If two lists of values are
/// joined, the steps of the first list come before the steps of the second list. The first bad
/// value makes the session bad.
pub fn steps_stand_in_order()
    ensures { StepsJoin }
{}

/// A law: a build without options has the manifest `/w/Cargo.toml` and the profile `dev`, and its
/// builder is `cargo`. Such a build neither selects packages or features nor restricts the targets.
/// At most one unit is in flight. Among the units that may begin, the first unit begins.
pub fn options_have_defaults()
    ensures { OptionsHaveDefaults }
{}

/// A law: a session accepts only numerals of JSON that consist of digits, up to
/// 18446744073709551615. An accepted numeral is read as the number that it denotes. A greater
/// number makes the session bad, and so does a numeral with a minus (`-0`), with a point (`1.0`) or
/// with an exponent (`1e1`).
pub fn numbers_are_digits()
    ensures digits { DigitsAreTaken }
    ensures minus { MinusIsBad }
    ensures point { PointIsBad }
    ensures exponent { ExponentIsBad }
{}
