//! Laws of plans, for the layers above. Each function does nothing; its contract is the law.

ghost use Rattle.pb_unit.specs.Laws.{KeysTellWhat};

/// A unit's key is the name of one folder, and the key's last word says what the unit is: `lib`,
/// `bin-NAME`, `script` or `run`. The last word of the path of the unit's output folder says what
/// the unit is, too.
pub fn keys_tell_what()
    ensures { KeysTellWhat }
{}
