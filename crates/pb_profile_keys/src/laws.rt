//! Laws of the table. Each function does nothing; its contract is the law.

ghost use Rattle.pb_profile_keys.specs.Laws.{KeysAreAtTheirIndex, KeysAreToldOnce};

/// Each key is at its index.
pub fn keys_are_at_their_index()
    ensures { KeysAreAtTheirIndex }
{}

/// Each key occurs exactly once among the keys in the order of the compiler's options.
pub fn keys_are_told_once()
    ensures { KeysAreToldOnce }
{}
