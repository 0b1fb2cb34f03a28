//! Laws of lines of inheritance and of settings. Each function does nothing; its contract is the
//! law.

ghost use Rattle.pb_profile.specs.Laws.{GivesLines, TellsMissing, TellsCycles, FindsValues};

/// In each returned line of inheritance, each profile inherits from the next, and the last profile
/// inherits from no profile. A missing profile is reported only if the requested profile, or a
/// profile from which it inherits, is missing. A cycle is reported only if the requested profile,
/// or a profile from which it inherits, inherits from itself in one or more steps.
pub fn lines_follow_inherits()
    ensures lines { GivesLines }
    ensures missing { TellsMissing }
    ensures cycles { TellsCycles }
{}

/// Along each line of inheritance, every key has a value, whatever the profiles contain. If no
/// earlier location has a value, the key has the built-in value.
pub fn values_are_found()
    ensures { FindsValues }
{}
