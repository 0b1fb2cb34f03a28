//! Laws of commands, for the layers above. Each function does nothing; its contract is the law.

ghost use Rattle.pb_command.specs.Laws.{PairsRise, LastValuesCount, LibrariesInOrder, CommandsAreAbsolute};
ghost use Rattle.pb_command.specs.Judge.{JudgesAsAnswered};

/// The variables of a command are in byte order of their names, each name once.
pub fn pairs_rise()
    ensures { PairsRise }
{}

/// The last value of a variable counts.
pub fn last_values_count()
    ensures { LastValuesCount }
{}

/// The libraries of a compile are sorted by their names and then by their paths, in byte order.
/// This law is about names without byte 0.
pub fn libraries_in_order()
    ensures { LibrariesInOrder }
{}

/// If the paths of a project are normalised and absolute, so are the paths of its commands.
pub fn commands_are_absolute()
    ensures { CommandsAreAbsolute }
{}

/// The inputs found in a reply to the command of a planned unit depend only on the command and the
/// reply. So a record can be judged, whichever plan contained its unit.
pub fn judges_as_answered()
    ensures { JudgesAsAnswered }
{}
