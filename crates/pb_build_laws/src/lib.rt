//! Laws of a build, stated independently of the code. The laws are about the build's environment,
//! the difference of a unit's command, the next unit, and the states of units. The laws are also
//! about what a unit produces and reports, and about the summary.
#![tactic(auto)]

ghost use Rattle.pb_build_laws.specs.Calls.{CallsAreTold};
ghost use Rattle.pb_build_laws.specs.Commands.{AskedPartForPart, FirstNameIsLeast};
ghost use Rattle.pb_build_laws.specs.Differing.{DifferencesAreThese};
ghost use Rattle.pb_build_laws.specs.Environments.{EnvironmentsAreThese, HostsComeFirst, ToolchainsAreSaid};
ghost use Rattle.pb_build_laws.specs.Numbers.{NextIsAbove, RecordsAreNumbered, RecordsCount};
ghost use Rattle.pb_build_laws.specs.Outcomes.{InputsAreJudged, OutcomesAreThese};
ghost use Rattle.pb_build_laws.specs.Schedules.{BuildsGoInTurn};
ghost use Rattle.pb_build_laws.specs.States.{EndsAreThese, RowsAreThese, StatesAreThese};
ghost use Rattle.pb_build_laws.specs.Summaries.{SummariesSay};
ghost use Rattle.pb_build_laws.specs.Telling.{BadUnitsTell, GoodUnitsTell, LinesAreTold};

/// A law: a command equals the recorded command if and only if its parts and variables equal the
/// recorded parts and variables.
pub fn asked_part_for_part()
    ensures { AskedPartForPart }
{}

/// A law about the first name at which the variables of a recorded command and of a unit's command
/// differ. No lesser name, in byte order, differs. At the first name, either the two texts differ,
/// or only one of the two commands has the name.
pub fn first_name_is_least()
    ensures { FirstNameIsLeast }
{}

/// This law says what the summary of a build contains, and for which units.
pub fn summaries_say()
    ensures { SummariesSay }
{}

/// A law about the events of a build that always picks the first unit that may begin, in plan
/// order. If fewer units are in flight than there are jobs, and some unit may begin, the first of
/// these units begins. Otherwise the unit that has been in flight longest answers.
pub fn builds_go_in_turn()
    ensures { BuildsGoInTurn }
{}

/// A law about what a unit reports. The lines follow from the unit's package and target. The law
/// also says which messages a good unit has, and which messages and other output a bad unit has.
pub fn units_tell()
    ensures lines { LinesAreTold }
    ensures good { GoodUnitsTell }
    ensures bad { BadUnitsTell }
{}

/// A law about the outcomes of a build's units. A list is the list of these outcomes if and only if
/// each unit has its outcome in the list. The outcome of a unit follows from the outcomes of the
/// units before it.
pub fn outcomes_are_these()
    ensures { OutcomesAreThese }
{}

/// A law: a reply to the command of a planned unit has inputs if and only if the reply yields a
/// good answer. The inputs of the reply are the inputs of this answer.
pub fn inputs_are_judged()
    ensures { InputsAreJudged }
{}

/// A law about a build's environment: what the variables and the options determine, and which
/// answer of the compiler reports the compiler's version and host.
pub fn environments_are_these()
    ensures environments { EnvironmentsAreThese }
    ensures toolchains { ToolchainsAreSaid }
    ensures hosts { HostsComeFirst }
{}

/// This law says which units are untouched, bad and good, for how many units the lines are due, and
/// when the build is finished. The law also says what the units' keys are, and which outcomes are
/// bad.
pub fn states_are_these()
    ensures states { StatesAreThese }
    ensures ends { EndsAreThese }
    ensures rows { RowsAreThese }
{}

/// This law says what a build reports about a failed call on files or variables.
pub fn calls_are_told()
    ensures { CallsAreTold }
{}

/// This law says which record counts, and which numbers records have. The next run number is one
/// above the greatest run number in the records of a folder.
pub fn next_is_above()
    ensures records { RecordsAreNumbered }
    ensures counts { RecordsCount }
    ensures next { NextIsAbove }
{}

/// This law defines the first difference between a unit and its record.
pub fn differences_are_these()
    ensures { DifferencesAreThese }
{}
