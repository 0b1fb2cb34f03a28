//! Laws of what a build produces. Each function does nothing; its contract is the law.

ghost use Rattle.pb_build.specs.Again.{SameBuildStartsNone};
ghost use Rattle.pb_build.specs.Lasting.{AnyBuildGives, NothingIsSound, RecordsStayTrue};
ghost use Rattle.pb_build.specs.Laws.{LooksAtSources, GivesFromNothing, HasOneResult, UnitsAreOfResult, BuildsKeepHeadline, FirstBuildsKeepHeadline};
ghost use Rattle.pb_build.specs.Session.{Unaffected};

use pb_run_flight::Turn;

/// A build does not see what exists in the target folder. Two worlds with the same variables and
/// the same files outside this folder lead to the same results. So a build produces what it would
/// produce over an empty target folder.
pub fn builds_look_at_sources()
    ensures sources { LooksAtSources }
    ensures nothing { GivesFromNothing }
{}

/// Suppose that earlier builds of a session used the same target folder, and ended in any way. Then
/// a build produces exactly what it would produce after the edits alone.
pub fn earlier_builds_change_nothing()
    ensures { Unaffected }
{}

/// A world has only one result. The result is a refusal with its reason, a compiler without a
/// reported version, or the units of a plan with their outcomes. Any two results of the same world
/// agree in these parts.
pub fn worlds_have_one_result()
    ensures { HasOneResult }
{}

/// The units that a build has in a world, with their outcomes, are the result of this world.
pub fn units_are_of_the_result()
    ensures { UnitsAreOfResult }
{}

/// Edits and builds of a session leave the records of a folder true, however the builds ended.
/// Before the session the records must be true, or there must be no records. Each edit must stay
/// out of the folder or remove it as a whole. Each build must keep its records in the folder and
/// have an honest child, or keep its records apart from the folder.
pub fn records_stay_true()
    ensures empty { NothingIsSound }
    ensures stay { RecordsStayTrue }
{}

/// After any edits and builds, a build of a session produces what a clean build of the present
/// workspace produces. If a fault ends the build, only a prefix of the clean build's lines has been
/// written before the finish line.
pub fn any_build_gives()
    ensures { AnyBuildGives }
{}

/// Take a successful build over true records with an honest child, and run the same build again.
/// The second build reports no unit as started. The two builds may use different turns.
pub fn same_build_starts_none<T: Turn, U: Turn>()
    ensures { SameBuildStartsNone T.turns U.turns }
{}

/// The headline follows from `Builds`, and also from `BuildsFirst`. Both definitions say how the
/// work of a build ended, and what was written afterwards. The program promises no more about a
/// build.
pub fn builds_keep_the_headline<T: Turn>()
    ensures turns { BuildsKeepHeadline T.turns }
    ensures first { FirstBuildsKeepHeadline }
{}
