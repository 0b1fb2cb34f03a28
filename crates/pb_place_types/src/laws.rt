//! Laws of paths and of the world, for the layers above. Each function does nothing; its contract
//! is the law.

ghost use Rattle.std.specs.Prelude.{◌≡◌, ℕ, List, true, Ok};
ghost use Rattle.pb_place_types.specs.Paths.{is_path, parsed};
ghost use Rattle.pb_place_types.specs.Within.{BelowGoesOn, AtOrBelow, AtOrBelowGoesOn, BelowThenAt, AtThenBelow, OneFolder, NotBelowItself, ShareNoPath, RootIsAbove, NamesLieApart, JoinsAgain, FoundInside, InsideIsRelative, EndsWithLastPart, LastPartIsName, LiesInFolder};
ghost use Rattle.pb_place_types.specs.CallsInTurn.{FaultTellsTurn};
ghost use Rattle.pb_place_types.specs.Changes.{LastWordStands, VariablesStand};
ghost use Rattle.pb_place_types.specs.Failing.{TornSparesOthers, TornLeaves, TornSparesVariables, PartlySparesOthers, PartlyMakesNothing, PartlySparesVariables, StartSparesOthers, StartSparesVariables, CallTellsFault, StartTellsFault};
ghost use Rattle.pb_place_types.specs.Folders.{NamedFoldersLieApart, FolderStays, SourcesStayed, ChangesJoin, ChangesWiden, LooksOver, LooksIn, LooksAtSources, LooksThrough, SeesSources, SeesFolders, SeesAlike, StandAlone};

/// Parsing leaves a normalised path as it is. Therefore a path spells itself, and parsing a parsed
/// path again changes nothing.
pub fn parsing_keeps_paths()
    ensures { (path : List ℕ) → is_path path ≡ true → parsed path ≡ Ok path }
{}

/// The paths below a folder are the paths that continue the folder's path. A path is at or below a
/// folder if it is the folder itself or is below it. A path below a folder is also below each
/// folder that contains this folder. Two folders share no path if neither is at or below the other.
/// Two different names in the same folder lead to paths that lie apart.
pub fn folders_nest()
    ensures goes_on { BelowGoesOn }
    ensures at { AtOrBelow }
    ensures further { AtOrBelowGoesOn }
    ensures strict { BelowThenAt }
    ensures then_strict { AtThenBelow }
    ensures one { OneFolder }
    ensures apart { NotBelowItself }
    ensures disjoint { ShareNoPath }
    ensures root { RootIsAbove }
    ensures names { NamesLieApart }
{}

/// If the part of a path after a folder is joined to the folder, the result is the path again. If
/// the last part of a path is joined to the path's folder, the result is the path, except for the
/// root.
pub fn paths_join_again()
    ensures again { JoinsAgain }
    ensures found { FoundInside }
    ensures relative { InsideIsRelative }
    ensures last { EndsWithLastPart }
    ensures name { LastPartIsName }
    ensures folder { LiesInFolder }
{}

/// Two folders with different names in the same folder lie apart. Changes at or below a folder do
/// not change any folder that lies apart from this folder. Changes in a folder of the target folder
/// leave the sources unchanged. Two changes in the same folder, one after the other, are together
/// one change in this folder. A change in a folder is also a change in each folder above it.
pub fn changes_stay_in_folders()
    ensures named { NamedFoldersLieApart }
    ensures folders { FolderStays }
    ensures sources { SourcesStayed }
    ensures join { ChangesJoin }
    ensures widen { ChangesWiden }
    ensures alone { StandAlone }
{}

/// What is at a path in each of these maps: one map laid over another, a folder's files, the
/// sources, and what a child sees.
pub fn maps_look_up()
    ensures over { LooksOver }
    ensures folder { LooksIn }
    ensures sources { LooksAtSources }
    ensures seen { LooksThrough }
{}

/// A child sees the files of the folders that it reads, over the sources. A child that reads no
/// folder, such as the query of a compiler's version, sees only the sources. A child sees the same
/// in two worlds if these folders and the sources have the same files.
pub fn children_see_sources_and_folders()
    ensures sources { SeesSources }
    ensures folders { SeesFolders }
    ensures alike { SeesAlike }
{}

/// What a failing call leaves unchanged.
///
/// - After a failed write, every other path has its old content. The written path has its old
///   bytes, no bytes, or a prefix of the new bytes.
/// - After a failed removal, every path outside the tree has its old content, and no path has new
///   bytes.
/// - After a start, even a failed one, every path outside the child's folder has its old content.
/// - No variable changes.
pub fn failing_calls_spare()
    ensures torn { TornSparesOthers }
    ensures leaves { TornLeaves }
    ensures torn_variables { TornSparesVariables }
    ensures partly { PartlySparesOthers }
    ensures nothing_new { PartlyMakesNothing }
    ensures partly_variables { PartlySparesVariables }
    ensures started { StartSparesOthers }
    ensures started_variables { StartSparesVariables }
{}

/// After a sequence of writes and removals, the last call that touches a path decides what is at
/// the path: the written bytes, or nothing. No write and no removal changes a variable.
pub fn last_word_stands()
    ensures files { LastWordStands }
    ensures variables { VariablesStand }
{}

/// A call that failed for a reason other than running out of memory is counted. The call's fault is
/// recorded as the last fault. A failed call on files or variables is itself recorded, too. For a
/// sequence of calls, the counters therefore determine which call failed and at which position.
pub fn failing_calls_are_told()
    ensures calls { CallTellsFault }
    ensures starts { StartTellsFault }
    ensures turns { FaultTellsTurn }
{}
