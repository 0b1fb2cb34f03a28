//! Laws of the small compiler. Each function does nothing; its contract is the law.

ghost use Rattle.std.specs.Prelude.{ℕ, List};
ghost use Rattle.pb_place_types.specs.World.{World};
ghost use Rattle.pb_place_types.specs.declared.command.Command.{Command};
ghost use Rattle.pb_mini.specs.Honesty.{AnswersHonestly, TellsNames};
ghost use Rattle.pb_mini.specs.declared.command_line.CommandLine.{CommandLine};

/// The small compiler is honest. The small compiler returns the same reply in every world in which
/// these are the same:
///
/// - the files and the inherited variables that were read;
/// - the files below the folders that the command may read.
///
/// The image of a run and the files of `--extern` must be strictly below these folders. If the
/// pairs set a variable, the inherited value of this variable does not matter.
pub fn is_honest()
    ensures { (c : Command) (v w : World) → AnswersHonestly c v w }
{}

/// The dep-info reports what was read. The reply to any compile, good or bad, contains the dep-info
/// file. This file lists exactly the names that the compile read, without repeats.
pub fn tells_names()
    ensures { (words : List (List ℕ)) (pairs : List (List ℕ
        × List ℕ)) (w : World) (line : CommandLine) → TellsNames words pairs w line }
{}
