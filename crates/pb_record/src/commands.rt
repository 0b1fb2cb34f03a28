//! Requests and commands. A request is made from a command, and a command from a request. The two
//! are compared.

ghost use Rattle.std.specs.Prelude.{◌≡◌, Decides};
ghost use Rattle.pb_record.specs.Commands.{command_of, asked_in, AsksAs};

use crate::pairs::Pairs;
use crate::recorded_command::RecordedCommand;
use pb_data::{Items, Text};
use pb_place_types::{Command, PathText};

/// Returns whether two lists of texts are equal.
#[tactic(auto, using(crate::proofs::CommandLemmas::texts_same))]
fn are_same_texts(texts: &[Text], others: &[Text]) -> bool
    ensures { Decides result (texts.now ≡ others.now) }
{
    texts == others
}

/// Returns whether two lists of paths are equal.
#[tactic(auto, using(crate::proofs::CommandLemmas::texts_same))]
fn are_same_paths(paths: &[PathText], others: &[PathText]) -> bool
    ensures { Decides result (paths.now ≡ others.now) }
{
    paths == others
}

/// Returns whether two lists of names with their values are equal.
#[tactic(auto, using(crate::proofs::CommandLemmas::pairs_same))]
fn are_same_pairs(pairs: &[(Text, Text)], others: &[(Text, Text)]) -> bool
    ensures { Decides result (pairs.now ≡ others.now) }
{
    pairs == others
}

/// Returns whether a command has this output folder.
fn has_out(out: &PathText, other: &Option<PathText>) -> bool
    ensures { Decides result (Some out.now ≡ other.now) }
{
    match other {
        Some(other) => out == other,
        None => false,
    }
}

impl RecordedCommand {
    /// Returns the request of a command. The result is `None` if the command has no output folder,
    /// if its variables are not sorted by name, or if a name occurs twice. No memory is used.
    pub fn of_command(command: Command) -> Option<RecordedCommand>
        ensures { result ≡ asked_in command }
    {
        let Command {
            program,
            words,
            folder,
            pairs,
            out,
            target,
            toolchain,
            reads,
        } = command;
        match (out, Pairs::of(pairs)) {
            (Some(out), Some(pairs)) => Some(RecordedCommand {
                program,
                words,
                folder,
                pairs,
                out,
                target,
                toolchain,
                reads,
            }),
            _ => None,
        }
    }

    /// Returns the command that was requested. The call takes no memory.
    pub fn into_command(self) -> Command
        ensures { result ≡ command_of self }
    {
        let RecordedCommand {
            program,
            words,
            folder,
            pairs,
            out,
            target,
            toolchain,
            reads,
        } = self;
        Command {
            program,
            words,
            folder,
            pairs: pairs.into_items(),
            out: Some(out),
            target,
            toolchain,
            reads,
        }
    }

    /// Returns whether a command is equal to the request, apart from the variables. The function
    /// compares the program, the arguments, the folder, the output folder, the target folder, the
    /// compiler, and the folders that the child may read. No memory is used.
    pub fn asks_as(&self, command: &Command) -> bool
        ensures { Decides result (AsksAs self.now command.now) }
    {
        self.program == command.program
            && are_same_texts(self.words.as_slice(), command.words.as_slice())
            && self.folder == command.folder
            && has_out(&self.out, &command.out)
            && self.target == command.target
            && self.toolchain == command.toolchain
            && are_same_paths(self.reads.as_slice(), command.reads.as_slice())
    }

    /// Returns whether a command sets the same variables to the same values. The call takes no
    /// memory.
    pub fn sets_as(&self, command: &Command) -> bool
        ensures { Decides result (self.now.pairs ≡ command.now.pairs) }
    {
        are_same_pairs(self.pairs.as_slice(), command.pairs.as_slice())
    }
}
