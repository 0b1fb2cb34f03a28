//! Messages as values. A message does not say whether a child process was started for its unit.

use pb_data::{Items, Text};
use pb_place_types::PathText;
use pb_profile::Settings;

/// The level of a note.
#[derive(Clone, Copy, Debug, PartialEq, Eq)]
pub enum Level {
    /// A warning.
    Warning,
    /// An error.
    Error,
}

/// A file that a compile made.
#[derive(Drop)]
pub struct Artifact {
    /// The settings under which the file was compiled.
    pub settings: Settings,
    /// Those features of the file's package that are on, in byte order.
    pub features: Items<Text>,
    /// The file.
    pub file: PathText,
    /// Whether the file is executable, as the file of a binary is.
    pub is_executable: bool,
}

/// What a build script passes to the compiler. Each list is in printed order.
#[derive(Drop)]
pub struct Executed {
    /// Libraries to link.
    pub linked_libraries: Items<Text>,
    /// Folders in which the linker looks for libraries.
    pub linked_paths: Items<Text>,
    /// Conditions that are on.
    pub conditions: Items<Text>,
    /// Variables, each a name and a value.
    pub variables: Items<(Text, Text)>,
    /// The folder in which the script left its files.
    pub out_folder: PathText,
}

/// A message about a unit (The Cargo Book, External Tools).
#[derive(Drop)]
pub enum Message {
    /// A line of the compiler's standard error that is a JSON object.
    CompilerMessage(Text),
    /// A compile succeeded and made this artifact.
    CompilerArtifact(Artifact),
    /// A build script printed a note for its user. The reason `build-script-note` is our own
    /// choice.
    BuildScriptNote(Level, Text),
    /// A build script succeeded and passed this to the compiler.
    BuildScriptExecuted(Executed),
}
