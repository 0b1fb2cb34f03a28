//! What the reader of a command line needs besides the words.

use pb_place_types::PathText;

/// What a program knows about where it runs.
#[derive(Drop)]
pub struct Here {
    /// The current folder, at which relative paths start.
    pub folder: PathText,
    /// How many processors the program may use.
    pub processors: u64,
    /// Whether standard error is a terminal.
    pub is_terminal: bool,
    /// Whether standard error has colours if no option decides this.
    pub shows_colors: bool,
}
