//! What people at a terminal see of a build: message lines as text, the command lines of children,
//! and a status line.
#![tactic(auto)]

pub mod colored;
mod line;
mod long_record;
pub mod rendering;
pub mod screen;
pub mod spoken;
pub mod status_line;

pub use colored::{Colored, Coloring};
pub use line::ERASE;
pub use rendering::line_shown;
pub use screen::{Rendered, Screen};
pub use spoken::{Speaking, Spoken};
pub use status_line::{Counted, StatusLine};
