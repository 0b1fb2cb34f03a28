//! A second look after a refusal: facts about the refusal, as notes for people.
#![tactic(auto)]

mod looking;

pub use looking::{notes_on_build, notes_on_features, notes_on_load, notes_on_plan};
pub use pb_tool_notes_pages::{MOST_NOTES, Notes, Remembering};
