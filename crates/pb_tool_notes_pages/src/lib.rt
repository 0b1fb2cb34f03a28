//! The manifests of a workspace, read again for notes; and the notes themselves.
#![tactic(auto)]

mod asks;
mod globs;
mod lines;
mod looks;
mod near_miss;
mod note;
mod page;
mod pages;
mod remembering;
mod rules;
mod spots;
mod teller;

pub use asks::{Ask, Role, shared_entry};
pub use globs::{is_glob, matches_part, texts_of};
pub use looks::{files_in, folders_in, is_file};
pub use near_miss::near;
pub use note::{MOST_NOTES, Note, Notes};
pub use page::{Page, text_at};
pub use pages::{Pages, page_at, pages_of};
pub use remembering::Remembering;
pub use rules::{Kind, fits, is_taken, rows_of, rule_of};
pub use spots::{Spot, spots_of};
pub use teller::{tell_key, tell_page, wrong_value};
