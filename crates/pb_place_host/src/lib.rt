//! The machine that the programs run on: real files, variables and children, behind the traits of
//! the outside world.
#![tactic(auto)]

mod children;
mod entry;
mod failed;
mod host_place;
mod host_view;
mod known;
mod leading_out;
mod listing;
mod meaning;
mod moving;
mod program;
mod reading;
mod report;
mod reporting;
mod starting;
mod tag;
mod writing;

pub use host_place::HostPlace;
pub use host_view::HostView;
pub use reporting::Reporting;
pub use tag::{TAG_LINE, TAG_NAME, TAG_TEXT, has_tag_line};
