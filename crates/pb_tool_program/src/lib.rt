//! What the program `pb_tool` does, over any place: it builds a workspace, runs a session in
//! memory, or explains the name of an error. `tool` is the program over the machine.
#![tactic(auto)]

mod building;
mod cleaning;
mod explaining;
mod folder_lock;
mod guard;
mod laws;
mod libraries;
mod machine;
mod names;
mod planning;
mod previewing;
mod processors;
mod reports;
mod running;
mod session;

pub use building::build_options;
pub use cleaning::clean_options;
pub use guard::Guard;
pub use laws::shown_changes_nothing;
pub use machine::tool;
pub use pb_place_host::HostPlace;
pub use pb_tool_arguments::{Here, PlanForm};
pub use pb_tool_explain::page_of_errors;
pub use pb_tool_screen::{Colored, Rendered, Spoken, StatusLine};
pub use pb_tool_witness::{Noted, Noting, Witness};
pub use planning::plan_options;
pub use previewing::preview_options;
pub use running::run;
pub use session::{run_session, write_results};
