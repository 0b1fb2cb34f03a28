//! A build of a workspace: what is built, the units in order, the message lines and the summary.
//! The crate also runs sessions of edits and builds in memory.
#![tactic(auto)]

pub mod builder;
mod environment;
mod laws;
mod missing;
mod planning;
pub mod sessions;
mod toolchain;

pub use builder::{
    BuildPlan, Prepared, build, build_plan, build_plan_turns, build_turns, build_with, plan_build,
    prepare,
};
pub use environment::Environment;
pub use laws::{
    any_build_gives, builds_keep_the_headline, builds_look_at_sources,
    earlier_builds_change_nothing, records_stay_true, same_build_starts_none,
    units_are_of_the_result, worlds_have_one_result,
};
pub use missing::missing_libraries;
pub use pb_build_result::{BuildFault, Refusal, Summary, result_line};
pub use pb_build_session::{BadSession, SessionStep, read_session};
pub use pb_command_types::UnitFault;
pub use pb_workspace_types::Options;
pub use sessions::session;
