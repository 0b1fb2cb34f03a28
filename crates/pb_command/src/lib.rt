//! Commands of units, the meaning of their answers, and the reasons why an answer is bad (The Cargo
//! Book, Build Scripts, Environment Variables, Profiles; the compiler's own command line).
#![tactic(auto)]

mod commands;
mod laws;

pub use commands::{command, query};
pub use laws::{
    commands_are_absolute, judges_as_answered, last_values_count, libraries_in_order, pairs_rise,
};
pub use pb_command_reply::{check_reply, check_reply_at, ended_fault, inputs};
pub use pb_command_types::{
    CheckedReply, Done, Project, Setup, UnitFault, crate_name_of, dep_info_path, made_file,
};
pub use pb_record::InputName;
