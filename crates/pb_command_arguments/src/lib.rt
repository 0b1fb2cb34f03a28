//! The arguments of a compile: its crate, its output and folder, its settings and features, its
//! libraries, and what build scripts have requested (The Cargo Book, Build Scripts, Profiles; the
//! compiler's own command line).
#![tactic(auto)]

mod externs;
mod said;
mod settings;
mod words;

pub use externs::{push_libraries, reads_of};
pub use said::push_said;
pub use settings::push_settings;
pub use words::{push_copies, push_crate, push_features, push_output, push_word};
