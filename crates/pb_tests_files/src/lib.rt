//! What tests of workspaces share: a child that prints nothing, files that one text describes, the
//! options of a build that requests nothing, tables of cases, texts that are made from parts,
//! answers, and a place whose files contracts do not know. It contains no test.
#![tactic(auto)]

mod answers;
mod cases;
mod child;
mod files;
mod options;
mod shown;
mod untold;

pub use answers::{holds, is_said, is_text};
pub use cases::{Answers, Case, Trial, Tried, put_answers, try_cases};
pub use child::Silent;
pub use files::{put_files, workspace_in};
pub use options::no_options;
pub use shown::Shown;
pub use untold::Untold;
