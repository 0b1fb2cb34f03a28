//! The answer of a build: its summary, or the fault that ended the build. A line reports how the
//! build ended.
#![tactic(auto)]

pub mod bad_unit;
mod failures;
pub mod fault;
mod line;
mod refusals;
mod sentence;
pub mod summary;
mod telling;
mod texts;

pub use bad_unit::BadUnit;
pub use failures::{device_sentence, line_sentence, place_sentence, start_sentence, unit_sentence};
pub use fault::{BuildFault, DeviceFault, Refusal};
pub use line::result_line;
pub use refusals::{
    feature_sentence, load_sentence, manifest_sentence, plan_sentence, profile_sentence,
    refusal_sentence,
};
pub use sentence::build_sentence;
pub use summary::Summary;
pub use telling::summary_text;
