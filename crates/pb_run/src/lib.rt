//! One unit of a build: how it begins, how its child's answer is judged, and what it leaves. The
//! flight table, which determines when each unit begins and answers, is also exported.
#![tactic(auto)]

pub mod begun;
pub mod faults;
mod landing;
mod launching;
mod laws;
mod ordered;
pub mod ran;
mod running;
mod unit_steps;

pub use begun::{Awaited, Begun, SpawnedChild};
pub use faults::{StepFault, device_fault};
pub use laws::outcomes_unfold;
pub use ordered::OrderedProject;
pub use pb_run_flight::{Answer, First, Flight, Jobs, Last, Pick, Step, Turn};
pub use ran::{Ran, Validated};
pub use unit_steps::{Outcome, answer_unit, begin_unit, drop_unit, run_unit};
