//! What a session file contains: edits, injected failures, and builds with their options.
#![tactic(auto)]

mod death;
pub mod fault;
mod laws;
mod options;
pub mod pick;
mod session;
pub mod step;
mod value;

pub use death::Death;
pub use fault::BadSession;
pub use pick::PickBy;
pub use session::read_session;
pub use step::SessionStep;
