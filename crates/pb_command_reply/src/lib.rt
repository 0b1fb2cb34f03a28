//! What a child's reply yields: directives and inputs, or the reason why the reply is bad (The
//! Cargo Book, Build Scripts; the limits are our own choice).
#![tactic(auto)]

mod input_names;
mod judging;
mod meaning;

pub use judging::{check_reply, check_reply_at, ended_fault, inputs};
