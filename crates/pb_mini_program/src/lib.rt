//! What the program `pb_mini` does. Over a view and a place, the program replies as the small
//! compiler does, and writes the files of its reply at the place. `compiler` does this over the
//! machine.
#![tactic(auto)]

mod fault;
mod machine;
mod out_folder;
mod program;

pub use fault::Fault;
pub use machine::compiler;
pub use program::carry_out;
