//! Tests of paths, of sinks and of places, against worked examples:
//!
//! - the place in memory, by each of its calls;
//! - the machine's place, over real folders and children;
//! - any place, by the clauses of the trait only;
//! - what the calls of a place count and leave.
//!
//! The crate contains nothing else. A crate with tests is proved twice, so no crate that others
//! need has tests.
#![tactic(auto)]

#[cfg(test)]
mod calls;
#[cfg(test)]
mod counters;
#[cfg(test)]
mod echo;
#[cfg(test)]
mod failing;
#[cfg(test)]
mod flights;
#[cfg(test)]
mod honest;
#[cfg(test)]
mod host_view;
#[cfg(test)]
mod machine;
#[cfg(test)]
mod memory;
#[cfg(test)]
mod paths;
#[cfg(test)]
mod sinks;
#[cfg(test)]
mod told;
