//! Tests over the tops of the families only, as a user of these crates would write them. They make
//! a call of each kind, and compare its answer with the rules.
#![tactic(auto)]

#[cfg(test)]
mod answers;
#[cfg(test)]
mod builds;
#[cfg(test)]
mod flights;
#[cfg(test)]
mod plans;
#[cfg(test)]
mod readers;
#[cfg(test)]
mod turns;
#[cfg(test)]
mod units;
#[cfg(test)]
mod world;
