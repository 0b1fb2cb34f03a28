//! Tests of the whole program: sessions over sinks that fail, and what is written after mistakes
//! and of long records.
#![tactic(auto)]

#[cfg(test)]
mod long_records;
#[cfg(test)]
mod mistakes;
#[cfg(test)]
mod sinks;
