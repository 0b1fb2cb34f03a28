//! Tests against worked examples:
//!
//! - of the base types;
//! - of the readers: manifests, the output of scripts, dep-info, session files and records;
//! - of what is written: JSON strings, message lines, result lines, and faults in words;
//! - of the small compiler, the flight table and the store.
//!
//! The crate contains nothing else. A crate with tests is proved twice, so no crate that others
//! need has tests.
#![tactic(auto)]

#[cfg(test)]
mod data;
#[cfg(test)]
mod dice;
#[cfg(test)]
mod directives;
#[cfg(test)]
mod faults;
#[cfg(test)]
mod flight;
#[cfg(test)]
mod json;
#[cfg(test)]
mod manifests;
#[cfg(test)]
mod messages;
#[cfg(test)]
mod metadata;
#[cfg(test)]
mod mini;
#[cfg(test)]
mod records;
#[cfg(test)]
mod results;
#[cfg(test)]
mod sessions;
#[cfg(test)]
mod stores;
#[cfg(test)]
mod texts;
#[cfg(test)]
mod wording;
