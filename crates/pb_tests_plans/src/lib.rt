//! Tests of what is between manifests and children: which packages are loaded and selected, or
//! which refusal comes; the settings of packages; which packages, features and entries are on;
//! plans; commands, and what their replies result in. All tests are tables of cases, written by
//! hand from the rules.
#![tactic(auto)]

#[cfg(test)]
mod asking;
#[cfg(test)]
mod cases;
#[cfg(test)]
mod commands;
#[cfg(test)]
mod enabled;
#[cfg(test)]
mod features;
#[cfg(test)]
mod plans;
#[cfg(test)]
mod refused_features;
#[cfg(test)]
mod resolutions;
#[cfg(test)]
mod script_cases;
#[cfg(test)]
mod show;
#[cfg(test)]
mod workspaces;
