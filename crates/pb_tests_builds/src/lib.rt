//! Tests that cannot be written as data: builds over a place whose calls fail, and runs of single
//! units. The examples test all else about builds and programs.
#![tactic(auto)]

#[cfg(test)]
mod building;
#[cfg(test)]
mod failing;
#[cfg(test)]
mod old;
#[cfg(test)]
mod turning;
#[cfg(test)]
mod units;
