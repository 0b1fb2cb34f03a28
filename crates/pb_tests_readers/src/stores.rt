//! Tests of the store over files in memory: steps in words, and what the steps report. The crate
//! contains nothing else.

mod failing;
mod steps;
mod trials;
mod units;
mod world;
