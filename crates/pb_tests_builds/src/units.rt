//! Tests of one unit's run, over files in memory with the small compiler: the unit begins, answers,
//! or is dropped. Steps are in words, and each reports in words.

mod failing;
mod ready;
mod running;
mod steps;
mod trials;
