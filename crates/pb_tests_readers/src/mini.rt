//! Tests of the small compiler: worked compiles with their bytes; tables of sources and images for
//! its verbs, in one world of files and variables; and its dep-info as the builder reads it.

mod command_lines;
mod compiles;
mod read_back;
mod runs;
mod tables;
mod variables;
mod verbs;
mod views;
mod worlds;
