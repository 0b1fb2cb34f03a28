//! Tests of commands and of what replies result in, against texts written by hand from the rules.

mod asking;
mod cases;
mod ends;
mod making;
mod show;
mod tables;
