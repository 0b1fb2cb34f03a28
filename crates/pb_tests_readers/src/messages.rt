//! Tests of message lines, by The Cargo Book, External Tools, and our own choices.

mod diagnostics;
mod lines;
mod made;
mod wanted;
