//! Records. A record is kept beside the output folder of a unit. This crate writes a record as a
//! text and reads the record from this text.
#![tactic(auto)]

mod block;
mod commands;
mod front;
mod inputs;
mod laws;
mod leaves;
mod lists;
mod number;
mod numbers;
mod pairs;
mod part;
mod pieces;
mod put;
mod read;
pub mod record;
pub mod recorded_command;
mod room;
mod write;

pub use laws::{
    commands_are_asked, numbers_have_one_spelling, only_records_are_read, records_lie_apart,
    texts_have_a_reading, texts_have_one_reading,
};
pub use numbers::{Numbers, read_numbers};
pub use pairs::Pairs;
pub use read::read_record;
pub use record::{Input, InputName, Needed, Record};
pub use recorded_command::RecordedCommand;
pub use write::{write_record, write_record_pieces};
