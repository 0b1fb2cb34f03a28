//! The outside world: paths, sinks, and places. A place has files, variables and child processes.
#![tactic(auto)]

pub mod call;
pub mod child;
pub mod child_in_flight;
pub mod command;
mod files;
mod laws;
pub mod moved;
pub mod path;
mod pieces;
pub mod place;
mod relative;
mod sink;
mod taken_apart;
mod text_map;
mod whole;

pub use call::Call;
pub use child::{Child, Reply, View, ViewFault};
pub use child_in_flight::ChildInFlight;
pub use command::{Command, Ended};
pub use files::FileMap;
pub use laws::{
    changes_stay_in_folders, children_see_sources_and_folders, failing_calls_are_told,
    failing_calls_spare, folders_nest, last_word_stands, maps_look_up, parsing_keeps_paths,
    paths_join_again,
};
pub use moved::Moved;
pub use path::{PathFault, PathText};
pub use pieces::{join_pieces, length_of};
pub use place::{Failure, Place, PlaceFault, StartFault};
pub use relative::RelativePath;
pub use sink::{Out, Over};
pub use text_map::TextMap;
pub use whole::write_all;
