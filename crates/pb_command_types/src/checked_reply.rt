//! What a good answer of a child contains.

use pb_data::Items;
use pb_directive::Directives;
use pb_record::InputName;

/// What a good answer contains.
#[derive(Drop)]
pub struct CheckedReply {
    /// The directives of a build script's output, in printed order. A compile has no directives.
    pub directives: Option<Directives>,
    /// The inputs, each once. The paths come first, in the order of first mention, and then the
    /// variables.
    pub inputs: Items<InputName>,
}
