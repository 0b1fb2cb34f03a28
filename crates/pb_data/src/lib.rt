//! The data types that every crate of the builder uses. Contracts see texts and bytes as lists of
//! numbers, and items as lists. The crate also defines words of contracts, such as `UnlessOom`, for
//! answers that running out of memory may prevent.
#![tactic(auto)]

mod bytes;
mod copying;
mod hashing;
mod items;
mod limits;
mod next;
mod ordered_set;
pub mod table;
mod text;
mod truth;

pub use bytes::Bytes;
pub use copying::TryCopy;
pub use items::Items;
pub use limits::{MAX_MANIFEST_BYTES, MAX_PACKAGES, MAX_STREAM_BYTES, MAX_UNITS};
pub use next::with_next;
pub use ordered_set::OrderedSet;
pub use table::Table;
pub use text::Text;
pub use truth::truth_text;
