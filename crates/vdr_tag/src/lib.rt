//! TAG blocks of IEC 61162-450.
//!
//! The format, with an example: docs/formats/tag.md.
#![tactic(auto)]

mod bad;
mod block;
mod code;
mod grouping;
mod items;
mod laws;
mod read;
mod split;
mod tags;
mod values;

pub use bad::BadTag;
pub use grouping::Grouping;
pub use laws::law_of_reading;
pub use read::read_tags;
pub use tags::Tags;
