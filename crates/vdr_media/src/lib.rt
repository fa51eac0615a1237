//! The media of a recorder: their layout, and how they are formatted.
//!
//! The format, with an example: docs/MEDIA.md.
#![tactic(auto)]

mod emptying;
mod formatting;
mod gates;
mod laying;
mod layout;
mod refused;
mod superblock;

pub use formatting::{are_formatted, format};
pub use laying::lay_out;
pub use layout::{MEMBERS, TEXT_FROM};
pub use refused::FormatRefused;
pub use superblock::superblock_bytes;
