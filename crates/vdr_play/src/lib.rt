//! Playback: the recording as text.
//!
//! The format, with an example: docs/formats/printed.md.
#![tactic(auto)]

mod escape;
mod line;
mod records;
mod streams;
mod tracks;
mod verdicts;
mod words;

pub use escape::print_escaped;
pub use records::print_record;
pub use tracks::Tracks;
pub use vdr_entry::{Medium, Query};
