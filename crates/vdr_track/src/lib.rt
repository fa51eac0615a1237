//! The track of a source: the positions that its lines say, in segments that go over no hole of the recording, as a GPX file.
//!
//! The format, with an example: docs/formats/track.md.
#![tactic(auto)]

mod laws;
mod lines;
mod point;
mod segment;
mod text;
mod track;

pub use laws::{law_of_segments, law_of_tracks};
pub use track::Track;
