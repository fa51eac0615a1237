//! Sentences of IEC 61162-1: reading, their fields, and writing.
//!
//! The format, with an example: docs/formats/sentence.md.
#![tactic(auto)]

mod bad;
mod characters;
mod frame;
mod laws;
mod read;
mod sentence;
mod write;

pub use bad::Bad;
pub use laws::law_of_reading;
pub use read::read_sentence;
pub use sentence::Sentence;
pub use write::write_sentence;
