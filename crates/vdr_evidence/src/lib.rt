//! Evidence: a file of records that any program can read and check.
//!
//! Records stand in it as they stand on the media, behind the text of the configuration and what was asked of which medium, and the SHA-256
//! of all of it stands last. It is written as the records are read, in constant memory, and one file is that of one content.
//!
//! The format, with an example and a reader in another language: docs/formats/evidence.md.
#![tactic(auto)]

mod heading;
mod laws;
mod piece;
mod writer;

pub use heading::heading_of;
pub use laws::law_of_evidence;
pub use writer::EvidenceWriter;
