//! Whether a file is evidence: what it holds, or the first part of it that is not legal.
//!
//! It needs no media and no recorder. The file is read once, in constant memory but for the text of the configuration.
//!
//! The format, with an example: docs/formats/evidence.md.
#![tactic(auto)]

mod account;
mod account_text;
mod closing;
mod evidence;
mod heading;
mod laws;
mod opening;
mod part;
mod parts;
mod query;
mod reader;
mod records;
mod refused;
mod rereading;
mod stored;
mod verifying;
mod visiting;

pub use evidence::Evidence;
pub use laws::law_of_verification;
pub use opening::{EvidenceReader, read_evidence};
pub use part::Part;
pub use refused::VerifyRefused;
pub use stored::StoredFile;
pub use verifying::verify;
