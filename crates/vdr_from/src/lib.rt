//! What is read out of a stored file of evidence: `from`, before the words of a command without its medium.
//!
//! The file is read twice: first to its end, whether it is evidence, and then again for its records, as the same file by
//! its SHA-256. (A sound is read three times.) No medium is opened.
//!
//! Tests: vdr_script_tests, script from; vdr_program_tests, script from.
#![tactic(auto)]

mod answering;
mod laws;
mod path;
mod running;
mod stops;
mod telling;
mod words;
mod writing;

pub use laws::law_of_held;
pub use path::{PathFile, PathReading};
pub use running::read_from;
pub use vdr_verify::StoredFile;
pub use words::is_from;
