//! Records: as values, as their bytes on the media, and what they are printed from.
//!
//! The format, with an example: docs/MEDIA.md.
#![tactic(auto)]

mod buffer;
mod content;
mod kind;
mod payload;
mod query;
mod read;
mod record;
mod summary;
mod utc;
mod write;

pub use buffer::RecordBuffer;
pub use content::Content;
pub use kind::Kind;
pub use query::{Medium, Query};
pub use read::{one_spelling, read_record, record_at};
pub use record::Record;
pub use summary::Summary;
pub use utc::{law_of_stamps, read_utc, write_utc};
pub use write::{put_record, write_record};
