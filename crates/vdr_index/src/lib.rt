//! What is known of the segments of a medium without reading them, and which of them may answer a query.
//!
//! A segment that the [`Index`] leaves out has no record that the query selects.
//!
//! - The index: of each slot the sequence number, the first place and the summary of its segment, and the candidates
//!   of a query among them.
//! - Within a segment: a survey tells what its batches come to, an audit whether they agree with its summary, and
//!   steps from [`Position`] to position give its records, of which `pass_by` reads the heads of those that are not
//!   selected.
//!
//! docs/MEDIA.md, "Segments" and "The ring". Tests: vdr_script_tests, scripts summary and reading.
#![tactic(auto)]

mod agreeing;
mod auditing;
mod extent;
mod head;
mod index;
mod keys;
mod known;
mod law;
mod moving;
mod passing;
mod position;
mod selection;
mod span;
mod stepping;
mod stretch;
mod summary;
mod survey_law;
mod surveying;

pub use auditing::audit;
pub use extent::{Extent, Survey};
pub use index::Index;
pub use known::{Known, NoMemory};
pub use law::law_of_candidates;
pub use passing::pass_by;
pub use position::Position;
pub use selection::Selection;
pub use span::{Span, has_channel};
pub use stepping::step;
pub use stretch::summary_with;
pub use survey_law::{law_of_audits, law_of_positions, law_of_surveys};
pub use surveying::survey;
