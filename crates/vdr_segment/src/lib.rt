//! Segments, and the slots of a medium that they stand in.
//!
//! A segment is a header and batches of records, each behind a gate: a byte that opens it once what stands behind it
//! is synced. So a stop in any call leaves a slot as it was before or as it is after, and what is written reads back.
//!
//! - Segments as bytes: headers with their summaries, batches, and the walk from batch to batch.
//! - Slots of an [`Area`]: read whole or by their front; begun, appended to, summarized and closed.
//!
//! docs/MEDIA.md, from "Gates" to "Batches", with a worked segment. Tests: vdr_script_tests, scripts layout and
//! summary.
#![tactic(auto)]

mod area;
mod batch;
mod gate;
mod header;
mod law;
mod reading;
mod slots_law;
mod step;
mod walking;
mod writing;

pub use area::Area;
pub use batch::{BATCH_HEAD, write_batch};
pub use gate::{CLOSED_GATE, OPEN_GATE};
pub use header::{
    HEADER_SIZE, Header, SUMMARY_GATE, SUMMARY_SIZE, read_header, write_header, write_summary,
};
pub use law::{law_of_segments, law_of_walks, law_of_writes};
pub use reading::{read_first_gate, read_front, read_slot};
pub use slots_law::{law_of_fronts, law_of_slots};
pub use step::Walk;
pub use walking::walk;
pub use writing::{append_batch, begin_segment, close_slot, summarize};
