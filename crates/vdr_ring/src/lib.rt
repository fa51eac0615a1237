//! One medium as a ring of segments: opened, brought up, appended to at every moment, and read.
//!
//! A stop at any moment of an append leaves a legal medium that keeps its window and its pinned records.
//!
//! - A [`Ring`] has the directory of its medium and a buffer for one segment; the medium is lent to each call.
//! - A batch goes into the newest segment, else into a new one in a closed slot, else into one in the victim's slot.
//! - A [`Visit`] reads the records of one slot. A [`Cursor`] goes from slot to slot, and only into those of which the
//!   segment may have a record that the query selects.
//!
//! docs/MEDIA.md, "The ring". Tests: vdr_recorder_tests, module rings; vdr_script_tests, script wrap.
#![tactic(auto)]

mod append;
mod appending;
mod audit;
mod bringing;
mod choice;
mod cursor;
mod cursor_law;
mod last_batch;
mod law;
mod lookup;
mod meeting;
mod opening;
mod parting;
mod pins;
mod questions;
mod reading;
mod refused;
mod ring;
mod visit;

pub use audit::first_damage;
pub use cursor::Cursor;
pub use cursor_law::law_of_budget;
pub use law::{law_of_alike, law_of_places, law_of_stages};
pub use pins::Pins;
pub use refused::ReadRefused;
pub use ring::Ring;
pub use visit::Visit;
