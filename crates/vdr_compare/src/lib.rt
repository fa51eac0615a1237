//! What the two media of one recorder say of the same places: where they differ, what one of them lacks that the other has, and where each
//! one is damaged.
//!
//! Each medium is read alone (vdr_rescue), twice: to its end, for the second of its last record and for what is found of it; and in step with
//! the other one, for the lines. Nothing is written.
//!
//! docs/formats/printed.md, "compare". Tests: vdr_script_tests, script compare.
#![tactic(auto)]

mod comparing;
mod condition;
mod difference;
mod law;
mod media;
mod opening;
mod pairing;
mod side;
mod standing;
mod survey;
mod tally;

pub use comparing::CompareRefused;
pub use difference::{Difference, Verdict};
pub use law::law_of_comparison;
pub use media::{MediaRefused, compare_media};
pub use standing::{Standing, Windows};
