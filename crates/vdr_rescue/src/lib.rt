//! What one medium alone gives, whole, cut short or damaged: its records, what it lacks of what it owes, and where it is
//! damaged.
//!
//! Any bytes give one answer. Nothing is written, and no other medium is read.
//!
//! - The fronts of the slots say which hold a segment; segments are read by rising first place.
//! - Of a segment the records are given that stand in legal batches, each at its place. It is judged as it is read.
//! - Media that this product left give all that stands on them (`law_of_rescue`).
//!
//! docs/MEDIA.md, "One medium alone". Tests: vdr_script_tests, script rescue.
#![tactic(auto)]

mod alone;
mod cursor;
mod findings;
mod found;
mod front;
mod fronts;
mod given;
mod judging;
mod lacking;
mod law;
mod reading;
mod saves;
mod stepping;
mod told;
mod visiting;

pub use alone::Alone;
pub use cursor::Cursor;
pub use findings::Finding;
pub use found::{Found, found_of, print_findings};
pub use front::Front;
pub use fronts::{Fronts, Head, read_fronts};
pub use given::{Stand, next_given};
pub use lacking::{Places, is_in_window};
pub use law::{law_of_alone, law_of_given, law_of_legible, law_of_rescue, law_of_rescued};
pub use told::{Run, Told};
