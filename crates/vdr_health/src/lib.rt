//! How a recording fares, as the order `HEALTH` tells it: what became of each group's datagrams in the run, what the host tells of
//! its ports, and how long the media took.
//!
//! What the run knows of itself is a function of its history; what is gauged outside is an input. The format, with an example:
//! docs/formats/words.md.
#![tactic(auto)]

mod gauged;
mod page;
mod tallied;
mod tally;

pub use gauged::{Gauged, GroupGauge};
pub use page::{PAGE_ROOM, health_page};
pub use tallied::{GroupTally, RunTally};
