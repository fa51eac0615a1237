//! What media show of a history, and which part of it they keep over a stop.
//!
//! Whatever a stop leaves of the media shows the events that were acknowledged, with the pending one or without it,
//! and gives exactly the records of each window and of each live incident. The parts of this, from the bottom:
//!
//! - Retention: what a medium retains while batches are appended, and which segment is written over.
//! - Pace: how many bytes a recorder commits in a second, so that media that fit their configuration never fill up.
//! - Playback: what a query, a table of sources and an operator's orders give of a history.
//! - Showing and keeping: what both media show during a commit, a save and an opening, and from call to call.
//!
//! It has laws and no code: docs/PROVED.md.
#![tactic(auto)]

mod ends;
mod joining;
mod keeping;
mod pace_law;
mod playback_law;
mod regularity;
mod retention_law;
mod showing;
mod soundness;

pub use ends::{law_of_ends, law_of_ends_off};
pub use joining::law_of_joined_runs;
pub use keeping::{Showing, law_of_acknowledgment, law_of_doubt, law_of_keeping};
pub use pace_law::{law_of_media, law_of_pace, law_of_sizes};
pub use playback_law::{law_of_orders, law_of_playback, law_of_sources};
pub use regularity::law_of_regular_members;
pub use retention_law::{
    law_of_appends, law_of_order, law_of_regular_media, law_of_victims, law_of_windows,
};
pub use showing::{law_of_commits, law_of_further_runs, law_of_openings, law_of_saves};
pub use soundness::law_of_unbroken_windows;
