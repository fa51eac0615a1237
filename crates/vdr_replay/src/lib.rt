//! A feed is recorded on the media, as one run.
#![tactic(auto)]

mod ended;
mod feeding;
mod lanes;
mod replaying;
mod running;
mod sums;

pub use ended::{FeedEnd, ReplayRefused, Replayed};
pub use replaying::replay;
pub use vdr_capture::GroupSums;
