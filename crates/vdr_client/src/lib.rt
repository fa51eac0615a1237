//! The operator's client: one line goes to the recorder of this host over its link, and its reply is told as a command tells it.
#![tactic(auto)]

mod asking;
mod ended;
mod line;
mod reply;
mod told;

pub use asking::{order, recorder_listens};
pub use ended::Ended;
pub use line::line_of;
pub use reply::print_reply;
pub use told::{Told, gone_from, no_file, told_of};
