//! What was missed: the counts of a port's worker, and those of a group in the recorder.
#![tactic(auto)]

mod pending;
mod tally;

pub use pending::Pending;
pub use tally::Tally;
