//! The worker of a port: it takes what the port gives in its run, pushes what is recordable and counts the rest.
#![tactic(auto)]

mod item;
mod lane;
mod lanes;
mod sums;
mod work;

pub use lane::{Cause, Lane};
pub use lanes::capture_all;
pub use sums::{GroupSums, Outcome};
pub use work::capture;
