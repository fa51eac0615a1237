//! The review of a feed: the Datagrams and Gaps of the last 48 hours of the recording that it makes.
#![tactic(auto)]

mod kept;
mod reading;
mod walk;
mod window;

pub use reading::{ReviewRefused, review};
pub use window::Review;
