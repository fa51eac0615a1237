//! What a recorder in use answers to the operator's orders, as the text that goes back over a link.
//!
//! The lines and their replies, with an example: docs/formats/words.md.
#![tactic(auto)]

mod answering;
mod evidencing;
mod exporting;
mod gauge;
mod going_on;
mod health;
mod lines;
mod listing;
mod page;
mod playing;
mod refusing;
mod rest;
mod telling;

pub use answering::answer;
pub use gauge::Gauge;
pub use going_on::go_on;
pub use rest::Rest;
