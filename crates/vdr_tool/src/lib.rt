//! The commands of the voyage data recorder.
#![tactic(auto)]

mod checking;
mod command;
mod counting;
mod counting_packets;
mod formatting;
mod importing;
mod numbers;
mod readings;
mod releasing;
mod replaying;
mod reviewing;
mod saving;
mod summary;
mod trying;
mod using;
mod verifying;
mod words;

pub use command::{run_alone, run_alone_watched};
pub use readings::{of_block, of_channel, of_medium, of_ships, of_time_line};
pub use summary::Summary;
pub use using::{Uses, medium_use};
pub use vdr_command::{EvidencePart, Outer, SaveCause, Status, World, law_of_openings, report};
pub use verifying::status_of_verify;
