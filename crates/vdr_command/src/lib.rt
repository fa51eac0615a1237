//! What a command of the voyage data recorder is: the world that it reaches, the status with which it ends, and the line of that status.
#![tactic(auto)]

mod opening;
mod refusal;
mod reports;
mod status;
mod world;

pub use opening::law_of_openings;
pub use refusal::{number_of, report_channel, report_refusal};
pub use reports::{ROOM, name_of, push_text, report};
pub use status::{EvidencePart, SaveCause, Status};
pub use world::{Outer, World};
