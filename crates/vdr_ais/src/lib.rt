//! AIS: the messages that VDM and VDO sentences carry, what they report, and the table of ships.
//!
//! The format, with an example: docs/formats/printed.md.
#![tactic(auto)]

mod carried;
mod entry;
mod field;
mod joiner;
mod line;
mod message;
mod name;
mod pending;
mod report;
mod ship;
mod ships;
mod sixes;
mod table;
mod unfinished;

pub use joiner::Joiner;
pub use message::Message;
pub use report::{Position, Report, read_message};
pub use table::TargetTable;
pub use unfinished::Unfinished;
