//! What recorded media tell, over the program's commands and over a link alike: what visits their records, and the rows of the live incidents.
//!
//! The texts, with examples: docs/formats/printed.md. Which telling has which text stands in `specs/Tellings`.
#![tactic(auto)]

mod evidence;
mod incidents;
mod lookout;
mod watcher;

pub use evidence::save_heading;
pub use incidents::{ROOM, print_incidents, row_of};
pub use lookout::Lookout;
pub use watcher::Watcher;
