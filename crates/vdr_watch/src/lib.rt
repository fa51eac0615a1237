//! Supervision of equipment by what it said: heartbeats that stayed away, sequence numbers that jump, and changes of alarms and of bridge alerts
//! (sentences HBT, ALR, ALF and ALC of IEC 61162-1; when a line is printed is this project's profile).
//!
//! The format, with an example: docs/formats/printed.md.
//!
//! A heartbeat has an interval above 0: of another nothing says when the next is due. A Start ends a pair, since
//! the equipment may have spoken meanwhile; an alarm's last state goes on over it. An alarm's text alone is no
//! change. The last record stands as a heartbeat at the end. Room is made before a record is told.
#![tactic(auto)]

mod alarm;
mod fault;
mod heartbeat;
mod laws;
mod place;
mod print;
mod sign;
mod tables;
mod watch;
mod watched;

pub use fault::WatchFault;
pub use laws::{law_of_latest, law_of_watch};
pub use watch::Watch;
