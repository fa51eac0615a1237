//! The terms of a recording, which specifications and code share: records, items, counts, rates and transmission groups.
#![tactic(auto)]

mod counts;
mod datagram;
mod group;
mod rate;
mod slots;
mod stamps;
mod texts;

pub use counts::Counts;
pub use datagram::{Verdict, recordable};
pub use group::{group_name, group_number};
pub use rate::Rate;
pub use slots::{INCIDENT_SIZE, INCIDENTS_FROM, MOST_INCIDENTS, SLOTS_FROM, slot_count};
pub use stamps::LAST_STAMP;
pub use texts::{are_graphic, are_printable};
