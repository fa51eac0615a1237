//! A recording session: captures beside each other, the recorder's loop, desks at which orders are answered, and one latch round the recorder.
#![tactic(auto)]

mod answering;
mod attending;
mod batch;
mod charging;
mod done;
mod ending;
mod fork;
mod heads;
mod joining;
mod kept;
mod lent;
mod making;
mod mark;
mod muster;
mod plan;
mod popping;
mod ports_alone;
mod recording;
mod recording_loop;
mod records;
mod refusing;
mod running;
mod session;
mod summing;
mod under_latch;

pub use mark::{Did, Mark};
pub use ports_alone::record;
pub use recording::record_at_desks;
pub use records::Began;
pub use session::SessionEnd;
pub use vdr_capture::{GroupSums, Outcome};
pub use vdr_desk::{Desk, Piece};
