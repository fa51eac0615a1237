// How a session ended, and what it came to.
use vdr_capture::{GroupSums, Outcome};
use vdr_intake::{Intake, Taker};

/// How a session ended, and what it came to.
#[derive(Drop)]
pub struct SessionEnd {
    pub outcome: Outcome,
    /// The sums of each configured group by its number; none at all where there was no memory.
    pub groups: [Option<GroupSums>; 16],
    /// How many records the run has.
    pub records: u64,
    /// The queue of each configured group with its taker, to which the feeder was joined; none at all where there was no memory.
    pub intakes: [Option<(Intake, Taker)>; 16],
}
