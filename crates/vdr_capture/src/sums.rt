// The sums of a group in a run, and how a recording ended.
use vdr_terms::Counts;

/// What became of the items that a group's port gave in a run: each was recorded, or is counted by its cause.
#[derive(Clone, Copy, Debug, PartialEq, Eq, Drop)]
pub struct GroupSums {
    /// The items that the port gave.
    pub taken: u64,
    /// Those that became Datagram records.
    pub recorded: u64,
    /// The others.
    pub counts: Counts,
}

/// How a recording ended. Where several hold, the first of them is told.
#[derive(Clone, Copy, PartialEq, Eq, Drop)]
pub enum Outcome {
    /// The run was closed, and no port and no link failed.
    Done,
    /// There was no memory for it, and nothing was recorded.
    NoMemory,
    /// The next place was at least 2^62 as the run would have started.
    Place,
    /// The base was at least 2^62 as the run would have started.
    Tick,
    /// A call on the media failed.
    MediaFault,
    /// The port of this group failed, the least where several did.
    PortFault(u8),
    /// This link failed, the least where several did.
    LinkFault(u32),
}
