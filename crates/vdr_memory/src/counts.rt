// How often media in memory were called.
ghost use Rattle.std.specs.Prelude.{◌≡◌};
ghost use Rattle.vdr_memory.specs.Counts.{changes, one_change, one_read, total};

use crate::Work;

/// How often media in memory were called, failed calls too. Each number stays at the greatest u64.
#[derive(Clone, Copy, Debug, PartialEq, Eq, Drop)]
pub struct CallCounts {
    pub reads: u64,
    pub writes: u64,
    pub syncs: u64,
}

impl CallCounts {
    /// All calls, up to the greatest u64.
    pub fn total(self) -> u64
        ensures { result ≡ total self }
    {
        self.reads
            .saturating_add(self.writes)
            .saturating_add(self.syncs)
    }

    /// The writes and syncs, up to the greatest u64.
    pub fn changes(self) -> u64
        ensures { result ≡ changes self }
    {
        self.writes.saturating_add(self.syncs)
    }

    // After one more read.
    pub(crate) fn with_read(self) -> CallCounts
        ensures { result ≡ one_read self }
    {
        CallCounts {
            reads: self.reads.saturating_add(1),
            ..self
        }
    }

    // After one more write or sync.
    pub(crate) fn with_change(self, work: Work) -> CallCounts
        ensures { result ≡ one_change work self }
    {
        match work {
            Work::Write { .. } => CallCounts {
                writes: self.writes.saturating_add(1),
                ..self
            },
            Work::Sync => CallCounts {
                syncs: self.syncs.saturating_add(1),
                ..self
            },
        }
    }
}
