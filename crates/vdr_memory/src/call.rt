// A write or a sync on the record of media in memory.
ghost use Rattle.std.specs.Prelude.{◌≡◌};
ghost use Rattle.vdr_memory.specs.Traces.{length_of};

/// What media are asked to do with one of them.
#[derive(Clone, Copy, Debug, PartialEq, Eq, Drop)]
pub enum Work {
    /// Write so many bytes from a position on.
    Write { at: u64, length: usize },
    /// Make last what was written.
    Sync,
}

/// A write or a sync on the record of media in memory.
#[derive(Clone, Copy, Debug, PartialEq, Eq, Drop)]
pub struct Call {
    pub medium: u8,
    pub work: Work,
    /// Whether it was done. Else it failed.
    pub done: bool,
}

impl Call {
    // How many bytes it writes.
    pub(crate) fn length(&self) -> usize
        ensures { result ≡ length_of self.now.work }
    {
        match self.work {
            Work::Write { length, .. } => length,
            Work::Sync => 0,
        }
    }
}
