// An open segment as opening a medium finds it: its header, and its batches where it has no summary.
ghost use Rattle.std.specs.Prelude.{◌≡◌};
ghost use Rattle.vdr_directory.specs.Indexed.{extent_by, summary_by};

use vdr_entry::Summary;
use vdr_index::{Extent, Survey};

/// What opening a medium finds of an open segment.
#[derive(Clone, Copy, Drop)]
pub struct Entry {
    /// Its slot, counted from 0.
    pub slot: u32,
    /// Its sequence number.
    pub seq: u64,
    /// The place of its first record.
    pub first: u64,
    /// The summary in its header. None where its gate is closed.
    pub summary: Option<Summary>,
    /// What its batches come to. None where the header has a summary: then they are not read.
    pub survey: Option<Survey>,
}

impl Entry {
    // From where to where its records reach. None where there is none, and where they are not read.
    pub(crate) fn extent(&self) -> Option<Extent>
        ensures { result ≡ extent_by self.now.survey }
    {
        self.survey?.extent
    }

    // What is known of its records: the summary of its header where there is one, else that of its survey. None where
    // it has no records.
    pub(crate) fn known_summary(&self) -> Option<Summary>
        ensures { result ≡ summary_by self.now.summary self.now.survey }
    {
        match self.summary {
            Some(summary) => Some(summary),
            None => self.survey?.summary,
        }
    }
}
