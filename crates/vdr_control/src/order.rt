// The orders that a recorder in use takes.
use crate::Exporting;
use vdr_entry::Medium;

/// What is told of all records of a medium, or of an incident (this project's profile). Each has the text of the command of its name.
#[derive(Clone, Copy, Debug, PartialEq, Eq, Drop)]
pub enum Telling {
    /// The table of their sources.
    Sources,
    /// What heartbeats and alarms show of the equipment.
    Watch,
    /// The table of ships, by the records whose UTC stamp is `at` or before it.
    Targets {
        /// Milliseconds since 1970, up to the end of the year 9999.
        at: i64,
    },
    /// Their digest.
    Digest,
}

/// What is asked of a recorder (this project's profile).
#[derive(Clone, Copy, Debug, PartialEq, Eq, Drop)]
pub enum Order<'a> {
    /// Where the recording stands: its next place, its last tick, and how many incidents are saved.
    Status,
    /// An incident is saved under a label, which is any bytes: the save tests it.
    Save(&'a [u8]),
    /// The incident of this id, 1 to 32, is released.
    Release(u32),
    /// The live incidents are listed.
    Incidents,
    /// How the recording fares: what became of each group's datagrams, what the host tells of them, and how long the media took.
    Health,
    /// Records are played: those of a channel, whose UTC stamps are from `from` to `to`, both included.
    Play {
        /// An incident's id is 1 to 32.
        medium: Medium,
        /// The name of the channel, which is any bytes; `all` stands for every record.
        channel: &'a [u8],
        /// Milliseconds since 1970, up to the end of the year 9999.
        from: i64,
        /// The same; where it is below `from`, no record is asked for.
        to: i64,
    },
    /// The evidence of the incident of this id, 1 to 32, is written.
    Evidence(u32),
    /// Something is told of the records of a medium.
    Tell {
        /// An incident's id is 1 to 32.
        medium: Medium,
        telling: Telling,
    },
    /// A file is made of the records of a channel, whose UTC stamps are from `from` to `to`, both included.
    Export {
        /// An incident's id is 1 to 32.
        medium: Medium,
        /// The name of the channel, which is any bytes; `all`, which stands for every record, has no file.
        channel: &'a [u8],
        /// Milliseconds since 1970, up to the end of the year 9999.
        from: i64,
        /// The same; where it is below `from`, no record is asked for.
        to: i64,
        exporting: Exporting,
    },
}
