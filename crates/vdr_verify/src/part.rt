// The parts of an evidence file.

/// A part of an evidence file, by which a refusal is told.
#[derive(Clone, Copy, Debug, PartialEq, Eq, Drop)]
pub enum Part {
    /// The eight bytes at the front.
    Token,
    /// The text of the configuration.
    Configuration,
    /// The number of the medium.
    Medium,
    /// The id of the incident.
    Incident,
    /// The label of the incident.
    Label,
    /// What was asked of the medium.
    Query,
    /// A record, where another one or the end should stand.
    Record,
    /// The number of records.
    End,
    /// The SHA-256 of all before.
    Digest,
    /// What stands behind the digest.
    Behind,
}
