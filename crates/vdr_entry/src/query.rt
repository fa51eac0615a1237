/// What is played: the window of a medium, or a saved incident.
#[derive(Clone, Copy, Debug, PartialEq, Eq, Drop)]
pub enum Medium {
    /// The window of the capsule, medium 0.
    Capsule,
    /// The window of the long-term medium, medium 1.
    LongTerm,
    /// The incident that was saved under this id.
    Incident(u32),
}

/// Which records are played (this project's profile). The bounds select by UTC: what is in the window is a matter of recording time.
#[derive(Clone, Copy, Debug, PartialEq, Eq, Drop)]
pub struct Query {
    pub medium: Medium,
    /// The number of a channel, of which the records are that have its bit; None for all records.
    pub channel: Option<u8>,
    /// The least UTC stamp, in milliseconds since 1970.
    pub from: i64,
    /// The greatest UTC stamp. Where it is below `from`, no record is selected.
    pub to: i64,
}
