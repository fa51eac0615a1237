/// What the records of a segment have in common.
#[derive(Clone, Copy, Debug, PartialEq, Eq, Drop)]
pub struct Summary {
    /// How many records there are.
    pub count: u32,
    /// The second of recording time of the first record.
    pub first_second: u64,
    /// The second of recording time of the last record.
    pub last_second: u64,
    /// The least UTC stamp, in milliseconds since 1970.
    pub least_utc: i64,
    /// The greatest UTC stamp, in milliseconds since 1970.
    pub greatest_utc: i64,
    /// The channel bits of all records together.
    pub bits: u64,
}
