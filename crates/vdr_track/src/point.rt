// A position that a source said, and what records say of a track, step by step.
use vdr_rows::Decimal;

/// A position that a source said.
#[derive(Clone, Copy, Drop)]
pub(crate) struct Point {
    /// The number of the transmission group of its record.
    pub(crate) group: u8,
    /// The stamp of its record, in milliseconds since 1970.
    pub(crate) utc: u64,
    /// In degrees, north above 0.
    pub(crate) latitude: Decimal,
    /// In degrees, east above 0.
    pub(crate) longitude: Decimal,
}

/// What a line, or a record without lines, says of the track of a source.
#[derive(Clone, Copy, Drop)]
pub(crate) enum Step {
    /// The recorder began a run.
    Begun,
    /// Items of this group were missed.
    Missed(u8),
    /// The source said that it has no valid position.
    Lost,
    /// The source said its position.
    Said(Point),
    /// Nothing.
    Silent,
}
