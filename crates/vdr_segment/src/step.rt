/// What stands at an offset of a segment.
#[derive(Clone, Copy, Debug, PartialEq, Eq, Drop)]
pub enum Walk {
    /// A batch, whose records are the bytes `from` up to `to` of the segment. The gate of what follows is at `to`.
    Batch { from: usize, to: usize },
    /// A closed gate, or the segment is at its end.
    End,
    /// An open gate, and no batch.
    Broken,
}
