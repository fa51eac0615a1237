// Where a reader of records stands in a segment.
ghost use Rattle.std.specs.Prelude.{◌≡◌, ◌≤◌, ◌↔◌, ℕ, List, length, drop};
ghost use Rattle.vdr_terms.specs.Records.{Record as Entry};
ghost use Rattle.vdr_segment.specs.Segments.{AreBatches};
ghost use Rattle.vdr_index.specs.Extents.{records_in};
ghost use Rattle.vdr_index.specs.Positions.{front, IsAt, HasAhead};

use vdr_segment::HEADER_SIZE;

/// Where a reader of records stands in a segment.
#[derive(Clone, Copy, Drop)]
pub struct Position {
    /// The offset of the next record of its batch.
    pub at: usize,
    /// The offset behind the last record of its batch, where the next gate stands.
    pub to: usize,
}

impl Position {
    /// Before the first batch: all records of the segment are ahead.
    pub fn front() -> Position
        ensures place { result ≡ front }
        ensures stands { (segment : List ℕ) → 65 ≤ length segment → IsAt segment result }
        ensures ahead { (segment : List ℕ) (records : List Entry) → HasAhead segment result records
            ↔ ((batches : List (List Entry)) × AreBatches (drop 64 segment) batches × (records ≡ records_in batches)) }
    {
        Position {
            at: HEADER_SIZE,
            to: HEADER_SIZE,
        }
    }
}
