// The records that a segment gives, each at the place at which it stands.
ghost use Rattle.std.specs.Prelude.{◌≡◌, ◌≤◌, ◌<◌, ◌+◌, ◌^◌, ◌↔◌, ◌∷◌, [], ℕ, List, length, IfSome, IfNone};
ghost use Rattle.vdr_terms.specs.Records.{Record as Entry};
ghost use Rattle.vdr_index.specs.Positions.{IsAt};
ghost use Rattle.vdr_rescue.specs.Given.{Gives, GivesAbove, Stands, front};

use crate::stepping::step_on;
use vdr_entry::Record;
use vdr_index::Position;

// No record has a place so high.
const PLACES: u64 = 1 << 63;

/// Where a reader stands in a segment, and the place of the record that stands next, by the first place of the segment.
#[derive(Clone, Copy, Drop)]
pub struct Stand {
    pub position: Position,
    pub place: u64,
}

impl Stand {
    /// Before the first record of a segment with this first place.
    pub fn front(first: u64) -> Stand
        ensures front { result ≡ front first }
        ensures stands { (segment : List ℕ) → 65 ≤ length segment → length segment ≤ 2 ^ 24 → Stands segment result }
    {
        Stand {
            position: Position::front(),
            place: first.min(PLACES),
        }
    }
}

/// Reads the next record that a segment gives into `item`, whose own one is gone then, and answers where it stands behind it: of its
/// batches up to the first that is not legal, the next record that has the place at which it stands. None where there is none.
pub fn next_given(segment: &[u8], stand: Stand, item: &mut Record) -> Option<Stand>
    requires stands { Stands segment.now stand }
    ensures next { IfSome result (λ next. Stands segment.now next × (stand.position.at < next.position.at)
        × ((records : List Entry) → Gives segment.now stand records ↔ ((more : List Entry) × (records ≡ item.new ∷ more) × Gives segment.now next more))) }
    ensures none { IfNone result ((records : List Entry) → Gives segment.now stand records ↔ (records ≡ [])) }
{
    let mut at = stand;
    while let Some(position) = step_on(segment, at.position, item) {
        let here = item.place == at.place;
        at = Stand {
            position,
            place: at.place + 1,
        };
        if here {
            return Some(at);
        }
    }
    None
}

/// Reads the next record that a segment gives, whose place is not below the floor, into `item`, whose own one is gone then, and
/// answers where it stands behind it. None where there is none.
pub(crate) fn next_above(
    segment: &[u8],
    stand: Stand,
    floor: u64,
    item: &mut Record,
) -> Option<Stand>
    requires stands { Stands segment.now stand }
    ensures next { IfSome result (λ next. Stands segment.now next × (stand.position.at < next.position.at)
        × ((records : List Entry) → GivesAbove segment.now stand floor records ↔ ((more : List Entry) × (records ≡ item.new ∷ more) × GivesAbove segment.now next floor more))) }
    ensures none { IfNone result ((records : List Entry) → GivesAbove segment.now stand floor records ↔ (records ≡ [])) }
{
    let mut at = stand;
    while let Some(next) = next_given(segment, at, item) {
        at = next;
        if item.place >= floor {
            return Some(at);
        }
    }
    None
}
