// Which part of a play is read next: so much as stands in one segment.
ghost use Rattle.std.specs.Prelude.{◌≡◌, ◌⊎◌, ◌≤◌, ◌<◌, ◌+◌, List, Contains, IfSome, IfNone, None, suc};
ghost use Rattle.vdr_terms.specs.Queries.Span.{Places as PlacesOf};
ghost use Rattle.vdr_entry.specs.Queries.{asked};
ghost use Rattle.vdr_directory.specs.Sequence.{Placed};
ghost use Rattle.vdr_directory.specs.Order.{AreInOrder};
ghost use Rattle.vdr_directory.specs.Holds.{Tells};
ghost use Rattle.vdr_directory.specs.Indexed.{HasNoneSelected};
ghost use Rattle.vdr_ring.specs.Budgets.{budget};

use crate::Ring;
use vdr_entry::Query;
use vdr_index::{Known, Span};

// The last place at b or before it that a segment has, of which this is known. No sum is taken where it may be too great.
fn last_within(known: Known, b: u64) -> u64
    requires begins { known.first ≤ b }
    requires some { 1 ≤ known.first + known.summary.count }
    ensures below { result ≤ b }
    ensures own { result < known.first + known.summary.count }
    ensures last { (result ≡ b) ⊎ (suc result ≡ known.first + known.summary.count) }
{
    if b - known.first < known.summary.count as u64 {
        return b;
    }
    known.first + known.summary.count as u64 - 1
}

impl Ring {
    /// Up to which place a play of the places from a to b, both included, reads just one segment: the last place from a to b in the segment of
    /// least sequence number that meets the query within them. None where no segment meets it: then the query selects nothing of these
    /// places. Takes no memory, and reads nothing.
    pub fn part_end(&self, query: &Query, a: u64, b: u64) -> Option<u64>
        ensures within { IfSome result (λ end. (a ≤ end) × (end ≤ b)) }
        ensures one { IfSome result (λ end. (placed : List Placed) → Tells self.now.slots placed self.now.directory → AreInOrder placed
            → budget self.now (asked query.now) (PlacesOf a end) None ≤ self.now.segment) }
        ensures none { IfNone result ((placed : List Placed) → Tells self.now.slots placed self.now.directory → AreInOrder placed
            → (q : Placed) → Contains placed q → HasNoneSelected (asked query.now) (PlacesOf a b) q) }
    {
        if a > b {
            return None;
        }
        let (slot, _) = self.next_candidate(query, &Span::Places { a, b }, None)?;
        let Some(known) = self.directory.index().known(slot) else {
            unreachable!()
        };
        Some(last_within(known, b))
    }
}
