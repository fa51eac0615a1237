// Which segment a query is to be asked of next.
ghost use Rattle.std.specs.Prelude.{◌≡◌, ◌<◌, ◌≤◌, ℕ, List, Contains, IfSome, IfNone};
ghost use Rattle.vdr_entry.specs.Queries.{asked};
ghost use Rattle.vdr_index.specs.declared.known.Known.{Known};
ghost use Rattle.vdr_index.specs.Indexes.{Keeps, MayAnswer, span_as};
ghost use Rattle.vdr_directory.specs.Sequence.{Placed, seq_of};
ghost use Rattle.vdr_directory.specs.Order.{AreInOrder};
ghost use Rattle.vdr_directory.specs.Holds.{Tells};
ghost use Rattle.vdr_index.specs.Indexes.{IsAbove};
ghost use Rattle.vdr_directory.specs.Indexed.{HasNoneSelected, IsNextToMeet, Meets};
ghost use Rattle.vdr_ring.specs.Meets.{IsKnownToMeet};

use crate::Ring;
use vdr_entry::Query;
use vdr_index::{Span, law_of_candidates};

impl Ring {
    /// The open slot whose segment has the least sequence number above `after` of all that meet the query within the span, and
    /// that number. By what the ring knows of it, such a segment may have a record that the query selects. None exactly where none
    /// meets. The segments above `after` that are passed over have no record that the query selects. Takes no memory, and reads
    /// nothing.
    pub fn next_candidate(
        &self,
        query: &Query,
        span: &Span,
        after: Option<u64>,
    ) -> Option<(u32, u64)>
        ensures within { IfSome result (λ found. found.0 < self.now.slots) }
        ensures above { IfSome result (λ found. IsAbove after found.1) }
        ensures known { IfSome result (λ found. IsKnownToMeet (asked query.now) (span_as span.now) self.now.directory.index found.0 found.1) }
        ensures least { IfSome result (λ found. (slot : ℕ) (k : Known) → Keeps self.now.directory.index slot k
            → MayAnswer (asked query.now) (span_as span.now) after k → found.1 ≤ k.seq) }
        ensures none_known { IfNone result ((slot : ℕ) (k : Known) → Keeps self.now.directory.index slot k
            → MayAnswer (asked query.now) (span_as span.now) after k → ⊥) }
        ensures some { IfSome result (λ found. (placed : List Placed) → Tells self.now.slots placed self.now.directory
            → (p : Placed) × IsNextToMeet (asked query.now) (span_as span.now) after placed p × (found.0 ≡ p.slot) × (found.1 ≡ seq_of p)) }
        ensures none { IfNone result ((placed : List Placed) → Tells self.now.slots placed self.now.directory
            → (p : Placed) → Contains placed p → IsAbove after (seq_of p) → Meets (asked query.now) (span_as span.now) p → ⊥) }
        ensures passed_over { (placed : List Placed) → Tells self.now.slots placed self.now.directory → AreInOrder placed
            → (q : Placed) → Contains placed q → IsAbove after (seq_of q) → IfSome result (λ found. seq_of q < found.1)
            → HasNoneSelected (asked query.now) (span_as span.now) q }
    {
        law_of_candidates();
        let index = self.directory.index();
        let slot = index.next_candidate(query, span, after)?;
        let Some((seq, _, _)) = index.get(slot) else {
            unreachable!()
        };
        Some((slot, seq))
    }
}
