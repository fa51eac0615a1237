// What the budget of a new cursor comes to.
ghost use Rattle.std.specs.Prelude.{List};
ghost use Rattle.vdr_terms.specs.Queries.{Query, Span};
ghost use Rattle.vdr_directory.specs.Sequence.{Placed};
ghost use Rattle.vdr_directory.specs.Holds.{Tells};
ghost use Rattle.vdr_ring.specs.Rings.{RingState};
ghost use Rattle.vdr_ring.specs.Budgets.{IsOfSegments};

/// Over a ring that knows its segments, the steps of a new cursor read at most the bytes of a segment for each that meets the query within
/// the span.
pub fn law_of_budget()
    ensures { (query : Query) (span : Span) (ring : RingState) (placed : List Placed) → Tells ring.slots placed ring.directory → IsOfSegments query span ring placed }
{}
