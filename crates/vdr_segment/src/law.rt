// The laws of segments: bytes are a segment in one way, walked in one way, whatever part of a write was torn.
ghost use Rattle.std.specs.Prelude.{◌≡◌, ◌<◌, ◌+◌, ◌^◌, ◌∷◌, ◌++◌, ℕ, List, Option, None, IfSome, All, take, drop};
ghost use Rattle.std.specs.List.{flat_map};
ghost use Rattle.vdr_terms.specs.Records.{Record as Entry};
ghost use Rattle.vdr_entry.specs.declared.summary.Summary.{Summary as ASummary};
ghost use Rattle.vdr_segment.specs.declared.step.Walk.{Walk as AWalk};
ghost use Rattle.vdr_segment.specs.Gates.{open_gate, closed_gate};
ghost use Rattle.vdr_segment.specs.Headers.{new_header, FitsSummary, TellsSummary};
ghost use Rattle.vdr_segment.specs.Batches.{IsBatch, batch_bytes};
ghost use Rattle.vdr_segment.specs.Segments.{Segment, IsSegment, IsSlot, end_of, with_batch, with_summary};
ghost use Rattle.vdr_segment.specs.Walks.{Walks, TellsBatches};

/// Bytes are a segment in one way, a slot holds one or none, and what is written reads back: a new header whose gate was
/// opened, batches, and a closed gate are the segment of this header and these batches, whatever stands behind.
pub fn law_of_segments()
    ensures one { (bytes : List ℕ) (s t : Segment) → IsSegment bytes s → IsSegment bytes t → s ≡ t }
    ensures slot { (bytes : List ℕ) (s t : Option Segment) → IsSlot bytes s → IsSlot bytes t → s ≡ t }
    ensures written { (seq first : ℕ) (batches : List (List Entry)) (rest : List ℕ) → seq < 2 ^ 64 → first < 2 ^ 64 → All IsBatch batches
        → IsSegment (open_gate ∷ drop 1 (new_header seq first) ++ (flat_map batch_bytes batches ++ closed_gate ∷ rest))
        (record { header = record { seq = seq; first = first; summary = None }; batches = batches }) }
{}

/// A walk has one answer at an offset. From batch to batch it finds those that stand in a segment, each once and in order;
/// where it comes to an end inside the segment no more stands there, and where it breaks the segment has no legal batches.
pub fn law_of_walks()
    ensures one { (segment : List ℕ) (at : ℕ) (v w : AWalk) → Walks segment at v → Walks segment at w → v ≡ w }
    ensures batches { (segment : List ℕ) (at : ℕ) (w : AWalk) → Walks segment at w → TellsBatches segment at w }
{}

/// What a write leaves of a segment, whole or torn by a power failure. Behind the gate that closes its batches nothing is
/// read, so a write there changes nothing. A batch and a closed gate where that gate stood are one batch more. What stands
/// in the place of a summary counts exactly while the summary's gate is open, and changes nothing else.
pub fn law_of_writes()
    ensures behind { (old new : List ℕ) (s : Segment) → IsSegment old s → take (end_of s + 1) new ≡ take (end_of s + 1) old → IsSegment new s }
    ensures batch { (old new : List ℕ) (s : Segment) (b : List Entry) (rest : List ℕ) → IsSegment old s → IsBatch b
        → take (end_of s) new ≡ take (end_of s) old → drop (end_of s) new ≡ batch_bytes b ++ closed_gate ∷ rest
        → IsSegment new (with_batch s b) }
    ensures summary { (old new : List ℕ) (s : Segment) (summary : Option ASummary) → IsSegment old s → IfSome summary FitsSummary
        → take 17 new ≡ take 17 old → TellsSummary (take 45 (drop 17 new)) summary → drop 62 new ≡ drop 62 old
        → IsSegment new (with_summary s summary) }
{}
