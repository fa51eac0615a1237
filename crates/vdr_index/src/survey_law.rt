// The laws of surveys and audits: each has one answer, and so has a position.
ghost use Rattle.std.specs.Prelude.{◌≡◌, ℕ, List, drop};
ghost use Rattle.vdr_terms.specs.Records.{Record as Entry};
ghost use Rattle.vdr_segment.specs.Segments.{AreBatches};
ghost use Rattle.vdr_index.specs.declared.extent.Survey.{Survey as ASurvey};
ghost use Rattle.vdr_index.specs.declared.position.Position.{Position as APosition};
ghost use Rattle.vdr_index.specs.Surveys.{Surveys, BreaksAt};
ghost use Rattle.vdr_entry.specs.declared.summary.Summary.{Summary as ASummary};
ghost use Rattle.vdr_index.specs.Audits.{Agree, DisagreesAt};
ghost use Rattle.vdr_index.specs.Positions.{HasAhead};

/// A survey has one answer: a segment has legal batches or breaks, never both; its batches and what they come to are one,
/// and it breaks at one offset.
pub fn law_of_surveys()
    ensures batches { (segment : List ℕ) (bs cs : List (List Entry)) → AreBatches (drop 64 segment) bs → AreBatches (drop 64 segment) cs → bs ≡ cs }
    ensures offset { (segment : List ℕ) (m n : ℕ) → BreaksAt segment m → BreaksAt segment n → m ≡ n }
    ensures either { (segment : List ℕ) (bs : List (List Entry)) (at : ℕ) → AreBatches (drop 64 segment) bs → BreaksAt segment at → ⊥ }
    ensures survey { (first : ℕ) (bs : List (List Entry)) (s t : ASurvey) → Surveys first bs s → Surveys first bs t → s ≡ t }
{}

/// From a position on one list of records is ahead at the most.
pub fn law_of_positions()
    ensures { (segment : List ℕ) (p : APosition) (rs qs : List Entry) → HasAhead segment p rs → HasAhead segment p qs → rs ≡ qs }
{}

/// An audit has one answer: the batches of a segment agree with its summary, or the segment disagrees at one offset.
pub fn law_of_audits()
    ensures either { (segment : List ℕ) (first : ℕ) (s : ASummary) (bs : List (List Entry)) (at : ℕ) → AreBatches (drop 64 segment) bs → Agree first s bs
        → DisagreesAt segment first s at → ⊥ }
    ensures offset { (segment : List ℕ) (first : ℕ) (s : ASummary) (m n : ℕ) → DisagreesAt segment first s m → DisagreesAt segment first s n → m ≡ n }
{}
