// The laws of ends: where the media meet at the last batch, and which of them lack it.
//
// The medium whose end is off is the first with which the media no longer meet; where the leading one is empty, the
// first that isn't.
ghost use Rattle.std.specs.Prelude.{◌≡◌, ◌⊎◌, ◌<◌, [], ◌++◌, ℕ, List, Some, None, Contains, length};
ghost use Rattle.vdr_terms.specs.Records.{Record, last};
ghost use Rattle.vdr_durability.specs.Readings.{AreLevel, EndsMeet, EndsOff, IsPassedOn, Reading, leading_batch};

/// The ends of media meet exactly where the first of them, at least one, end with the leading medium's last batch and the others
/// directly before it, or where none has a batch. They are level where no medium is left to wait, and level media meet.
pub fn law_of_ends()
    ensures passed { (members : List ℕ) (reading : Reading) (batch : List Record) → 0 < length members → leading_batch members reading ≡ Some batch
        → EndsMeet members reading → (given waiting : List ℕ) × IsPassedOn members given waiting batch reading }
    ensures meet { (members given waiting : List ℕ) (reading : Reading) (batch : List Record) → IsPassedOn members given waiting batch reading
        → (leading_batch members reading ≡ Some batch) × EndsMeet members reading }
    ensures reached { (members given : List ℕ) (reading : Reading) (batch : List Record) → IsPassedOn members given [] batch reading → AreLevel members reading }
    ensures empty { (members : List ℕ) (reading : Reading) → leading_batch members reading ≡ None → EndsMeet members reading → AreLevel members reading }
    ensures level { (members : List ℕ) (reading : Reading) → AreLevel members reading → EndsMeet members reading }
{}

/// Where media meet, the first of them do, and none is off. One is off at most; and where each end is known to be the leading
/// batch or not, the media meet, or one is off.
pub fn law_of_ends_off()
    ensures fronts { (before after : List ℕ) (reading : Reading) → EndsMeet (before ++ after) reading → EndsMeet before reading }
    ensures none { (members : List ℕ) (reading : Reading) (m : ℕ) → EndsMeet members reading → EndsOff members reading m → ⊥ }
    ensures one { (members : List ℕ) (reading : Reading) (m k : ℕ) → EndsOff members reading m → EndsOff members reading k → m ≡ k }
    ensures some { (members : List ℕ) (reading : Reading)
        → ((m : ℕ) → Contains members m → (last (reading.batches m) ≡ leading_batch members reading) ⊎ (last (reading.batches m) ≡ leading_batch members reading → ⊥))
        → EndsMeet members reading ⊎ ((m : ℕ) × EndsOff members reading m) }
{}
