// The law of joined runs: a run, and one on what a stop left of it, are one history.
ghost use Rattle.std.specs.Prelude.{◌++◌, [], ℕ, List, Contains};
ghost use Rattle.vdr_terms.specs.Order.{AreInOrder};
ghost use Rattle.vdr_core.specs.Histories.{Event, MayFollow, Opening, all_records};
ghost use Rattle.vdr_durability.specs.FurtherRuns.{IsTwoRuns};
ghost use Rattle.vdr_durability.specs.Readings.{Reading};
ghost use Rattle.vdr_durability.specs.Shown.{Shows};

/// Two runs, the second on what a stop left of the first, are one history over the first opening: its events are those that the
/// media showed and then those of the second run, and what the media show in the end is all of it.
pub fn law_of_joined_runs()
    ensures follow { (members : List ℕ) (opening : Opening) (first : List Event) (between : Reading) (second : List Event) (after : Reading)
        → IsTwoRuns members opening first between second after → MayFollow opening [] (first ++ second) }
    ensures shows { (members : List ℕ) (opening : Opening) (first : List Event) (between : Reading) (second : List Event) (after : Reading)
        → IsTwoRuns members opening first between second after → Shows members opening (first ++ second) after }
    ensures order { (members : List ℕ) (opening : Opening) (first : List Event) (between : Reading) (second : List Event) (after : Reading)
        → IsTwoRuns members opening first between second after → (m : ℕ) → Contains members m → AreInOrder (all_records opening m (first ++ second)) }
{}
