// What the newest segments of a medium retain.
ghost use Rattle.std.specs.Prelude.{◌≤◌, ◌<◌, ℕ, List, length};
ghost use Rattle.vdr_terms.specs.Needs.{Sizes, cost, needed_slots, usable};
ghost use Rattle.vdr_durability.specs.Retention.{Holds};
ghost use Rattle.vdr_directory.specs.Sequence.{Placed, all_records};
ghost use Rattle.vdr_ring.specs.Regularity.{AreLaidOut, AreRegular};
ghost use Rattle.vdr_remake.specs.Copies.{moved};
ghost use Rattle.vdr_remake.specs.Remade.{AreNewest};

/// The newest of the segments of a regular medium, all of them or as many as another medium has slots: where that has the slots that it
/// needs, they hold its window of all; and as they stand on it they are regular.
pub fn law_of_remakes()
    ensures window { (sizes : Sizes) (m count : ℕ) (placed kept : List Placed) → AreLaidOut (cost sizes) (usable sizes) sizes.batch placed → 0 < usable sizes
        → needed_slots sizes m ≤ count → AreNewest count placed kept → Holds (sizes.seconds m) (all_records placed) (all_records kept) }
    ensures regular { (c u b count : ℕ) (placed kept : List Placed) → AreRegular c u b placed → AreNewest count placed kept
        → AreRegular c u b (moved kept) }
{}
