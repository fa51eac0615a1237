// The laws of opening a medium: it has one answer, and what it knows of segments is true of them.
ghost use Rattle.std.specs.Prelude.{◌≡◌, ◌↔◌, ◌≤◌, ℕ, List, All, map};
ghost use Rattle.vdr_terms.specs.Records.{last};
ghost use Rattle.vdr_terms.specs.Legality.{IsRecord};
ghost use Rattle.vdr_directory.specs.Sequence.{Placed, all_records, batches_in};
ghost use Rattle.vdr_directory.specs.Order.{AreInOrder};
ghost use Rattle.vdr_directory.specs.Knowns.{AreInOrderBy, known_of};
ghost use Rattle.vdr_directory.specs.Holds.{HoldsPlaced};
ghost use Rattle.vdr_directory.specs.Lookup.{HoldAll};
ghost use Rattle.vdr_directory.specs.Opening.{AreKnown, Refuses};
ghost use Rattle.vdr_directory.specs.Telling.{HoldAllBy, RiseBy};

/// Opening a medium has one answer. One whose parts are legal and in a legal order, as far as opening knows them, is
/// not refused, and one that is refused is refused at one offset. The parts are one. A medium that holds segments in
/// a legal order has such parts.
pub fn law_of_opening()
    ensures either { (segment count offset : ℕ) (known : List Placed) (bytes : List ℕ) → AreKnown segment count bytes known → AreInOrderBy known
        → Refuses segment count bytes offset → ⊥ }
    ensures offset { (segment count m n : ℕ) (bytes : List ℕ) → Refuses segment count bytes m → Refuses segment count bytes n → m ≡ n }
    ensures parts { (segment count : ℕ) (ps qs : List Placed) (bytes : List ℕ) → AreKnown segment count bytes ps → AreKnown segment count bytes qs → ps ≡ qs }
    ensures legible { (segment count : ℕ) (placed : List Placed) (bytes : List ℕ) → 64 ≤ segment → HoldsPlaced segment count placed bytes → AreInOrder placed
        → AreKnown segment count bytes (map known_of placed) × AreInOrderBy (map known_of placed) }
    ensures unrefused { (segment count offset : ℕ) (placed : List Placed) (bytes : List ℕ) → 64 ≤ segment → HoldsPlaced segment count placed bytes → AreInOrder placed
        → Refuses segment count bytes offset → ⊥ }
{}

/// Segments in a legal order end as what opening knows of them does, and hold the places that it knows of. Where
/// their records are legal, that is in a legal order too; their numbers and places rise in any case.
pub fn law_of_knowns()
    ensures order { (placed : List Placed) → All IsRecord (all_records placed) → AreInOrder placed → AreInOrderBy (map known_of placed) }
    ensures rise { (placed : List Placed) → AreInOrder placed → RiseBy (map known_of placed) }
    ensures batch { (placed : List Placed) → AreInOrder placed → last (batches_in (map known_of placed)) ≡ last (batches_in placed) }
    ensures record { (placed : List Placed) → AreInOrder placed → last (all_records (map known_of placed)) ≡ last (all_records placed) }
    ensures places { (a b : ℕ) (placed : List Placed) → AreInOrder placed → HoldAllBy a b (map known_of placed) ↔ HoldAll a b placed }
{}
