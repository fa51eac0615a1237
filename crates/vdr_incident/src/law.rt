// The laws of incident saves: a slot and a table read in one way, and what is beside a slot is held as before.
ghost use Rattle.std.specs.Prelude.{◌≡◌, ◌≤◌, ◌<◌, ◌+◌, ◌⊎◌, ℕ, List, length, slice_get, Option};
ghost use Rattle.vdr_core.specs.Histories.{Incident};
ghost use Rattle.vdr_outside.specs.Parts.{part};
ghost use Rattle.vdr_segment.specs.Segments.{Segment};
ghost use Rattle.vdr_segment.specs.Slots.{HoldsSlots};
ghost use Rattle.vdr_incident.specs.Saves.{IsIncidentSlot};
ghost use Rattle.vdr_incident.specs.Tables.{HoldsTable, Refuses, SameBesideSlot, place_of};

/// A slot's bytes hold one save or none, and a medium's bytes hold one table of a length. Bytes that hold a table are not
/// refused, and others in one way.
pub fn law_of_tables()
    ensures slot { (bytes : List ℕ) (x y : Option Incident) → IsIncidentSlot bytes x → IsIncidentSlot bytes y → x ≡ y }
    ensures one { (slots : ℕ) (xs ys : List (Option Incident)) (bytes : List ℕ) → HoldsTable slots xs bytes → HoldsTable slots ys bytes → xs ≡ ys }
    ensures legal { (slots offset : ℕ) (table : List (Option Incident)) (bytes : List ℕ) → HoldsTable slots table bytes → Refuses slots bytes offset → ⊥ }
    ensures first { (slots k l : ℕ) (bytes : List ℕ) → Refuses slots bytes k → Refuses slots bytes l → k ≡ l }
{}

/// Where a medium is the same beside one incident slot, its segments are those that it held, and so is each byte outside the
/// slot. Where it is the same between byte 4,096 and byte 12,287, it holds the table that it held.
pub fn law_of_beside()
    ensures segments { (slot segment : ℕ) (xs : List (Option Segment)) (old new : List ℕ) → slot < 32 → SameBesideSlot slot old new → HoldsSlots segment xs old → HoldsSlots segment xs new }
    ensures byte { (slot at : ℕ) (old new : List ℕ) → SameBesideSlot slot old new → (at < place_of slot) ⊎ (place_of slot + 256 ≤ at) → slice_get new at ≡ slice_get old at }
    ensures table { (slots : ℕ) (table : List (Option Incident)) (old new : List ℕ) → slots ≤ 32 → length new ≡ length old → part new 4096 8192 ≡ part old 4096 8192
        → HoldsTable slots table old → HoldsTable slots table new }
{}
