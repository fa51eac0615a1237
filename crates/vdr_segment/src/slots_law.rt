// The laws of slots: bytes hold one list of slots, and what stands before them stays.
ghost use Rattle.std.specs.Prelude.{◌≡◌, ◌<◌, ◌≤◌, ℕ, List, length, slice_get, Option, Some};
ghost use Rattle.vdr_outside.specs.Parts.{part};
ghost use Rattle.vdr_segment.specs.declared.header.Header.{Header as AHeader};
ghost use Rattle.vdr_segment.specs.Segments.{Segment, IsSlot};
ghost use Rattle.vdr_terms.specs.Slots.{slots_from};
ghost use Rattle.vdr_segment.specs.Slots.{HoldsSlots, IsFront, SameFront, header_of, place_of};

/// A medium's bytes hold one list of slots of a length. What is read of one slot is that slot, what is read of its front
/// is its header, and a front has one header.
pub fn law_of_slots()
    ensures one { (segment : ℕ) (xs ys : List (Option Segment)) (bytes : List ℕ) → HoldsSlots segment xs bytes → HoldsSlots segment ys bytes → length xs ≡ length ys → xs ≡ ys }
    ensures slot { (segment j : ℕ) (slots : List (Option Segment)) (held : Option Segment) (bytes : List ℕ) → HoldsSlots segment slots bytes → slice_get slots j ≡ Some held
        → IsSlot (part bytes (place_of segment j) segment) held }
    ensures front { (segment j : ℕ) (slots : List (Option Segment)) (held : Option Segment) (bytes : List ℕ) → HoldsSlots segment slots bytes → slice_get slots j ≡ Some held → 64 ≤ segment
        → IsFront (part bytes (place_of segment j) 64) (header_of held) }
    ensures header { (bytes : List ℕ) (h k : Option AHeader) → IsFront bytes h → IsFront bytes k → h ≡ k }
{}

/// Before the slots a medium is the same as itself, and where it is the same after one change and after the next, it is after
/// both. Then each byte there is the same.
pub fn law_of_fronts()
    ensures same { (bytes : List ℕ) → SameFront bytes bytes }
    ensures joined { (old mid new : List ℕ) → SameFront old mid → SameFront mid new → SameFront old new }
    ensures byte { (at : ℕ) (old new : List ℕ) → SameFront old new → at < slots_from → slice_get new at ≡ slice_get old at }
{}
