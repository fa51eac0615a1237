// The laws of retention: what a medium retains at each stage of an append, and which segment is the victim.
ghost use Rattle.std.specs.Prelude.{◌≡◌, ◌<◌, ◌≤◌, ◌+◌, ◌-◌, ◌⊎◌, ◌↔◌, [], ◌∷◌, ◌++◌, ℕ, List, Some, IsTrue, Contains, length};
ghost use Rattle.vdr_terms.specs.Needs.{Sizes, cost, usable, needed_slots};
ghost use Rattle.vdr_terms.specs.Order.{AreInOrder, NeverFalls, RunOn};
ghost use Rattle.vdr_terms.specs.Records.{Record, last};
ghost use Rattle.vdr_terms.specs.Windows.{HasWindowPlaces, window};
ghost use Rattle.vdr_durability.specs.Layout.{Batches, batches_size, records_in, segment_records};
ghost use Rattle.vdr_durability.specs.Regular.{FollowOn, IsPaced, IsRegular};
ghost use Rattle.vdr_durability.specs.Retention.{
  AreAmong,
  AreOutside,
  Holds,
  HoldsPlaces,
  IsNoEarlier,
  Pin,
  Retains,
  at_places,
};
ghost use Rattle.vdr_durability.specs.Victims.{
  ArePinsOf,
  Extent,
  HasCandidate,
  HasNoCandidate,
  HasVictim,
  IsExtent,
  IsLastSecond,
  IsOldestCandidate,
  MayGo,
  may_go_by_numbers,
};

/// What a medium retains at each stage of an append: once the gate of a segment that may go is closed, once a new segment is
/// begun, still empty, and once the batch stands in the newest segment.
pub fn law_of_appends()
    ensures closed { (seconds : ℕ) (pins : List Pin) (all : List Record) (before : List Batches) (victim : Batches) (after : List Batches)
        → 0 < seconds → MayGo seconds pins (records_in (before ++ victim ∷ after)) victim
        → Retains seconds pins all (records_in (before ++ victim ∷ after)) → Retains seconds pins all (records_in (before ++ after)) }
    ensures begun { (seconds : ℕ) (pins : List Pin) (all : List Record) (segments : List Batches)
        → Retains seconds pins all (records_in segments) → Retains seconds pins all (records_in (segments ++ [] ∷ [])) }
    ensures batch { (seconds : ℕ) (pins : List Pin) (all b : List Record) (older : List Batches) (newest : Batches) → FollowOn (last all) b
        → Retains seconds pins all (records_in (older ++ newest ∷ [])) → Retains seconds pins (all ++ b) (records_in (older ++ (newest ++ b ∷ []) ∷ [])) }
{}

/// Regular media stay regular, and a batch that may come next may still come, at the same stages. A batch that does not fit
/// the newest segment leaves it with more than the usable bytes.
pub fn law_of_regular_media()
    ensures closed { (cost usable batch : ℕ) (before : List Batches) (victim : Batches) (after : List Batches) (newest : Batches)
        → IsRegular cost usable batch (before ++ victim ∷ after) newest → IsRegular cost usable batch (before ++ after) newest }
    ensures begun { (cost usable batch : ℕ) (older : List Batches) (newest : Batches)
        → usable < batches_size newest → IsRegular cost usable batch older newest → IsRegular cost usable batch (older ++ newest ∷ []) [] }
    ensures batch { (cost usable batch : ℕ) (older : List Batches) (newest : Batches) (b : List Record)
        → IsRegular cost usable batch older newest → IsPaced cost batch (older ++ newest ∷ []) b → IsRegular cost usable batch older (newest ++ b ∷ []) }
    ensures paced_closed { (cost batch seconds : ℕ) (pins : List Pin) (before : List Batches) (victim : Batches) (after : List Batches) (b : List Record)
        → 0 < seconds → MayGo seconds pins (records_in (before ++ victim ∷ after)) victim
        → IsPaced cost batch (before ++ victim ∷ after) b → IsPaced cost batch (before ++ after) b }
    ensures paced_begun { (cost batch : ℕ) (segments : List Batches) (b : List Record) → IsPaced cost batch segments b → IsPaced cost batch (segments ++ [] ∷ []) b }
    ensures full { (segment batch bytes n : ℕ) → n ≤ batch → 64 + (batch + 6) ≤ segment
        → segment < 64 + bytes + 5 + n + 1 → segment - 64 - (batch + 6) < bytes }
{}

/// The order of records: what follows a medium's last record goes on in its order and ends no earlier, and what a removed
/// segment leaves is in order.
pub fn law_of_order()
    ensures run { (place from : ℕ) (rs : List Record) → RunOn place rs → NeverFalls from rs → AreInOrder rs }
    ensures follows { (held batch : List Record) → AreInOrder held → FollowOn (last held) batch → AreInOrder (held ++ batch) }
    ensures later { (all batch : List Record) → FollowOn (last all) batch → IsNoEarlier (last all) (last (all ++ batch)) }
    ensures held { (all held batch : List Record) → AreInOrder (all ++ batch) → AreInOrder held → AreAmong held all → AreInOrder (held ++ batch) }
    ensures removed { (before victim rest : List Record) → AreInOrder (before ++ (victim ++ rest)) → AreInOrder (before ++ rest) }
{}

/// On a regular medium whose needed slots are all open, with pins that its configuration allows, one of the older segments is
/// the victim. A medium has one oldest candidate, or none. The segment that holds the last record never goes, so a candidate
/// is never the newest segment where that has records. The numbers of a segment decide whether it may go.
pub fn law_of_victims()
    ensures exists { (sizes : Sizes) (m : ℕ) (older : List Batches) (newest : Batches) (pins : List Pin)
        → IsRegular (cost sizes) (usable sizes) sizes.batch older newest → 0 < usable sizes
        → ArePinsOf sizes m (records_in (older ++ newest ∷ [])) pins → needed_slots sizes m ≤ length (older ++ newest ∷ [])
        → HasVictim (sizes.seconds m) pins older newest }
    ensures some { (seconds : ℕ) (pins : List Pin) (segments : List Batches) → HasCandidate seconds pins segments ⊎ HasNoCandidate seconds pins segments }
    ensures one { (seconds : ℕ) (pins : List Pin) (segments before : List Batches) (victim : Batches) (after before' : List Batches) (victim' : Batches) (after' : List Batches)
        → IsOldestCandidate seconds pins segments before victim after → IsOldestCandidate seconds pins segments before' victim' after'
        → (before ≡ before') × (victim ≡ victim') × (after ≡ after') }
    ensures older { (seconds : ℕ) (pins : List Pin) (older : List Batches) (newest : Batches) → 0 < seconds → 0 < length (segment_records newest)
        → HasCandidate seconds pins (older ++ newest ∷ []) → HasVictim seconds pins older newest }
    ensures newest { (seconds : ℕ) (pins : List Pin) (held : List Record) (segment : Batches) (newest : Record)
        → 0 < seconds → last held ≡ Some newest → Contains (segment_records segment) newest → MayGo seconds pins held segment → ⊥ }
    ensures numbers { (seconds : ℕ) (pins : List Pin) (held : List Record) (segment : Batches) (medium_second : ℕ) (extent : Extent)
        → IsExtent extent (segment_records segment) → NeverFalls 0 (segment_records segment) → AreAmong (segment_records segment) held
        → IsLastSecond medium_second held
        → (IsTrue (may_go_by_numbers seconds pins medium_second extent) ↔ MayGo seconds pins held segment) }
{}

/// What a medium holds gives exactly the window and the saved places of all that it was given, however much more it holds. A
/// shorter window is held too, a save that is no longer than the window is held from its beginning on, and what is outside
/// the window of what the medium has is outside that of all.
pub fn law_of_windows()
    ensures window { (seconds : ℕ) (all held : List Record) → AreInOrder all → AreInOrder held
        → Holds seconds all held → window seconds held ≡ window seconds all }
    ensures places { (all held : List Record) (a b : ℕ) → AreInOrder all → AreInOrder held
        → AreAmong held all → HoldsPlaces all held a b → at_places a b held ≡ at_places a b all }
    ensures less { (fewer seconds : ℕ) (all held : List Record) → fewer ≤ seconds → Holds seconds all held → Holds fewer all held }
    ensures saved { (seconds window_seconds : ℕ) (all held : List Record) (a b : ℕ) → seconds ≤ window_seconds → AreInOrder all
        → HasWindowPlaces seconds all a b → Holds window_seconds all held → HoldsPlaces all held a b }
    ensures outside { (seconds : ℕ) (all held records : List Record) → Holds seconds all held → AreAmong records held
        → AreOutside seconds held records → AreOutside seconds all records }
{}
