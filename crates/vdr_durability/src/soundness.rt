// The law of unbroken windows: where no place is skipped in a window, none is as batches follow.
//
// What a medium holds gives exactly the window of all that it was given; so it has no hole there where the history
// has none, and nothing is said of holes along the stages of an append.
ghost use Rattle.std.specs.Prelude.{◌≡◌, ◌<◌, ◌≤◌, [], ◌++◌, ℕ, List, Contains};
ghost use Rattle.vdr_terms.specs.Order.{AreInOrder};
ghost use Rattle.vdr_terms.specs.Records.{Record, last};
ghost use Rattle.vdr_core.specs.Histories.{Event, MayFollow, Opening, all_records};
ghost use Rattle.vdr_durability.specs.Regular.{FollowOn};
ghost use Rattle.vdr_durability.specs.Retention.{Holds};
ghost use Rattle.vdr_durability.specs.Readings.{Reading, next_after, records_on, restored};
ghost use Rattle.vdr_durability.specs.Shown.{Shows};
ghost use Rattle.vdr_durability.specs.Soundness.{IsUnbroken};

/// Where no place is skipped in a medium's window none is in a shorter one, nor once a batch follows, nor in what the medium
/// holds of it, however much more it holds; and so none along a history, and on no media that show one.
pub fn law_of_unbroken_windows()
    ensures nothing { (seconds : ℕ) → IsUnbroken seconds [] }
    ensures less { (fewer seconds : ℕ) (records : List Record) → fewer ≤ seconds → AreInOrder records → IsUnbroken seconds records → IsUnbroken fewer records }
    ensures follows { (seconds : ℕ) (all batch : List Record) → 0 < seconds → AreInOrder all → FollowOn (last all) batch → IsUnbroken seconds all → IsUnbroken seconds (all ++ batch) }
    ensures held { (seconds : ℕ) (all held : List Record) → AreInOrder all → AreInOrder held → Holds seconds all held → IsUnbroken seconds all → IsUnbroken seconds held }
    ensures along { (seconds m : ℕ) (opening : Opening) (events : List Event) → 0 < seconds → opening.next_place ≡ next_after (last (opening.records m)) → MayFollow opening [] events
        → AreInOrder (all_records opening m events) → IsUnbroken seconds (opening.records m) → IsUnbroken seconds (all_records opening m events) }
    ensures shown { (members : List ℕ) (opening : Opening) (events : List Event) (reading : Reading) (m : ℕ) → Shows members opening events reading → Contains members m
        → AreInOrder (all_records opening m events) → AreInOrder (records_on (restored members reading) m)
        → IsUnbroken (opening.settings.seconds m) (all_records opening m events) → IsUnbroken (opening.settings.seconds m) (records_on (restored members reading) m) }
{}
