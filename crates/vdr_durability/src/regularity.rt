// The law of regular media: they stay so as they are restored after a stop.
ghost use Rattle.std.specs.Prelude.{◌≡◌, ◌<◌, ◌≤◌, ℕ, true, List, Some, All, Contains, length};
ghost use Rattle.vdr_terms.specs.Needs.{Sizes, cost, needed_slots, usable};
ghost use Rattle.vdr_terms.specs.Order.{RunOn};
ghost use Rattle.vdr_terms.specs.Records.{Record};
ghost use Rattle.vdr_durability.specs.Layout.{records_in};
ghost use Rattle.vdr_durability.specs.Regular.{IsPaced};
ghost use Rattle.vdr_durability.specs.Victims.{ArePinsOf, HasVictim};
ghost use Rattle.vdr_durability.specs.Readings.{AreLevel, IsPassedOn, Reading, ends_before, lead, leading_batch, records_on, restored};
ghost use Rattle.vdr_durability.specs.Regularity.{AreRegular, IsRegularAsRead, Layout, segments_of};
ghost use Rattle.vdr_durability.specs.Shown.{pins_on};

/// Media that are regular as they read are so as they are restored: where they are level, and while a batch that may come next on
/// each medium that lacks it goes from one to another. Each of regular media has, as it is, pins that its configuration allows,
/// and so a victim where all slots that it needs are open. The last batch of the leading medium may come next on each medium
/// that lacks it.
pub fn law_of_regular_members()
    ensures level { (sizes : Sizes) (members : List ℕ) (layouts : ℕ → Layout) (reading : Reading) → AreLevel members reading
        → All (λ m. IsRegularAsRead sizes reading m (layouts m)) members → All (λ m. ArePinsOf sizes m (records_on (restored members reading) m) (pins_on m reading.table)) members
        → AreRegular sizes members layouts reading }
    ensures passed { (sizes : Sizes) (members : List ℕ) (layouts : ℕ → Layout) (reading : Reading) (given waiting : List ℕ) (batch : List Record) → IsPassedOn members given waiting batch reading
        → All (λ m. IsRegularAsRead sizes reading m (layouts m)) members → All (λ m. ArePinsOf sizes m (records_on (restored members reading) m) (pins_on m reading.table)) members
        → All (λ m. IsPaced (cost sizes) sizes.batch (segments_of (layouts m)) batch) waiting → AreRegular sizes members layouts reading }
    ensures pins { (sizes : Sizes) (members : List ℕ) (layouts : ℕ → Layout) (reading : Reading) → AreRegular sizes members layouts reading → (m : ℕ) → Contains members m
        → ArePinsOf sizes m (records_in (segments_of (layouts m))) (pins_on m reading.table) }
    ensures victim { (sizes : Sizes) (members : List ℕ) (layouts : ℕ → Layout) (reading : Reading) → AreRegular sizes members layouts reading → (m : ℕ) → Contains members m
        → 0 < usable sizes → needed_slots sizes m ≤ length (segments_of (layouts m))
        → HasVictim (sizes.seconds m) (pins_on m reading.table) (layouts m).older (layouts m).newest }
    ensures lacked { (sizes : Sizes) (members : List ℕ) (layouts : ℕ → Layout) (reading : Reading) (m : ℕ) (batch : List Record) (place : ℕ)
        → AreRegular sizes members layouts reading → Contains members m → Contains members (lead members)
        → leading_batch members reading ≡ Some batch → ends_before (Some batch) (reading.batches m) ≡ true → RunOn place batch
        → IsPaced (cost sizes) sizes.batch (segments_of (layouts m)) batch }
{}
