// The laws of the ring: what it retains at each stage of an append and that its medium lacks nothing, and that summaries change no record.
ghost use Rattle.std.specs.Prelude.{◌≡◌, ◌≢◌, ◌↔◌, ◌≤◌, [], ◌∷◌, ◌++◌, ℕ, List};
ghost use Rattle.vdr_terms.specs.Needs.{Sizes, cost, usable};
ghost use Rattle.vdr_terms.specs.Order.{RunOn};
ghost use Rattle.vdr_terms.specs.Records.{Record};
ghost use Rattle.vdr_durability.specs.Retention.{Pin, Retains};
ghost use Rattle.vdr_durability.specs.Victims.{IsOldestCandidate};
ghost use Rattle.vdr_directory.specs.Sequence.{Placed, all_records, batches_in, batches_of, segments_in};
ghost use Rattle.vdr_directory.specs.Lookup.{HoldAll};
ghost use Rattle.vdr_directory.specs.Bringing.{AreAlike};
ghost use Rattle.vdr_directory.specs.Closed.{IsFull};
ghost use Rattle.vdr_ring.specs.Stages.{AreStages, IsOldest, IsVictim, Stages};
ghost use Rattle.vdr_ring.specs.Regularity.{AreRegular, IsAllowed, MissOneAtMost};
ghost use Rattle.vdr_ring.specs.Whole.{KeepsAll};

/// What a ring retains of all the records that it was given, at each stage of an append that its configuration allows: of
/// all before it once a victim is closed and once a segment is begun, and of the batch too once it is done and once a
/// segment is left. Where all slots are open there is a victim, the oldest that may go by what is known of it, which is
/// not the newest segment. It is the oldest that may go by its records. Regular media stay regular. No batch but the
/// victim's goes, and only whole ones come.
pub fn law_of_stages()
    ensures victim { (sizes : Sizes) (m size count seconds : ℕ) (pins : List Pin) (placed : List Placed) (records : List Record) (before : List Placed) (victim : Placed) (after : List Placed)
        → IsAllowed sizes m size count seconds pins placed records → IsFull count placed → IsVictim seconds pins placed before victim after
        → IsOldest seconds pins placed before victim after × (after ≢ []) }
    ensures candidate { (sizes : Sizes) (m size count seconds : ℕ) (pins : List Pin) (placed : List Placed) (records : List Record) (before : List Placed) (victim : Placed) (after : List Placed)
        → IsAllowed sizes m size count seconds pins placed records → IsOldest seconds pins placed before victim after
        → IsOldestCandidate seconds pins (segments_in placed) (segments_in before) (batches_of victim) (segments_in after) }
    ensures closed { (sizes : Sizes) (m size count seconds : ℕ) (pins : List Pin) (placed : List Placed) (first : ℕ) (all records : List Record) (stages : Stages)
        → IsAllowed sizes m size count seconds pins placed records → AreStages size count seconds pins placed first records stages
        → Retains seconds pins all (all_records placed) → Retains seconds pins all (all_records stages.closed) }
    ensures begun { (sizes : Sizes) (m size count seconds : ℕ) (pins : List Pin) (placed : List Placed) (first : ℕ) (all records : List Record) (stages : Stages)
        → IsAllowed sizes m size count seconds pins placed records → AreStages size count seconds pins placed first records stages
        → Retains seconds pins all (all_records placed) → Retains seconds pins all (all_records stages.begun) }
    ensures done { (sizes : Sizes) (m size count seconds : ℕ) (pins : List Pin) (placed : List Placed) (first : ℕ) (all records : List Record) (stages : Stages)
        → IsAllowed sizes m size count seconds pins placed records → AreStages size count seconds pins placed first records stages
        → Retains seconds pins all (all_records placed) → Retains seconds pins (all ++ records) (all_records stages.done) }
    ensures left { (sizes : Sizes) (m size count seconds : ℕ) (pins : List Pin) (placed : List Placed) (first : ℕ) (all records : List Record) (stages : Stages)
        → IsAllowed sizes m size count seconds pins placed records → AreStages size count seconds pins placed first records stages
        → Retains seconds pins all (all_records placed) → Retains seconds pins (all ++ records) (all_records stages.left) }
    ensures regular { (sizes : Sizes) (m size count seconds : ℕ) (pins : List Pin) (placed : List Placed) (first : ℕ) (records : List Record) (stages : Stages)
        → IsAllowed sizes m size count seconds pins placed records → AreStages size count seconds pins placed first records stages
        → AreRegular (cost sizes) (usable sizes) sizes.batch stages.closed × AreRegular (cost sizes) (usable sizes) sizes.batch stages.begun
        × AreRegular (cost sizes) (usable sizes) sizes.batch stages.done × AreRegular (cost sizes) (usable sizes) sizes.batch stages.left }
    ensures batches { (size count seconds : ℕ) (pins : List Pin) (placed : List Placed) (first : ℕ) (records : List Record) (stages : Stages)
        → AreStages size count seconds pins placed first records stages
        → MissOneAtMost stages.closed placed × (batches_in stages.begun ≡ batches_in stages.closed) × (batches_in stages.done ≡ batches_in stages.closed ++ records ∷ [])
        × (batches_in stages.left ≡ batches_in stages.done) }
{}

/// A ring keeps it that its medium lacks nothing: one without a segment does, each stage of an append that its configuration
/// allows does where the medium did before it, and so do segments that get their summary.
pub fn law_of_places()
    ensures nothing { (seconds count : ℕ) → KeepsAll seconds count [] }
    ensures stages { (sizes : Sizes) (m size count seconds : ℕ) (pins : List Pin) (placed : List Placed) (first : ℕ) (records : List Record) (stages : Stages)
        → IsAllowed sizes m size count seconds pins placed records → AreStages size count seconds pins placed first records stages
        → (all_records placed ≡ [] → RunOn 0 records) → KeepsAll seconds count placed
        → KeepsAll seconds count stages.closed × KeepsAll seconds count stages.begun × KeepsAll seconds count stages.done × KeepsAll seconds count stages.left }
    ensures alike { (seconds count : ℕ) (placed now : List Placed) → AreAlike placed now → KeepsAll seconds count placed → KeepsAll seconds count now }
{
    law_of_stages();
}

/// Segments that differ in summaries alone are the same batches and records, and hold the same places. Regular ones stay
/// regular.
pub fn law_of_alike()
    ensures segments { (placed now : List Placed) → AreAlike placed now → segments_in now ≡ segments_in placed }
    ensures batches { (placed now : List Placed) → AreAlike placed now → batches_in now ≡ batches_in placed }
    ensures records { (placed now : List Placed) → AreAlike placed now → all_records now ≡ all_records placed }
    ensures holds { (a b : ℕ) (placed now : List Placed) → AreAlike placed now → HoldAll a b placed ↔ HoldAll a b now }
    ensures regular { (cost usable batch : ℕ) (placed now : List Placed) → AreAlike placed now → AreRegular cost usable batch placed → AreRegular cost usable batch now }
{}
