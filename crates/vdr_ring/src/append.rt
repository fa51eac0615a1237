// Appending a batch of records to the ring, with what a stop leaves at every moment.
//
// The first records of an empty medium may have any place, but what holds at every moment is said where they begin
// at 0: until the batch is there a segment without records stands, which is legal at place 0 alone.
ghost use Rattle.std.specs.Prelude.{◌≡◌, ◌+◌, ◌<◌, ◌≤◌, ℕ, [], ◌∷◌, ◌++◌, List, length, None, OnOk};
ghost use Rattle.vdr_terms.specs.Records.{Record as ARecord};
ghost use Rattle.vdr_terms.specs.Needs.{Sizes};
ghost use Rattle.vdr_terms.specs.Sizes.{batch_size};
ghost use Rattle.vdr_outside.specs.Frames.{WritesTo};
ghost use Rattle.vdr_outside.specs.Moments.{ChangesOnly};
ghost use Rattle.vdr_durability.specs.Retention.{Retains};
ghost use Rattle.vdr_segment.specs.Writes.{KeepsFront};
ghost use Rattle.vdr_directory.specs.Sequence.{Placed, all_records};
ghost use Rattle.vdr_directory.specs.Holds.{HoldsAny};
ghost use Rattle.vdr_ring.specs.Rings.{HasMedium, Reads, StaysOnMedium};
ghost use Rattle.vdr_directory.specs.Growing.{Continues};
ghost use Rattle.vdr_ring.specs.Stages.{AreStages, Stages};
ghost use Rattle.vdr_ring.specs.Regularity.{IsAllowed};
ghost use Rattle.vdr_ring.specs.Keeping.{HasKept, IsKept};

use crate::Ring;
use crate::law::law_of_stages;
use crate::pins::Pins;
use vdr_entry::Record;
use vdr_outside::{Fault, Media};

impl Ring {
    /// Appends a batch of records. It goes behind the batches of the newest segment; where it has no room there, a segment is
    /// begun in a closed slot first, and where no slot is closed, the victim's is closed before (`victim`). The new segment's
    /// sequence number is one above the greatest, its first place that of the first record. Where the batch is the first
    /// of the newest segment, the segment before that gets its summary then. Each gate is opened or closed by a write of
    /// one byte behind a sync of what it stands for.
    ///
    /// At every moment a stop leaves the medium as it was, with the victim closed, with the new segment begun, with the
    /// batch, or with that summary too; after Ok it has both. That is promised where the records go on from where the
    /// medium ends: their places run on, and their ticks never fall. Where the medium is regular, the batch keeps the
    /// pace and the pins are those of live saves, each of these is a legal medium that keeps its window and its pinned
    /// records. Nothing before the slots is touched. Takes no memory.
    ///
    /// `Fault`: a write or a sync failed, and the count of faults of this medium rose. The ring is then to be opened again
    /// before it is used.
    pub fn append<M: Media>(
        &mut self,
        media: &mut M,
        records: &[Record],
        pins: &Pins,
    ) -> Result<(), Fault>
        requires room { HasMedium self.old (M.disk media.old).sizes }
        requires some { 0 < length records.now }
        requires fits { 64 + batch_size records.now + 1 ≤ self.old.segment }
        ensures appended { (placed : List Placed) (first : ℕ) → M.tells → Reads self.old placed (M.disk media.old) → Continues placed first records.now
            → (stages : Stages) × AreStages self.old.segment self.old.slots self.old.seconds pins.now placed first records.now stages
            × ChangesOnly self.old.medium (HoldsAny self.old.segment self.old.slots (placed ∷ stages.closed ∷ stages.begun ∷ stages.done ∷ stages.left ∷ [])) (M.disk media.old) (M.disk media.new)
            × OnOk result (Reads self.new stages.left (M.disk media.new)) }
        ensures kept { (sizes : Sizes) (placed : List Placed) (first : ℕ) (all : List ARecord) → M.tells → Reads self.old placed (M.disk media.old) → Continues placed first records.now
            → (placed ≡ [] → first ≡ 0) → IsAllowed sizes self.old.medium self.old.segment self.old.slots self.old.seconds pins.now placed records.now
            → Retains self.old.seconds pins.now all (all_records placed)
            → ChangesOnly self.old.medium (IsKept self.old.segment self.old.slots self.old.seconds pins.now placed all records.now) (M.disk media.old) (M.disk media.new)
            × OnOk result (HasKept sizes pins.now (all ++ records.now) self.new (M.disk media.new)) }
        ensures loaded { self.new.loaded ≡ None }
        ensures ring { StaysOnMedium self.old self.new (M.disk media.new).sizes }
        ensures front { KeepsFront self.old.medium (M.disk media.old) (M.disk media.new) }
        ensures writes { WritesTo M.Media self.old.medium media.old media.new result }
    {
        law_of_stages();
        self.append_staged(media, records, pins)
    }
}
