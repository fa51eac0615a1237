// The steps of an append: room in the newest segment or a new one, the victim closed, the batch, a summary.
ghost use Rattle.std.specs.Prelude.{◌≡◌, ◌+◌, ◌<◌, ◌≤◌, ℕ, [], ◌∷◌, List, length, Some, None, IfNone, IfOk, IfSome, MatchOption, OnErr, OnOk};
ghost use Rattle.vdr_terms.specs.Records.{Record as ARecord, last};
ghost use Rattle.vdr_terms.specs.Sizes.{batch_size};
ghost use Rattle.vdr_outside.specs.Causes.{HasCauseOn};
ghost use Rattle.vdr_outside.specs.Disk.{Durable, Rises, SameBut};
ghost use Rattle.vdr_outside.specs.Frames.{WritesTo};
ghost use Rattle.vdr_outside.specs.Moments.{ChangesOnly};
ghost use Rattle.vdr_segment.specs.Batches.{IsBatch};
ghost use Rattle.vdr_segment.specs.Writes.{KeepsFront};
ghost use Rattle.vdr_directory.specs.Sequence.{Placed};
ghost use Rattle.vdr_directory.specs.Order.{AreInOrder};
ghost use Rattle.vdr_directory.specs.Holds.{HoldsAny, Tells};
ghost use Rattle.vdr_ring.specs.Rings.{HasMedium, IsSameRing, Reads, StaysOnMedium};
ghost use Rattle.vdr_directory.specs.Closed.{IsFull};
ghost use Rattle.vdr_directory.specs.Growing.{Continues, next_seq};
ghost use Rattle.vdr_directory.specs.Leaving.{IsLeftBehind, LeavesNone};
ghost use Rattle.vdr_ring.specs.Stages.{AreStages, BeginsAnew, IsNextSlot, IsVictim, IsWritten, Stages};
ghost use Rattle.vdr_ring.specs.Appends.{HasNoRoom, HasRoomFor, IsFree, IsReady, LeavesFree, MayCome, RisesOrStays};

use crate::Ring;
use crate::choice::oldest_candidate;
use crate::pins::Pins;
use vdr_directory::Newest;
use vdr_entry::{Record, Summary};
use vdr_outside::{Fault, Media};
use vdr_segment::{append_batch, begin_segment, close_slot, summarize, write_batch};

impl Ring {
    // The sequence number of the next segment.
    fn next_seq(&self) -> u64
        ensures { (placed : List Placed) → Tells self.now.slots placed self.now.directory → AreInOrder placed → result ≡ next_seq (last placed) }
    {
        match self.directory.newest() {
            None => 0,
            Some(newest) => newest.seq.saturating_add(1),
        }
    }

    // The newest segment, where it has room for a batch of this size.
    fn with_room(&self, size: usize) -> Option<Newest>
        requires { size + 1 ≤ self.now.segment }
        ensures within { IfSome result (λ n. n.slot < self.now.slots) }
        ensures some { IfSome result (λ n. (self.now.directory.newest ≡ Some n) × (n.end + size + 1 ≤ self.now.segment)) }
        ensures none { IfNone result (HasRoomFor self.now.segment size self.now.directory.newest → ⊥) }
    {
        let newest = self.directory.newest()?;
        if newest.end > self.area.segment as usize - size - 1 {
            return None;
        }
        Some(newest)
    }

    // The slot that is written over where none is closed: that of the oldest segment that may go. Where none may go, which media
    // that are not regular may come to, it is that of the oldest of all.
    fn victim_slot(&self, pins: &Pins) -> u32
        ensures within { result < self.now.slots }
        ensures victim { (placed : List Placed) → Tells self.now.slots placed self.now.directory → AreInOrder placed → IsFull self.now.slots placed
            → (before : List Placed) × (victim : Placed) × (after : List Placed) × IsVictim self.now.seconds pins.now placed before victim after × (result ≡ victim.slot) }
    {
        if let Some(slot) = oldest_candidate(&self.directory, self.seconds, pins) {
            return slot;
        }
        match self.directory.index().next_above(None) {
            Some(slot) => slot,
            None => 0,
        }
    }

    /// The slot in which the next segment is begun: the closed one of least index. Where none is closed, that of the victim,
    /// the segment of least sequence number that, by what is known of it, ends before the window and has no pinned place
    /// (this project's profile). On a medium whose summaries are exact its records decide.
    pub fn victim(&self, pins: &Pins) -> u32
        ensures within { result < self.now.slots }
        ensures next { (placed : List Placed) → Tells self.now.slots placed self.now.directory → AreInOrder placed
            → IsNextSlot self.now.slots self.now.seconds pins.now placed result }
    {
        match self.directory.next_closed() {
            Some(slot) => slot,
            None => self.victim_slot(pins),
        }
    }

    // Sees to it that a slot is closed, and answers which: where none is, it closes that of the victim.
    fn free_slot<M: Media>(&mut self, media: &mut M, pins: &Pins) -> Result<u32, Fault>
        requires room { HasMedium self.old (M.disk media.old).sizes }
        ensures freed { (placed : List Placed) (first : ℕ) (records : List ARecord) → M.tells → Reads self.old placed (M.disk media.old)
            → MayCome self.old.segment placed first records → HasNoRoom self.old.segment placed records
            → (slot : ℕ) × (closed : List Placed) × LeavesFree self.old.slots self.old.seconds pins.now placed slot closed
            × ChangesOnly self.old.medium (HoldsAny self.old.segment self.old.slots (placed ∷ closed ∷ [])) (M.disk media.old) (M.disk media.new)
            × IfOk result (λ free. (free ≡ slot) × IsFree self.new slot closed (M.disk media.new)) }
        ensures within { IfOk result (λ free. free < self.new.slots) }
        ensures ring { IsSameRing self.old self.new }
        ensures buffer { self.new.buffer ≡ self.old.buffer }
        ensures loaded { self.new.loaded ≡ self.old.loaded }
        ensures durable { OnOk result (Durable self.old.medium (M.disk media.old) → Durable self.old.medium (M.disk media.new)) }
        ensures front { KeepsFront self.old.medium (M.disk media.old) (M.disk media.new) }
        ensures others { M.tells → SameBut self.old.medium (M.disk media.old).reads (M.disk media.new).reads }
        ensures sizes { (M.disk media.new).sizes ≡ (M.disk media.old).sizes }
        ensures clock { RisesOrStays (M.disk media.old) (M.disk media.new) }
        ensures rises { OnErr result (Rises (M.disk media.old) (M.disk media.new)) }
        ensures counts { M.bytes_read media.new ≡ M.bytes_read media.old }
        ensures cause { HasCauseOn self.old.medium (M.faults media.old) (M.faults media.new) result }
    {
        if let Some(slot) = self.directory.next_closed() {
            return Ok(slot);
        }
        let slot = self.victim_slot(pins);
        close_slot(media, self.area, slot)?;
        self.directory.close(slot);
        Ok(slot)
    }

    // Begins a segment, whose first record has this place, and answers what is kept of it.
    fn begin<M: Media>(&mut self, media: &mut M, first: u64, pins: &Pins) -> Result<Newest, Fault>
        requires room { HasMedium self.old (M.disk media.old).sizes }
        ensures begun { (placed : List Placed) (records : List ARecord) → M.tells → Reads self.old placed (M.disk media.old)
            → MayCome self.old.segment placed first records → HasNoRoom self.old.segment placed records
            → (stages : Stages) × BeginsAnew self.old.segment self.old.slots self.old.seconds pins.now placed first records stages
            × ChangesOnly self.old.medium (HoldsAny self.old.segment self.old.slots (placed ∷ stages.closed ∷ stages.begun ∷ [])) (M.disk media.old) (M.disk media.new)
            × OnOk result (IsReady self.new records stages (M.disk media.new)) }
        ensures newest { IfOk result (λ n. (self.new.directory.newest ≡ Some n) × (n.end ≡ 64) × (n.slot < self.new.slots)) }
        ensures ring { IsSameRing self.old self.new }
        ensures buffer { self.new.buffer ≡ self.old.buffer }
        ensures loaded { self.new.loaded ≡ self.old.loaded }
        ensures durable { OnOk result (Durable self.old.medium (M.disk media.old) → Durable self.old.medium (M.disk media.new)) }
        ensures front { KeepsFront self.old.medium (M.disk media.old) (M.disk media.new) }
        ensures writes { WritesTo M.Media self.old.medium media.old media.new result }
    {
        let seq = self.next_seq();
        let slot = self.free_slot(media, pins)?;
        begin_segment(media, self.area, slot, seq, first)?;
        Ok(self.directory.begin(slot, seq, first))
    }

    // The newest segment. One is begun where it has no room for a batch of these records.
    fn make_room<M: Media>(
        &mut self,
        media: &mut M,
        records: &[Record],
        size: usize,
        pins: &Pins,
    ) -> Result<Newest, Fault>
        requires room { HasMedium self.old (M.disk media.old).sizes }
        requires some { 0 < length records.now }
        requires size { size ≡ batch_size records.now }
        requires fits { 64 + size + 1 ≤ self.old.segment }
        ensures made { (placed : List Placed) (first : ℕ) → M.tells → Reads self.old placed (M.disk media.old)
            → MayCome self.old.segment placed first records.now
            → (stages : Stages) × IsWritten self.old.segment self.old.slots self.old.seconds pins.now placed first records.now stages
            × ChangesOnly self.old.medium (HoldsAny self.old.segment self.old.slots (placed ∷ stages.closed ∷ stages.begun ∷ [])) (M.disk media.old) (M.disk media.new)
            × OnOk result (IsReady self.new records.now stages (M.disk media.new)) }
        ensures newest { IfOk result (λ n. (self.new.directory.newest ≡ Some n) × (n.end + size + 1 ≤ self.old.segment) × (n.slot < self.new.slots)) }
        ensures ring { IsSameRing self.old self.new }
        ensures buffer { self.new.buffer ≡ self.old.buffer }
        ensures loaded { self.new.loaded ≡ self.old.loaded }
        ensures durable { OnOk result (Durable self.old.medium (M.disk media.old) → Durable self.old.medium (M.disk media.new)) }
        ensures front { KeepsFront self.old.medium (M.disk media.old) (M.disk media.new) }
        ensures others { M.tells → SameBut self.old.medium (M.disk media.old).reads (M.disk media.new).reads }
        ensures sizes { (M.disk media.new).sizes ≡ (M.disk media.old).sizes }
        ensures clock { RisesOrStays (M.disk media.old) (M.disk media.new) }
        ensures rises { OnErr result (Rises (M.disk media.old) (M.disk media.new)) }
        ensures counts { M.bytes_read media.new ≡ M.bytes_read media.old }
        ensures cause { HasCauseOn self.old.medium (M.faults media.old) (M.faults media.new) result }
    {
        if let Some(newest) = self.with_room(size) {
            return Ok(newest);
        }
        let first = &records[0];
        self.begin(media, first.place, pins)
    }

    // Adds a batch, stage by stage, and answers what it leaves behind: the slot of the segment before the newest and the
    // summary of its records, where the batch is the newest's first.
    fn add<M: Media>(
        &mut self,
        media: &mut M,
        records: &[Record],
        pins: &Pins,
    ) -> Result<Option<(u32, Summary)>, Fault>
        requires room { HasMedium self.old (M.disk media.old).sizes }
        requires some { 0 < length records.now }
        requires fits { 64 + batch_size records.now + 1 ≤ self.old.segment }
        ensures added { (placed : List Placed) (first : ℕ) → M.tells → Reads self.old placed (M.disk media.old) → Continues placed first records.now
            → (stages : Stages) × IsWritten self.old.segment self.old.slots self.old.seconds pins.now placed first records.now stages
            × ChangesOnly self.old.medium (HoldsAny self.old.segment self.old.slots (placed ∷ stages.closed ∷ stages.begun ∷ stages.done ∷ [])) (M.disk media.old) (M.disk media.new)
            × IfOk result (λ left. Reads self.new stages.done (M.disk media.new) × MatchOption left (LeavesNone stages.begun) (λ x. IsLeftBehind stages.begun x.0 x.1)) }
        ensures legal { IsBatch records.now }
        ensures enough { (1 ≤ self.old.seconds) × (4 ≤ self.old.slots) }
        ensures within { IfOk result (λ left. IfSome left (λ x. x.0 < self.new.slots)) }
        ensures loaded { self.new.loaded ≡ None }
        ensures bare { OnOk result (self.new.bare ≡ []) }
        ensures ring { StaysOnMedium self.old self.new (M.disk media.new).sizes }
        ensures durable { OnOk result (Durable self.old.medium (M.disk media.new)) }
        ensures front { KeepsFront self.old.medium (M.disk media.old) (M.disk media.new) }
        ensures writes { WritesTo M.Media self.old.medium media.old media.new result }
    {
        self.loaded = None;
        let size = write_batch(records, &mut self.buffer);
        let newest = self.make_room(media, records, size, pins)?;
        append_batch(
            media,
            self.area,
            newest.slot,
            newest.end,
            &self.buffer[..size + 1],
        )?;
        self.bare.clear();
        let left = self.directory.left_behind();
        self.directory.extend(newest, size, records);
        Ok(left)
    }

    // Appends a batch, stage by stage, and writes the summary of the segment that it leaves behind.
    pub(crate) fn append_staged<M: Media>(
        &mut self,
        media: &mut M,
        records: &[Record],
        pins: &Pins,
    ) -> Result<(), Fault>
        requires room { HasMedium self.old (M.disk media.old).sizes }
        requires some { 0 < length records.now }
        requires fits { 64 + batch_size records.now + 1 ≤ self.old.segment }
        ensures appended { (placed : List Placed) (first : ℕ) → M.tells → Reads self.old placed (M.disk media.old) → Continues placed first records.now
            → (stages : Stages) × AreStages self.old.segment self.old.slots self.old.seconds pins.now placed first records.now stages
            × ChangesOnly self.old.medium (HoldsAny self.old.segment self.old.slots (placed ∷ stages.closed ∷ stages.begun ∷ stages.done ∷ stages.left ∷ [])) (M.disk media.old) (M.disk media.new)
            × OnOk result (Reads self.new stages.left (M.disk media.new)) }
        ensures legal { IsBatch records.now }
        ensures loaded { self.new.loaded ≡ None }
        ensures ring { StaysOnMedium self.old self.new (M.disk media.new).sizes }
        ensures front { KeepsFront self.old.medium (M.disk media.old) (M.disk media.new) }
        ensures writes { WritesTo M.Media self.old.medium media.old media.new result }
    {
        let Some((slot, summary)) = self.add(media, records, pins)? else {
            return Ok(());
        };
        summarize(media, self.area, slot, summary)
    }
}
