// Reading the selected records of one slot, which is judged as it is read.
//
// A slot that is refused is not loaded, so that it is judged again at each step. Where a slot has to be read again
// the position is judged again, and there the slot itself is named.
ghost use Rattle.std.specs.Prelude.{◌≡◌, ◌≢◌, ◌⊎◌, ◌↔◌, ◌<◌, ◌≤◌, ◌+◌, ◌^◌, ℕ, get_or, true, false, IsTrue, IfOk, IfSome, IfNone, OnOk, OnErr, Option, Some, None, Ok, Err};
ghost use Rattle.vdr_outside.specs.Causes.{NoneFalls, Rose, counted};
ghost use Rattle.vdr_outside.specs.Disk.{Unchanged};
ghost use Rattle.vdr_segment.specs.Gates.{IsOpenAt};
ghost use Rattle.vdr_segment.specs.Slots.{place_of};
ghost use Rattle.vdr_index.specs.Positions.{IsAt};
ghost use Rattle.vdr_ring.specs.Rings.{HasMedium};
ghost use Rattle.vdr_ring.specs.Damage.{IsDamagedAt, IsIntact};
ghost use Rattle.vdr_ring.specs.Visits.{StandsIn, IsLoaded, position_in, slot_read, Steps};
ghost use Rattle.vdr_ring.specs.Calls.{OnlyReads, ReadsUnlessLoaded, StepsInSlot};
ghost use Rattle.vdr_ring.specs.declared.refused.ReadRefused.TheVariants.{Fault as AFault, Damaged};

use crate::audit::first_damage;
use crate::visit::stands_in;
use crate::{ReadRefused, Ring, Visit};
use vdr_index::{Position, Selection};
use vdr_outside::Media;
use vdr_segment::{OPEN_GATE, read_slot};

impl Ring {
    // Reads a slot into the buffer, where the buffer does not hold it already, and judges it. Says whether the buffer held
    // it. `Damaged` names the header that is not legal, or the first batch that is not or does not agree with the summary
    // in the header, or where the batches end with too few records. Then no slot is loaded.
    pub(crate) fn load<M: Media>(&mut self, media: &mut M, slot: u32) -> Result<bool, ReadRefused>
        requires room { HasMedium self.old (M.disk media.old).sizes }
        requires within { slot < self.old.slots }
        ensures ring { self.new ≡ record self.old { buffer = self.new.buffer; loaded = self.new.loaded } }
        ensures loaded { OnOk result (self.new.loaded ≡ Some slot) }
        ensures held { IfOk result (λ held. IsTrue held → (self.old.loaded ≡ Some slot) × (self.new.buffer ≡ self.old.buffer)) }
        ensures failed { OnErr result (self.new.loaded ≡ None) }
        ensures bytes { IsLoaded self.old (M.disk media.old) → IsLoaded self.new (M.disk media.new) }
        ensures judged { IfOk result (λ held. (held ≡ false) → IsIntact self.new.buffer) }
        ensures damaged { (m offset : ℕ) → result ≡ Err (Damaged m offset) → (m ≡ self.old.medium)
            × (M.tells → (at : ℕ) × IsDamagedAt (slot_read self.old slot (M.disk media.old)) at × (offset ≡ place_of self.old.segment slot + at)) }
        ensures unchanged { Unchanged (M.disk media.old) (M.disk media.new) }
        ensures again { self.old.loaded ≡ Some slot → M.bytes_read media.new ≡ M.bytes_read media.old }
        ensures once { self.old.loaded ≢ Some slot → M.bytes_read media.new ≡ counted (M.bytes_read media.old) self.old.medium self.old.segment }
        ensures later { NoneFalls (M.faults media.old) (M.faults media.new) }
        ensures rose { result ≡ Err AFault → Rose (get_or (M.faults media.old) self.old.medium 0) (get_or (M.faults media.new) self.old.medium 0) }
    {
        if self.loaded == Some(slot) {
            return Ok(true);
        }
        self.loaded = None;
        read_slot(media, self.area, slot, &mut self.buffer)?;
        if let Some(at) = first_damage(&self.buffer) {
            return Err(self.damaged(slot, at));
        }
        self.loaded = Some(slot);
        Ok(false)
    }

    // Whether the slot that is loaded has a segment.
    pub(crate) fn is_open(&self) -> bool
        ensures { IsTrue result ↔ IsOpenAt self.now.buffer 0 }
    {
        self.buffer[0] == OPEN_GATE
    }

    // Where a step in the slot that is loaded begins. None where the visit doesn't stand in it, as it may be where the slot was
    // read again.
    fn start(&self, slot: u32, visit: &Visit, held: bool) -> Option<Position>
        requires loaded { self.now.loaded ≡ Some slot }
        requires stands { IsTrue held → StandsIn self.now visit.now }
        ensures some { IfSome result (λ position. (position ≡ position_in slot visit.now) × IsAt self.now.buffer position) }
        ensures none { IfNone result (IsAt self.now.buffer (position_in slot visit.now) → ⊥) }
    {
        let position = visit.position_in(slot);
        if !held && !stands_in(position, &self.buffer) {
            return None;
        }
        Some(position)
    }

    fn damaged(&self, slot: u32, at: usize) -> ReadRefused
        requires { at ≤ self.now.segment }
        ensures { result ≡ Damaged self.now.medium (place_of self.now.segment slot + at) }
    {
        ReadRefused::Damaged {
            medium: self.area.medium,
            offset: self.area.place_of(slot) + at as u64,
        }
    }

    // A step of a visit that has no record, in the slot that is loaded.
    fn step_in(
        &mut self,
        slot: u32,
        visit: &mut Visit,
        selection: &Selection,
        held: bool,
    ) -> Result<bool, ReadRefused>
        requires loaded { self.old.loaded ≡ Some slot }
        requires stands { IsTrue held → StandsIn self.old visit.old }
        requires item { visit.old.item ≡ None }
        ensures ring { self.new ≡ record self.old { loaded = self.new.loaded } }
        ensures loaded { OnOk result (self.new.loaded ≡ Some slot) }
        ensures left { (self.new.loaded ≡ self.old.loaded) ⊎ (self.new.loaded ≡ None) }
        ensures stands { StandsIn self.new visit.new }
        ensures no_fault { result ≢ Err AFault }
        ensures onward { result ≡ Ok true → (visit.new.slot ≡ Some slot) × ((position_in slot visit.old).at < visit.new.position.at)
            × (visit.new.position.at < 2 ^ 24) }
        ensures steps { Steps selection.now self.old.medium slot (place_of self.old.segment slot) self.old.buffer visit.old result visit.new }
    {
        if !self.is_open() {
            visit.leave();
            return Ok(false);
        }
        let Some(position) = self.start(slot, visit, held) else {
            self.loaded = None;
            return Err(self.damaged(slot, 0));
        };
        match visit.step_from(slot, &self.buffer, position, selection) {
            Ok(found) => Ok(found),
            Err(at) => Err(self.damaged(slot, at)),
        }
    }

    /// Steps to the next record of the segment in a slot that is selected. False exactly where no further one is there,
    /// as in a slot that is closed, after which the visit stands in none. A visit that is new begins at the first record
    /// of the slot, and so does one that stands in another slot. The slot is read whole where the last step was in
    /// another one, or an `append` came since; else nothing is read. Of a record that is not selected only the head is
    /// looked at. It takes no memory.
    ///
    /// The visit is new, or its last step was by this ring and no other visit's came since (`stands`): then it may go on
    /// in the buffer without a look at what is behind it.
    ///
    /// A slot is judged as it is read. `Damaged` names the medium and an offset, in bytes: that of the slot where its header
    /// is not legal, else where the first batch begins that is not legal or does not agree with the summary in the header,
    /// or where the batches end with fewer records than that counts. After Ok the segment is legal and agrees (`intact`).
    /// Where the bytes have changed since the visit's last step, so that no record begins where it stands, the offset is
    /// that of the slot. `Fault`: the read failed. Where a step is refused, the visit stays where it is, without a record.
    pub fn read_span<M: Media>(
        &mut self,
        media: &mut M,
        slot: u32,
        visit: &mut Visit,
        selection: &Selection,
    ) -> Result<bool, ReadRefused>
        requires room { HasMedium self.old (M.disk media.old).sizes }
        requires within { slot < self.old.slots }
        requires stands { StandsIn self.old visit.old }
        ensures keeps { OnlyReads M.Media self.old self.new media.old media.new }
        ensures steps { StepsInSlot M.Media selection.now slot self.old self.new visit.old visit.new media.old result }
        ensures counts { ReadsUnlessLoaded M.Media slot self.old media.old media.new (result ≡ Err AFault) }
    {
        visit.clear_item();
        let held = self.load(media, slot)?;
        self.step_in(slot, visit, selection, held)
    }
}
