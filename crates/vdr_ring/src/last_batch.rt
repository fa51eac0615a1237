// The last batch of a medium, read back from its slot.
//
// The last batch is read back from its slot, not kept: it is asked for once. A ring that was opened holds that slot,
// so that no byte is read for it.
ghost use Rattle.std.specs.Prelude.{◌≡◌, ◌≢◌, ◌⊎◌, ◌≤◌, ◌<◌, ◌+◌, ℕ, List, [], All, length, drop, IfOk, IfErr, IfSome, IsErrOf, Err};
ghost use Rattle.vdr_terms.specs.Records.{Record as Entry, last};
ghost use Rattle.vdr_terms.specs.Sizes.{batch_size, records_size};
ghost use Rattle.vdr_outside.specs.Causes.{counted};
ghost use Rattle.vdr_outside.specs.declared.fault.PartRefused.TheVariants.{Damaged, Fault};
ghost use Rattle.vdr_segment.specs.Gates.{IsOpenAt};
ghost use Rattle.vdr_segment.specs.Batches.{AreRecords, IsBatch};
ghost use Rattle.vdr_segment.specs.Segments.{AreBatches};
ghost use Rattle.vdr_index.specs.Surveys.{BreaksAt};
ghost use Rattle.vdr_index.specs.Indexes.{IsNewest};
ghost use Rattle.vdr_segment.specs.Slots.{place_of};
ghost use Rattle.vdr_directory.specs.Sequence.{Placed};
ghost use Rattle.vdr_directory.specs.Knowns.{AreInOrderBy};
ghost use Rattle.vdr_directory.specs.Telling.{TellsBy};
ghost use Rattle.vdr_ring.specs.Rings.{HasMedium, HoldsNewest};
ghost use Rattle.vdr_directory.specs.Opening.{HasFaultCause};
ghost use Rattle.vdr_ring.specs.Lasts.{batch_or_none, AreOfBatch, IsLastSlot};
ghost use Rattle.vdr_ring.specs.Calls.{GivesLastBatch, OnlyReads};

use crate::{ReadRefused, Ring};
use std::alloc::{AllocError, Global};
use vdr_entry::{Record, read_record};
use vdr_outside::{Media, PartRefused};
use vdr_segment::{HEADER_SIZE, Walk, walk};

// The bytes of the records of a segment's last batch, none where it has no batch. Err: the offset of the first batch that is
// not legal.
fn last_records(segment: &[u8]) -> Result<&[u8], usize>
    requires { 65 ≤ length segment.now }
    ensures legal { IfOk result (λ bytes. (batches : List (List Entry)) × AreBatches (drop 64 segment.now) batches × AreOfBatch bytes.now (last batches)) }
    ensures fits { IfOk result (λ bytes. bytes.now ≢ [] → 64 + (5 + length bytes.now) + 1 ≤ length segment.now) }
    ensures broken { IfErr result (BreaksAt segment.now) }
{
    let mut records = &segment[..0];
    let mut end = HEADER_SIZE;
    loop {
        match walk(segment, end) {
            Walk::Batch { from, to } => {
                records = &segment[from..to];
                end = to;
            }
            Walk::End => return Ok(records),
            Walk::Broken => return Err(end),
        }
    }
}

// Reads records, one after another.
fn read_all(alloc: Global, bytes: &[u8]) -> Result<Vec<Record>, AllocError>
    ensures all { IfOk result (λ read. (records : List Entry) → AreRecords bytes.now records → read.items ≡ records) }
    ensures size { IfOk result (λ read. records_size read.items ≤ length bytes.now) }
{
    let mut read = Vec::new(alloc);
    let mut rest = bytes;
    while let Some((item, size)) = read_record(rest) {
        read.push(item)?;
        rest = &rest[size..];
    }
    Ok(read)
}

impl Ring {
    // The slot of the last segment that has records.
    fn last_slot(&self) -> Option<u32>
        ensures within { IfSome result (λ slot. slot < self.now.slots) }
        ensures found { (known : List Placed) → TellsBy self.now.slots known self.now.directory → AreInOrderBy known → All (λ p. All IsBatch p.segment.batches) known
            → IsLastSlot known result }
        ensures newest { IfSome result (IsNewest self.now.directory.index) }
        ensures long { 64 ≤ self.now.segment }
    {
        self.directory.index().newest()
    }

    // The records of the last batch of the segment that is loaded, which stands in this slot. None where the slot is
    // closed.
    fn last_loaded(&self, alloc: Global, slot: u32) -> Result<Vec<Record>, PartRefused>
        requires { slot < self.now.slots }
        ensures batch { IfOk result (λ records. IsOpenAt self.now.buffer 0 → (batches : List (List Entry)) → AreBatches (drop 64 self.now.buffer) batches
            → batch_or_none records.items ≡ last batches) }
        ensures fits { IfOk result (λ records. records.items ≢ [] → 64 + batch_size records.items + 1 ≤ self.now.segment) }
        ensures damaged { (m offset : ℕ) → result ≡ Err (Damaged m offset) → (m ≡ self.now.medium)
            × IsOpenAt self.now.buffer 0 × (at : ℕ) × BreaksAt self.now.buffer at × (offset ≡ place_of self.now.segment slot + at) }
        ensures no_fault { IsErrOf result Fault → ⊥ }
    {
        if !self.is_open() {
            return Ok(Vec::new(alloc));
        }
        let bytes = match last_records(&self.buffer) {
            Ok(bytes) => bytes,
            Err(at) => {
                return Err(PartRefused::Damaged {
                    medium: self.area.medium,
                    offset: self.area.place_of(slot) + at as u64,
                });
            }
        };
        match read_all(alloc, bytes) {
            Ok(records) => Ok(records),
            Err(_) => Err(PartRefused::NoMemory),
        }
    }

    /// The records of the medium's last batch, in order; none where the medium has no record, or its slot has been closed
    /// since the ring was opened. A segment that has no other batch has room for them. Reads one slot whole where it is
    /// not the one read last, else nothing. So nothing is read of a ring that was just opened.
    ///
    /// `Damaged` names the medium and where that slot is damaged, in bytes, as a step does (`read_span`): since the ring was
    /// opened the bytes have changed. `NoMemory`: there was no room for the records. `Fault`: the read failed, and the
    /// count of faults of this medium rose.
    pub fn read_last_batch<M: Media>(
        &mut self,
        alloc: Global,
        media: &mut M,
    ) -> Result<Vec<Record>, PartRefused>
        requires room { HasMedium self.old (M.disk media.old).sizes }
        ensures keeps { OnlyReads M.Media self.old self.new media.old media.new }
        ensures batch { GivesLastBatch M.Media self.old media.old result }
        ensures counts { (M.bytes_read media.new ≡ M.bytes_read media.old)
            ⊎ (M.bytes_read media.new ≡ counted (M.bytes_read media.old) self.old.medium self.old.segment) }
        ensures held { HoldsNewest self.old → M.bytes_read media.new ≡ M.bytes_read media.old }
        ensures cause { HasFaultCause self.old.medium (M.faults media.old) (M.faults media.new) result }
    {
        let Some(slot) = self.last_slot() else {
            return Ok(Vec::new(alloc));
        };
        match self.load(media, slot) {
            Ok(_) => self.last_loaded(alloc, slot),
            Err(ReadRefused::Fault) => Err(PartRefused::Fault),
            Err(ReadRefused::Damaged { medium, offset }) => {
                Err(PartRefused::Damaged { medium, offset })
            }
        }
    }
}
