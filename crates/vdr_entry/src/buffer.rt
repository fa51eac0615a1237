// Records that are made where they stand.
//
// Records are made where they stand, their bytes copied at their own length. In a Vec each was made apart and moved,
// and 1.5 kB filled and copied several times. All bytes in one buffer would take less memory, but then a record is
// no value whose type keeps that it is legal.
ghost use Rattle.std.specs.Prelude.{◌≡◌, ◌≤◌, ◌<◌, ◌^◌, ◌∷◌, ◌++◌, [], length, take, vec_capacity, IfOk};
ghost use Rattle.vdr_terms.specs.declared.datagram.Verdict.TheVariants.{Yes};
ghost use Rattle.vdr_terms.specs.Datagrams.{verdict};
ghost use Rattle.vdr_terms.specs.Records.{total};
ghost use Rattle.vdr_terms.specs.Records.Content.{Start, Datagram, Gap, Stop};
ghost use Rattle.vdr_terms.specs.Stamps.{IsStamp};

use crate::payload::gap_payload;
use crate::record::NO_GROUP;
use crate::{Kind, Record};
use std::alloc::{AllocError, Global};
use std::marker::Model;
use vdr_terms::Counts;

/// Records one after another, in memory that is taken once. A record is made where it stands and costs what it holds:
/// its payload is copied at its own length.
#[derive(Drop)]
pub struct RecordBuffer {
    // The first `used` are the records. The others are kept to be made anew, and more are added as they are needed.
    slots: Vec<Record>,
    used: usize,
    capacity: usize,
}

impl Model for RecordBuffer {
    ghost use Rattle.std.specs.Prelude.{◌≤◌, length, take, vec_capacity};
    ghost use Rattle.vdr_entry.specs.Buffers.{Buffered};

    ghost Value = { Buffered };

    ghost view = { λ b. record { items = take b.used b.slots.items; capacity = b.capacity } };

    ghost invariant = { λ b. (b.used ≤ length b.slots.items) × (b.capacity ≤ vec_capacity b.slots) };
}

// Adds a record to be made anew, where all are used.
fn add_where_full(slots: &mut Vec<Record>, used: usize)
    requires used { used ≤ length slots.old.items }
    requires room { used < vec_capacity slots.old }
    ensures same { take used slots.new.items ≡ take used slots.old.items }
    ensures more { used < length slots.new.items }
    ensures room { vec_capacity slots.old ≤ vec_capacity slots.new }
{
    if used == slots.len() {
        let _ = slots.push(Record::start(0, 0, 0, 0));
    }
}

impl RecordBuffer {
    /// An empty buffer with room for so many records. All its memory is taken here.
    pub fn with_capacity(alloc: Global, capacity: usize) -> Result<RecordBuffer, AllocError>
        ensures empty { IfOk result (λ buffer. buffer.items ≡ []) }
        ensures capacity { IfOk result (λ buffer. buffer.capacity ≡ capacity) }
    {
        Ok(RecordBuffer {
            slots: Vec::with_capacity(alloc, capacity)?,
            used: 0,
            capacity,
        })
    }

    /// The records.
    pub fn as_slice(&self) -> &[Record]
        ensures { result.now ≡ self.now.items }
    {
        &self.slots.as_slice()[..self.used]
    }

    /// Lets go of all records, and keeps the memory.
    pub fn clear(&mut self)
        ensures empty { self.new.items ≡ [] }
        ensures capacity { self.new.capacity ≡ self.old.capacity }
    {
        self.used = 0;
    }

    /// Adds the record with which a run of the recorder begins, as `Record::start` makes it.
    pub fn push_start(&mut self, bits: u64, place: u64, tick: u64, utc: i64)
        requires room { length self.old.items < self.old.capacity }
        requires place { place < 2 ^ 63 }
        requires tick { tick < 2 ^ 63 }
        requires utc { IsStamp utc }
        ensures items { self.new.items ≡ self.old.items ++ record { content = Start; group = 255; bits = bits; place = place; number = 0; tick = tick; utc = utc } ∷ [] }
        ensures capacity { self.new.capacity ≡ self.old.capacity }
    {
        add_where_full(&mut self.slots, self.used);
        self.slots[self.used].refill(Kind::Start, NO_GROUP, bits, place, 0, tick, utc, &[]);
        self.used += 1;
    }

    /// Adds the record of a datagram, as `Record::datagram` makes it. The bytes are copied.
    pub fn push_datagram(
        &mut self,
        group: u8,
        bits: u64,
        place: u64,
        number: u64,
        tick: u64,
        utc: i64,
        bytes: &[u8],
    )
        requires room { length self.old.items < self.old.capacity }
        requires group { group ≤ 15 }
        requires place { place < 2 ^ 63 }
        requires tick { tick < 2 ^ 63 }
        requires utc { IsStamp utc }
        requires recordable { verdict bytes.now ≡ Yes }
        ensures items { self.new.items ≡ self.old.items ++ record { content = Datagram bytes.now; group = group; bits = bits; place = place; number = number; tick = tick; utc = utc } ∷ [] }
        ensures capacity { self.new.capacity ≡ self.old.capacity }
    {
        add_where_full(&mut self.slots, self.used);
        self.slots[self.used].refill(Kind::Datagram, group, bits, place, number, tick, utc, bytes);
        self.used += 1;
    }

    /// Adds the record of items that were missed, as `Record::gap` makes it.
    pub fn push_gap(
        &mut self,
        group: u8,
        bits: u64,
        place: u64,
        first: u64,
        tick: u64,
        utc: i64,
        missed: Counts,
    )
        requires room { length self.old.items < self.old.capacity }
        requires group { group ≤ 15 }
        requires place { place < 2 ^ 63 }
        requires tick { tick < 2 ^ 63 }
        requires utc { IsStamp utc }
        requires missed { 0 < total missed }
        ensures items { self.new.items ≡ self.old.items ++ record { content = Gap missed; group = group; bits = bits; place = place; number = first; tick = tick; utc = utc } ∷ [] }
        ensures capacity { self.new.capacity ≡ self.old.capacity }
    {
        let payload = gap_payload(first, missed);
        add_where_full(&mut self.slots, self.used);
        self.slots[self.used].refill(Kind::Gap, group, bits, place, first, tick, utc, &payload);
        self.used += 1;
    }

    /// Adds the record with which a run of the recorder ends, as `Record::stop` makes it.
    pub fn push_stop(&mut self, bits: u64, place: u64, tick: u64, utc: i64)
        requires room { length self.old.items < self.old.capacity }
        requires place { place < 2 ^ 63 }
        requires tick { tick < 2 ^ 63 }
        requires utc { IsStamp utc }
        ensures items { self.new.items ≡ self.old.items ++ record { content = Stop; group = 255; bits = bits; place = place; number = 0; tick = tick; utc = utc } ∷ [] }
        ensures capacity { self.new.capacity ≡ self.old.capacity }
    {
        add_where_full(&mut self.slots, self.used);
        self.slots[self.used].refill(Kind::Stop, NO_GROUP, bits, place, 0, tick, utc, &[]);
        self.used += 1;
    }
}
