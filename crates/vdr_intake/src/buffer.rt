// Items on their way to the recorder.
ghost use Rattle.std.specs.Prelude.{◌≡◌, ◌≤◌, ◌<◌, ◌∷◌, ◌++◌, [], length, take, vec_capacity, IfOk};
ghost use Rattle.vdr_intake.specs.Items.{IsCaptured};

use crate::item::Captured;
use arrayvec::ArrayVec;
use std::alloc::{AllocError, Global};
use std::marker::Model;
use vdr_terms::Counts;

/// Items one after another, in memory that is taken once. An item is put where it stands and costs what it holds: its bytes are
/// copied at their own length.
#[derive(Drop)]
pub struct CapturedBuffer {
    // The first `used` are the items. The others are kept to be put anew, and more are added as they are needed.
    slots: Vec<Captured>,
    used: usize,
    capacity: usize,
}

impl Model for CapturedBuffer {
    ghost use Rattle.std.specs.Prelude.{◌≤◌, length, take, vec_capacity};
    ghost use Rattle.vdr_intake.specs.Buffers.{Buffered};

    ghost Value = { Buffered };

    ghost view = { λ b. record { items = take b.used b.slots.items; capacity = b.capacity } };

    ghost invariant = { λ b. (b.used ≤ length b.slots.items) × (b.capacity ≤ vec_capacity b.slots) };
}

// An item to be put anew.
fn blank() -> Captured {
    let mut bytes = ArrayVec::new();
    let _ = bytes.try_extend_from_slice(b"UdPbC\0");
    Captured {
        group: 0,
        number: 0,
        received: 0,
        utc: 0,
        missed: Counts {
            full: 0,
            rate: 0,
            bad: 0,
            large: 0,
        },
        bytes,
    }
}

// Adds an item to be put anew, where all are used.
fn add_where_full(slots: &mut Vec<Captured>, used: usize)
    requires used { used ≤ length slots.old.items }
    requires room { used < vec_capacity slots.old }
    ensures same { take used slots.new.items ≡ take used slots.old.items }
    ensures more { used < length slots.new.items }
    ensures room { vec_capacity slots.old ≤ vec_capacity slots.new }
{
    if used == slots.len() {
        let _ = slots.push(blank());
    }
}

// Puts these bytes in the place of those that are held.
fn refill(held: &mut ArrayVec<u8, 1472>, bytes: &[u8])
    requires { length bytes.now ≤ 1472 }
    ensures { held.new.items ≡ bytes.now }
{
    held.clear();
    let _ = held.try_extend_from_slice(bytes);
}

impl Captured {
    // Makes it the item of these fields, in the memory that it has.
    fn refill(
        &mut self,
        group: u8,
        number: u64,
        received: u64,
        utc: i64,
        missed: Counts,
        bytes: &[u8],
    )
        requires { IsCaptured (record { group = group; number = number; received = received; utc = utc; missed = missed; bytes = bytes.now }) }
        ensures { self.new ≡ record { group = group; number = number; received = received; utc = utc; missed = missed; bytes = bytes.now } }
    {
        self.group = group;
        self.number = number;
        self.received = received;
        self.utc = utc;
        self.missed = missed;
        refill(&mut self.bytes, bytes);
    }
}

impl CapturedBuffer {
    /// An empty buffer with room for so many items. All its memory is taken here.
    pub fn with_capacity(alloc: Global, capacity: usize) -> Result<CapturedBuffer, AllocError>
        ensures empty { IfOk result (λ buffer. buffer.items ≡ []) }
        ensures capacity { IfOk result (λ buffer. buffer.capacity ≡ capacity) }
    {
        Ok(CapturedBuffer {
            slots: Vec::with_capacity(alloc, capacity)?,
            used: 0,
            capacity,
        })
    }

    /// The items.
    pub fn as_slice(&self) -> &[Captured]
        ensures { result.now ≡ self.now.items }
    {
        &self.slots.as_slice()[..self.used]
    }

    /// Lets go of all items, and keeps the memory.
    pub fn clear(&mut self)
        ensures empty { self.new.items ≡ [] }
        ensures capacity { self.new.capacity ≡ self.old.capacity }
    {
        self.used = 0;
    }

    /// Adds the item of these fields. The bytes are copied.
    pub fn push(
        &mut self,
        group: u8,
        number: u64,
        received: u64,
        utc: i64,
        missed: Counts,
        bytes: &[u8],
    )
        requires room { length self.old.items < self.old.capacity }
        requires legal { IsCaptured (record { group = group; number = number; received = received; utc = utc; missed = missed; bytes = bytes.now }) }
        ensures items { self.new.items ≡ self.old.items ++ record { group = group; number = number; received = received; utc = utc; missed = missed; bytes = bytes.now } ∷ [] }
        ensures capacity { self.new.capacity ≡ self.old.capacity }
    {
        add_where_full(&mut self.slots, self.used);
        self.slots[self.used].refill(group, number, received, utc, missed, bytes);
        self.used += 1;
    }

    /// Adds a copy of the item.
    pub fn push_copy(&mut self, item: &Captured)
        requires room { length self.old.items < self.old.capacity }
        ensures items { self.new.items ≡ self.old.items ++ item.now ∷ [] }
        ensures capacity { self.new.capacity ≡ self.old.capacity }
    {
        self.push(
            item.group,
            item.number,
            item.received,
            item.utc,
            item.missed,
            item.bytes.as_slice(),
        );
    }
}
