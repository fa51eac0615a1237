// Media in memory that record their writes and syncs, so that a stop at any of them can be looked at.
//
// The power goes at a number of writes and syncs, not at a call; each later call fails and leaves no trace. A failed
// write is torn like one that was done. The clock is the length of the record and the calls after it that left no
// trace.
ghost use Rattle.std.specs.Prelude.{◌≡◌, ◌≤◌, ◌<◌, ◌⊎◌, ◌↔◌, ◌+◌, ◌^◌, [], ℕ, None, length, get_or, map, replicate, reverse, slice_range, true, false, Contains, IfOk, IsErr, IsTrue, OnErr, OnOk};
ghost use Rattle.vdr_outside.specs.Causes.{HasCauseOn, IsCounted, counted};
ghost use Rattle.vdr_outside.specs.Disk.{Durable, Elapses, InRange, Narrows, Overwritten, Rises, Tears, Ticks, Unchanged, content, written};
ghost use Rattle.vdr_memory.specs.Contents.{contents};
ghost use Rattle.vdr_memory.specs.Counts.{changes, total};
ghost use Rattle.vdr_memory.specs.Images.{image_by};
ghost use Rattle.vdr_memory.specs.Media.{FailsToChange, IsFailing, IsInStep, IsReached, Records, after_read, disk_of, with_change, with_fault};
ghost use Rattle.vdr_memory.specs.Steps.Step.{write, sync};
ghost use Rattle.vdr_memory.specs.Traces.{HasNoRoom, Stays, call_of, length_of, step_of};

use crate::trace::Trace;
use crate::{Call, CallCounts, Torn, Work};
use std::alloc::{AllocError, Global};
use std::marker::Model;
use vdr_outside::{Failed, Media};

/// Media in memory. They tell what they read as and what a stop may leave, fail the calls that they are told to fail,
/// and stop where they are told to.
///
/// They keep a record of their writes and syncs. Where it needs more memory and does not get it, the power goes with that
/// call.
#[derive(Drop)]
pub struct MemoryMedia {
    alloc: Global,
    trace: Trace,
    made: CallCounts,
    failing: Vec<u64>,
    stop: Option<u64>,
    bytes_read: Vec<u64>,
    faults: Vec<u64>,
}

impl Model for MemoryMedia {
    ghost use Rattle.std.specs.Prelude.{◌≡◌, ◌≤◌, length};
    ghost use Rattle.vdr_memory.specs.Media.{IsInStep, MediaInMemory};

    ghost Value = { MediaInMemory };

    ghost view = { λ s. record { trace = s.trace; made = s.made; failing = s.failing.items; stop = s.stop; bytes_read = s.bytes_read.items; faults = s.faults.items } };

    ghost invariant = { λ s. IsInStep (record { trace = s.trace; made = s.made; failing = s.failing.items; stop = s.stop; bytes_read = s.bytes_read.items; faults = s.faults.items }) × (length s.trace.start ≤ 3) × (length s.faults.items ≡ length s.trace.start) };
}

// Adds to the number of medium m, up to the greatest u64.
fn count(counts: &mut [u64], m: u8, n: u64)
    ensures counts { counts.new ≡ counted counts.old m n }
    ensures fit { (k : ℕ) → get_or counts.old k 0 < 2 ^ 64 }
{
    let m = m as usize;
    if m < counts.len() {
        counts[m] = counts[m].saturating_add(n);
    }
}

// Counts a fault of medium m.
fn fail(faults: &mut [u64], m: u8) -> Failed
    requires { m < length faults.old }
    ensures counts { faults.new ≡ counted faults.old m 1 }
    ensures rose { IsCounted m faults.old faults.new }
{
    count(faults, m, 1);
    Failed
}

// The number of medium m, 0 where there is no such medium.
fn number_of(counts: &[u64], m: u8) -> u64
    ensures { result ≡ get_or counts.now m 0 }
{
    counts.get(m as usize).copied().unwrap_or(0)
}

// Whether the power is gone once so many calls were made.
fn is_reached(stop: Option<u64>, made: CallCounts) -> bool
    ensures { IsTrue result ↔ IsReached stop (changes made) }
{
    match stop {
        None => false,
        Some(count) => count <= made.changes(),
    }
}

// Whether the next call is to fail.
fn is_failing(failing: &[u64], stop: Option<u64>, made: CallCounts) -> bool
    ensures { IsTrue result ↔ (Contains failing.now (total made) ⊎ IsReached stop (changes made)) }
{
    failing.contains(&made.total()) || is_reached(stop, made)
}

impl MemoryMedia {
    /// Media with these contents, all of them synced, at most three. The calls of these numbers fail, counted from 0 over
    /// all reads, writes and syncs. Once `stop` writes and syncs were made the power is gone.
    pub fn new(
        alloc: Global,
        media: Vec<Vec<u8>>,
        failing: Vec<u64>,
        stop: Option<u64>,
    ) -> Result<MemoryMedia, AllocError>
        requires { length media.items ≤ 3 }
        ensures start { IfOk result (λ s. s.trace.start ≡ contents media.items) }
        ensures steps { IfOk result (λ s. s.trace.steps ≡ []) }
        ensures made { IfOk result (λ s. s.made ≡ record { reads = 0; writes = 0; syncs = 0 }) }
        ensures failing { IfOk result (λ s. s.failing ≡ failing.items) }
        ensures stop { IfOk result (λ s. s.stop ≡ stop) }
        ensures bytes_read { IfOk result (λ s. s.bytes_read ≡ replicate (length media.items) 0) }
        ensures faults { IfOk result (λ s. s.faults ≡ replicate (length media.items) 0) }
    {
        let bytes_read = vec![in alloc; 0; media.len()]?;
        let faults = vec![in alloc; 0; media.len()]?;
        Ok(MemoryMedia {
            alloc,
            trace: Trace::new(alloc, media)?,
            made: CallCounts {
                reads: 0,
                writes: 0,
                syncs: 0,
            },
            failing,
            stop,
            bytes_read,
            faults,
        })
    }

    // Makes a write or a sync of medium m, which puts it onto the record.
    fn change(&mut self, m: u8, work: Work, bytes: &[u8]) -> Result<(), Failed>
        requires medium { m < length self.old.trace.start }
        requires length { length_of work ≡ length bytes.now }
        ensures in_step { IsInStep self.old }
        ensures fails { IsFailing self.old → IsErr result }
        ensures only { OnErr result (IsFailing self.old ⊎ HasNoRoom self.old.trace (length bytes.now)) }
        ensures done { OnOk result (Records self.old (with_change work self.old) self.new (step_of m work bytes.now true)) }
        ensures failed { OnErr result (FailsToChange self.old (with_fault m (with_change work self.old)) self.new (step_of m work bytes.now false)) }
        ensures faults { OnErr result (IsCounted m self.old.faults self.new.faults) }
    {
        let before = self.made;
        self.made = before.with_change(work);
        if is_reached(self.stop, before) {
            return Err(fail(&mut self.faults, m));
        }
        let done = !self.failing.contains(&before.total());
        let call = Call {
            medium: m,
            work,
            done,
        };
        if self.trace.push(call, bytes).is_err() {
            self.stop = Some(before.changes());
            return Err(fail(&mut self.faults, m));
        }
        if !done {
            return Err(fail(&mut self.faults, m));
        }
        Ok(())
    }
}

impl MemoryMedia {
    /// The writes and syncs on the record, done or failed, the oldest first. What is called once the power is gone is not
    /// among them.
    pub fn calls(&self) -> &[Call]
        ensures { result.now ≡ map call_of (reverse self.now.trace.steps) }
    {
        self.trace.calls()
    }

    /// Takes memory for so many more writes and syncs, which write so many bytes. Their record then needs no more.
    pub fn reserve(&mut self, calls: usize, bytes: usize) -> Result<(), AllocError>
        ensures room { OnOk result ((calls ≤ self.new.trace.spare_calls) × (bytes ≤ self.new.trace.spare_bytes)) }
        ensures stays { Stays self.old.trace self.new.trace }
        ensures rest { self.new ≡ record self.old { trace = self.new.trace } }
    {
        self.trace.reserve(calls, bytes)
    }

    /// An image that a stop now may leave: what was synced stays, and of each other write stays what its choice says. The
    /// first choice is for the last of the calls, the next for the one before it, and so on; `rest` is for those beyond
    /// the choices. The choice of a sync says nothing.
    pub fn image(&self, choices: &[Torn], rest: &Torn) -> Result<Vec<Vec<u8>>, AllocError>
        ensures chosen { IfOk result (λ v. contents v.items ≡ image_by choices.now rest.now self.now.trace.start self.now.trace.steps) }
        ensures left { IfOk result (λ v. (disk_of self.now).now (contents v.items)) }
    {
        self.trace.image(self.alloc, choices, rest)
    }

    /// What medium m reads as, empty where there is no such medium.
    pub fn contents(&self, m: u8) -> &[u8]
        ensures { result.now ≡ content (disk_of self.now).reads m }
    {
        self.trace.bytes_of(m)
    }

    /// How many calls were made, failed ones too.
    pub fn made(&self) -> CallCounts
        ensures { result ≡ self.now.made }
    {
        self.made
    }

    /// How many bytes were read of medium m, up to the greatest u64. 0 where there is no such medium.
    pub fn bytes_read(&self, m: u8) -> u64
        ensures { result ≡ get_or self.now.bytes_read m 0 }
    {
        number_of(&self.bytes_read, m)
    }

    /// How many calls on medium m failed, up to the greatest u64. 0 where there is no such medium.
    pub fn faults(&self, m: u8) -> u64
        ensures { result ≡ get_or self.now.faults m 0 }
    {
        number_of(&self.faults, m)
    }
}

impl Media for MemoryMedia {
    ghost use Rattle.std.specs.Prelude.{⊤};
    ghost use Rattle.vdr_memory.specs.Media.{disk_of};

    ghost tells = { ⊤ };

    ghost tells_images = { ⊤ };

    ghost disk = { λ s. disk_of s };

    ghost faults = { λ s. s.faults };

    ghost bytes_read = { λ s. s.bytes_read };

    fn count(&self) -> u8 {
        self.trace.count() as u8
    }

    fn size(&self, m: u8) -> u64 {
        self.trace.bytes_of(m).len() as u64
    }

    /// Fails exactly where the number of the call is listed or the power is gone.
    fn read(&mut self, m: u8, at: u64, into: &mut [u8]) -> Result<(), Failed>
        requires range { InRange (disk_of self.old).sizes m at (length into.old) }
        ensures fails { IsErr result ↔ IsFailing self.old }
        ensures done { OnOk result (self.new ≡ after_read m (length into.old) self.old) }
        ensures failed { OnErr result (self.new ≡ with_fault m (after_read m (length into.old) self.old)) }
        ensures bytes { OnOk result (into.new ≡ slice_range (content (disk_of self.old).reads m) at (at + length into.old)) }
        ensures cause { HasCauseOn m self.old.faults self.new.faults result }
    {
        let before = self.made;
        self.made = before.with_read();
        count(&mut self.bytes_read, m, into.len() as u64);
        if is_failing(&self.failing, self.stop, before) {
            return Err(fail(&mut self.faults, m));
        }
        self.trace.read(m, at, into);
        Ok(())
    }

    /// Fails where the number of the call is listed or the power is gone, and besides only where the record has no room
    /// for the call without more memory, and more is refused: that it was refused, no clause can say. A write that is
    /// listed is on the record, and torn: until a sync a stop may leave any bytes in its range, and the medium reads as
    /// before.
    fn write(&mut self, m: u8, at: u64, bytes: &[u8]) -> Result<(), Failed>
        requires range { InRange (disk_of self.old).sizes m at (length bytes.now) }
        ensures fails { IsFailing self.old → IsErr result }
        ensures only { OnErr result (IsFailing self.old ⊎ HasNoRoom self.old.trace (length bytes.now)) }
        ensures done { OnOk result (Records self.old (with_change (Work.Write at (length bytes.now)) self.old) self.new (write m at bytes.now true)) }
        ensures failed { OnErr result (FailsToChange self.old (with_fault m (with_change (Work.Write at (length bytes.now)) self.old)) self.new (write m at bytes.now false)) }
        ensures reads { OnOk result ((disk_of self.new).reads ≡ written (disk_of self.old).reads m at bytes.now) }
        ensures torn { OnErr result (Overwritten m at (length bytes.now) (λ image. image ≡ (disk_of self.old).reads) (disk_of self.new).reads) }
        ensures images { Tears m at (length bytes.now) (disk_of self.old) (disk_of self.new) }
        ensures time { Elapses (disk_of self.old) (disk_of self.new) }
        ensures rises { Rises (disk_of self.old) (disk_of self.new) }
        ensures ticks { Ticks (disk_of self.old) (disk_of self.new) result }
        ensures sizes { (disk_of self.new).sizes ≡ (disk_of self.old).sizes }
        ensures counts { self.new.bytes_read ≡ self.old.bytes_read }
        ensures cause { HasCauseOn m self.old.faults self.new.faults result }
    {
        let work = Work::Write {
            at,
            length: bytes.len(),
        };
        self.change(m, work, bytes)
    }

    /// Fails as a write does. One that is listed is on the record, and makes nothing last.
    fn sync(&mut self, m: u8) -> Result<(), Failed>
        requires range { InRange (disk_of self.old).sizes m 0 0 }
        ensures fails { IsFailing self.old → IsErr result }
        ensures only { OnErr result (IsFailing self.old ⊎ HasNoRoom self.old.trace 0) }
        ensures done { OnOk result (Records self.old (with_change Work.Sync self.old) self.new (sync m true)) }
        ensures failed { OnErr result (FailsToChange self.old (with_fault m (with_change Work.Sync self.old)) self.new (sync m false)) }
        ensures durable { OnOk result (Durable m (disk_of self.new)) }
        ensures reads { (disk_of self.new).reads ≡ (disk_of self.old).reads }
        ensures images { Narrows (disk_of self.old) (disk_of self.new) }
        ensures time { Elapses (disk_of self.old) (disk_of self.new) }
        ensures rises { Rises (disk_of self.old) (disk_of self.new) }
        ensures ticks { Ticks (disk_of self.old) (disk_of self.new) result }
        ensures sizes { (disk_of self.new).sizes ≡ (disk_of self.old).sizes }
        ensures counts { self.new.bytes_read ≡ self.old.bytes_read }
        ensures cause { HasCauseOn m self.old.faults self.new.faults result }
    {
        self.change(m, Work::Sync, &[])
    }
}
