// What media in memory hold, and the writes and syncs that brought it there.
ghost use Rattle.std.specs.Prelude.{◌≡◌, ◌≤◌, [], ◌+◌, length, get_or, map, reverse, slice_range, IfOk, OnErr, OnOk};
ghost use Rattle.vdr_outside.specs.Disk.{InRange, content};
ghost use Rattle.vdr_memory.specs.Contents.{contents};
ghost use Rattle.vdr_memory.specs.Images.{image_by};
ghost use Rattle.vdr_memory.specs.Steps.{after, reads_after};
ghost use Rattle.vdr_memory.specs.Traces.{Grows, HasNoRoom, Stays, call_of, length_of, step_of};

use crate::contents::{bytes_of, copies, overwrite_at, read_range};
use crate::image::replay;
use crate::{Call, Torn, Work};
use std::alloc::{AllocError, Global};
use std::marker::Model;

#[derive(Drop)]
pub(crate) struct Trace {
    start: Vec<Vec<u8>>,
    held: Vec<Vec<u8>>,
    calls: Vec<Call>,
    // The bytes of the writes, one after another.
    bytes: Vec<u8>,
}

impl Model for Trace {
    ghost use Rattle.std.specs.Prelude.{◌≡◌, ◌-◌, length, reverse, vec_len, vec_capacity};
    ghost use Rattle.std.specs.List.{sum_by};
    ghost use Rattle.vdr_memory.specs.Contents.{contents};
    ghost use Rattle.vdr_memory.specs.Steps.{reads_after};
    ghost use Rattle.vdr_memory.specs.Traces.{TraceInMemory, length_of, steps_of};

    ghost Value = { TraceInMemory };

    ghost view = { λ t. record { start = contents t.start.items; steps = reverse (steps_of t.calls.items t.bytes.items); spare_calls = vec_capacity t.calls - vec_len t.calls; spare_bytes = vec_capacity t.bytes - vec_len t.bytes } };

    ghost invariant = { λ t. (contents t.held.items ≡ reads_after (contents t.start.items) (reverse (steps_of t.calls.items t.bytes.items))) × (sum_by (λ c. length_of c.work) t.calls.items ≡ length t.bytes.items) };
}

impl Trace {
    // Media with these contents, and nothing on the record.
    pub(crate) fn new(alloc: Global, media: Vec<Vec<u8>>) -> Result<Trace, AllocError>
        ensures start { IfOk result (λ t. t.start ≡ contents media.items) }
        ensures steps { IfOk result (λ t. t.steps ≡ []) }
    {
        let held = copies(alloc, &media)?;
        Ok(Trace {
            start: media,
            held,
            calls: Vec::new(alloc),
            bytes: Vec::new(alloc),
        })
    }

    // How many media there are.
    pub(crate) fn count(&self) -> usize
        ensures { result ≡ length self.now.start }
    {
        self.start.len()
    }

    // What medium m reads as.
    pub(crate) fn bytes_of(&self, m: u8) -> &[u8]
        ensures { result.now ≡ content (reads_after self.now.start self.now.steps) m }
    {
        bytes_of(&self.held, m)
    }

    pub(crate) fn read(&self, m: u8, at: u64, into: &mut [u8])
        requires { InRange (map length self.now.start) m at (length into.old) }
        ensures { into.new ≡ slice_range (content (reads_after self.now.start self.now.steps) m) at (at + length into.old) }
    {
        read_range(&self.held, m, at, into);
    }

    // The calls, the oldest first.
    pub(crate) fn calls(&self) -> &[Call]
        ensures { result.now ≡ map call_of (reverse self.now.steps) }
    {
        &self.calls
    }

    // Takes memory for so many more calls, which write so many bytes.
    pub(crate) fn reserve(&mut self, calls: usize, bytes: usize) -> Result<(), AllocError>
        ensures stays { Stays self.old self.new }
        ensures room { OnOk result ((calls ≤ self.new.spare_calls) × (bytes ≤ self.new.spare_bytes)) }
    {
        self.calls.reserve(calls)?;
        self.bytes.reserve(bytes)
    }

    // The image that a stop leaves with these choices, the first for the last call.
    pub(crate) fn image(
        &self,
        alloc: Global,
        choices: &[Torn],
        rest: &Torn,
    ) -> Result<Vec<Vec<u8>>, AllocError>
        ensures { IfOk result (λ v. contents v.items ≡ image_by choices.now rest.now self.now.start self.now.steps) }
    {
        let mut image = copies(alloc, &self.start)?;
        replay(&mut image, &self.calls, &self.bytes, choices, rest);
        Ok(image)
    }

    // Puts a call onto the record, with the bytes that it writes, and does it.
    pub(crate) fn push(&mut self, call: Call, bytes: &[u8]) -> Result<(), AllocError>
        requires { length_of call.work ≡ length bytes.now }
        ensures ok { OnOk result (Grows self.old self.new (step_of call.medium call.work bytes.now call.done)) }
        ensures err { OnErr result (Stays self.old self.new) }
        ensures full { OnErr result (HasNoRoom self.old (length bytes.now)) }
    {
        self.calls.reserve(1)?;
        self.bytes.extend_from_slice(bytes)?;
        self.calls.push(call)?;
        apply(&mut self.held, call, bytes);
        Ok(())
    }
}

// Does a call on what the media read as.
pub(crate) fn apply(held: &mut [Vec<u8>], call: Call, bytes: &[u8])
    requires { length_of call.work ≡ length bytes.now }
    ensures { contents held.new ≡ after (step_of call.medium call.work bytes.now call.done) (contents held.old) }
{
    match call.work {
        Work::Write { at, .. } => {
            if call.done {
                overwrite_at(held, call.medium, at, bytes);
            }
        }
        Work::Sync => {}
    }
}
