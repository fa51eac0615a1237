// A source in memory: it gives its bytes in pieces, and fails where it is told to.
ghost use Rattle.std.specs.Prelude.{◌≡◌, ◌<◌, ◌↔◌, length, Some, IsErr, IfOk, OnErr, Contains};
ghost use Rattle.std.specs.Io.{ReadsAtMost};
ghost use Rattle.std.specs.Io.KnownBytes.{ReadConsumes};
ghost use Rattle.vdr_outside.specs.Causes.{HasCause};
ghost use Rattle.vdr_memory.specs.Sources.{given_to, after_read, after_failed_read};

use std::marker::Model;
use vdr_outside::{Failed, Source};

/// A source over bytes in memory, which are given out in pieces.
#[derive(Drop)]
pub struct MemorySource {
    bytes: Vec<u8>,
    given: usize,
    piece: usize,
    failing: Vec<u64>,
    calls: u64,
    faults: u64,
}

impl Model for MemorySource {
    ghost use Rattle.std.specs.Prelude.{◌≤◌, ◌<◌, length, drop};
    ghost use Rattle.vdr_memory.specs.Sources.{SourceInMemory};

    ghost Value = { SourceInMemory };

    ghost view = { λ s. record { left = drop s.given s.bytes.items; piece = s.piece; failing = s.failing.items; calls = s.calls; faults = s.faults } };

    ghost invariant = { λ s. (s.given ≤ length s.bytes.items) × (0 < s.piece) };
}

impl MemorySource {
    /// A source that gives the bytes in pieces of at most this length, and fails at the calls of these numbers, counted
    /// from 0.
    pub fn new(bytes: Vec<u8>, piece: usize, failing: Vec<u64>) -> MemorySource
        requires { 0 < piece }
        ensures { result ≡ record { left = bytes.items; piece = piece; failing = failing.items; calls = 0; faults = 0 } }
    {
        MemorySource {
            bytes,
            given: 0,
            piece,
            failing,
            calls: 0,
            faults: 0,
        }
    }

    /// The bytes not yet given.
    pub fn left(&self) -> &[u8]
        ensures { result.now ≡ self.now.left }
    {
        &self.bytes[self.given..]
    }

    /// How many calls were made, up to the greatest u64.
    pub fn calls(&self) -> u64
        ensures { result ≡ self.now.calls }
    {
        self.calls
    }

    /// How many calls failed, up to the greatest u64.
    pub fn faults(&self) -> u64
        ensures { result ≡ self.now.faults }
    {
        self.faults
    }
}

impl Source for MemorySource {
    ghost use Rattle.std.specs.Prelude.{Some};

    ghost left = { λ s. Some s.left };

    ghost faults = { λ s. s.faults };

    /// Fails exactly where the number of the call is listed. Else it gives what the buffer, the piece and the bytes left
    /// allow.
    fn read(&mut self, into: &mut [u8]) -> Result<usize, Failed>
        ensures bound { ReadsAtMost result into.new }
        ensures bytes { ReadConsumes (Some self.old.left) (Some self.new.left) result into.new }
        ensures cause { HasCause self.old.faults self.new.faults result }
        ensures fails { IsErr result ↔ Contains self.old.failing self.old.calls }
        ensures failed { OnErr result (self.new ≡ after_failed_read self.old) }
        ensures gave { IfOk result (λ n. (n ≡ given_to (length into.new) self.old)
            × (self.new ≡ after_read n self.old)) }
    {
        let call = self.calls;
        self.calls = self.calls.saturating_add(1);
        if self.failing.contains(&call) {
            self.faults = self.faults.saturating_add(1);
            return Err(Failed);
        }
        let left = &self.bytes[self.given..];
        let count = into.len().min(self.piece).min(left.len());
        into[..count].copy_from_slice(&left[..count]);
        self.given += count;
        Ok(count)
    }
}
