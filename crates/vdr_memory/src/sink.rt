// A sink in memory: it keeps what it takes, and fails where it is told to.
ghost use Rattle.std.specs.Prelude.{◌≡◌, ◌<◌, ◌⊎◌, [], ◌↔◌, length, Some, IfOk, OnErr, OnOk, IsErr, Contains};
ghost use Rattle.std.specs.Io.{WritesAtMost};
ghost use Rattle.std.specs.Io.KnownBytes.{WriteAppends};
ghost use Rattle.vdr_outside.specs.Causes.{HasCause};
ghost use Rattle.vdr_memory.specs.Sinks.{Takes, TakesNothing};

use std::alloc::Global;
use std::marker::Model;
use vdr_outside::{Failed, Sink};

/// A sink that keeps what it takes in memory.
#[derive(Drop)]
pub struct MemorySink {
    taken: Vec<u8>,
    failing: Vec<u64>,
    calls: u64,
    faults: u64,
}

impl Model for MemorySink {
    ghost use Rattle.std.specs.Prelude.{◌-◌, vec_len, vec_capacity};
    ghost use Rattle.vdr_memory.specs.Sinks.{SinkInMemory};

    ghost Value = { SinkInMemory };

    ghost view = { λ s. record { taken = s.taken.items; spare = vec_capacity s.taken - vec_len s.taken; failing = s.failing.items; calls = s.calls; faults = s.faults } };
}

impl MemorySink {
    /// An empty sink that fails at the calls of these numbers, counted from 0.
    pub fn new(alloc: Global, failing: Vec<u64>) -> MemorySink
        ensures taken { result.taken ≡ [] }
        ensures failing { result.failing ≡ failing.items }
        ensures calls { result.calls ≡ 0 }
        ensures faults { result.faults ≡ 0 }
    {
        MemorySink {
            taken: Vec::new(alloc),
            failing,
            calls: 0,
            faults: 0,
        }
    }

    /// The bytes taken.
    pub fn taken(&self) -> &[u8]
        ensures { result.now ≡ self.now.taken }
    {
        self.taken.as_slice()
    }

    /// How many calls were made, up to the greatest u64.
    pub fn calls(&self) -> u64
        ensures { result ≡ self.now.calls }
    {
        self.calls
    }

    /// How many calls failed, up to the greatest u64.
    pub fn faults(&self) -> u64
        ensures { result ≡ self.now.faults }
    {
        self.faults
    }
}

impl Sink for MemorySink {
    ghost taken = { λ s. Some s.taken };

    ghost faults = { λ s. s.faults };

    /// Takes all the bytes. It fails where the number of the call is listed, and besides only where the bytes have no room
    /// without more memory, and more is refused: that a growth was refused, no clause can say.
    fn write(&mut self, bytes: &[u8]) -> Result<usize, Failed>
        ensures bound { WritesAtMost result bytes.now }
        ensures some { IfOk result (λ n. 0 < length bytes.now → 0 < n) }
        ensures bytes { WriteAppends (Some self.old.taken) (Some self.new.taken) result bytes.now }
        ensures cause { HasCause self.old.faults self.new.faults result }
        ensures fails { Contains self.old.failing self.old.calls → IsErr result }
        ensures only { OnErr result (Contains self.old.failing self.old.calls
            ⊎ (self.old.spare < length bytes.now)) }
        ensures failed { OnErr result (TakesNothing self.old self.new) }
        ensures took { IfOk result (λ n. (n ≡ length bytes.now) × Takes self.old self.new bytes.now) }
    {
        let call = self.calls;
        self.calls = self.calls.saturating_add(1);
        if self.failing.contains(&call) {
            self.faults = self.faults.saturating_add(1);
            return Err(Failed);
        }
        if self.taken.extend_from_slice(bytes).is_err() {
            self.faults = self.faults.saturating_add(1);
            return Err(Failed);
        }
        Ok(bytes.len())
    }
}
