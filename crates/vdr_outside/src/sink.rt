// Where bytes go, as a trait, and how all of some bytes are written.
ghost use Rattle.std.specs.Prelude.{List, ℕ, Option, ◌≡◌, ◌<◌, ◌≤◌, length, take, IfOk, OnOk};
ghost use Rattle.std.specs.Io.{WritesAtMost};
ghost use Rattle.std.specs.Io.KnownBytes.{WriteAppends, Appends};
ghost use Rattle.vdr_outside.specs.Causes.{HasCause};
ghost use Rattle.vdr_outside.specs.Writes.{AppendsFront};

use crate::Failed;

/// Where bytes go.
pub trait Sink {
    /// The bytes taken, where it tells them.
    ghost taken: { Self → Option (List ℕ) };

    /// How often it failed. It never falls, and it rises in each call that fails. One that stands at the greatest u64
    /// counts as risen.
    ghost faults: { Self → ℕ };

    /// Takes a front of the bytes, at least one byte where there is one, and says how many. A call that fails takes
    /// nothing.
    fn write(&mut self, bytes: &[u8]) -> Result<usize, Failed>
        ensures bound { WritesAtMost result bytes.now }
        ensures some { IfOk result (λ n. 0 < length bytes.now → 0 < n) }
        ensures bytes { WriteAppends (taken self.old) (taken self.new) result bytes.now }
        ensures cause { HasCause (faults self.old) (faults self.new) result };
}

// Writes until all is written or a write fails, and says how many bytes were written.
pub(crate) fn write_front<O: Sink>(sink: &mut O, bytes: &[u8]) -> (usize, Result<(), Failed>)
    ensures bound { result.0 ≤ length bytes.now }
    ensures all { OnOk result.1 (result.0 ≡ length bytes.now) }
    ensures bytes { Appends (O.taken sink.old) (O.taken sink.new) (take result.0 bytes.now) }
    ensures cause { HasCause (O.faults sink.old) (O.faults sink.new) result.1 }
{
    let mut done = 0;
    while done < bytes.len() {
        match sink.write(&bytes[done..]) {
            Ok(count) => done += count,
            Err(failed) => return (done, Err(failed)),
        }
    }
    (done, Ok(()))
}

/// Writes all the bytes. Where a write fails, a front of them is written.
pub fn write_all<O: Sink>(sink: &mut O, bytes: &[u8]) -> Result<(), Failed>
    ensures all { OnOk result (Appends (O.taken sink.old) (O.taken sink.new) bytes.now) }
    ensures front { AppendsFront (O.taken sink.old) (O.taken sink.new) bytes.now }
    ensures cause { HasCause (O.faults sink.old) (O.faults sink.new) result }
{
    let (_, result) = write_front(sink, bytes);
    result
}
