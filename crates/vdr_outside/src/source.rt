// Where bytes come from, as a trait.
ghost use Rattle.std.specs.Prelude.{List, ℕ, Option};
ghost use Rattle.std.specs.Io.{ReadsAtMost};
ghost use Rattle.std.specs.Io.KnownBytes.{ReadConsumes};
ghost use Rattle.vdr_outside.specs.Causes.{HasCause};

use crate::Failed;

/// Where bytes come from.
pub trait Source {
    /// The bytes left, where it tells them.
    ghost left: { Self → Option (List ℕ) };

    /// How often it failed. It never falls, and it rises in each call that fails. One that stands at the greatest u64
    /// counts as risen.
    ghost faults: { Self → ℕ };

    /// Puts the next bytes into a front of the buffer and says how many. Into a buffer that is not empty it puts none
    /// only at the end of the input. A call that fails reads nothing.
    fn read(&mut self, into: &mut [u8]) -> Result<usize, Failed>
        ensures bound { ReadsAtMost result into.new }
        ensures bytes { ReadConsumes (left self.old) (left self.new) result into.new }
        ensures cause { HasCause (faults self.old) (faults self.new) result };
}
