// A file that may be read more than once, as a trait.
ghost use Rattle.std.specs.Prelude.{◌≡◌, ◌<◌, ◌≤◌, ℕ, List, Some, IfOk};
ghost use Rattle.vdr_outside.specs.Causes.{HasCause, Rose};

use vdr_outside::{Failed, Source};

/// A file that may be read more than once, each time from its first byte on.
pub trait StoredFile {
    ghost use Rattle.std.specs.Prelude.{ℕ, List, Option};

    /// What reads it once.
    type Reading: Source + Drop;

    /// Its bytes, where it tells them. They never change; of a file that may be another one when it is read again nothing is told.
    ghost whole: { Self → Option (List ℕ) };

    /// How often it failed. It never falls. One that stands at the greatest u64 counts as risen.
    ghost faults: { Self → ℕ };

    /// Begins to read it.
    fn open(&mut self) -> Result<Self::Reading, Failed>
        ensures left { IfOk result (λ reading. (bytes : List ℕ) → whole self.old ≡ Some bytes → Self.Reading.left reading ≡ Some bytes) }
        ensures fresh { IfOk result (λ reading. Self.Reading.faults reading ≡ 0) }
        ensures same { whole self.new ≡ whole self.old }
        ensures cause { HasCause (faults self.old) (faults self.new) result };

    /// Ends a reading. One that failed counts as a fault of the file.
    fn close(&mut self, reading: Self::Reading)
        ensures same { whole self.new ≡ whole self.old }
        ensures later { faults self.old ≤ faults self.new }
        ensures rose { 0 < Self.Reading.faults reading → Rose (faults self.old) (faults self.new) };
}
