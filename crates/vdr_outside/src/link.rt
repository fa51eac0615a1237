// The link of an operator, as a trait: its lines, and the replies.
ghost use Rattle.std.specs.Prelude.{◌≡◌, ◌≤◌, ℕ, List, Option, OnOk};
ghost use Rattle.std.specs.Io.KnownBytes.{Appends, Keeps};
ghost use Rattle.vdr_outside.specs.Calls.{Asked, asked_again};
ghost use Rattle.vdr_outside.specs.Causes.{HasCause, Rose};
ghost use Rattle.vdr_outside.specs.Hears.{Hears, heard_answer};
ghost use Rattle.vdr_outside.specs.Told.{Stays};
ghost use Rattle.vdr_outside.specs.Writes.{AppendsFront};
ghost use Rattle.vdr_outside.specs.declared.link.Heard.TheVariants.{Failed as HeardFailed};

use crate::Failed;
use arrayvec::ArrayVec;

/// The most bytes that a line may have.
pub const LONGEST_LINE: usize = 256;

/// What a call for a line answers.
#[derive(Clone, Copy, Debug, PartialEq, Eq, Drop)]
pub enum Heard {
    /// A line came, of at most 256 bytes.
    Line,
    /// A line of more than 256 bytes came, and was passed over.
    Long,
    /// None came in the time that the link waits for one.
    Quiet,
    /// None is left.
    Ended,
    /// The link failed, and its count of faults rose.
    Failed,
}

/// Where an operator's orders come from, line by line, and where the replies go.
pub trait Link {
    /// The lines left, each without its LF, where it tells them.
    ghost left: { Self → Option (List (List ℕ)) };

    /// The bytes replied, where it tells them.
    ghost replied: { Self → Option (List ℕ) };

    /// How often it was asked for a line, and what it answered.
    ghost asked: { Self → Asked };

    /// How often it failed. It never falls. One that stands at the greatest u64 counts as risen.
    ghost faults: { Self → ℕ };

    /// Empties the buffer and gives the next line, without its LF and without a CR before it.
    fn line(&mut self, into: &mut ArrayVec<u8, LONGEST_LINE>) -> Heard
        ensures heard { Hears (left self.old) (left self.new) result into.new.items }
        ensures replied { Keeps (replied self.old) (replied self.new) }
        ensures asked { asked self.new ≡ asked_again (asked self.old) (heard_answer result) }
        ensures later { faults self.old ≤ faults self.new }
        ensures cause { result ≡ HeardFailed → Rose (faults self.old) (faults self.new) };

    /// Sends the bytes. Where it fails, a front of them was sent.
    fn reply(&mut self, bytes: &[u8]) -> Result<(), Failed>
        ensures all { OnOk result (Appends (replied self.old) (replied self.new) bytes.now) }
        ensures front { AppendsFront (replied self.old) (replied self.new) bytes.now }
        ensures left { Stays (left self.old) (left self.new) }
        ensures asked { asked self.new ≡ asked self.old }
        ensures cause { HasCause (faults self.old) (faults self.new) result };
}
