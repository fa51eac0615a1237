// The port of a transmission group, as a trait.
ghost use Rattle.std.specs.Prelude.{◌≡◌, ◌≤◌, ℕ};
ghost use Rattle.vdr_outside.specs.Calls.{Asked, asked_again};
ghost use Rattle.vdr_outside.specs.Causes.{Rose};
ghost use Rattle.vdr_outside.specs.Takes.{Standing, Takes, answer_of};
ghost use Rattle.vdr_outside.specs.declared.port.Taken.TheVariants.{Failed};

use arrayvec::ArrayVec;

/// The most bytes that a take gives: one more than the 1,472 that a datagram may have, which shows that it is too long.
pub const LONGEST_TAKEN: usize = 1473;

/// What a take answers.
#[derive(Clone, Copy, Debug, PartialEq, Eq, Drop)]
pub enum Taken {
    /// A datagram came. `received` is the number of milliseconds since capture began, below 2^48, and never falls at one
    /// port. `utc` is in milliseconds since 1970, up to the end of the year 9999.
    Datagram { received: u64, utc: i64 },
    /// None came in the time that the port waits for one.
    Quiet,
    /// None is left.
    Ended,
    /// The port failed, and its count of faults rose.
    Failed,
}

/// Where the datagrams of a transmission group come from.
pub trait Port {
    /// The datagrams left and those given, where it tells them, and when the last one was received.
    ghost standing: { Self → Standing };

    /// How often it was asked, and what it answered.
    ghost asked: { Self → Asked };

    /// How often it failed. It never falls. One that stands at the greatest u64 counts as risen.
    ghost faults: { Self → ℕ };

    /// Empties the buffer and gives the next datagram. Of one that is longer than 1,472 bytes, the most that a datagram may
    /// have, it gives the first 1,473, which shows that it is.
    fn take(&mut self, into: &mut ArrayVec<u8, LONGEST_TAKEN>) -> Taken
        ensures took { Takes (standing self.old) (standing self.new) result into.new.items }
        ensures asked { asked self.new ≡ asked_again (asked self.old) (answer_of result) }
        ensures later { faults self.old ≤ faults self.new }
        ensures cause { result ≡ Failed → Rose (faults self.old) (faults self.new) };
}
