// What makes the media of a recorder, as a trait.
ghost use Rattle.std.specs.Prelude.{◌≡◌, true, false, sum, IfOk, IsErr, OnErr, OnOk};
ghost use Rattle.vdr_adapters.specs.Makers.{AreNew, IsMakingCounted};

use vdr_outside::Media;

/// Why media were not made.
#[derive(Clone, Copy, Drop)]
pub enum NotMade {
    /// There was no memory.
    NoMemory,
    /// A name is taken, or a call failed.
    Failed,
}

/// What makes the two media of a recorder, and takes back what it made.
pub trait MediaMaker<M: Media> {
    ghost use Rattle.std.specs.Prelude.{ℕ, Bool};

    /// Whether media that it made stand.
    ghost stands: { Self → Bool };

    /// A fact where the name of a medium is taken.
    ghost taken: { Self → Type 0 };

    /// How often it failed, or found a name that is taken. It never falls. One that stands at the greatest u64 counts as risen.
    ghost faults: { Self → ℕ };

    /// Makes a capsule and a long-term medium of these sizes, in bytes, which read as zeros. No call on them has failed. Where they are
    /// not made, nothing is left of them.
    fn make(&mut self, capsule: u64, long_term: u64) -> Result<M, NotMade>
        ensures zeros { IfOk result (λ media. AreNew capsule long_term (M.disk media)) }
        ensures unfailed { IfOk result (λ media. sum (M.faults media) ≡ 0) }
        ensures made { OnOk result (stands self.new ≡ true) }
        ensures left { OnErr result (stands self.new ≡ stands self.old) }
        ensures names { taken self.old → IsErr result }
        ensures counted { IsMakingCounted (faults self.old) (faults self.new) result };

    /// Removes the media that it made, if they stand.
    fn unmake(&mut self)
        ensures none { stands self.new ≡ false }
        ensures counted { faults self.new ≡ faults self.old };
}
