// What a value under the latch is to the recorder's loop.
ghost use Rattle.std.specs.Prelude.{◌≡◌, ◌⊎◌, ◌++◌, ◌∷◌, ℕ, Bool, List, [], true, false};
ghost use Rattle.vdr_terms.specs.Rates.{Limit};
ghost use Rattle.vdr_core.specs.Taken.{Captured as CapturedTold};
ghost use Rattle.vdr_session.specs.declared.mark.Mark.{Mark as Marked};
ghost use Rattle.vdr_session.specs.declared.records.Began.{Began as HowBegun};
ghost use Rattle.vdr_session.specs.declared.records.Began.TheVariants.{Place, Tick};
ghost use Rattle.vdr_session.specs.Events.{is_started};
ghost use Rattle.vdr_session.specs.Marks.{IsMarkOf, IsStartOf, MayTake, has_fault};

use crate::mark::Mark;
use vdr_intake::Captured;
use vdr_latch::Stepped;

/// How a run began.
#[derive(Clone, Copy, Drop)]
pub enum Began {
    /// Its Start was committed.
    Begun,
    /// The next place is 2^62 or more.
    Place,
    /// The tick at which it would begin is 2^62 or more.
    Tick,
    /// The media failed.
    Fault,
}

/// A recorder that lies under the latch.
pub(crate) trait Records: Stepped<Event = Mark> {
    /// How many bytes a batch may have.
    ghost room: { ℕ };

    /// The limits of the run's groups.
    ghost limits: { ℕ → Limit };

    /// Which groups are configured.
    ghost configured: { ℕ → Bool };

    /// A run is open in which these items were taken, and further ones may be.
    ghost takes: { List CapturedTold → Self → Type 0 };

    /// The mark of a batch, by the value before, the items, and the value after.
    ghost batch: { Self → List CapturedTold → Self → Marked };

    /// No run was begun since the opening.
    ghost fresh: { Self → Type 0 };

    /// The mark of a start, by the value before and after.
    ghost start: { Self → Self → Marked };

    /// What it means that a start was answered so, for the opening of the session.
    ghost means: { HowBegun → Type 0 };

    /// Begins the run.
    fn begin(&mut self) -> Began
        requires { fresh self.old }
        ensures leaves { (history : List Marked) → Self.leaves history self.old → Self.leaves (history ++ start self.old self.new ∷ []) self.new }
        ensures mark { IsStartOf result (start self.old self.new) }
        ensures means { (history : List Marked) → Self.leaves history self.old → is_started history ≡ false → means result × ((result ≡ Place) ⊎ (result ≡ Tick) → has_fault history ≡ false) };

    /// Records the items as one batch. False where the media have failed by then.
    fn take_batch(&mut self, items: &[Captured]) -> bool
        requires { (popped : List CapturedTold) × takes popped self.old × MayTake room limits configured popped items.now }
        ensures leaves { (history : List Marked) → Self.leaves history self.old → Self.leaves (history ++ batch self.old items.now self.new ∷ []) self.new }
        ensures mark { IsMarkOf items.now result (batch self.old items.now self.new) };
}
