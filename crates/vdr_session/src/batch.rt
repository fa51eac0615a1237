// A start and a batch: what the recorder's loop does in a turn at the latch.
ghost use Rattle.std.specs.Prelude.{◌≡◌, ℕ, Bool, List, []};

use crate::records::{Began, Records};
use vdr_intake::CapturedBuffer;
use vdr_latch::Job;
use vdr_run::Charges;

/// The items that were popped and are not yet recorded, what tells how many bytes the next one's records take, and whether the media still
/// work.
#[derive(Drop)]
pub(crate) struct Batch {
    pub items: CapturedBuffer,
    pub charges: Charges,
    pub works: bool,
}

impl<T: Records> Job<T> for Batch {
    ghost use Rattle.vdr_core.specs.Taken.{Captured as CapturedTold};
    ghost use Rattle.vdr_session.specs.Marks.{IsMarkOf, MayTake};

    ghost asks = { λ j x. (popped : List CapturedTold) × T.takes popped x × MayTake T.room T.limits T.configured popped j.items.items };

    ghost event = { λ j x _ y. T.batch x j.items.items y };

    ghost relates = { λ j x l y. IsMarkOf j.items.items l.works (T.batch x j.items.items y) × (l.items ≡ j.items) × (l.charges ≡ j.charges) };

    fn work(&mut self, value: &mut T) {
        self.works = value.take_batch(self.items.as_slice());
    }
}

/// A start, and how the run began.
#[derive(Drop)]
pub(crate) struct Start {
    pub began: Began,
}

impl<T: Records> Job<T> for Start {
    ghost use Rattle.std.specs.Prelude.{◌⊎◌, false};
    ghost use Rattle.vdr_session.specs.declared.records.Began.TheVariants.{Place, Tick};
    ghost use Rattle.vdr_session.specs.declared.mark.Mark.{Mark};
    ghost use Rattle.vdr_session.specs.Events.{is_started};
    ghost use Rattle.vdr_session.specs.Marks.{IsStartOf, has_fault};

    ghost asks = { λ _ x. T.fresh x };

    ghost event = { λ _ x _ y. T.start x y };

    ghost relates = { λ _ x l y. IsStartOf l.began (T.start x y) × ((history : List Mark) → T.leaves history x → is_started history ≡ false → T.means l.began × ((l.began ≡ Place) ⊎ (l.began ≡ Tick) → has_fault history ≡ false)) };

    fn work(&mut self, value: &mut T) {
        self.began = value.begin();
    }
}
