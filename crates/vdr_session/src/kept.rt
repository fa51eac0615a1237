// The recorder that lies under the latch, with the media that were lent to the session.
use crate::mark::Mark;
use crate::records::{Began, Records};
use std::marker::{Brand, PhantomData};
use vdr_health::RunTally;
use vdr_intake::Captured;
use vdr_latch::Stepped;
use vdr_outside::Media;
use vdr_recorder::{Recorder, StartRefused, Watch};

/// The recorder and the media as the session began. The one call that makes it picks them.
pub(crate) trait Lent {
    ghost use Rattle.std.specs.Prelude.{ℕ, List};
    ghost use Rattle.vdr_terms.specs.declared.rate.Rate.{Rate};
    ghost use Rattle.std.specs.Prelude.{Option};
    ghost use Rattle.vdr_core.specs.Histories.{Opening};
    ghost use Rattle.vdr_outside.specs.Disk.{Image};
    ghost use Rattle.vdr_config.specs.Configuration.{Selector};
    ghost use Rattle.vdr_recorder.specs.Watched.{Watched};

    /// The reference to the media.
    ghost name: { ℕ };

    /// The reference to who is told.
    ghost watch_name: { ℕ };

    /// It was a recorder over this opening, whose media keep the empty history since then.
    ghost began: { Opening → ℕ → Type 0 };

    /// The moment, and what a stop might have left then, and since each moment before.
    ghost clock: { ℕ };

    ghost now: { Image → Type 0 };

    ghost since: { ℕ → Image → Type 0 };

    /// And what up to each moment.
    ghost until: { ℕ → Image → Type 0 };

    /// What the media read as then, where that is told.
    ghost reads: { Image };

    /// What was told of the media by then.
    ghost heard: { Watched };

    /// The configured channels.
    ghost channels: { List Selector };

    /// The rates of the configured groups, and how many bytes a batch may have.
    ghost rates: { List (Option Rate) };

    ghost room: { ℕ };

    ghost sizes: { List ℕ };

    /// The media's counts of faults.
    ghost faults: { List ℕ };
}

impl Lent for Brand {
    ghost use Rattle.std.specs.Prelude.{[]};
    ghost use Rattle.vdr_recorder.specs.Watched.{nothing_told};

    ghost name = { 0 };

    ghost watch_name = { 0 };

    ghost began = { λ _ _. Unit {0} };

    ghost clock = { 0 };

    ghost now = { λ _. Unit {0} };

    ghost since = { λ _ _. Unit {0} };

    ghost until = { λ _ _. Unit {0} };

    ghost reads = { [] };

    ghost heard = { nothing_told };

    ghost channels = { [] };

    ghost rates = { [] };

    ghost room = { 0 };

    ghost sizes = { [] };

    ghost faults = { [] };
}

/// A recorder with its media, and who is told of it. The reference to the media is the one that it was made with.
#[derive(Drop)]
pub(crate) struct Kept<'a, 'b, M: Media, W: Watch<M>, O: Lent> {
    pub recorder: Recorder,
    pub media: &'a mut M,
    pub watch: &'b mut W,
    /// What the run tallies of the items that were taken.
    pub tally: RunTally,
    pub of: PhantomData<O>,
}

impl<'a, 'b, M: Media, W: Watch<M>, O: Lent> Stepped for Kept<'a, 'b, M, W, O> {
    ghost use Rattle.std.specs.Prelude.{◌≡◌};
    ghost use Rattle.vdr_session.specs.Marks.{is_leading};
    ghost use Rattle.vdr_session.specs.Standing.{IsKept};
    ghost use Rattle.vdr_session.specs.Tallied.{IsTallied};

    type Event = Mark;

    ghost leaves = { λ marks k. IsKept (record { clock = O.clock; now = O.now; since = O.since; until = O.until; reads = O.reads; channels = O.channels; hears = W.hears; heard = O.heard }) O.began O.rates O.room O.sizes O.faults marks (W.seen k.watch.now) k.recorder (M.disk k.media.now) (M.faults k.media.now) × (k.media.ghost_name ≡ O.name) × (k.watch.ghost_name ≡ O.watch_name) × IsTallied marks k.tally };

    ghost leading = { is_leading };
}

impl<'a, 'b, M: Media, W: Watch<M>, O: Lent> Records for Kept<'a, 'b, M, W, O> {
    ghost use Rattle.vdr_terms.specs.Rates.{is_configured};
    ghost use Rattle.vdr_config.specs.Sizes.{limits_in};
    ghost use Rattle.vdr_session.specs.Standing.{IsFresh, IsNoRefusal, IsTaking, StartMeans, batch_mark, start_mark};
    ghost use Rattle.vdr_core.specs.Histories.{Opening};
    ghost use Rattle.std.specs.Prelude.{ℕ};

    ghost room = { O.room };

    ghost limits = { limits_in O.rates };

    ghost configured = { λ g. is_configured (limits_in O.rates g) };

    ghost takes = { λ popped k. IsTaking O.rates O.room popped W.hears (W.seen k.watch.now) k.recorder (M.disk k.media.now) };

    ghost batch = { λ k items l. batch_mark k.recorder.vault.failed items l.recorder.vault.failed (M.disk l.media.now).clock };

    ghost fresh = { λ k. IsFresh W.hears (W.seen k.watch.now) k.recorder (M.disk k.media.now) };

    ghost means = { λ began. IsNoRefusal began × (M.tells → (opening : Opening) (t0 : ℕ) → O.began opening t0 → StartMeans opening began) };

    ghost start = { λ k l. start_mark k.recorder l.recorder (M.disk l.media.now).clock };

    fn begin(&mut self) -> Began {
        match self.recorder.start_watched(self.media, self.watch) {
            Ok(()) => {
                self.tally.begin();
                Began::Begun
            }
            Err(StartRefused::Place) => {
                self.recorder.look_watched(&*self.media, self.watch);
                Began::Place
            }
            Err(StartRefused::Tick) => {
                self.recorder.look_watched(&*self.media, self.watch);
                Began::Tick
            }
            Err(StartRefused::Fault) => Began::Fault,
        }
    }

    fn take_batch(&mut self, items: &[Captured]) -> bool {
        self.tally.take_unless(self.recorder.failed(), items);
        self.recorder
            .take_batch_watched(self.media, self.watch, items)
            .is_ok()
    }
}
