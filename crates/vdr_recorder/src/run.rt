// A run: its Start, its batches, and its close.
ghost use Rattle.std.specs.Prelude.{◌≡◌, ◌≤◌, ◌++◌, ℕ, List, [], true, false, length, All, Err};
ghost use Rattle.vdr_terms.specs.Datagrams.{largest};
ghost use Rattle.vdr_terms.specs.Records.{Record as Entry};
ghost use Rattle.vdr_core.specs.Histories.{Event, Opening};
ghost use Rattle.vdr_core.specs.Histories.Act.{Commit};
ghost use Rattle.vdr_core.specs.Recorder.{begun, closing, recorder_after};
ghost use Rattle.vdr_core.specs.RunStates.{next_start, recorder_in, state_left};
ghost use Rattle.vdr_core.specs.Runs.{RunStart};
ghost use Rattle.vdr_core.specs.Taken.{Captured as CapturedTold};
ghost use Rattle.vdr_media.specs.Formatted.{members_with};
ghost use Rattle.vdr_vault.specs.Keeps.{StopsAtFault, WritesToBoth};
ghost use Rattle.vdr_vault.specs.Vaults.{AreRings};
ghost use Rattle.vdr_recorder.specs.Calls.{BeginsRun, EndsRun, FitBatch, FitClose, GoesOnWith, RefusesStart, StaysBelowLimits, WritesStart};
ghost use Rattle.vdr_run.specs.Making.{CountsItems, Makes, rest_of};
ghost use Rattle.vdr_recorder.specs.Recordings.{HasDone, HasRecorded};
ghost use Rattle.vdr_recorder.specs.declared.run.StartRefused.TheVariants.{Place, Tick};

use crate::Recorder;
use crate::commit::commit;
use crate::making::{make, start_run};
use crate::start::{LIMIT, in_range, is_late};
use vdr_intake::Captured;
use vdr_outside::{Fault, Media};
use vdr_terms::Counts;

/// Why a run is not begun.
#[derive(Clone, Copy, Drop)]
pub enum StartRefused {
    /// The next place is 2^62 or more.
    Place,
    /// The tick at which the run would begin is 2^62 or more.
    Tick,
    /// A write had failed before, or a write or a sync failed, and the count of faults of that medium rose.
    Fault,
}

impl From<Fault> for StartRefused {
    ghost use Rattle.std.specs.Prelude.{◌≡◌};
    ghost use Rattle.vdr_recorder.specs.declared.run.StartRefused.TheVariants as refusals;

    ghost from_gives = { λ _ refused. refused ≡ refusals.Fault };

    fn from(_: Fault) -> StartRefused {
        StartRefused::Fault
    }
}

// No item is longer than what is recorded, as its type keeps.
fn note_lengths(items: &[Captured])
    ensures { All (λ c. length c.bytes ≤ largest) items.now }
{
    for item in items {
        let _bytes = &item.bytes;
    }
}

impl Recorder {
    /// Begins a run and commits its Start.
    ///
    /// `Place`: the next place is at least 2^62. `Tick`: the place is below it, and the tick of the Start is not. Both leave all as it
    /// is. `Fault`: a write had failed before, and nothing was called; or a write or a sync failed, and the count of faults of
    /// that medium rose.
    pub fn start<M: Media>(&mut self, media: &mut M) -> Result<(), StartRefused>
        requires rings { AreRings self.old.vault (M.disk media.old).sizes }
        requires closed { self.old.is_open ≡ false }
        ensures started { (opening : Opening) (events : List Event) (t0 : ℕ) → M.tells → self.old.vault.failed ≡ false → HasRecorded opening events t0 self.old (M.disk media.old)
            → (result ≡ Err Place → ⊥) → (result ≡ Err Tick → ⊥)
            → HasDone opening events t0 (Commit (begun (next_start (state_left opening events))).made []) self.new (M.disk media.old) (M.disk media.new) }
        ensures limits { StaysBelowLimits self.old.vault result }
        ensures refuses { RefusesStart self.old self.new media.old media.new result }
        ensures begins { BeginsRun self.old self.new (M.disk media.new).sizes result }
        ensures writes { WritesStart M.Media self.old.vault.failed media.old media.new result }
    {
        if self.vault.failed() {
            return Err(StartRefused::Fault);
        }
        let place = self.vault.next_place();
        if place >= LIMIT {
            return Err(StartRefused::Place);
        }
        let last = self.vault.last();
        if is_late(last) {
            return Err(StartRefused::Tick);
        }
        start_run(&mut self.maker, self.vault.config(), place, in_range(last));
        commit(&mut self.vault, media, self.maker.records())?;
        self.is_open = true;
        Ok(())
    }

    /// Records items in this order, those that the rate of their group admits, as one batch. Where none is admitted, nothing is called.
    ///
    /// Their records fit the configured `batch`, in bytes: an item that its rate admits takes 44 and its own, and 84 more for a Gap where
    /// its group has missed anything; one that is refused takes none. `vdr_run::Charges` tells how many the next item takes.
    ///
    /// `Fault`: a write had failed before, and nothing was called; or a write or a sync failed, and the count of faults of that
    /// medium rose.
    pub fn take_batch<M: Media>(&mut self, media: &mut M, items: &[Captured]) -> Result<(), Fault>
        requires rings { AreRings self.old.vault (M.disk media.old).sizes }
        requires open { self.old.is_open ≡ true }
        requires fits { FitBatch items.now self.old }
        ensures taken { (opening : Opening) (events : List Event) (t0 : ℕ) → M.tells → self.old.vault.failed ≡ false → HasRecorded opening events t0 self.old (M.disk media.old)
            → (records : List Entry)
            × ((recorder_after (state_left opening events).start ((state_left opening events).popped ++ items.now)).made ≡ (recorder_in (state_left opening events)).made ++ records)
            × HasDone opening events t0 (Commit records items.now) self.new (M.disk media.old) (M.disk media.new) }
        ensures nothing { (start : RunStart) (popped : List CapturedTold) → Makes self.old.vault.config start popped self.old.maker
            → (recorder_after start (popped ++ items.now)).made ≡ (recorder_after start popped).made → media.new ≡ media.old }
        ensures failing { StopsAtFault self.old.vault.failed self.new.vault.failed self.old self.new media.old media.new result }
        ensures goes_on { GoesOnWith items.now self.old self.new (M.disk media.new).sizes }
        ensures writes { WritesToBoth (members_with 0) M.Media self.old.vault.failed media.old media.new result }
    {
        if self.vault.failed() {
            return Err(Fault);
        }
        note_lengths(items);
        make(&mut self.maker, self.vault.config(), items);
        commit(&mut self.vault, media, self.maker.records())
    }

    /// Closes the run, by what each port missed since its last item: commits a closing Gap of each group that has missed anything
    /// since its last Datagram, in order of group, and then Stop, as one batch. No run is open then, unless a write had failed before.
    ///
    /// `Fault`: a write had failed before, and nothing was called; or a write or a sync failed, and the count of faults of that
    /// medium rose.
    pub fn stop<M: Media>(&mut self, media: &mut M, rest: &[Counts; 16]) -> Result<(), Fault>
        requires rings { AreRings self.old.vault (M.disk media.old).sizes }
        requires open { self.old.is_open ≡ true }
        requires fits { FitClose (rest_of rest.now) self.old }
        ensures stopped { (opening : Opening) (events : List Event) (t0 : ℕ) → M.tells → self.old.vault.failed ≡ false → HasRecorded opening events t0 self.old (M.disk media.old)
            → HasDone opening events t0 (Commit (closing (state_left opening events).start (recorder_in (state_left opening events)) (rest_of rest.now)) []) self.new (M.disk media.old) (M.disk media.new) }
        ensures counted { (start : RunStart) (popped : List CapturedTold) → CountsItems start popped self.old.maker → CountsItems start popped self.new.maker }
        ensures failing { StopsAtFault self.old.vault.failed self.new.vault.failed self.old self.new media.old media.new result }
        ensures ends { EndsRun self.old self.new (M.disk media.new).sizes }
        ensures writes { WritesToBoth (members_with 0) M.Media self.old.vault.failed media.old media.new result }
    {
        if self.vault.failed() {
            return Err(Fault);
        }
        self.maker.close(self.vault.config(), rest);
        self.is_open = false;
        commit(&mut self.vault, media, self.maker.records())
    }
}
