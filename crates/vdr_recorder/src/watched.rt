// The calls of a recorder that somebody is told of.
//
// Each is the call of its name, told once it is done and before it is answered.
ghost use Rattle.std.specs.Prelude.{◌≡◌, ◌≤◌, ◌⊎◌, ◌++◌, ℕ, List, [], true, false, length, not, Ok, Err, IfOk, OnErr};
ghost use Rattle.vdr_terms.specs.Records.{Record as Entry};
ghost use Rattle.vdr_core.specs.Histories.{Event, Incident, Opening, live};
ghost use Rattle.vdr_core.specs.Histories.Act.{Commit, Look, Release as Releasing};
ghost use Rattle.vdr_core.specs.Recorder.{begun, closing, recorder_after};
ghost use Rattle.vdr_core.specs.RunStates.{next_start, recorder_in, state_left};
ghost use Rattle.vdr_core.specs.Runs.{RunStart};
ghost use Rattle.vdr_core.specs.Taken.{Captured as CapturedTold};
ghost use Rattle.vdr_durability.specs.Readings.{EndsMeet};
ghost use Rattle.vdr_entry.specs.Queries.{asked};
ghost use Rattle.vdr_incident.specs.declared.refused.ReleaseRefused.TheVariants.{Fault as AReleaseFault};
ghost use Rattle.vdr_opening.specs.Costs.{ReadsToOpen};
ghost use Rattle.vdr_opening.specs.Media.{Contents, HoldsContents, HoldsParts, members_with, opening_of, reading_of};
ghost use Rattle.vdr_run.specs.Making.{CountsItems, Makes, rest_of};
ghost use Rattle.vdr_vault.specs.Keeps.{FailsWhere, FreesSlot, MeetsDamage, PutsIncident, RefusesRelease, RefusesSave, StopsAtFault, WritesToBoth, WritesToLongTerm};
ghost use Rattle.vdr_vault.specs.Openings.{OpensAtEachMoment, ReachesLongTerm, RefusesMedia, WritesMissing};
ghost use Rattle.vdr_vault.specs.Plays.{ReadsNoOther, TellsDamageOf};
ghost use Rattle.vdr_visit.specs.Prints.{whole_text};
ghost use Rattle.vdr_visit.specs.Refusals.{HasOutputCause, IsAccepted, lacks_channel, lacks_incident};
ghost use Rattle.vdr_vault.specs.Visits.{HasVisited};
ghost use Rattle.vdr_vault.specs.Regularity.{AreSound};
ghost use Rattle.vdr_vault.specs.Vaults.{AreRings, ShowsHistory};
ghost use Rattle.vdr_vault.specs.declared.refused.SaveRefused.TheVariants.{Fault as AFault};
ghost use Rattle.vdr_visit.specs.declared.visit_refused.VisitRefused.TheVariants.{Damaged, Fault as AVisitFault, NoChannel, NoIncident, Output};
ghost use Rattle.vdr_recorder.specs.Calls.{BeginsRun, EndsRun, FitBatch, FitClose, GoesOnWith, KeepsRecorder, OpensRecorder, RefusesStart, StaysBelowLimits, WritesStart};
ghost use Rattle.vdr_recorder.specs.Looks.{HasLooked};
ghost use Rattle.vdr_recorder.specs.Recordings.{HasRecorded};
ghost use Rattle.vdr_recorder.specs.Watched.{DoneAndTold, HearsOpening, IsWatched, ReleaseTold, SaveTold, ShowsTold, plain, told_if, turn_of_release, turn_of_save, with_turn};
ghost use Rattle.vdr_recorder.specs.declared.run.StartRefused.TheVariants.{Place, Tick};

use crate::{Recorder, StartRefused, Turn, Watch};
use std::alloc::Global;
use vdr_entry::Query;
use vdr_incident::ReleaseRefused;
use vdr_intake::Captured;
use vdr_opening::OpenRefused;
use vdr_outside::{Fault, Media, Sink};
use vdr_terms::Counts;
use vdr_vault::SaveRefused;
use vdr_visit::{VisitRefused, Visitor};

// Tells of a turn, where it is to be told.
pub(crate) fn tell<M: Media, W: Watch<M>>(watch: &mut W, media: &M, told: bool, did: Turn<'_>)
    requires shown { told ≡ true → W.hears → ShowsTold (with_turn (W.seen watch.old) (plain did) (M.disk media.now).clock) (M.disk media.now) }
    ensures { W.hears → W.seen watch.new ≡ told_if told (plain did.entry) (M.disk media.now).clock (W.seen watch.old) }
{
    if told {
        watch.turned(media, did);
    }
}

// What a save is told as.
fn turn_of_save<'a>(saved: &Result<u32, SaveRefused>, label: &'a [u8]) -> Turn<'a>
    ensures { plain result ≡ turn_of_save saved.now label.now }
{
    match saved {
        Ok(_) => Turn::Save(label),
        Err(_) => Turn::Look,
    }
}

// What a release is told as.
fn turn_of_release<'a>(released: &Result<(), ReleaseRefused>, id: u32) -> Turn<'a>
    ensures { plain result ≡ turn_of_release released.now id }
{
    match released {
        Ok(()) => Turn::Release(id),
        Err(_) => Turn::Look,
    }
}

impl Recorder {
    /// Opens the media as `open` does, and tells of it.
    pub fn open_watched<M: Media, W: Watch<M>>(
        alloc: Global,
        media: &mut M,
        watch: &mut W,
    ) -> Result<Recorder, OpenRefused>
        requires two { 2 ≤ length (M.disk media.old).sizes }
        requires three { length (M.disk media.old).sizes ≤ 3 }
        ensures opened { OpensRecorder result (M.disk media.old) (M.disk media.new) }
        ensures missing { (x : Contents) → M.tells → HoldsContents (M.disk media.old).reads x → WritesMissing x (M.disk media.old) (M.disk media.new) }
        ensures moments { (x : Contents) → M.tells → HoldsContents (M.disk media.old).reads x → EndsMeet (members_with x.further) (reading_of x) → AreSound x
            → OpensAtEachMoment (M.disk media.old) (M.disk media.new) result (ShowsHistory (opening_of x) []) }
        ensures refused { RefusesMedia result (M.disk media.old) (M.disk media.new) }
        ensures bytes { IfOk result (λ _. (x : Contents) → M.tells → HoldsParts (M.disk media.old).reads x
            → ReadsToOpen x (M.disk media.old).sizes (M.bytes_read media.old) (M.bytes_read media.new)) }
        ensures writes { ReachesLongTerm M.Media media.old media.new result }
        ensures heard { W.hears → HearsOpening (W.seen watch.new) (M.disk media.old) (M.disk media.new) result }
        ensures recorded { IfOk result (λ r. (x : Contents) → M.tells → HoldsContents (M.disk media.old).reads x → AreSound x
            → HasRecorded (opening_of x) [] (M.disk media.new).clock r (M.disk media.new)) }
        ensures watched { IfOk result (λ r. IsWatched W.hears (W.seen watch.new) r (M.disk media.new)) }
    {
        watch.found(media);
        let opened = Recorder::open(alloc, media);
        if opened.is_ok() {
            watch.opened(media);
        }
        opened
    }

    /// Begins a run as `start` does, and tells of it. A start that is refused is not told.
    pub fn start_watched<M: Media, W: Watch<M>>(
        &mut self,
        media: &mut M,
        watch: &mut W,
    ) -> Result<(), StartRefused>
        requires rings { AreRings self.old.vault (M.disk media.old).sizes }
        requires closed { self.old.is_open ≡ false }
        requires watched { IsWatched W.hears (W.seen watch.old) self.old (M.disk media.old) }
        ensures started { (opening : Opening) (events : List Event) (t0 : ℕ) → M.tells → self.old.vault.failed ≡ false → HasRecorded opening events t0 self.old (M.disk media.old)
            → (result ≡ Err Place → ⊥) → (result ≡ Err Tick → ⊥)
            → DoneAndTold W.hears opening events t0 (Commit (begun (next_start (state_left opening events))).made []) self.new (M.disk media.old) (M.disk media.new) (W.seen watch.old) (W.seen watch.new) }
        ensures limits { StaysBelowLimits self.old.vault result }
        ensures refuses { RefusesStart self.old self.new media.old media.new result }
        ensures begins { BeginsRun self.old self.new (M.disk media.new).sizes result }
        ensures writes { WritesStart M.Media self.old.vault.failed media.old media.new result }
        ensures watched { IsWatched W.hears (W.seen watch.new) self.new (M.disk media.new) }
        ensures untold { OnErr result (W.hears → W.seen watch.new ≡ W.seen watch.old) }
    {
        let started = self.start(media);
        tell(watch, media, started.is_ok(), Turn::Start);
        started
    }

    /// Records items as `take_batch` does, and tells of it.
    pub fn take_batch_watched<M: Media, W: Watch<M>>(
        &mut self,
        media: &mut M,
        watch: &mut W,
        items: &[Captured],
    ) -> Result<(), Fault>
        requires rings { AreRings self.old.vault (M.disk media.old).sizes }
        requires open { self.old.is_open ≡ true }
        requires fits { FitBatch items.now self.old }
        requires watched { IsWatched W.hears (W.seen watch.old) self.old (M.disk media.old) }
        ensures taken { (opening : Opening) (events : List Event) (t0 : ℕ) → M.tells → self.old.vault.failed ≡ false → HasRecorded opening events t0 self.old (M.disk media.old)
            → (records : List Entry)
            × ((recorder_after (state_left opening events).start ((state_left opening events).popped ++ items.now)).made ≡ (recorder_in (state_left opening events)).made ++ records)
            × DoneAndTold W.hears opening events t0 (Commit records items.now) self.new (M.disk media.old) (M.disk media.new) (W.seen watch.old) (W.seen watch.new) }
        ensures nothing { (start : RunStart) (popped : List CapturedTold) → Makes self.old.vault.config start popped self.old.maker
            → (recorder_after start (popped ++ items.now)).made ≡ (recorder_after start popped).made → media.new ≡ media.old }
        ensures failing { StopsAtFault self.old.vault.failed self.new.vault.failed self.old self.new media.old media.new result }
        ensures goes_on { GoesOnWith items.now self.old self.new (M.disk media.new).sizes }
        ensures writes { WritesToBoth (members_with 0) M.Media self.old.vault.failed media.old media.new result }
        ensures watched { IsWatched W.hears (W.seen watch.new) self.new (M.disk media.new) }
        ensures untold { OnErr result (W.hears → W.seen watch.new ≡ W.seen watch.old) }
    {
        let taken = self.take_batch(media, items);
        tell(watch, media, taken.is_ok(), Turn::Items(items));
        taken
    }

    /// Closes the run as `stop` does, and tells of it.
    pub fn stop_watched<M: Media, W: Watch<M>>(
        &mut self,
        media: &mut M,
        watch: &mut W,
        rest: &[Counts; 16],
    ) -> Result<(), Fault>
        requires rings { AreRings self.old.vault (M.disk media.old).sizes }
        requires open { self.old.is_open ≡ true }
        requires fits { FitClose (rest_of rest.now) self.old }
        requires watched { IsWatched W.hears (W.seen watch.old) self.old (M.disk media.old) }
        ensures stopped { (opening : Opening) (events : List Event) (t0 : ℕ) → M.tells → self.old.vault.failed ≡ false → HasRecorded opening events t0 self.old (M.disk media.old)
            → DoneAndTold W.hears opening events t0 (Commit (closing (state_left opening events).start (recorder_in (state_left opening events)) (rest_of rest.now)) []) self.new (M.disk media.old) (M.disk media.new) (W.seen watch.old) (W.seen watch.new) }
        ensures counted { (start : RunStart) (popped : List CapturedTold) → CountsItems start popped self.old.maker → CountsItems start popped self.new.maker }
        ensures failing { StopsAtFault self.old.vault.failed self.new.vault.failed self.old self.new media.old media.new result }
        ensures ends { EndsRun self.old self.new (M.disk media.new).sizes }
        ensures writes { WritesToBoth (members_with 0) M.Media self.old.vault.failed media.old media.new result }
        ensures watched { IsWatched W.hears (W.seen watch.new) self.new (M.disk media.new) }
        ensures untold { OnErr result (W.hears → W.seen watch.new ≡ W.seen watch.old) }
    {
        let stopped = self.stop(media, rest);
        tell(watch, media, stopped.is_ok(), Turn::Stop(rest));
        stopped
    }

    /// Saves an incident as `save` does, and tells of it. A save that is refused is told as a look.
    pub fn save_watched<M: Media, W: Watch<M>>(
        &mut self,
        media: &mut M,
        watch: &mut W,
        label: &[u8],
    ) -> Result<u32, SaveRefused>
        requires rings { AreRings self.old.vault (M.disk media.old).sizes }
        requires watched { IsWatched W.hears (W.seen watch.old) self.old (M.disk media.old) }
        ensures event { SaveTold W.hears M.Media label.now self.old self.new media.old media.new (W.seen watch.old) (W.seen watch.new) result }
        ensures told { W.hears → W.seen watch.new ≡ told_if (not self.new.vault.failed) (turn_of_save result label.now) (M.disk media.new).clock (W.seen watch.old) }
        ensures refuses { RefusesSave label.now self.old.vault self.old self.new media.old media.new result }
        ensures damage { MeetsDamage self.old.vault self.new.vault (M.disk media.old) (M.disk media.new) result }
        ensures failing { FailsWhere (result ≡ Err AFault) self.new.vault.failed }
        ensures incident { PutsIncident label.now self.old.vault self.new.vault.table result }
        ensures keeps { KeepsRecorder self.old self.new (M.disk media.new).sizes }
        ensures writes { WritesToLongTerm M.Media self.old.vault.failed media.old media.new (ReadsNoOther 1) (result ≡ Err AFault) }
        ensures watched { IsWatched W.hears (W.seen watch.new) self.new (M.disk media.new) }
    {
        let saved = self.save(media, label);
        let did = turn_of_save(&saved, label);
        tell(watch, media, !self.failed(), did);
        saved
    }

    /// Releases a saved incident as `release` does, and tells of it. A release that is refused is told as a look.
    pub fn release_watched<M: Media, W: Watch<M>>(
        &mut self,
        media: &mut M,
        watch: &mut W,
        id: u32,
    ) -> Result<(), ReleaseRefused>
        requires rings { AreRings self.old.vault (M.disk media.old).sizes }
        requires watched { IsWatched W.hears (W.seen watch.old) self.old (M.disk media.old) }
        ensures event { ReleaseTold W.hears M.Media id self.old self.new media.old media.new (W.seen watch.old) (W.seen watch.new) }
        ensures told { W.hears → W.seen watch.new ≡ told_if (not self.new.vault.failed) (turn_of_release result id) (M.disk media.new).clock (W.seen watch.old) }
        ensures refuses { RefusesRelease id self.old.vault self.old self.new media.old media.new result }
        ensures failing { FailsWhere (result ≡ Err AReleaseFault) self.new.vault.failed }
        ensures freed { FreesSlot id self.old.vault.table self.new.vault.table result }
        ensures keeps { KeepsRecorder self.old self.new (M.disk media.new).sizes }
        ensures writes { WritesToLongTerm M.Media self.old.vault.failed media.old media.new (λ before now. now ≡ before) (result ≡ Err AReleaseFault) }
        ensures watched { IsWatched W.hears (W.seen watch.new) self.new (M.disk media.new) }
    {
        let released = self.release(media, id);
        let did = turn_of_release(&released, id);
        tell(watch, media, !self.failed(), did);
        released
    }

    /// Hands records to a visitor as `visit` does, and tells of the look.
    pub fn visit_watched<M: Media, W: Watch<M>, V: Visitor, O: Sink>(
        &mut self,
        media: &mut M,
        watch: &mut W,
        query: &Query,
        visitor: &mut V,
        out: &mut O,
    ) -> Result<(), VisitRefused<V::Reason>>
        requires rings { AreRings self.old.vault (M.disk media.old).sizes }
        requires watched { IsWatched W.hears (W.seen watch.old) self.old (M.disk media.old) }
        ensures accepted { IsAccepted (lacks_channel (length self.old.vault.config.channels) query.now.channel) (lacks_incident self.old.vault.table (asked query.now).medium) result }
        ensures visited { (first : V) → V.has first [] visitor.old
            → HasVisited (asked query.now) self.old.vault (M.disk media.old) (λ seen. V.has first seen visitor.new) (V.stops first) (V.line first) (whole_text (V.line first) (V.last first))
            (O.taken out.old) (O.taken out.new) result }
        ensures damage { TellsDamageOf (asked query.now) self.old.vault (M.disk media.old) (λ m offset. result ≡ Err (Damaged m offset)) (result ≡ Ok tt) }
        ensures unread { (result ≡ Err NoChannel) ⊎ (result ≡ Err NoIncident) → (self.new ≡ self.old) × (media.new ≡ media.old) × (visitor.new ≡ visitor.old) × (out.new ≡ out.old) }
        ensures looked { HasLooked (asked query.now) self.old self.new (M.disk media.old) (M.disk media.new) (M.bytes_read media.old) (M.bytes_read media.new) (M.faults media.old) (M.faults media.new) (result ≡ Err AVisitFault) }
        ensures told { (opening : Opening) (events : List Event) (t0 : ℕ) → HasRecorded opening events t0 self.old (M.disk media.old)
            → DoneAndTold W.hears opening events t0 Look self.new (M.disk media.old) (M.disk media.new) (W.seen watch.old) (W.seen watch.new) }
        ensures output { HasOutputCause (O.faults out.old) (O.faults out.new) (result ≡ Err Output) }
        ensures watched { IsWatched W.hears (W.seen watch.new) self.new (M.disk media.new) }
    {
        let visited = self.visit(media, query, visitor, out);
        tell(watch, media, !self.failed(), Turn::Look);
        visited
    }

    /// Tells of a turn in which the recorder was asked, and no call was made on the media.
    pub fn look_watched<M: Media, W: Watch<M>>(&self, media: &M, watch: &mut W)
        requires watched { IsWatched W.hears (W.seen watch.old) self.now (M.disk media.now) }
        ensures told { (opening : Opening) (events : List Event) (t0 : ℕ) → HasRecorded opening events t0 self.now (M.disk media.now)
            → DoneAndTold W.hears opening events t0 Look self.now (M.disk media.now) (M.disk media.now) (W.seen watch.old) (W.seen watch.new) }
        ensures watched { IsWatched W.hears (W.seen watch.new) self.now (M.disk media.now) }
    {
        tell(watch, media, !self.failed(), Turn::Look);
    }
}
