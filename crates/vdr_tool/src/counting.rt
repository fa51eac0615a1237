// How many records stand in the windows of media that are opened for it.
//
// The windows are counted by a query of all records with a visitor that prints nothing; a count stands still at the
// greatest u64.
ghost use Rattle.std.specs.Prelude.{◌≡◌, ◌≤◌, ◌⊎◌, ℕ, List, length, sum, false};
ghost use Rattle.vdr_core.specs.Histories.{Event, Opening};
ghost use Rattle.vdr_durability.specs.Readings.{EndsMeet};
ghost use Rattle.vdr_durability.specs.Playback.{selected};
ghost use Rattle.vdr_outside.specs.Causes.{NoneFalls, Rose};
ghost use Rattle.vdr_outside.specs.Disk.{SameBut};
ghost use Rattle.vdr_entry.specs.Queries.{asked_medium};
ghost use Rattle.vdr_entry.specs.declared.query.Medium.TheVariants.{Capsule as TheCapsule, LongTerm as TheLongTerm};
ghost use Rattle.vdr_directory.specs.Sequence.{Placed};
ghost use Rattle.vdr_opening.specs.Media.{members_with, Contents, HoldsContents, reading_of};
ghost use Rattle.vdr_vault.specs.Regularity.{AreSound};
ghost use Rattle.vdr_vault.specs.Vaults.{AreRings, IsReadable};
ghost use Rattle.vdr_recorder.specs.Looks.{HasLooked};
ghost use Rattle.vdr_tool.specs.TrialParts.{CountsRecords, CountsWindows, IfStatus, IsRunStatus, cause_of, outcome, whole};
ghost use Rattle.vdr_command.specs.declared.status.Status.TheVariants.{MediaFault};

use crate::trying::Windows;
use std::alloc::Global;
use std::convert::Infallible;
use vdr_command::{Status, law_of_openings};
use vdr_entry::{Medium, Query, Record};
use vdr_outside::{Failed, Media, Sink};
use vdr_recorder::Recorder;
use vdr_terms::LAST_STAMP;
use vdr_visit::{VisitRefused, Visitor, VisitorRefused};

/// Counts the records that it is handed, and prints nothing. At the greatest u64 the count stands still.
#[derive(Drop)]
struct Counter {
    count: u64,
}

impl Visitor for Counter {
    ghost use Rattle.std.specs.Prelude.{◌≡◌, ◌+◌, [], length};
    ghost use Rattle.vdr_tool.specs.TrialParts.{as_u64};

    /// It never stops by itself.
    type Reason = Infallible;

    ghost has = { λ first seen now. now.count ≡ as_u64 (first.count + length seen) };

    ghost line = { λ _ _ _. [] };

    ghost last = { λ _ _. [] };

    ghost stops = { λ _ _ _. ⊥ };

    fn visit<O: Sink>(
        &mut self,
        _item: &Record,
        _out: &mut O,
    ) -> Result<(), VisitorRefused<Infallible>> {
        self.count = self.count.saturating_add(1);
        Ok(())
    }

    fn finish<O: Sink>(&mut self, _out: &mut O) -> Result<(), VisitorRefused<Infallible>> {
        Ok(())
    }
}

/// Takes all bytes and keeps none. It never fails.
#[derive(Drop)]
struct Nowhere {}

impl Sink for Nowhere {
    ghost use Rattle.std.specs.Prelude.{None};

    ghost taken = { λ _. None };

    ghost faults = { λ _. 0 };

    fn write(&mut self, bytes: &[u8]) -> Result<usize, Failed> {
        Ok(bytes.len())
    }
}

// The status with which a count stops. Only a fault, or damage of media that were changed from outside, stops one.
fn cause_of(stop: VisitRefused<Infallible>) -> Status
    ensures { result ≡ cause_of stop }
{
    match stop {
        VisitRefused::Fault => Status::MediaFault,
        VisitRefused::Damaged { medium, offset } => Status::Damaged { medium, offset },
        VisitRefused::NoChannel => Status::NoChannel,
        VisitRefused::NoIncident => Status::NoIncident(0),
        VisitRefused::Output => Status::OutputFault,
        VisitRefused::Own(none) => match none {},
    }
}

// Counts the records that stand in the window of this medium.
fn count_window<M: Media>(
    recorder: &mut Recorder,
    media: &mut M,
    medium: Medium,
) -> Result<u64, Status>
    requires window { (medium ≡ TheCapsule) ⊎ (medium ≡ TheLongTerm) }
    requires rings { AreRings recorder.old.vault (M.disk media.old).sizes }
    requires works { recorder.old.vault.failed ≡ false }
    ensures stops { IfStatus result IsRunStatus }
    ensures counted { (opening : Opening) (events : List Event) (placed : ℕ → List Placed) → M.tells → IsReadable opening events recorder.old.vault placed (M.disk media.old)
        → CountsRecords (selected opening events (whole medium)) result }
    ensures looked { HasLooked (whole medium) recorder.old recorder.new (M.disk media.old) (M.disk media.new) (M.bytes_read media.old) (M.bytes_read media.new)
        (M.faults media.old) (M.faults media.new) (outcome result ≡ MediaFault) }
{
    let query = Query {
        medium,
        channel: None,
        from: 0,
        to: LAST_STAMP,
    };
    let mut counter = Counter { count: 0 };
    match recorder.visit(media, &query, &mut counter, &mut Nowhere {}) {
        Ok(()) => Ok(counter.count),
        Err(stop) => Err(cause_of(stop)),
    }
}

/// Opens the media and counts the records that stand in the windows of the capsule and of the long-term medium.
pub(crate) fn count_windows<M: Media>(alloc: Global, media: &mut M) -> Result<Windows, Status>
    requires two { 2 ≤ length (M.disk media.old).sizes }
    requires three { length (M.disk media.old).sizes ≤ 3 }
    ensures stops { IfStatus result IsRunStatus }
    ensures counts { (x : Contents) → M.tells → HoldsContents (M.disk media.old).reads x → EndsMeet (members_with x.further) (reading_of x) → AreSound x
        → CountsWindows x (M.disk media.old) (M.disk media.new) result }
    ensures fault { outcome result ≡ MediaFault → Rose (sum (M.faults media.old)) (sum (M.faults media.new)) }
    ensures later { NoneFalls (M.faults media.old) (M.faults media.new) }
    ensures others { M.tells → SameBut 1 (M.disk media.old).reads (M.disk media.new).reads }
    ensures sizes { (M.disk media.new).sizes ≡ (M.disk media.old).sizes }
{
    law_of_openings();
    let mut recorder = Recorder::open(alloc, media)?;
    let capsule = count_window(&mut recorder, media, Medium::Capsule)?;
    let long_term = count_window(&mut recorder, media, Medium::LongTerm)?;
    Ok(Windows { capsule, long_term })
}
