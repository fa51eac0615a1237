// Releasing an incident.
ghost use Rattle.std.specs.Prelude.{◌≡◌, ◌≤◌, ◌⊎◌, length, None};
ghost use Rattle.vdr_core.specs.Histories.{live};
ghost use Rattle.vdr_recorder.specs.Watched.{IsToldOnce};
ghost use Rattle.vdr_recorder.specs.Watched.PlainTurn.{Release as Releasing};
ghost use Rattle.vdr_command.specs.Endings.{IsWorkDone, ending};
ghost use Rattle.vdr_command.specs.Opened.{AddsMissing, IfNoIncident, IsOpenableWith, IsUnbegun, MayLeave, MediaEnds};
ghost use Rattle.vdr_tool.specs.Releases.{CanRelease, IsReleaseStatus, Releases, ReleasesId, status_of_release};
ghost use Rattle.vdr_command.specs.declared.status.Status.TheVariants.{Words};

use std::alloc::Global;
use vdr_command::{Outer, Status, World, law_of_openings};
use vdr_outside::{Media, Sink, Source};
use vdr_recorder::{Recorder, ReleaseRefused, Watch};

// How a release of this id ends the command.
fn ended_by(released: Result<(), ReleaseRefused>, id: u32) -> Result<(), Status>
    ensures { ending result ≡ status_of_release released id }
{
    match released {
        Ok(()) => Ok(()),
        Err(ReleaseRefused::NoSuch) => Err(Status::NoIncident(id)),
        Err(ReleaseRefused::Fault) => Err(Status::MediaFault),
    }
}

// Opens the media and releases the incident.
fn release<I: Source + Drop, O: Sink + Drop, M: Media + Drop, W: Watch<M>>(
    alloc: Global,
    id: u32,
    world: &mut World<I, O, M>,
    watch: &mut W,
) -> Result<(), Status>
    requires two { 2 ≤ length (M.disk world.old.media).sizes }
    requires three { length (M.disk world.old.media).sizes ≤ 3 }
    ensures statuses { IsReleaseStatus (ending result) }
    ensures missing { IsUnbegun (ending result) → AddsMissing (M.disk world.old.media) (M.disk world.new.media) }
    ensures media { let at = ⟦<World<I, O, M> as Outer>⟧.outside in MediaEnds (CanRelease id) (λ m offset. ⊥) (MayLeave (ReleasesId id) (M.disk world.new.media).clock (ending result)) (at world.old).media (at world.new).media (ending result) }
    ensures no_incident { IfNoIncident (ending result) (λ told. (told ≡ id) × (M.tells → IsOpenableWith (M.disk world.old.media).reads (λ x. live x.table id ≡ None))) }
    ensures sizes { (M.disk world.new.media).sizes ≡ (M.disk world.old.media).sizes }
    ensures silent { world.new.output ≡ world.old.output }
    ensures unread { world.new.input ≡ world.old.input }
    ensures heard { IsWorkDone (ending result) → W.hears → IsToldOnce (M.disk world.old.media) (M.disk world.new.media) (Releasing id) (W.seen watch.new) }
{
    let mut recorder = Recorder::open_watched(alloc, &mut world.media, watch)?;
    let released = recorder.release_watched(&mut world.media, watch, id);
    ended_by(released, id)
}

/// Releases the incident of this id.
pub(crate) fn answer_release<I: Source + Drop, O: Sink + Drop, M: Media + Drop, W: Watch<M>>(
    alloc: Global,
    id: u32,
    world: &mut World<I, O, M>,
    watch: &mut W,
) -> Result<(), Status>
    requires two { 2 ≤ length (M.disk world.old.media).sizes }
    requires three { length (M.disk world.old.media).sizes ≤ 3 }
    ensures owed { let at = ⟦<World<I, O, M> as Outer>⟧.outside in Releases id (at world.old) (at world.new) W.hears (W.seen watch.new) (ending result) }
    ensures known { ending result ≡ Words → ⊥ }
    ensures later { O.faults world.old.output ≤ O.faults world.new.output }
    ensures sizes { (M.disk world.new.media).sizes ≡ (M.disk world.old.media).sizes }
    ensures unread { world.new.input ≡ world.old.input }
{
    law_of_openings();
    release(alloc, id, world, watch)
}
