// Listing the saved incidents.
//
// The list is no event: the recorder is opened and asked.
ghost use Rattle.std.specs.Prelude.{◌≡◌, ◌≤◌, ◌⊎◌, length};
ghost use Rattle.vdr_outside.specs.Causes.{Rose};
ghost use Rattle.vdr_opening.specs.Media.{Contents, HoldsContents};
ghost use Rattle.vdr_command.specs.Endings.{IsWorkDone, ending};
ghost use Rattle.vdr_teller.specs.Incidents.{incidents_text};
ghost use Rattle.vdr_readout.specs.Incidents.{CanList, HasOnlyOpened, IsListStatus, Lists};
ghost use Rattle.vdr_command.specs.Opened.{AddsMissing, AreLooks, MediaEnds, PrintsText};
ghost use Rattle.vdr_command.specs.declared.status.Status.TheVariants.{OutputFault, Words};

use std::alloc::Global;
use vdr_command::{Outer, Status, World, law_of_openings};
use vdr_outside::{Media, Sink, Source};
use vdr_recorder::Recorder;
use vdr_teller::print_incidents;

// Opens the media and prints the live saves.
fn list<I: Source + Drop, O: Sink + Drop, M: Media + Drop>(
    alloc: Global,
    world: &mut World<I, O, M>,
) -> Result<(), Status>
    requires two { 2 ≤ length (M.disk world.old.media).sizes }
    requires three { length (M.disk world.old.media).sizes ≤ 3 }
    ensures statuses { IsListStatus (ending result) }
    ensures missing { AddsMissing (M.disk world.old.media) (M.disk world.new.media) }
    ensures bytes { let at = ⟦<World<I, O, M> as Outer>⟧.outside in HasOnlyOpened (at world.old).media (at world.new).media (ending result) }
    ensures media { let at = ⟦<World<I, O, M> as Outer>⟧.outside in MediaEnds CanList (λ m offset. ⊥) AreLooks (at world.old).media (at world.new).media (ending result) }
    ensures printed { let at = ⟦<World<I, O, M> as Outer>⟧.outside in (x : Contents) → M.tells → HoldsContents (M.disk world.old.media).reads x
        → PrintsText (incidents_text x.table) (ending result) (at world.old).output (at world.new).output }
    ensures silent { IsWorkDone (ending result) ⊎ (world.new.output ≡ world.old.output) }
    ensures output { ending result ≡ OutputFault → Rose (O.faults world.old.output) (O.faults world.new.output) }
    ensures later { O.faults world.old.output ≤ O.faults world.new.output }
    ensures sizes { (M.disk world.new.media).sizes ≡ (M.disk world.old.media).sizes }
    ensures unread { world.new.input ≡ world.old.input }
{
    let recorder = Recorder::open(alloc, &mut world.media)?;
    match print_incidents(&recorder, &mut world.output) {
        Ok(()) => Ok(()),
        Err(_) => Err(Status::OutputFault),
    }
}

/// Lists the live saves.
pub fn answer_incidents<I: Source + Drop, O: Sink + Drop, M: Media + Drop>(
    alloc: Global,
    world: &mut World<I, O, M>,
) -> Result<(), Status>
    requires two { 2 ≤ length (M.disk world.old.media).sizes }
    requires three { length (M.disk world.old.media).sizes ≤ 3 }
    ensures owed { let at = ⟦<World<I, O, M> as Outer>⟧.outside in Lists (at world.old) (at world.new) (ending result) }
    ensures known { ending result ≡ Words → ⊥ }
    ensures later { O.faults world.old.output ≤ O.faults world.new.output }
    ensures sizes { (M.disk world.new.media).sizes ≡ (M.disk world.old.media).sizes }
    ensures unread { world.new.input ≡ world.old.input }
{
    law_of_openings();
    list(alloc, world)
}
