// Saving an incident.
//
// A label is judged after the media were opened. A save whose id can't be printed is saved.
ghost use Rattle.std.specs.Prelude.{◌≡◌, ◌≤◌, ◌⊎◌, ◌++◌, codes, decimal, length, Some};
ghost use Rattle.vdr_outside.specs.Causes.{Rose};
ghost use Rattle.vdr_opening.specs.Media.{Contents, HoldsContents};
ghost use Rattle.vdr_recorder.specs.Watched.{IsToldOnce};
ghost use Rattle.vdr_recorder.specs.Watched.PlainTurn.{Save as Saving};
ghost use Rattle.vdr_command.specs.Endings.{IsWorkDone, ending};
ghost use Rattle.vdr_command.specs.Opened.{AddsMissing, IsOpenableWith, IsUnbegun, MayLeave, MediaEnds, MetUnsound, PrintsText};
ghost use Rattle.vdr_tool.specs.Saves.{CanSave, IfSaveRefused, IsJudged, IsSaveStatus, Saves, SavesAs, id_line, save_text};
ghost use Rattle.vdr_command.specs.declared.status.Status.TheVariants.{OutputFault, Words};

use arrayvec::ArrayVec;
use itoa::Buffer;
use std::alloc::Global;
use vdr_command::{Outer, ROOM, Status, World, law_of_openings, push_text};
use vdr_outside::{Media, Sink, Source, write_all};
use vdr_recorder::{Recorder, Watch};

// The line of an id.
fn line_of(id: u32) -> ArrayVec<u8, ROOM>
    ensures { result.items ≡ decimal id ++ codes "\n" }
{
    let mut line = ArrayVec::new();
    push_text(&mut line, Buffer::new().format(id).as_bytes());
    push_text(&mut line, b"\n");
    line
}

// Prints the id of a save. What was saved stays saved where the output fails.
fn print_id<O: Sink>(id: u32, output: &mut O) -> Result<(), Status>
    ensures done { IsWorkDone (ending result) }
    ensures printed { PrintsText (id_line (Some id)) (ending result) (record { taken = O.taken output.old; faults = O.faults output.old })
        (record { taken = O.taken output.new; faults = O.faults output.new }) }
    ensures output { ending result ≡ OutputFault → Rose (O.faults output.old) (O.faults output.new) }
    ensures later { O.faults output.old ≤ O.faults output.new }
{
    match write_all(output, line_of(id).as_slice()) {
        Ok(()) => Ok(()),
        Err(_) => Err(Status::OutputFault),
    }
}

// Opens the media, saves an incident and prints its id.
fn save<I: Source + Drop, O: Sink + Drop, M: Media + Drop, W: Watch<M>>(
    alloc: Global,
    label: &[u8],
    world: &mut World<I, O, M>,
    watch: &mut W,
) -> Result<(), Status>
    requires two { 2 ≤ length (M.disk world.old.media).sizes }
    requires three { length (M.disk world.old.media).sizes ≤ 3 }
    ensures statuses { IsSaveStatus (ending result) }
    ensures missing { IsUnbegun (ending result) → AddsMissing (M.disk world.old.media) (M.disk world.new.media) }
    ensures media { let at = ⟦<World<I, O, M> as Outer>⟧.outside in MediaEnds (CanSave label.now) (MetUnsound (M.disk world.old.media) (M.disk world.new.media) (CanSave label.now))
        (MayLeave (SavesAs label.now) (M.disk world.new.media).clock (ending result)) (at world.old).media (at world.new).media (ending result) }
    ensures refused { IfSaveRefused (ending result) (λ cause. M.tells → IsOpenableWith (M.disk world.old.media).reads (IsJudged label.now (Some cause))) }
    ensures printed { let at = ⟦<World<I, O, M> as Outer>⟧.outside in (x : Contents) → M.tells → HoldsContents (M.disk world.old.media).reads x
        → PrintsText (save_text x.table) (ending result) (at world.old).output (at world.new).output }
    ensures silent { IsWorkDone (ending result) ⊎ (world.new.output ≡ world.old.output) }
    ensures output { ending result ≡ OutputFault → Rose (O.faults world.old.output) (O.faults world.new.output) }
    ensures later { O.faults world.old.output ≤ O.faults world.new.output }
    ensures sizes { (M.disk world.new.media).sizes ≡ (M.disk world.old.media).sizes }
    ensures unread { world.new.input ≡ world.old.input }
    ensures heard { IsWorkDone (ending result) → W.hears → IsToldOnce (M.disk world.old.media) (M.disk world.new.media) (Saving label.now) (W.seen watch.new) }
{
    let mut recorder = Recorder::open_watched(alloc, &mut world.media, watch)?;
    let id = recorder.save_watched(&mut world.media, watch, label)?;
    print_id(id, &mut world.output)
}

/// Saves an incident under this label, and prints its id.
pub(crate) fn answer_save<I: Source + Drop, O: Sink + Drop, M: Media + Drop, W: Watch<M>>(
    alloc: Global,
    label: &[u8],
    world: &mut World<I, O, M>,
    watch: &mut W,
) -> Result<(), Status>
    requires two { 2 ≤ length (M.disk world.old.media).sizes }
    requires three { length (M.disk world.old.media).sizes ≤ 3 }
    ensures owed { let at = ⟦<World<I, O, M> as Outer>⟧.outside in Saves label.now (at world.old) (at world.new) W.hears (W.seen watch.new) (ending result) }
    ensures known { ending result ≡ Words → ⊥ }
    ensures later { O.faults world.old.output ≤ O.faults world.new.output }
    ensures sizes { (M.disk world.new.media).sizes ≡ (M.disk world.old.media).sizes }
    ensures unread { world.new.input ≡ world.old.input }
{
    law_of_openings();
    save(alloc, label, world, watch)
}
