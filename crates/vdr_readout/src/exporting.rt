// Files out of what was recorded: the sound of a channel, the image of a block, and the list of the images.
ghost use Rattle.std.specs.Prelude.{◌≡◌, ◌≤◌, length, Err};
ghost use Rattle.vdr_command.specs.Endings.{ending};
ghost use Rattle.vdr_command.specs.declared.status.Status.TheVariants.{Words};
ghost use Rattle.vdr_readout.specs.Exports.{ExportEnds, Exports, status_of_export};
ghost use Rattle.vdr_readout.specs.Reads.{plain_play};

use crate::reading::{Wanted, id_of, query_of};
use std::alloc::Global;
use std::convert::Infallible;
use vdr_command::{Outer, Status, World, law_of_openings, report_channel};
use vdr_export::{ExportRefused, Wish, export_file, file_of};
use vdr_outside::{Media, Sink, Source};
use vdr_recorder::Recorder;
use vdr_vault::law_of_meeting;

/// How a file that is refused ends the command.
pub(crate) fn refused_as(refused: ExportRefused) -> Status
    ensures { result ≡ status_of_export (Err refused) }
{
    match refused {
        ExportRefused::Nothing => Status::ExportNothing,
        ExportRefused::Mixed { place } => Status::ExportMixed(place),
        ExportRefused::Long => Status::ExportLong,
        ExportRefused::Part { number } => Status::ExportPart(number),
        ExportRefused::Fault => Status::MediaFault,
        ExportRefused::Damaged { medium, offset } => Status::Damaged { medium, offset },
        ExportRefused::Output => Status::OutputFault,
        ExportRefused::NoMemory => Status::NoMemory,
    }
}

// How the writing of a file ends the command.
fn exported(written: Result<(), ExportRefused>) -> Result<(), Status>
    ensures { ending result ≡ status_of_export written }
{
    match written {
        Ok(()) => Ok(()),
        Err(refused) => Err(refused_as(refused)),
    }
}

// Opens the media, finds what is wanted there, and writes the file.
fn export<I: Source + Drop, O: Sink + Drop, M: Media + Drop>(
    alloc: Global,
    wanted: Wanted<'_>,
    wish: Wish,
    world: &mut World<I, O, M>,
) -> Result<(), Status>
    requires two { 2 ≤ length (M.disk world.old.media).sizes }
    requires three { length (M.disk world.old.media).sizes ≤ 3 }
    ensures ends { let at = ⟦<World<I, O, M> as Outer>⟧.outside in ExportEnds wish (plain_play wanted.entry) (at world.old) (at world.new) (ending result) }
    ensures later { O.faults world.old.output ≤ O.faults world.new.output }
    ensures sizes { (M.disk world.new.media).sizes ≡ (M.disk world.old.media).sizes }
    ensures unread { world.new.input ≡ world.old.input }
{
    let mut recorder = Recorder::open(alloc, &mut world.media)?;
    law_of_meeting();
    let Some(query) = query_of(&recorder, wanted) else {
        report_channel(wanted.channel, &mut world.output);
        return Err(Status::NoChannel);
    };
    let Ok(()) = recorder.accept::<Infallible>(&query) else {
        return Err(Status::NoIncident(id_of(wanted.medium)));
    };
    let Some(file) = file_of(recorder.config(), query.channel, wish) else {
        return Err(Status::ExportKind);
    };
    let media = &mut world.media;
    let written = export_file(
        alloc,
        &mut recorder,
        media,
        &query,
        &file,
        &mut world.output,
    );
    exported(written)
}

/// Writes the file that is asked for to the output. Memory is taken to open the media, for the parts of a picture, and
/// for the images of a list.
pub(crate) fn answer_export<I: Source + Drop, O: Sink + Drop, M: Media + Drop>(
    alloc: Global,
    wanted: Wanted<'_>,
    wish: Wish,
    world: &mut World<I, O, M>,
) -> Result<(), Status>
    requires two { 2 ≤ length (M.disk world.old.media).sizes }
    requires three { length (M.disk world.old.media).sizes ≤ 3 }
    ensures owed { let at = ⟦<World<I, O, M> as Outer>⟧.outside in Exports wish (plain_play wanted.entry) (at world.old) (at world.new) (ending result) }
    ensures known { ending result ≡ Words → ⊥ }
    ensures later { O.faults world.old.output ≤ O.faults world.new.output }
    ensures sizes { (M.disk world.new.media).sizes ≡ (M.disk world.old.media).sizes }
    ensures unread { world.new.input ≡ world.old.input }
{
    law_of_openings();
    export(alloc, wanted, wish, world)
}
