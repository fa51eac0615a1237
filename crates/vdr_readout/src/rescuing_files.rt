// Files out of one medium alone.
ghost use Rattle.std.specs.Prelude.{◌≡◌, ◌≤◌, length};
ghost use Rattle.vdr_command.specs.Endings.{ending};
ghost use Rattle.vdr_readout.specs.Reads.{plain_play};
ghost use Rattle.vdr_readout.specs.RescuedFiles.{RescuesFile};

use crate::exporting::refused_as;
use crate::reading::{Wanted, id_of, query_in};
use crate::rescuing::{ended_as, number_of, status_of_part};
use std::alloc::Global;
use std::convert::Infallible;
use vdr_command::{Outer, Status, World, report_channel};
use vdr_export::{Wish, export_file, file_of};
use vdr_outside::{Media, Sink, Source};
use vdr_rescue::{Alone, found_of, law_of_alone};
use vdr_visit::Reader;

/// Opens the medium that is wanted alone, finds what is wanted there, and writes the file. No line of what was found is written: the
/// status tells. Nothing is written to any medium, and no other one is read.
pub(crate) fn rescue_file<I: Source + Drop, O: Sink + Drop, M: Media + Drop>(
    alloc: Global,
    wanted: Wanted<'_>,
    wish: Wish,
    world: &mut World<I, O, M>,
) -> Result<(), Status>
    requires two { 2 ≤ length (M.disk world.old.media).sizes }
    ensures rescues { let at = ⟦<World<I, O, M> as Outer>⟧.outside in RescuesFile wish (plain_play wanted.entry) (at world.old) (at world.new) (ending result) }
    ensures later { O.faults world.old.output ≤ O.faults world.new.output }
    ensures sizes { (M.disk world.new.media).sizes ≡ (M.disk world.old.media).sizes }
    ensures unread { world.new.input ≡ world.old.input }
{
    law_of_alone();
    let m = number_of(wanted.medium);
    let mut alone = match Alone::open(alloc, &mut world.media, m) {
        Ok(alone) => alone,
        Err(refused) => return Err(status_of_part(refused)),
    };
    let Some(query) = query_in(alone.config(), wanted) else {
        report_channel(wanted.channel, &mut world.output);
        return Err(Status::NoChannel);
    };
    let Ok(()) = alone.accept::<Infallible>(&query) else {
        return Err(Status::NoIncident(id_of(wanted.medium)));
    };
    let Some(file) = file_of(alone.config(), query.channel, wish) else {
        return Err(Status::ExportKind);
    };
    let written = export_file(
        alloc,
        &mut alone,
        &mut world.media,
        &query,
        &file,
        &mut world.output,
    );
    if let Err(refused) = written {
        return Err(refused_as(refused));
    }
    let Ok(findings) = alone.findings(alloc) else {
        return Err(Status::NoMemory);
    };
    ended_as(found_of(findings.as_slice()), m)
}
