// The file that a command makes of the records of a stored file.
ghost use Rattle.std.specs.Prelude.{◌≡◌, ◌≤◌, Ok, Err};
ghost use Rattle.vdr_outside.specs.Causes.{Rose};
ghost use Rattle.vdr_command.specs.Endings.{ending};
ghost use Rattle.vdr_command.specs.declared.status.Status.TheVariants.{InputFault};
ghost use Rattle.vdr_readout.specs.Reads.{plain_play};
ghost use Rattle.vdr_from.specs.Held.{IsKept};
ghost use Rattle.vdr_from.specs.Writings.{WritesHeld};

use crate::stops::refused_as;
use std::alloc::Global;
use vdr_command::{Status, report_channel};
use vdr_export::{Wish, export_file, file_of};
use vdr_outside::{Media, Sink};
use vdr_readout::{Wanted, query_in};
use vdr_verify::{EvidenceReader, StoredFile};

/// Finds what is wanted of a file that was read to its end, and writes what is wished of it. The media are left alone. Memory is taken for
/// the parts of a picture, and for the images of a list.
pub(crate) fn write_held<F: StoredFile, M: Media, O: Sink>(
    alloc: Global,
    wanted: Wanted<'_>,
    wish: Wish,
    reader: &mut EvidenceReader<'_, F>,
    media: &mut M,
    out: &mut O,
) -> Result<(), Status>
    ensures writes { IsKept (F.whole reader.old.file.now) reader.old.kept
        → WritesHeld (F.whole reader.old.file.now) wish (plain_play wanted.entry)
        (record { taken = O.taken out.old; faults = O.faults out.old }) (record { taken = O.taken out.new; faults = O.faults out.new }) (ending result) }
    ensures fault { ending result ≡ InputFault → Rose (F.faults reader.old.file.now) (F.faults reader.new.file.now) }
    ensures falls { F.faults reader.old.file.now ≤ F.faults reader.new.file.now }
    ensures name { reader.new.file.ghost_name ≡ reader.old.file.ghost_name }
    ensures later { O.faults out.old ≤ O.faults out.new }
    ensures untouched { media.new ≡ media.old }
{
    let config = reader.kept.config();
    let Some(query) = query_in(config, wanted) else {
        report_channel(wanted.channel, out);
        return Err(Status::NoChannel);
    };
    let Some(file) = file_of(config, query.channel, wish) else {
        return Err(Status::ExportKind);
    };
    match export_file(alloc, reader, media, &query, &file, out) {
        Ok(()) => Ok(()),
        Err(refused) => Err(refused_as(refused)),
    }
}
