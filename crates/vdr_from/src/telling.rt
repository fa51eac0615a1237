// What a command prints of the records of a stored file.
ghost use Rattle.std.specs.Prelude.{◌≡◌, ◌≤◌, []};
ghost use Rattle.vdr_outside.specs.Causes.{Rose};
ghost use Rattle.vdr_command.specs.Endings.{ending};
ghost use Rattle.vdr_command.specs.declared.status.Status.TheVariants.{InputFault};
ghost use Rattle.vdr_readout.specs.Reads.{plain_play};
ghost use Rattle.vdr_from.specs.Held.{IsKept};
ghost use Rattle.vdr_from.specs.Tellings.{TellsHeld};

use crate::stops::stopped_as;
use std::alloc::AllocError;
use vdr_command::{Status, report_channel};
use vdr_outside::{Media, Sink};
use vdr_readout::{Wanted, query_in};
use vdr_verify::{EvidenceReader, StoredFile};
use vdr_visit::{Visitor, visit_buffered};

/// Hands the records that are wanted of a file that was read to its end to the visitor. What the visitor prints goes to the output in few
/// writes. Only the line of a channel that is not configured is written besides, by `NoChannel`. The media are left alone.
pub(crate) fn tell_held<F: StoredFile, M: Media, V: Visitor<Reason = AllocError>, O: Sink>(
    wanted: Wanted<'_>,
    reader: &mut EvidenceReader<'_, F>,
    visitor: &mut V,
    media: &mut M,
    out: &mut O,
) -> Result<(), Status>
    ensures tells { (first : V) → V.has first [] visitor.old → IsKept (F.whole reader.old.file.now) reader.old.kept
        → TellsHeld (F.whole reader.old.file.now) (plain_play wanted.entry) (V.line first) (V.last first)
        (record { taken = O.taken out.old; faults = O.faults out.old }) (record { taken = O.taken out.new; faults = O.faults out.new }) (ending result) }
    ensures fault { ending result ≡ InputFault → Rose (F.faults reader.old.file.now) (F.faults reader.new.file.now) }
    ensures falls { F.faults reader.old.file.now ≤ F.faults reader.new.file.now }
    ensures name { reader.new.file.ghost_name ≡ reader.old.file.ghost_name }
    ensures later { O.faults out.old ≤ O.faults out.new }
    ensures untouched { media.new ≡ media.old }
{
    let Some(query) = query_in(reader.kept.config(), wanted) else {
        report_channel(wanted.channel, out);
        return Err(Status::NoChannel);
    };
    match visit_buffered(reader, media, &query, visitor, out) {
        Ok(()) => Ok(()),
        Err(stop) => Err(stopped_as(stop)),
    }
}
