// What became of a capture's packets.
ghost use Rattle.std.specs.Prelude.{◌≡◌, ◌≤◌};
ghost use Rattle.vdr_command.specs.Endings.{ending};
ghost use Rattle.vdr_command.specs.declared.status.Status.TheVariants.{Words};
ghost use Rattle.vdr_tool.specs.Packets.{CountsPackets};

use crate::importing::status_of;
use vdr_command::{Outer, Status, World};
use vdr_import::count;
use vdr_outside::{Media, Sink, Source};
use vdr_pcap::law_of_captures;

/// Prints what became of the packets of the capture that the input is.
pub(crate) fn answer_packets<I: Source + Drop, O: Sink + Drop, M: Media + Drop>(
    world: &mut World<I, O, M>,
) -> Result<(), Status>
    ensures owed { let at = ⟦<World<I, O, M> as Outer>⟧.outside in CountsPackets (at world.old) (at world.new) (ending result) }
    ensures known { ending result ≡ Words → ⊥ }
    ensures later { O.faults world.old.output ≤ O.faults world.new.output }
    ensures untouched { world.new.media ≡ world.old.media }
{
    law_of_captures();
    match count(&mut world.input, &mut world.output) {
        Ok(()) => Ok(()),
        Err(refused) => Err(status_of(refused)),
    }
}
