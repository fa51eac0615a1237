// What heartbeats and alarms of the equipment show.
ghost use Rattle.std.specs.Prelude.{◌≡◌, ◌≤◌, length};
ghost use Rattle.vdr_command.specs.Endings.{ending};
ghost use Rattle.vdr_command.specs.declared.status.Status.TheVariants.{Words};
ghost use Rattle.vdr_readout.specs.Watches.{TellsWatch};

use crate::reading::{ALL, Wanted, read_out};
use std::alloc::Global;
use vdr_command::{Outer, Status, World, law_of_openings};
use vdr_entry::Medium;
use vdr_outside::{Media, Sink, Source};
use vdr_teller::Watcher;
use vdr_terms::LAST_STAMP;

/// Prints what heartbeats and alarms show of the equipment in the window of a medium, or in an incident.
pub(crate) fn answer_watch<I: Source + Drop, O: Sink + Drop, M: Media + Drop>(
    alloc: Global,
    medium: Medium,
    world: &mut World<I, O, M>,
) -> Result<(), Status>
    requires two { 2 ≤ length (M.disk world.old.media).sizes }
    requires three { length (M.disk world.old.media).sizes ≤ 3 }
    ensures owed { let at = ⟦<World<I, O, M> as Outer>⟧.outside in TellsWatch medium (at world.old) (at world.new) (ending result) }
    ensures known { ending result ≡ Words → ⊥ }
    ensures later { O.faults world.old.output ≤ O.faults world.new.output }
    ensures sizes { (M.disk world.new.media).sizes ≡ (M.disk world.old.media).sizes }
    ensures unread { world.new.input ≡ world.old.input }
{
    law_of_openings();
    let wanted = Wanted {
        medium,
        channel: ALL,
        from: 0,
        to: LAST_STAMP,
    };
    read_out(alloc, wanted, &mut Watcher::new(alloc), world)
}
