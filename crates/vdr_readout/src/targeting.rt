// The ships that were reported by what was recorded.
//
// It is cut by a stamp, and `sources` is not: it tells who was where at a moment.
ghost use Rattle.std.specs.Prelude.{◌≡◌, ◌≤◌, length};
ghost use Rattle.vdr_command.specs.Endings.{ending};
ghost use Rattle.vdr_command.specs.declared.status.Status.TheVariants.{Words};
ghost use Rattle.vdr_readout.specs.Targets.{TellsTargets};

use crate::reading::{ALL, Wanted, read_out};
use std::alloc::Global;
use vdr_command::{Outer, Status, World, law_of_openings};
use vdr_entry::Medium;
use vdr_outside::{Media, Sink, Source};
use vdr_teller::Lookout;

/// Prints the table of the ships that the records of a medium's window, or of an incident, report up to this stamp, behind the last record.
pub(crate) fn answer_targets<I: Source + Drop, O: Sink + Drop, M: Media + Drop>(
    alloc: Global,
    medium: Medium,
    at: i64,
    world: &mut World<I, O, M>,
) -> Result<(), Status>
    requires two { 2 ≤ length (M.disk world.old.media).sizes }
    requires three { length (M.disk world.old.media).sizes ≤ 3 }
    ensures owed { let outside = ⟦<World<I, O, M> as Outer>⟧.outside in TellsTargets medium at (outside world.old) (outside world.new) (ending result) }
    ensures known { ending result ≡ Words → ⊥ }
    ensures later { O.faults world.old.output ≤ O.faults world.new.output }
    ensures sizes { (M.disk world.new.media).sizes ≡ (M.disk world.old.media).sizes }
    ensures unread { world.new.input ≡ world.old.input }
{
    law_of_openings();
    let wanted = Wanted {
        medium,
        channel: ALL,
        from: 0,
        to: at,
    };
    read_out(alloc, wanted, &mut Lookout::new(alloc), world)
}
