// What tells all records of a medium, or of an incident, one after another: when the recorder ran, and their digest.
ghost use Rattle.std.specs.Prelude.{◌≡◌, ◌≤◌, length};
ghost use Rattle.vdr_command.specs.Endings.{ending};
ghost use Rattle.vdr_command.specs.declared.status.Status.TheVariants.{Words};
ghost use Rattle.vdr_digest.specs.Digests.{last_lines as digest_last, line_at as digest_line};
ghost use Rattle.vdr_readout.specs.Lines.{TellsLines};
ghost use Rattle.vdr_runs.specs.Runs.{last_lines as runs_last, line_at as runs_line};

use crate::reading::{ALL, Wanted, read_out};
use std::alloc::Global;
use vdr_command::{Outer, Status, World, law_of_openings};
use vdr_digest::Digester;
use vdr_entry::Medium;
use vdr_outside::{Media, Sink, Source};
use vdr_runs::Runs;
use vdr_terms::LAST_STAMP;

/// Prints the runs of the recorder that a medium's window, or an incident, tells of.
pub(crate) fn answer_runs<I: Source + Drop, O: Sink + Drop, M: Media + Drop>(
    alloc: Global,
    medium: Medium,
    world: &mut World<I, O, M>,
) -> Result<(), Status>
    requires two { 2 ≤ length (M.disk world.old.media).sizes }
    requires three { length (M.disk world.old.media).sizes ≤ 3 }
    ensures owed { let at = ⟦<World<I, O, M> as Outer>⟧.outside in TellsLines runs_line runs_last medium (at world.old) (at world.new) (ending result) }
    ensures known { ending result ≡ Words → ⊥ }
    ensures later { O.faults world.old.output ≤ O.faults world.new.output }
    ensures sizes { (M.disk world.new.media).sizes ≡ (M.disk world.old.media).sizes }
    ensures unread { world.new.input ≡ world.old.input }
{
    law_of_openings();
    let wanted = Wanted {
        medium,
        channel: ALL,
        from: 0,
        to: LAST_STAMP,
    };
    read_out(alloc, wanted, &mut Runs::new(), world)
}

/// Prints the digest of the records of a medium's window, or of an incident.
pub(crate) fn answer_digest<I: Source + Drop, O: Sink + Drop, M: Media + Drop>(
    alloc: Global,
    medium: Medium,
    world: &mut World<I, O, M>,
) -> Result<(), Status>
    requires two { 2 ≤ length (M.disk world.old.media).sizes }
    requires three { length (M.disk world.old.media).sizes ≤ 3 }
    ensures owed { let at = ⟦<World<I, O, M> as Outer>⟧.outside in TellsLines digest_line digest_last medium (at world.old) (at world.new) (ending result) }
    ensures known { ending result ≡ Words → ⊥ }
    ensures later { O.faults world.old.output ≤ O.faults world.new.output }
    ensures sizes { (M.disk world.new.media).sizes ≡ (M.disk world.old.media).sizes }
    ensures unread { world.new.input ≡ world.old.input }
{
    law_of_openings();
    let wanted = Wanted {
        medium,
        channel: ALL,
        from: 0,
        to: LAST_STAMP,
    };
    read_out(alloc, wanted, &mut Digester::new(), world)
}
