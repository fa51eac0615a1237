// What tells the records that are selected, one after another: the table of their values, and the track of a source.
ghost use Rattle.std.specs.Prelude.{◌≡◌, ◌≤◌, length};
ghost use Rattle.vdr_command.specs.Endings.{ending};
ghost use Rattle.vdr_command.specs.declared.status.Status.TheVariants.{Words};
ghost use Rattle.vdr_readout.specs.Reads.{plain_play};
ghost use Rattle.vdr_readout.specs.Selections.{TellsTrack, TellsValues};

use crate::reading::{Wanted, read_out};
use std::alloc::Global;
use vdr_command::{Outer, Status, World, law_of_openings};
use vdr_outside::{Media, Sink, Source};
use vdr_rows::Rows;
use vdr_track::Track;

/// Prints the table of the values that the wanted records say. Memory is taken to open the media, and for the parts of AIS messages.
pub(crate) fn answer_values<I: Source + Drop, O: Sink + Drop, M: Media + Drop>(
    alloc: Global,
    wanted: Wanted<'_>,
    world: &mut World<I, O, M>,
) -> Result<(), Status>
    requires two { 2 ≤ length (M.disk world.old.media).sizes }
    requires three { length (M.disk world.old.media).sizes ≤ 3 }
    ensures owed { let at = ⟦<World<I, O, M> as Outer>⟧.outside in TellsValues (plain_play wanted.entry) (at world.old) (at world.new) (ending result) }
    ensures known { ending result ≡ Words → ⊥ }
    ensures later { O.faults world.old.output ≤ O.faults world.new.output }
    ensures sizes { (M.disk world.new.media).sizes ≡ (M.disk world.old.media).sizes }
    ensures unread { world.new.input ≡ world.old.input }
{
    law_of_openings();
    read_out(alloc, wanted, &mut Rows::new(alloc), world)
}

/// Prints the track of a source, `-` for the lines that name none, by the wanted records. Memory is taken to open the media, and none after that.
pub(crate) fn answer_track<I: Source + Drop, O: Sink + Drop, M: Media + Drop>(
    alloc: Global,
    wanted: Wanted<'_>,
    source: &[u8],
    world: &mut World<I, O, M>,
) -> Result<(), Status>
    requires two { 2 ≤ length (M.disk world.old.media).sizes }
    requires three { length (M.disk world.old.media).sizes ≤ 3 }
    ensures owed { let at = ⟦<World<I, O, M> as Outer>⟧.outside in TellsTrack (plain_play wanted.entry) source.now (at world.old) (at world.new) (ending result) }
    ensures known { ending result ≡ Words → ⊥ }
    ensures later { O.faults world.old.output ≤ O.faults world.new.output }
    ensures sizes { (M.disk world.new.media).sizes ≡ (M.disk world.old.media).sizes }
    ensures unread { world.new.input ≡ world.old.input }
{
    law_of_openings();
    read_out(alloc, wanted, &mut Track::new(source), world)
}
