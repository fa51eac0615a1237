// A page of what was recorded: one file that a browser shows.
ghost use Rattle.std.specs.Prelude.{◌≡◌, ◌≤◌, length, Err};
ghost use Rattle.vdr_command.specs.Endings.{ending};
ghost use Rattle.vdr_command.specs.declared.status.Status.TheVariants.{Words};
ghost use Rattle.vdr_page.specs.Fronts.{words_of};
ghost use Rattle.vdr_readout.specs.Paged.{PageEnds, Pages};
ghost use Rattle.vdr_readout.specs.Reads.{plain_play};

use crate::reading::{Wanted, ended_by, id_of, query_of};
use crate::saved::saves_in;
use std::alloc::Global;
use std::convert::Infallible;
use vdr_command::{Outer, Status, World, law_of_openings, report_channel};
use vdr_export::write_page;
use vdr_outside::{Media, Sink, Source};
use vdr_page::PageWords;
use vdr_recorder::Recorder;
use vdr_vault::law_of_meeting;

// Opens the media, finds what is wanted there, and writes the page.
fn page<I: Source + Drop, O: Sink + Drop, M: Media + Drop>(
    alloc: Global,
    wanted: Wanted<'_>,
    words: &PageWords<'_>,
    world: &mut World<I, O, M>,
) -> Result<(), Status>
    requires two { 2 ≤ length (M.disk world.old.media).sizes }
    requires three { length (M.disk world.old.media).sizes ≤ 3 }
    ensures ends { let at = ⟦<World<I, O, M> as Outer>⟧.outside in PageEnds (words_of words.now) (plain_play wanted.entry) (at world.old) (at world.new) (ending result) }
    ensures later { O.faults world.old.output ≤ O.faults world.new.output }
    ensures sizes { (M.disk world.new.media).sizes ≡ (M.disk world.old.media).sizes }
    ensures unread { world.new.input ≡ world.old.input }
{
    let mut recorder = Recorder::open(alloc, &mut world.media)?;
    law_of_meeting();
    let Some(query) = query_of(&recorder, wanted) else {
        report_channel(wanted.channel, &mut world.output);
        return Err(Status::NoChannel);
    };
    let Ok(()) = recorder.accept::<Infallible>(&query) else {
        return Err(Status::NoIncident(id_of(wanted.medium)));
    };
    let saves = saves_in(&recorder);
    let ended = write_page(
        alloc,
        &mut recorder,
        &mut world.media,
        &query,
        words,
        saves.as_slice(),
        &mut world.output,
    );
    ended_by(ended, wanted.medium)
}

/// Writes the page of what is wanted, which was asked for by these words: the records are read twice, for what they come to, and for their rows.
/// Memory is taken to open the media, and for open runs, ships, alarms and sources.
///
/// `Unformatted`, `Damaged` and want of memory come of opening; then `NoChannel`, and then `NoIncident`, before anything is read. `MediaFault`,
/// `Damaged` and want of memory may come while reading; then nothing stands in the output, or a front of the page with whole rows.
pub fn answer_page<I: Source + Drop, O: Sink + Drop, M: Media + Drop>(
    alloc: Global,
    wanted: Wanted<'_>,
    words: &PageWords<'_>,
    world: &mut World<I, O, M>,
) -> Result<(), Status>
    requires two { 2 ≤ length (M.disk world.old.media).sizes }
    requires three { length (M.disk world.old.media).sizes ≤ 3 }
    ensures owed { let at = ⟦<World<I, O, M> as Outer>⟧.outside in Pages (words_of words.now) (plain_play wanted.entry) (at world.old) (at world.new) (ending result) }
    ensures known { ending result ≡ Words → ⊥ }
    ensures later { O.faults world.old.output ≤ O.faults world.new.output }
    ensures sizes { (M.disk world.new.media).sizes ≡ (M.disk world.old.media).sizes }
    ensures unread { world.new.input ≡ world.old.input }
{
    law_of_openings();
    page(alloc, wanted, words, world)
}
