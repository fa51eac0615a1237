// What may be read out, of recorded media or of one medium alone.
ghost use Rattle.std.specs.Prelude.{◌≡◌, ◌<◌, ◌≤◌, length};
ghost use Rattle.vdr_command.specs.Endings.{ending};
ghost use Rattle.vdr_command.specs.declared.status.Status.TheVariants.{Words};
ghost use Rattle.vdr_readout.specs.Readings.{OwesReading, RescuesReading, number_read, plain_reading};
ghost use Rattle.vdr_readout.specs.Readings.Reading.{Targets};
ghost use Rattle.vdr_readout.specs.Reads.{plain_play};
ghost use Rattle.vdr_readout.specs.Targets.{up_to};

use crate::exporting::answer_export;
use crate::playing::{Printer, answer_play};
use crate::reading::{ALL, Wanted};
use crate::rescuing::{number_of, rescue_out};
use crate::rescuing_files::rescue_file;
use crate::selecting::{answer_track, answer_values};
use crate::sourcing::answer_sources;
use crate::targeting::answer_targets;
use crate::telling::{answer_digest, answer_runs};
use crate::watching::answer_watch;
use std::alloc::Global;
use vdr_command::{Outer, Status, World};
use vdr_digest::Digester;
use vdr_entry::Medium;
use vdr_export::{Block, Timing, Wish, timed_from};
use vdr_outside::{Media, Sink, Source};
use vdr_recorder::SourceCounter;
use vdr_rows::Rows;
use vdr_runs::Runs;
use vdr_teller::{Lookout, Watcher};
use vdr_terms::LAST_STAMP;
use vdr_track::Track;

/// What is read out, and how it is told.
#[derive(Clone, Copy, Drop)]
pub enum Reading<'a> {
    /// The records themselves.
    Play(Wanted<'a>),
    /// The table of the values that they say.
    Values(Wanted<'a>),
    /// The track of this source, 1 to 15 bytes of 0x21 to 0x7E, or `-`.
    Track(Wanted<'a>, &'a [u8]),
    /// The table of their sources.
    Sources { medium: Medium },
    /// What heartbeats and alarms show.
    Watch { medium: Medium },
    /// When the recorder ran.
    Runs { medium: Medium },
    /// Their digest.
    Digest { medium: Medium },
    /// The table of ships, of what was recorded up to this stamp.
    Targets { medium: Medium, at: i64 },
    /// The sound of a channel, as a WAVE file.
    Wav(Wanted<'a>),
    /// The same on its time line: each frame where the stamp of its record says.
    TimedWav(Wanted<'a>),
    /// The image of this block, out of a channel of images.
    Picture(Wanted<'a>, Block),
    /// The list of the images of a channel.
    Pictures(Wanted<'a>),
}

impl Reading<'_> {
    /// The number of the medium on which its records stand.
    pub fn medium_number(&self) -> u8
        ensures number { result ≡ number_read (plain_reading self.now) }
        ensures few { result < 2 }
    {
        let medium = match self {
            Reading::Play(wanted)
            | Reading::Values(wanted)
            | Reading::Track(wanted, _)
            | Reading::Wav(wanted)
            | Reading::TimedWav(wanted)
            | Reading::Picture(wanted, _)
            | Reading::Pictures(wanted) => wanted.medium,
            Reading::Sources { medium }
            | Reading::Watch { medium }
            | Reading::Runs { medium }
            | Reading::Digest { medium }
            | Reading::Targets { medium, .. } => *medium,
        };
        number_of(medium)
    }
}

/// All records of a medium up to this stamp.
pub fn up_to(medium: Medium, at: i64) -> Wanted<'static>
    ensures { plain_play result ≡ up_to medium at }
{
    Wanted {
        medium,
        channel: ALL,
        from: 0,
        to: at,
    }
}

// The table of ships that one medium alone gives, up to this stamp.
fn rescue_targets<I: Source + Drop, O: Sink + Drop, M: Media + Drop>(
    alloc: Global,
    medium: Medium,
    at: i64,
    world: &mut World<I, O, M>,
) -> Result<(), Status>
    requires two { 2 ≤ length (M.disk world.old.media).sizes }
    ensures owed { let outside = ⟦<World<I, O, M> as Outer>⟧.outside in RescuesReading (Targets medium at) (outside world.old) (outside world.new) (ending result) }
    ensures known { ending result ≡ Words → ⊥ }
    ensures later { O.faults world.old.output ≤ O.faults world.new.output }
    ensures sizes { (M.disk world.new.media).sizes ≡ (M.disk world.old.media).sizes }
    ensures unread { world.new.input ≡ world.old.input }
{
    let wanted = up_to(medium, at);
    rescue_out(alloc, wanted, &mut Lookout::new(alloc), world)
}

/// Reads out both media: opens them, finds what is asked for, and prints it or writes the file that it makes.
pub fn answer_reading<I: Source + Drop, O: Sink + Drop, M: Media + Drop>(
    alloc: Global,
    reading: Reading<'_>,
    world: &mut World<I, O, M>,
) -> Result<(), Status>
    requires two { 2 ≤ length (M.disk world.old.media).sizes }
    requires three { length (M.disk world.old.media).sizes ≤ 3 }
    ensures owed { let at = ⟦<World<I, O, M> as Outer>⟧.outside in OwesReading (plain_reading reading.entry) (at world.old) (at world.new) (ending result) }
    ensures known { ending result ≡ Words → ⊥ }
    ensures later { O.faults world.old.output ≤ O.faults world.new.output }
    ensures sizes { (M.disk world.new.media).sizes ≡ (M.disk world.old.media).sizes }
    ensures unread { world.new.input ≡ world.old.input }
{
    match reading {
        Reading::Play(wanted) => answer_play(alloc, wanted, world),
        Reading::Values(wanted) => answer_values(alloc, wanted, world),
        Reading::Track(wanted, source) => answer_track(alloc, wanted, source, world),
        Reading::Sources { medium } => answer_sources(alloc, medium, world),
        Reading::Watch { medium } => answer_watch(alloc, medium, world),
        Reading::Runs { medium } => answer_runs(alloc, medium, world),
        Reading::Digest { medium } => answer_digest(alloc, medium, world),
        Reading::Targets { medium, at } => answer_targets(alloc, medium, at, world),
        Reading::Wav(wanted) => {
            answer_export(alloc, wanted, Wish::Sound(Timing::Numbered), world)
        }
        Reading::TimedWav(wanted) => {
            answer_export(alloc, wanted, Wish::Sound(timed_from(wanted.from)), world)
        }
        Reading::Picture(wanted, block) => {
            answer_export(alloc, wanted, Wish::Picture(block), world)
        }
        Reading::Pictures(wanted) => answer_export(alloc, wanted, Wish::Listing, world),
    }
}

/// Reads out one medium alone: that of the reading, or for an incident the long-term one. What it gives is told as on recorded media;
/// behind that stand, but for files, the lines of what was found: what is missing, damaged or closed.
pub fn answer_rescue<I: Source + Drop, O: Sink + Drop, M: Media + Drop>(
    alloc: Global,
    reading: Reading<'_>,
    world: &mut World<I, O, M>,
) -> Result<(), Status>
    requires two { 2 ≤ length (M.disk world.old.media).sizes }
    ensures owed { let at = ⟦<World<I, O, M> as Outer>⟧.outside in RescuesReading (plain_reading reading.entry) (at world.old) (at world.new) (ending result) }
    ensures known { ending result ≡ Words → ⊥ }
    ensures later { O.faults world.old.output ≤ O.faults world.new.output }
    ensures sizes { (M.disk world.new.media).sizes ≡ (M.disk world.old.media).sizes }
    ensures unread { world.new.input ≡ world.old.input }
{
    match reading {
        Reading::Play(wanted) => rescue_out(alloc, wanted, &mut Printer::new(), world),
        Reading::Values(wanted) => rescue_out(alloc, wanted, &mut Rows::new(alloc), world),
        Reading::Track(wanted, source) => {
            rescue_out(alloc, wanted, &mut Track::new(source), world)
        }
        Reading::Sources { medium } => {
            let wanted = up_to(medium, LAST_STAMP);
            rescue_out(alloc, wanted, &mut SourceCounter::new(alloc), world)
        }
        Reading::Watch { medium } => {
            let wanted = up_to(medium, LAST_STAMP);
            rescue_out(alloc, wanted, &mut Watcher::new(alloc), world)
        }
        Reading::Runs { medium } => {
            let wanted = up_to(medium, LAST_STAMP);
            rescue_out(alloc, wanted, &mut Runs::new(), world)
        }
        Reading::Digest { medium } => {
            let wanted = up_to(medium, LAST_STAMP);
            rescue_out(alloc, wanted, &mut Digester::new(), world)
        }
        Reading::Targets { medium, at } => rescue_targets(alloc, medium, at, world),
        Reading::Wav(wanted) => { rescue_file(alloc, wanted, Wish::Sound(Timing::Numbered), world) }
        Reading::TimedWav(wanted) => {
            rescue_file(alloc, wanted, Wish::Sound(timed_from(wanted.from)), world)
        }
        Reading::Picture(wanted, block) => {
            rescue_file(alloc, wanted, Wish::Picture(block), world)
        }
        Reading::Pictures(wanted) => rescue_file(alloc, wanted, Wish::Listing, world),
    }
}
