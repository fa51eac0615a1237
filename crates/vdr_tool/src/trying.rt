// A trial: the media are formatted, a generated feed is recorded on them, and what stands on them is counted.
ghost use Rattle.std.specs.Prelude.{◌≡◌, ◌≤◌, ◌<◌, ◌^◌, ◌+◌, ◌++◌, codes, length, slice_index_or, sum, false, None, Some, IfOk};
ghost use Rattle.arrayvec.specs.ArrayVec.{array_vec_len};
ghost use Rattle.vdr_capture.specs.declared.sums.GroupSums.{GroupSums as Sums};
ghost use Rattle.vdr_outside.specs.Causes.{NoneFalls, Rose};
ghost use Rattle.vdr_opening.specs.Media.{HoldsContents};
ghost use Rattle.vdr_vault.specs.Calls.{SameElsewhere};
ghost use Rattle.vdr_command.specs.Endings.{IsWorkDone, ending};
ghost use Rattle.vdr_command.specs.Opened.{PrintsText};
ghost use Rattle.vdr_tool.specs.Formats.{FormatEnds, status_of};
ghost use Rattle.vdr_tool.specs.Summaries.{count_text};
ghost use Rattle.vdr_tool.specs.TrialParts.{IfStatus, IsBenchStatus, IsRunStatus, IsPartStatus, IsTally, RunsItems, outcome};
ghost use Rattle.vdr_tool.specs.Trials.{TrialEnds, Trials, bench_text, count_line, fresh, sums_line, trial_lines};
ghost use Rattle.vdr_command.specs.declared.status.Status.TheVariants.{MediaFault, OutputFault, Words};
ghost use Rattle.vdr_media.specs.Formatted.{members};

use crate::counting::count_windows;
use arrayvec::ArrayVec;
use itoa::Buffer;
use std::alloc::Global;
use vdr_command::{Outer, ROOM, Status, World, law_of_openings, number_of, push_text};
use vdr_feed::{GeneratedFeed, law_of_feeds, law_of_generated_feeds};
use vdr_media::{FormatRefused, format};
use vdr_outside::{Media, Sink, Source, write_all};
use vdr_recorder::Nobody;
use vdr_replay::{FeedEnd, GroupSums, Replayed, replay};
use vdr_terms::Counts;

/// The configuration with which the media are formatted: short windows, and one group of two datagrams and 200 bytes a second.
const BENCH: &[u8] =
    b"{\"profile\":\"bench\",\"capsule_seconds\":60,\"long_seconds\":600,\"incident_seconds\":30,\"incident_slots\":2,\"segment\":8192,\"batch\":2048,\"queue\":16,\"groups\":[{\"name\":\"NAVD\",\"datagrams\":2,\"bytes\":200}],\"channels\":[{\"name\":\"heading\",\"group\":\"NAVD\",\"kind\":\"sentence\",\"formatter\":\"HDT\"}]}";

/// The number of the bench's group, NAVD.
const GROUP: usize = 3;

/// What a run came to.
#[derive(Clone, Copy, Drop)]
pub(crate) struct Ran {
    /// The sums of the bench's group.
    pub(crate) sums: GroupSums,
    /// The records of the run, with its Start and its Stop.
    pub(crate) records: u64,
}

/// How many records stand in the windows of the media.
#[derive(Clone, Copy, Drop)]
pub(crate) struct Windows {
    pub(crate) capsule: u64,
    pub(crate) long_term: u64,
}

// What is printed of a trial.
#[derive(Clone, Copy, Drop)]
struct Tally {
    ran: Ran,
    windows: Windows,
}

// How a refusal of the bench configuration ends the command. Its text is one, so that it is never refused itself.
fn status_of(refused: FormatRefused) -> Status
    ensures { result ≡ status_of refused }
{
    match refused {
        FormatRefused::NoMemory => Status::NoMemory,
        FormatRefused::Config(bad) => Status::Config {
            number: number_of(&bad),
        },
        FormatRefused::AlreadyFormatted => Status::Formatted,
        FormatRefused::TooSmall(small) => Status::Small(small),
        FormatRefused::Fault => Status::MediaFault,
    }
}

// Formats the media with the bench configuration, unless they are formatted already.
fn format_bench<M: Media>(alloc: Global, media: &mut M) -> Result<(), Status>
    requires two { 2 ≤ length (M.disk media.old).sizes }
    requires three { length (M.disk media.old).sizes ≤ 3 }
    ensures ends { FormatEnds false (Some bench_text) (record { disk = M.disk media.old; faults = M.faults media.old; bytes_read = M.bytes_read media.old })
        (record { disk = M.disk media.new; faults = M.faults media.new; bytes_read = M.bytes_read media.new }) (ending result) }
    ensures stops { IfStatus result IsBenchStatus }
    ensures later { NoneFalls (M.faults media.old) (M.faults media.new) }
    ensures sizes { (M.disk media.new).sizes ≡ (M.disk media.old).sizes }
{
    match format(alloc, media, BENCH, false) {
        Ok(()) => Ok(()),
        Err(refused) => Err(status_of(refused)),
    }
}

// The sums of the bench's group. On media with another configuration it may be none, and nothing is recorded of it.
fn sums_of(run: &Replayed) -> GroupSums
    ensures { (sums : Sums) → slice_index_or run.now.groups 3 None ≡ Some sums → result ≡ sums }
{
    match run.groups[GROUP] {
        Some(sums) => sums,
        None => GroupSums {
            taken: 0,
            recorded: 0,
            counts: Counts {
                full: 0,
                rate: 0,
                bad: 0,
                large: 0,
            },
        },
    }
}

// Records so many generated items on the media.
fn record_items<M: Media>(
    alloc: Global,
    seed: u32,
    count: u64,
    media: &mut M,
) -> Result<Ran, Status>
    requires few { count ≤ 1_000_000 }
    requires two { 2 ≤ length (M.disk media.old).sizes }
    requires three { length (M.disk media.old).sizes ≤ 3 }
    ensures stops { IfStatus result IsRunStatus }
    ensures run { M.tells → HoldsContents (M.disk media.old).reads fresh
        → RunsItems seed count (Rose (sum (M.faults media.old)) (sum (M.faults media.new))) (M.disk media.old) (M.disk media.new) result }
    ensures fits { IfOk result (λ ran. ran.records < 2 ^ 64) }
    ensures fault { outcome result ≡ MediaFault → Rose (sum (M.faults media.old)) (sum (M.faults media.new)) }
    ensures later { NoneFalls (M.faults media.old) (M.faults media.new) }
    ensures others { M.tells → SameElsewhere members (M.disk media.old).reads (M.disk media.new).reads }
    ensures sizes { (M.disk media.new).sizes ≡ (M.disk media.old).sizes }
{
    law_of_openings();
    law_of_feeds();
    law_of_generated_feeds();
    let mut feed = GeneratedFeed::new(seed, count);
    let run = replay(alloc, media, &mut Nobody {}, &mut feed)?;
    match run.end {
        FeedEnd::Whole => Ok(Ran {
            sums: sums_of(&run),
            records: run.records,
        }),
        FeedEnd::Input => Err(Status::InputFault),
        FeedEnd::Refused { number, offset } => Err(Status::Feed { number, offset }),
    }
}

// Formats the media, records the items, opens the media again and counts.
fn try_media<M: Media>(alloc: Global, seed: u32, count: u64, media: &mut M) -> Result<Tally, Status>
    requires few { count ≤ 1_000_000 }
    requires two { 2 ≤ length (M.disk media.old).sizes }
    requires three { length (M.disk media.old).sizes ≤ 3 }
    ensures ends { TrialEnds seed count (record { disk = M.disk media.old; faults = M.faults media.old; bytes_read = M.bytes_read media.old })
        (record { disk = M.disk media.new; faults = M.faults media.new; bytes_read = M.bytes_read media.new }) (outcome result) }
    ensures tally { M.tells → IfOk result (IsTally seed count) }
    ensures stops { IfStatus result IsPartStatus }
    ensures sizes { (M.disk media.new).sizes ≡ (M.disk media.old).sizes }
{
    format_bench(alloc, media)?;
    let ran = record_items(alloc, seed, count, media)?;
    let windows = count_windows(alloc, media)?;
    Ok(Tally { ran, windows })
}

// A word and a number.
fn push_count(text: &mut ArrayVec<u8, ROOM>, word: &[u8], count: u64)
    requires { array_vec_len text.old + length word.now + 20 ≤ 200 }
    ensures line { text.new.items ≡ text.old.items ++ count_text word.now count }
    ensures short { array_vec_len text.new ≤ array_vec_len text.old + length word.now + 20 }
{
    push_text(text, word);
    push_text(text, Buffer::new().format(count).as_bytes());
}

// A word, a number and the end of the line.
fn push_line(text: &mut ArrayVec<u8, ROOM>, word: &[u8], count: u64)
    requires { array_vec_len text.old + length word.now + 21 ≤ 200 }
    ensures line { text.new.items ≡ text.old.items ++ count_line word.now count }
    ensures short { array_vec_len text.new ≤ array_vec_len text.old + length word.now + 21 }
{
    push_count(text, word, count);
    push_text(text, b"\n");
}

// The sums of the run.
fn push_sums(text: &mut ArrayVec<u8, ROOM>, sums: &GroupSums)
    requires { array_vec_len text.old ≡ 0 }
    ensures line { text.new.items ≡ text.old.items ++ sums_line sums.now }
    ensures short { array_vec_len text.new ≤ 83 }
{
    push_count(text, b"taken ", sums.taken);
    push_count(text, b" recorded ", sums.recorded);
    push_count(text, b" rate ", sums.counts.rate);
    push_text(text, b"\n");
}

fn text_of(tally: &Tally) -> ArrayVec<u8, ROOM>
    ensures { result.items ≡ trial_lines tally.now.ran.sums tally.now.ran.records tally.now.windows.capsule tally.now.windows.long_term }
{
    let mut text = ArrayVec::new();
    push_sums(&mut text, &tally.ran.sums);
    push_line(&mut text, b"records ", tally.ran.records);
    push_line(&mut text, b"capsule ", tally.windows.capsule);
    push_line(&mut text, b"longterm ", tally.windows.long_term);
    text
}

// Prints what a trial came to.
fn print_tally<O: Sink>(tally: &Tally, output: &mut O) -> Result<(), Status>
    ensures done { IsWorkDone (ending result) }
    ensures printed { PrintsText (trial_lines tally.now.ran.sums tally.now.ran.records tally.now.windows.capsule tally.now.windows.long_term) (ending result)
        (record { taken = O.taken output.old; faults = O.faults output.old }) (record { taken = O.taken output.new; faults = O.faults output.new }) }
    ensures output { ending result ≡ OutputFault → Rose (O.faults output.old) (O.faults output.new) }
    ensures later { O.faults output.old ≤ O.faults output.new }
{
    match write_all(output, text_of(tally).as_slice()) {
        Ok(()) => Ok(()),
        Err(_) => Err(Status::OutputFault),
    }
}

/// Tries the media with so many generated items, at most 1,000,000, from this seed on.
pub(crate) fn answer_trial<I: Source + Drop, O: Sink + Drop, M: Media + Drop>(
    alloc: Global,
    seed: u32,
    count: u64,
    world: &mut World<I, O, M>,
) -> Result<(), Status>
    requires few { count ≤ 1_000_000 }
    requires two { 2 ≤ length (M.disk world.old.media).sizes }
    requires three { length (M.disk world.old.media).sizes ≤ 3 }
    ensures owed { let at = ⟦<World<I, O, M> as Outer>⟧.outside in Trials seed count (at world.old) (at world.new) (ending result) }
    ensures known { ending result ≡ Words → ⊥ }
    ensures later { O.faults world.old.output ≤ O.faults world.new.output }
    ensures sizes { (M.disk world.new.media).sizes ≡ (M.disk world.old.media).sizes }
    ensures unread { world.new.input ≡ world.old.input }
{
    let tally = try_media(alloc, seed, count, &mut world.media)?;
    print_tally(&tally, &mut world.output)
}
