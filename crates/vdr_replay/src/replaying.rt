// A feed is recorded on the media.
//
// The order is header, opening, memory, limits, Start, items, close: what is refused before the Start leaves no
// event.
ghost use Rattle.std.specs.Prelude.{◌≡◌, ◌≤◌, ℕ, List, length, sum, Some, Err, IfOk, IsErrOf};
ghost use Rattle.std.specs.Io.KnownBytes.{IsAtEnd};
ghost use Rattle.vdr_durability.specs.Readings.{EndsMeet};
ghost use Rattle.vdr_outside.specs.Causes.{Rose};
ghost use Rattle.vdr_outside.specs.Disk.{SameBut};
ghost use Rattle.vdr_media.specs.Formatted.{IsFormatted, IsUnformatted};
ghost use Rattle.vdr_opening.specs.Media.{Contents, HoldsContents, members_with, reading_of};
ghost use Rattle.vdr_opening.specs.Refusals.{IsRefused};
ghost use Rattle.vdr_vault.specs.Calls.{SameElsewhere};
ghost use Rattle.vdr_vault.specs.Openings.{LeavesAll, WritesMissing};
ghost use Rattle.vdr_vault.specs.Regularity.{AreSound};
ghost use Rattle.vdr_replay.specs.Answers.{Answers, Decides, EndsAtHeader, HasReplayCause, IfOpened, IsOpenable, RefusesMedia, RefusesRun, TellsHeader};
ghost use Rattle.vdr_replay.specs.Headline.{LeavesHistory};
ghost use Rattle.vdr_replay.specs.Replays.{ReplaysFeed};
ghost use Rattle.vdr_replay.specs.declared.ended.FeedEnd.TheVariants.{Whole, Input as InputEnds};
ghost use Rattle.vdr_replay.specs.declared.ended.ReplayRefused.TheVariants.{Damaged, Input, NotFormatted};

use crate::lanes::Lanes;
use crate::running::record_run;
use crate::{ReplayRefused, Replayed};
use std::alloc::Global;
use vdr_feed::{FeedReader, LONGEST_FEED};
use vdr_outside::{Media, Source};
use vdr_recorder::{Recorder, Watch};

// Records the feed as `replay` does. Each clause is proved on each way out, and is a member of `ReplaysFeed` by its name.
fn record_feed<I: Source, M: Media, W: Watch<M>>(
    alloc: Global,
    media: &mut M,
    watch: &mut W,
    input: &mut I,
) -> Result<Replayed, ReplayRefused>
    requires two { 2 ≤ length (M.disk media.old).sizes }
    requires three { length (M.disk media.old).sizes ≤ 3 }
    ensures replayed { (x : Contents) (bytes : List ℕ) → M.tells → HoldsContents (M.disk media.old).reads x → AreSound x → I.left input.old ≡ Some bytes
        → Answers x bytes (I.left input.new) (Rose (sum (M.faults media.old)) (sum (M.faults media.new))) (M.disk media.old) (M.disk media.new) W.hears (W.seen watch.new) result }
    ensures left { (x : Contents) → M.tells → HoldsContents (M.disk media.old).reads x → EndsMeet (members_with x.further) (reading_of x) → AreSound x
        → LeavesHistory x (Rose (sum (M.faults media.old)) (sum (M.faults media.new))) (M.disk media.old) (M.disk media.new) W.hears (W.seen watch.new) }
    ensures blank { M.tells → IsUnformatted (M.disk media.old).reads → LeavesAll (M.disk media.old) (M.disk media.new) }
    ensures header { TellsHeader (I.left input.old) (I.left input.new) result }
    ensures unopened { EndsAtHeader result → media.new ≡ media.old }
    ensures untouched { RefusesMedia result → LeavesAll (M.disk media.old) (M.disk media.new) × (M.tells → (M.disk media.new).reads ≡ (M.disk media.old).reads) }
    ensures openable { M.tells → IfOpened result (IsOpenable (M.disk media.old).reads (λ x. Decides x (I.left input.old) (I.left input.new) result)) }
    ensures missing { RefusesRun result → (x : Contents) → M.tells → HoldsContents (M.disk media.old).reads x → WritesMissing x (M.disk media.old) (M.disk media.new) }
    ensures beside { RefusesRun result → M.tells → SameBut 1 (M.disk media.old).reads (M.disk media.new).reads }
    ensures whole { IfOk result (λ r. r.end ≡ Whole → IsAtEnd (I.left input.new)) }
    ensures input_ends { IfOk result (λ r. r.end ≡ InputEnds → Rose (I.faults input.old) (I.faults input.new)) }
    ensures input_failed { IsErrOf result Input → Rose (I.faults input.old) (I.faults input.new) }
    ensures later { I.faults input.old ≤ I.faults input.new }
    ensures unformatted { result ≡ Err NotFormatted → M.tells → IsUnformatted (M.disk media.old).reads }
    ensures damaged { (m offset : ℕ) → result ≡ Err (Damaged m offset) → M.tells → IsFormatted (M.disk media.old).reads × IsRefused (M.disk media.old).reads m offset }
    ensures others { M.tells → SameElsewhere (members_with 0) (M.disk media.old).reads (M.disk media.new).reads }
    ensures sizes { (M.disk media.new).sizes ≡ (M.disk media.old).sizes }
    ensures cause { HasReplayCause (M.faults media.old) (M.faults media.new) result }
{
    let mut reader = FeedReader::new(LONGEST_FEED);
    reader.header(input)?;
    let mut recorder = Recorder::open_watched(alloc, media, watch)?;
    let mut lanes = Lanes::new(alloc, recorder.config())?;
    record_run(&mut recorder, media, watch, &mut lanes, &mut reader, input)
}

/// Records the feed of the input on the media, in the feed's order, as one run (this project's profile): its header is read; the
/// media are opened, and all memory is taken; the run is begun; each recordable item is recorded as it is read, by the rate of its
/// group; and the run is closed.
///
/// The feed ends with the input, or where an item is refused: as `vdr_feed::FeedReader::item` says, or by 4 where its group is not
/// configured. What was read before is recorded. An item that is refused counts for nothing. Where the header is refused, or can't be
/// read, the media are not touched, and where the media are refused nothing is written, nor where the run is, but the batch that the
/// long-term medium lacks. Faults and refusals of the input and of
/// the media are told by `FeedEnd` and `ReplayRefused`.
///
/// At every moment a stop leaves the media as before opening, or as media that play back the first of the run's events on what was
/// recorded before, all that were acknowledged among them.
///
/// The watch is told of the opening, of the Start, of each batch and of the close, each behind its syncs: what it was told is on the media
/// at each moment from then on, whether the call returns or not.
pub fn replay<I: Source, M: Media, W: Watch<M>>(
    alloc: Global,
    media: &mut M,
    watch: &mut W,
    input: &mut I,
) -> Result<Replayed, ReplayRefused>
    requires two { 2 ≤ length (M.disk media.old).sizes }
    requires three { length (M.disk media.old).sizes ≤ 3 }
    ensures replays { ReplaysFeed M.Media I.Source media.old media.new input.old input.new W.hears (W.seen watch.new) result }
{
    record_feed(alloc, media, watch, input)
}
