// A file of what was recorded, over a link.
//
// The file is made in memory, and its lines from there: a sound is read twice, and its size stands before its samples.
// Both reads are one look.
ghost use Rattle.std.specs.Prelude.{◌≡◌, ◌++◌, ℕ, ℤ, List, false, length, sum};
ghost use Rattle.vdr_terms.specs.Stamps.{IsStamp};
ghost use Rattle.vdr_core.specs.Histories.{Event, Opening};
ghost use Rattle.vdr_outside.specs.Causes.{Rose};
ghost use Rattle.vdr_entry.specs.Queries.{asked};
ghost use Rattle.vdr_entry.specs.declared.query.Medium.{Medium as AMedium};
ghost use Rattle.vdr_media.specs.Formatted.{members};
ghost use Rattle.vdr_vault.specs.Calls.{SameElsewhere};
ghost use Rattle.vdr_vault.specs.Vaults.{AreRings};
ghost use Rattle.vdr_visit.specs.Refusals.{lacks_channel, lacks_incident};
ghost use Rattle.vdr_base64.specs.Lines.{lines_of};
ghost use Rattle.vdr_control.specs.Orders.PlainOrder.{Export as ExportOrder};
ghost use Rattle.vdr_control.specs.declared.export.Exporting.{Exporting as AnExporting};
ghost use Rattle.vdr_recorder.specs.Recordings.{HasRecorded};
ghost use Rattle.vdr_recorder.specs.Watched.{IsWatched};
ghost use Rattle.vdr_reply.specs.Answers.{HasAnswered, HasOrderCause, LeavesRest};
ghost use Rattle.vdr_reply.specs.Exports.{IsSent, wish_of};
ghost use Rattle.vdr_reply.specs.Orders.{AsksForFile};
ghost use Rattle.vdr_reply.specs.Texts.{IsTextOr9, done_line, with_end};

use crate::lines::{NO_MEMORY, NOT_THERE};
use crate::page::Page;
use crate::playing::{Wanted, query_of};
use crate::refusing::{KIND, of_refusal};
use crate::telling::is_there;
use std::alloc::Global;
use vdr_base64::print_lines;
use vdr_control::Exporting;
use vdr_desk::Reply;
use vdr_entry::Query;
use vdr_export::{Block, ExportRefused, File, Timing, Wish, export_file, file_of, timed_from};
use vdr_outside::Media;
use vdr_recorder::{Recorder, Watch};

// What file the order wishes for.
fn wish_of(exporting: Exporting, from: i64) -> Wish
    ensures { result ≡ wish_of exporting from }
{
    match exporting {
        Exporting::Sound { timed: true } => Wish::Sound(timed_from(from)),
        Exporting::Sound { timed: false } => Wish::Sound(Timing::Numbered),
        Exporting::Picture { source, block } => Wish::Picture(Block {
            source,
            number: block,
        }),
    }
}

// The page of a file's lines.
fn page_of(alloc: Global, file: &[u8]) -> Reply
    ensures { IsTextOr9 (with_end (done_line ++ lines_of file.now)) result }
{
    let Ok(mut page) = Page::begin(alloc) else {
        return Reply::of_line(NO_MEMORY);
    };
    match print_lines(file, &mut page) {
        Ok(()) => page.reply(),
        Err(_) => Reply::of_line(NO_MEMORY),
    }
}

// What is sent where a file was written so.
fn of_written(alloc: Global, written: Result<(), ExportRefused>, file: &[u8]) -> Reply
    ensures { IsSent written file.now result }
{
    match written {
        Ok(()) => page_of(alloc, file),
        Err(refused) => of_refusal(refused),
    }
}

// Answers with a file of what a query selects, which is there.
fn export<M: Media, W: Watch<M>>(
    alloc: Global,
    recorder: &mut Recorder,
    media: &mut M,
    watch: &mut W,
    query: &Query,
    file: &File,
) -> Reply
    requires rings { AreRings recorder.old.vault (M.disk media.old).sizes }
    requires works { recorder.old.vault.failed ≡ false }
    requires watched { IsWatched W.hears (W.seen watch.old) recorder.old (M.disk media.old) }
    requires channel { lacks_channel (length recorder.old.vault.config.channels) query.now.channel ≡ false }
    requires incident { lacks_incident recorder.old.vault.table (asked query.now).medium ≡ false }
    ensures answered { (medium : AMedium) (name : List ℕ) (from to : ℤ) (exporting : AnExporting) (opening : Opening) (events : List Event) (t0 : ℕ)
        → AsksForFile recorder.old.vault.config.channels medium name from to exporting (asked query.now) file.now → M.tells → HasRecorded opening events t0 recorder.old (M.disk media.old)
        → HasAnswered recorder.old.vault.config.channels (Rose (sum (M.faults media.old)) (sum (M.faults media.new))) opening events t0
        (ExportOrder medium name from to exporting) result recorder.old recorder.new (M.disk media.old) (M.disk media.new) W.hears (W.seen watch.old) (W.seen watch.new) }
    ensures rest { LeavesRest recorder.old recorder.new }
    ensures rings { AreRings recorder.new.vault (M.disk media.new).sizes }
    ensures others { M.tells → SameElsewhere members (M.disk media.old).reads (M.disk media.new).reads }
    ensures sizes { (M.disk media.new).sizes ≡ (M.disk media.old).sizes }
    ensures watched { IsWatched W.hears (W.seen watch.new) recorder.new (M.disk media.new) }
    ensures cause { HasOrderCause recorder.old.vault.failed recorder.new.vault.failed (M.faults media.old) (M.faults media.new) }
{
    let mut page = Page::empty(alloc);
    let written = export_file(alloc, recorder, media, query, file, &mut page);
    recorder.look_watched(media, watch);
    of_written(alloc, written, page.as_slice())
}

/// Answers with a file, on media that have not failed. What is refused before records are read needs no memory.
pub(crate) fn answer_export<M: Media, W: Watch<M>>(
    alloc: Global,
    recorder: &mut Recorder,
    media: &mut M,
    watch: &mut W,
    wanted: Wanted<'_>,
    exporting: Exporting,
) -> Reply
    requires rings { AreRings recorder.old.vault (M.disk media.old).sizes }
    requires works { recorder.old.vault.failed ≡ false }
    requires watched { IsWatched W.hears (W.seen watch.old) recorder.old (M.disk media.old) }
    ensures answered { (opening : Opening) (events : List Event) (t0 : ℕ) → IsStamp wanted.entry.from → M.tells → HasRecorded opening events t0 recorder.old (M.disk media.old)
        → HasAnswered recorder.old.vault.config.channels (Rose (sum (M.faults media.old)) (sum (M.faults media.new))) opening events t0
        (ExportOrder wanted.entry.medium wanted.entry.name.now wanted.entry.from wanted.entry.to exporting) result recorder.old recorder.new (M.disk media.old) (M.disk media.new) W.hears (W.seen watch.old) (W.seen watch.new) }
    ensures rest { LeavesRest recorder.old recorder.new }
    ensures rings { AreRings recorder.new.vault (M.disk media.new).sizes }
    ensures others { M.tells → SameElsewhere members (M.disk media.old).reads (M.disk media.new).reads }
    ensures sizes { (M.disk media.new).sizes ≡ (M.disk media.old).sizes }
    ensures watched { IsWatched W.hears (W.seen watch.new) recorder.new (M.disk media.new) }
    ensures cause { HasOrderCause recorder.old.vault.failed recorder.new.vault.failed (M.faults media.old) (M.faults media.new) }
{
    let Some(query) = query_of(recorder, wanted) else {
        recorder.look_watched(media, watch);
        return Reply::of_line(NOT_THERE);
    };
    if !is_there(recorder, &query) {
        recorder.look_watched(media, watch);
        return Reply::of_line(NOT_THERE);
    }
    let wish = wish_of(exporting, wanted.from);
    let Some(file) = file_of(recorder.config(), query.channel, wish) else {
        recorder.look_watched(media, watch);
        return Reply::of_line(KIND);
    };
    export(alloc, recorder, media, watch, &query, &file)
}
